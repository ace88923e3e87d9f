//! What is promised of what features leave.
ghost use Rattle.wesl_text_left.specs.Laws.{LeftFormulas, LeftAttributes, LeftNodes, LeftLists};

/// What features leave of a formula that can be printed, and in which no fault stands, can be printed: it needs no parentheses
/// that are gone. It speaks of `eval_attr`.
pub fn law_of_left_formulas()
    ensures left_formulas { LeftFormulas }
{}

/// What features leave of the attributes of a node that can be printed, and in whose conditions no fault stands, can be printed; and
/// so can what they leave of the node, but for a statement that assigns: it can exactly where its attributes still end where its
/// target begins. So of a list of such nodes: those that are left can be printed exactly where the attributes of each do.
pub fn law_of_left_nodes()
    ensures left_attributes { LeftAttributes }
    ensures left_nodes { LeftNodes }
    ensures left_lists { LeftLists }
{}
