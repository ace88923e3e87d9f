//! What is promised of parentheses.
ghost use Rattle.wesl_text_guard.specs.Laws.{OperationsHaveTexts, PartsHaveTexts};

/// With the parentheses of operands an operation has a text exactly where its operands have.
pub fn law_of_operands()
    ensures operations { OperationsHaveTexts }
    ensures parts { PartsHaveTexts }
{}
