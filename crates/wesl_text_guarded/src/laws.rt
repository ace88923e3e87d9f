//! What is promised of the parentheses that are put.
ghost use Rattle.std.specs.Prelude.{◌≡◌, true};
ghost use Rattle.wesl_text_form.specs.Says.{IsWritable, TextSays};
ghost use Rattle.wesl_text_guarded.specs.Guarded.{guarded};
ghost use Rattle.wesl_tree_names.specs.Path.{Text};
ghost use Rattle.wesl_tree_syntax.specs.Unit.{UnitOf};

use wesl_text::laws::law_of_writing;

/// A unit that a text says gets no parentheses: one that can be printed, and so one that was read.
pub fn law_of_guarding()
    ensures writable { (u : UnitOf Text) → IsWritable u ≡ true → guarded u ≡ u }
    ensures said { (t : Text) (u : UnitOf Text) → TextSays t u → guarded u ≡ u }
{
    law_of_writing();
}
