//! Reading assertions.
ghost use Rattle.std.specs.Prelude.{Some};
ghost use Rattle.wesl_tree_syntax.specs.Tree.{const_assert, kind};
ghost use Rattle.wesl_tree_syntax.specs.View.{assert_view};
ghost use Rattle.wesl_text_form.specs.Productions.{a_bare_declaration};
ghost use Rattle.wesl_text_read.specs.Leads.{Reads};
ghost use Rattle.wesl_text_read.specs.Levels.{inner};
ghost use Rattle.wesl_text_read_simple.specs.Parts.{ReadsParts, assertion_row};
ghost use Rattle.wesl_text_read_simple.specs.Starts.{DeclarationBegins};

use wesl_text_read::{Reader, Within};
use wesl_text_read_ahead::skip_word;
use wesl_text_tokens::Symbol;
use wesl_tree_syntax::ConstAssert;

/// An assertion, in a function or outside.
pub fn read_assertion(reader: &mut Reader<'_>) -> ConstAssert
    ensures { ReadsParts assertion_row (assert_view result).children reader.old reader.new }
{
    let attributes = reader.attributes();
    skip_word(reader, "const_assert");
    let expression = reader.expression(Within::Anything);
    reader.skip_sign(Symbol::Semicolon);
    ConstAssert {
        attributes,
        expression,
    }
}

/// An assertion outside of functions.
pub fn read_global_assertion(reader: &mut Reader<'_>) -> ConstAssert
    requires { DeclarationBegins (Some (kind const_assert)) reader.old }
    ensures { Reads (inner reader.old.levels a_bare_declaration) (assert_view result) reader.old reader.new }
{
    read_assertion(reader)
}
