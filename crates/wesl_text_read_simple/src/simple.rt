//! Reading statements that end with `;`.
ghost use Rattle.wesl_tree_syntax.specs.View.{statement_view};
ghost use Rattle.wesl_text_form.specs.Productions.{a_bare_statement};
ghost use Rattle.wesl_text_read.specs.Leads.{Reads};
ghost use Rattle.wesl_text_read.specs.Levels.{inner};
ghost use Rattle.wesl_text_read_simple.specs.Starts.{StatementBegins, part_label, simple_label};

use crate::part::read_unended;
use crate::plain::{
    read_break, read_continue, read_discard, read_local_assertion, read_return, read_void,
};
use crate::starts::{PartStart, SimpleStart};
use wesl_text_read::Reader;
use wesl_text_tokens::Symbol;
use wesl_tree_syntax::Statement;

// A statement that may be a part of a `for`, with its `;`.
fn read_ended(reader: &mut Reader<'_>, start: PartStart) -> Statement
    requires { StatementBegins (part_label start) reader.old }
    ensures { Reads (inner reader.old.levels a_bare_statement) (statement_view result) reader.old reader.new }
{
    let statement = read_unended(reader, start);
    reader.skip_sign(Symbol::Semicolon);
    statement
}

/// A statement that ends with `;`, by what it begins with.
pub fn read_simple(reader: &mut Reader<'_>, start: SimpleStart) -> Statement
    requires { StatementBegins (simple_label start) reader.old }
    ensures { Reads (inner reader.old.levels a_bare_statement) (statement_view result) reader.old reader.new }
{
    match start {
        SimpleStart::Part(start) => read_ended(reader, start),
        SimpleStart::Void => read_void(reader),
        SimpleStart::ConstAssert => read_local_assertion(reader),
        SimpleStart::Break => read_break(reader),
        SimpleStart::Continue => read_continue(reader),
        SimpleStart::Discard => read_discard(reader),
        SimpleStart::Return => read_return(reader),
    }
}
