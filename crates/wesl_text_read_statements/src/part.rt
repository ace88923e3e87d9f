//! Reading parts of statements in which no body stands.
ghost use Rattle.wesl_tree_syntax.specs.View.{break_if_view, optional as option_view};
ghost use Rattle.wesl_text_form.specs.Productions.{a_break_if, a_statement, nothing, own, unended};
ghost use Rattle.wesl_text_read.specs.Leads.{Reads};
ghost use Rattle.wesl_text_read.specs.Levels.{inner};
ghost use Rattle.wesl_text_read.specs.Parts.{may_at};
ghost use Rattle.wesl_text_read_statements.specs.Statements.{boxed_statement};

use crate::behind::{begins_break_if, begins_part};
use wesl_text_read::{Reader, Within};
use wesl_text_read_ahead::skip_word;
use wesl_text_read_simple::read_part;
use wesl_text_tokens::Symbol;
use wesl_tree_syntax::{BreakIfStatement, StatementNode};

/// A statement of `for` without its `;`, where one stands; none where memory is refused for it.
pub fn optional_part(reader: &mut Reader<'_>) -> Option<Box<StatementNode>>
    ensures { Reads (may_at reader.old.levels (unended a_statement nothing))
        (option_view boxed_statement result) reader.old reader.new }
{
    if !begins_part(reader) {
        return None;
    }
    let part = read_part(reader);
    reader.boxed(part)
}

/// `break if` with its condition, where it stands.
pub fn optional_break_if(reader: &mut Reader<'_>) -> Option<BreakIfStatement>
    ensures { Reads (may_at reader.old.levels (own a_break_if nothing))
        (option_view break_if_view result) reader.old reader.new }
{
    if !begins_break_if(reader) {
        return None;
    }
    Some(break_if(reader))
}

// `break if`, from its attributes on.
fn break_if(reader: &mut Reader<'_>) -> BreakIfStatement
    ensures { Reads (inner reader.old.levels a_break_if) (break_if_view result) reader.old reader.new }
{
    let attributes = reader.attributes();
    skip_word(reader, "break");
    skip_word(reader, "if");
    let expression = reader.expression(Within::Anything);
    reader.skip_sign(Symbol::Semicolon);
    BreakIfStatement {
        attributes,
        expression,
    }
}
