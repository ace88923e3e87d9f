//! Reading the parts of `for`: statements without the `;` that they end with.
ghost use Rattle.wesl_tree_syntax.specs.View.{statement_tree, statement_view};
ghost use Rattle.wesl_text_form.specs.Productions.{a_statement};
ghost use Rattle.wesl_text_reading.specs.Reading.{read_part};
ghost use Rattle.wesl_text_read.specs.Leads.{Reads};
ghost use Rattle.wesl_text_read.specs.Levels.{inner};
ghost use Rattle.wesl_text_read_simple.specs.Simple.{unended_at};
ghost use Rattle.wesl_text_read_simple.specs.Starts.{StatementBegins, part_label};

use crate::expressed::{read_discarded, read_expressed};
use crate::starts::{PartStart, part_start, statement_start};
use crate::variable::read_local_variable;
use wesl_text_read::{Expected, Reader};
use wesl_text_read_ahead::behind_attributes;
use wesl_tree_syntax::{Statement, StatementNode};

/// A statement without the `;` that it ends with.
pub fn read_unended(reader: &mut Reader<'_>, start: PartStart) -> Statement
    requires { StatementBegins (part_label start) reader.old }
    ensures { Reads (unended_at reader.old.levels) (statement_view result) reader.old reader.new }
{
    match start {
        PartStart::Declaration => Statement::Declaration(read_local_variable(reader)),
        PartStart::Wildcard => read_discarded(reader),
        PartStart::Expression => read_expressed(reader),
    }
}

// The same, where it is looked at what the statement begins with.
fn read_bare_part(reader: &mut Reader<'_>) -> Statement
    ensures { Reads (unended_at reader.old.levels) (statement_view result) reader.old reader.new }
{
    let behind = behind_attributes(reader);
    match part_start(statement_start(behind)) {
        Some(start) => read_unended(reader, start),
        None => {
            reader.wrong(Expected::ForPart);
            Statement::Void
        }
    }
}

/// A part of a `for`: a statement without the `;` that it ends with, with its span.
pub fn read_part(reader: &mut Reader<'_>) -> StatementNode
    ensures { Reads (read_part (inner reader.old.levels) a_statement) (statement_tree result) reader.old reader.new }
{
    let start = reader.place();
    let node = read_bare_part(reader);
    reader.placed(start, node)
}
