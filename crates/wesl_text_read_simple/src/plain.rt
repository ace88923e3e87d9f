//! Reading statements that begin with a word of their own and end with `;`.
ghost use Rattle.std.specs.Prelude.{Some, codes};
ghost use Rattle.wesl_tree_syntax.specs.Tree.{before, break, const_assert, continue, discard, end, kind, return, void};
ghost use Rattle.wesl_tree_syntax.specs.View.{attributes_tree, expression_tree, optional as option_view, statement_view};
ghost use Rattle.wesl_text_tokens.specs.declared.symbol.Symbol.TheVariants as symbols;
ghost use Rattle.wesl_text_form.specs.Productions.{a_bare_statement, an_expression, attrs, nothing, own, says, sym};
ghost use Rattle.wesl_text_read.specs.Leads.{Reads};
ghost use Rattle.wesl_text_read.specs.Levels.{inner};
ghost use Rattle.wesl_text_read.specs.Parts.{may_at};
ghost use Rattle.wesl_text_read_simple.specs.Parts.{ReadsParts};
ghost use Rattle.wesl_text_read_simple.specs.Starts.{StatementBegins};

use crate::assertion::read_assertion;
use wesl_text_read::{Reader, Within};
use wesl_text_read_ahead::skip_word;
use wesl_text_tokens::Symbol;
use wesl_tree_syntax::{Attributes, ExpressionNode, Statement};

/// An expression, where one begins.
pub fn optional_expression(reader: &mut Reader<'_>) -> Option<ExpressionNode>
    ensures { Reads (may_at reader.old.levels (own an_expression nothing))
        (option_view expression_tree result) reader.old reader.new }
{
    if !reader.begins_expression() {
        return None;
    }
    Some(reader.expression(Within::Anything))
}

// The attributes of a statement that is one word, with the word and `;`.
fn one_word(reader: &mut Reader<'_>, word: &str) -> Attributes
    ensures { ReadsParts (attrs (says word.now (sym symbols.Semicolon nothing)))
        (before (attributes_tree result) end) reader.old reader.new }
{
    let attributes = reader.attributes();
    skip_word(reader, word);
    reader.skip_sign(Symbol::Semicolon);
    attributes
}

/// `;` alone.
pub fn read_void(reader: &mut Reader<'_>) -> Statement
    requires { StatementBegins (Some (kind void)) reader.old }
    ensures { Reads (inner reader.old.levels a_bare_statement) (statement_view result) reader.old reader.new }
{
    reader.skip_sign(Symbol::Semicolon);
    Statement::Void
}

/// An assertion in a function.
pub fn read_local_assertion(reader: &mut Reader<'_>) -> Statement
    requires { StatementBegins (Some (kind const_assert)) reader.old }
    ensures { Reads (inner reader.old.levels a_bare_statement) (statement_view result) reader.old reader.new }
{
    Statement::ConstAssert(read_assertion(reader))
}

/// `break;`.
pub fn read_break(reader: &mut Reader<'_>) -> Statement
    requires { StatementBegins (Some (kind break)) reader.old }
    ensures { Reads (inner reader.old.levels a_bare_statement) (statement_view result) reader.old reader.new }
{
    let attributes = one_word(reader, "break");
    Statement::Break { attributes }
}

/// `continue;`.
pub fn read_continue(reader: &mut Reader<'_>) -> Statement
    requires { StatementBegins (Some (kind continue)) reader.old }
    ensures { Reads (inner reader.old.levels a_bare_statement) (statement_view result) reader.old reader.new }
{
    let attributes = one_word(reader, "continue");
    Statement::Continue { attributes }
}

/// `discard;`.
pub fn read_discard(reader: &mut Reader<'_>) -> Statement
    requires { StatementBegins (Some (kind discard)) reader.old }
    ensures { Reads (inner reader.old.levels a_bare_statement) (statement_view result) reader.old reader.new }
{
    let attributes = one_word(reader, "discard");
    Statement::Discard { attributes }
}

/// `return;`, or with a value before the `;`.
pub fn read_return(reader: &mut Reader<'_>) -> Statement
    requires { StatementBegins (Some (kind return)) reader.old }
    ensures { Reads (inner reader.old.levels a_bare_statement) (statement_view result) reader.old reader.new }
{
    let attributes = reader.attributes();
    skip_word(reader, "return");
    let expression = optional_expression(reader);
    reader.skip_sign(Symbol::Semicolon);
    Statement::Return {
        attributes,
        expression,
    }
}
