//! Reading the values of `case` and the condition of `break if` (WGSL, "Switch Statement" and "Break-If Statement").
ghost use Rattle.std.specs.Prelude.{◌≡◌, codes};
ghost use Rattle.wesl_json_form.specs.View.{borrowed_view};
ghost use Rattle.wesl_tree_syntax.specs.Tree.{list};
ghost use Rattle.wesl_tree_syntax.specs.View.{break_if_view, listed, optional as option_view, selector_view};
ghost use Rattle.wesl_json_form.specs.Schema.{a_break_if, a_case, node as node_form};
ghost use Rattle.wesl_json_read.specs.Noted.{NotesForm, NotesMany, NotesMay};
ghost use Rattle.wesl_json_read_statements.specs.Forms.{has_default, some_cases};

use wesl_json_form::BorrowedValue;
use wesl_json_read::Reader;
use wesl_tree_syntax::{BreakIfStatement, CaseSelector};

/// The values at `cases`, a list.
pub(crate) fn cases(reader: &mut Reader, value: &BorrowedValue<'_>) -> Vec<CaseSelector>
    ensures { NotesMany (codes "cases") some_cases (borrowed_view value.now) (listed selector_view list result) reader.old reader.new }
{
    let Some(items) = reader.list(value, "cases") else {
        return Vec::new(reader.alloc);
    };
    let mut cases = reader.room(items.len());
    for (index, item) in items.iter().enumerate() {
        if !reader.is_stopped() {
            let case = case(reader, item);
            reader.put(&mut cases, index, case);
        }
    }
    reader.within("cases");
    cases
}

// `default` by its word, or an expression.
fn case(reader: &mut Reader, value: &BorrowedValue<'_>) -> CaseSelector
    ensures { NotesForm (node_form a_case) (borrowed_view value.now) (selector_view result) reader.old reader.new }
{
    if is_default(value) {
        reader.keys(value, false, &["k"]);
        CaseSelector::Default
    } else {
        CaseSelector::Expression(reader.expression(value))
    }
}

fn is_default(value: &BorrowedValue<'_>) -> bool
    ensures { result ≡ has_default (borrowed_view value.now) }
{
    match value.get("k") {
        Some(word) => match word.as_str() {
            Some(text) => text == "default",
            None => false,
        },
        None => false,
    }
}

/// What stands at `break_if`, an option.
pub(crate) fn break_if(reader: &mut Reader, value: &BorrowedValue<'_>) -> Option<BreakIfStatement>
    ensures { NotesMay (codes "break_if") (node_form a_break_if) (borrowed_view value.now) (option_view break_if_view result) reader.old reader.new }
{
    let Some(member) = reader.optional(value, "break_if") else {
        return None;
    };
    reader.keys(member, false, &["attrs", "expr"]);
    let attributes = reader.attributes(member, "attrs");
    let expression = reader.expression_at(member, "expr");
    reader.within("break_if");
    Some(BreakIfStatement {
        attributes,
        expression,
    })
}
