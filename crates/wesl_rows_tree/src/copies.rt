//! Copies and equality of units and of lists of nodes.
use crate::units::numbered;
use serde_json::Value;
use wesl_rows_base::{Object, Row};
use wesl_tree::{Expression, GlobalDeclaration, TranslationUnit};
use wesl_tree_copies::Copying;

/// Which lists of two units are equal, and whether the units have the same spelling.
fn lists_compared(row: Row<'_>, first: &TranslationUnit, second: &TranslationUnit) -> Value {
    let mut answer = Object::new(row.alloc);
    answer.flag(
        "same_declarations",
        first.global_declarations() == second.global_declarations(),
    );
    answer.flag(
        "same_directives",
        first.global_directives() == second.global_directives(),
    );
    answer.flag("same_imports", first.imports() == second.imports());
    answer.flag("same_spelling", first.same_spelling(second));
    answer.end(row)
}

/// Whether the units `first` and `second`, each with numbers or without, have the same spelling, or the same places, or
/// which of their lists are equal.
pub fn compared(row: Row<'_>) -> Value {
    let first = row.made(numbered(row.part("first")));
    let second = row.made(numbered(row.part("second")));
    match row.text("call") {
        "TranslationUnit::same_spelling" => Value::Bool(first.same_spelling(&second)),
        "TranslationUnit::same_spans" => Value::Bool(first.same_spans(&second)),
        _ => lists_compared(row, &first, &second),
    }
}

/// Whether a copy of the unit of the `tree` is equal to it, part by part.
pub fn unit_copied(row: Row<'_>) -> Value {
    let unit = row.tree();
    let copy = row.unit_or_none(unit.try_clone(row.alloc));
    lists_compared(row, &copy, &unit)
}

/// How many declarations of the `tree` have lists whose copies are equal to them: functions with their attributes and
/// statements, and assertions of a call with its arguments.
pub fn lists_copied(row: Row<'_>) -> Value {
    let unit = row.tree();
    let mut equal: usize = 0;
    for declaration in unit.global_declarations() {
        let mut copying = Copying::of(row.alloc);
        let is_equal = match &declaration.node {
            GlobalDeclaration::Function(function) => {
                let statements = &function.body.statements;
                copying.attributes(&function.attributes) == function.attributes
                    && copying.statements(statements) == *statements
            }
            GlobalDeclaration::ConstAssert(assertion) => match &assertion.expression.node {
                Expression::FunctionCall(call) => copying.nodes(&call.arguments) == call.arguments,
                _ => false,
            },
            _ => false,
        };
        row.done(copying.end(()));
        if is_equal {
            equal = equal.wrapping_add(1);
        }
    }
    Value::from(equal)
}
