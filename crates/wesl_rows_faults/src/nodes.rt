//! Nodes that no JSON form has: with spans, and with identifiers without a name.
use crate::deep::placed;
use serde_json::Value;
use std::alloc::Global;
use wesl_rows_base::{Object, Row};
use wesl_tree::{Ident, Span, TranslationUnit};
use wesl_tree_copies::TryClone;
use wesl_tree_syntax::{
    Declaration, DeclarationKind, Expression, GlobalDeclaration, Spanned, Statement, StatementNode,
    TypeExpression, law_of_equality,
};

/// `break;` at a place
fn leaving(alloc: Global, start: u32) -> StatementNode {
    Spanned {
        node: Statement::Break {
            attributes: Vec::new(alloc),
        },
        span: Span { start, end: 9 },
    }
}

/// Whether a copy of `break;` has its span and is equal to it, and whether `break;` elsewhere is equal too.
pub fn copied(row: Row<'_>) -> Value {
    let alloc = row.alloc;
    let node = leaving(alloc, 5);
    let copy = row.or(node.try_clone(alloc), leaving(alloc, 5));
    let mut answer = Object::new(alloc);
    answer.flag("equal", copy == node);
    answer.flag(
        "equal_elsewhere",
        law_of_equality(&copy, &leaving(alloc, 6)),
    );
    answer.flag("same_span", copy.span == node.span);
    answer.end(row)
}

/// Whether `const declared = used;` with the numbers of a row is a unit over its names, where each has a name.
pub fn made(row: Row<'_>) -> Value {
    let alloc = row.alloc;
    let used = placed(Expression::TypeOrIdentifier(TypeExpression {
        path: None,
        ident: Ident(row.number("used", 0)),
        template_args: None,
    }));
    let constant = GlobalDeclaration::Declaration(Declaration {
        attributes: Vec::new(alloc),
        kind: DeclarationKind::Const,
        ident: Ident(row.number("declared", 0)),
        ty: None,
        initializer: Some(used),
    });
    let declarations = row.one(placed(constant));
    let names = row.names("names");
    let unit = TranslationUnit::from_parts(names, Vec::new(alloc), Vec::new(alloc), declarations);
    row.text_value(if unit.is_some() { "a unit" } else { "none" })
}

/// The span of the first byte `start` of a row, and of the byte `end` after the last one.
fn span(row: Row<'_>) -> Span {
    Span {
        start: u32::try_from(row.number("start", 0)).unwrap_or(0),
        end: u32::try_from(row.number("end", 0)).unwrap_or(0),
    }
}

/// Whether the spans `one` and `other` of a row are equal.
pub fn spans_are_equal(row: Row<'_>) -> Value {
    Value::Bool(span(row.part("one")) == span(row.part("other")))
}
