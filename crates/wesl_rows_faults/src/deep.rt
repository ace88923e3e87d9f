//! Deep units, made through the library: no JSON that is read is as deep.
use serde_json::Value;
use wesl_cond::{Feature, Features, run};
use wesl_rows_base::{Row, is_refused, printed};
use wesl_scope::{SyntaxUtil, names_clash, strip_except};
use wesl_tree::{
    Attribute, CompoundStatement, ConstAssert, Expression, ExpressionNode, Function,
    GlobalDeclaration, Ident, Literal, Names, Span, Spanned, Statement, TranslationUnit,
    TypeExpression, UnaryOperator,
};

/// A node at the beginning.
pub fn placed<T>(node: T) -> Spanned<T> {
    Spanned {
        node,
        span: Span { start: 0, end: 0 },
    }
}

/// The second name.
fn name() -> ExpressionNode {
    placed(Expression::TypeOrIdentifier(TypeExpression {
        path: None,
        ident: Ident(1),
        template_args: None,
    }))
}

/// An expression within so many negations, or within so many parentheses.
fn within(row: Row<'_>, inner: ExpressionNode, levels: usize, negates: bool) -> ExpressionNode {
    let mut expression = inner;
    for _ in 0..levels {
        expression = match row.boxed(expression) {
            Some(operand) if negates => placed(Expression::Unary {
                operator: UnaryOperator::LogicalNegation,
                operand,
            }),
            Some(expression) => placed(Expression::Parenthesized { expression }),
            None => name(),
        };
    }
    expression
}

/// `{ { { return ((x)); } } }` with so many `parentheses` and `blocks`.
fn body(row: Row<'_>, parentheses: usize) -> CompoundStatement {
    let alloc = row.alloc;
    let mut statement = placed(Statement::Return {
        attributes: Vec::new(alloc),
        expression: Some(within(row, name(), parentheses, false)),
    });
    for _ in 0..row.number("blocks", 0) {
        statement = placed(Statement::Compound(CompoundStatement {
            attributes: Vec::new(alloc),
            statements: row.one(statement),
        }));
    }
    CompoundStatement {
        attributes: Vec::new(alloc),
        statements: row.one(statement),
    }
}

/// The unit of one declaration over the names `f` and `x`.
fn unit_of(row: Row<'_>, declaration: GlobalDeclaration) -> TranslationUnit {
    let alloc = row.alloc;
    let mut names = Names::new(alloc);
    row.refused_if(is_refused(names.add("f")));
    row.refused_if(is_refused(names.add("x")));
    row.made(TranslationUnit::from_parts(
        names,
        Vec::new(alloc),
        Vec::new(alloc),
        row.one(placed(declaration)),
    ))
}

/// `@if(!!x) fn f() { { { return ((x)); } } }` with so many negations and `parentheses`, and so many `blocks`.
fn deep(row: Row<'_>) -> TranslationUnit {
    let levels = row.number("parentheses", 0);
    let condition = Attribute::If(within(row, name(), levels, true));
    let function = GlobalDeclaration::Function(Function {
        attributes: row.one(placed(condition)),
        ident: Ident(0),
        parameters: Vec::new(row.alloc),
        return_attributes: Vec::new(row.alloc),
        return_type: None,
        body: body(row, levels),
    });
    unit_of(row, function)
}

/// What is printed of the assertion of `true` within so many parentheses (`levels`), and how it is read.
pub fn parentheses_printed(row: Row<'_>) -> Value {
    let literal = placed(Expression::Literal(Literal::Bool(true)));
    let assertion = GlobalDeclaration::ConstAssert(ConstAssert {
        attributes: Vec::new(row.alloc),
        expression: within(row, literal, row.number("levels", 0), false),
    });
    printed(row, &unit_of(row, assertion))
}

/// Whether a call does to a deep unit what it should: a copy has its spelling, numbering leaves it, and so do stripping
/// it of nothing and a run that keeps every condition; its names do not clash, and what is written of it is an object.
pub fn is_right(row: Row<'_>, call: &str) -> bool {
    let alloc = row.alloc;
    let mut unit = deep(row);
    match call {
        "TranslationUnit::try_clone of a deep unit" => {
            row.unit_or_none(unit.try_clone(alloc)).same_spelling(&unit)
        }
        "SyntaxUtil::retarget_idents of a deep unit" => {
            row.done(unit.retarget_idents(alloc));
            unit.same_spelling(&deep(row))
        }
        "strip_except of a deep unit" => {
            row.done(strip_except(alloc, &mut unit, &["f"]));
            unit.same_spelling(&deep(row))
        }
        "wesl_cond::run of a deep unit" => {
            let mut features = Features::new(alloc);
            features.default = Feature::Keep;
            !is_refused(run(alloc, &mut unit, &features)) && unit.same_spelling(&deep(row))
        }
        "names_clash of a deep unit" => !row.is(names_clash(alloc, &unit)),
        "value_of_unit of a deep unit" => row.tree_of(&unit).is_object(),
        _ => {
            row.wrong("no such row");
            false
        }
    }
}
