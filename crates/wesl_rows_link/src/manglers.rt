//! Manglers: names of items, names that are read, and names of variants.
ghost use Rattle.std.specs.Prelude.{◌≡◌, ◌<◌, ℕ, true, IfOk};
ghost use Rattle.wesl_tree_syntax.specs.Tree.{tree_below};
ghost use Rattle.wesl_tree_syntax.specs.View.{expression_view, type_view};

use serde_json::Value;
use std::alloc::AllocError;
use std::slice::from_ref;
use wesl_mangle::{
    CacheMangler, EscapeMangler, HashMangler, Mangler, NoMangler, PathHash, UnicodeMangler,
};
use wesl_rows_base::{Object, Row, is_refused, item_value, stands, text_of};
use wesl_tree::{
    BinaryOperator, Expression, ExpressionNode, Ident, Literal, ModulePath, Names, Span, Spanned,
    TemplateArg, TypeExpression,
};

/// The same number for each item.
#[derive(Drop)]
struct Always(u64);

impl PathHash for Always {
    ghost hash_of = { λ s p i. s.0 };

    fn hash(&self, _: &ModulePath, _: &str) -> u64 {
        self.0
    }
}

/// The name that a mangler gives to the item of a row.
pub fn named<M: Mangler>(row: Row<'_>, mangler: &mut M) -> Value {
    row.printed(mangler.mangle(row.alloc, &row.path("path"), row.text("item")))
}

/// The path and the item that a mangler reads a name as, null where it reads none.
pub fn read<M: Mangler>(row: Row<'_>, mangler: &M, name: &str) -> Value {
    match &row.or(mangler.unmangle(row.alloc, name), None) {
        Some((path, item)) => item_value(row, path, item.as_str()),
        None => Value::Null,
    }
}

/// The name that a mangler of numbers gives to the item of a row, whose number is that of the row.
pub fn numbered(row: Row<'_>) -> Value {
    let number = row.number("number", 0) as u64;
    named(row, &mut HashMangler::new(Always(number)))
}

/// What a mangler of numbers, whose number of each item is 7, reads the name of a row as.
pub fn read_by_numbers(row: Row<'_>) -> Value {
    read(row, &HashMangler::new(Always(7)), row.text("name"))
}

/// What a mangler with a record reads the name of a row as, after it gave names to the items of the row.
pub fn remembered(row: Row<'_>) -> Value {
    let mut mangler = CacheMangler::new(row.alloc, NoMangler);
    for item in row.list("given") {
        let _ = named(row.of(item), &mut mangler);
    }
    read(row, &mangler, row.text("name"))
}

/// What a mangler with a record reads the `item` as, when it named the item of the paths `given`, and `then` of one more.
pub fn remembered_or_left(row: Row<'_>) -> Value {
    let item = row.text("item");
    let mut mangler = CacheMangler::new(row.alloc, NoMangler);
    for text in row.list("given") {
        let path = row.path_of(text_of(text));
        row.refused_if(is_refused(mangler.mangle(row.alloc, &path, item)));
    }
    let last = row.path("then");
    let is_refused = is_refused(mangler.mangle(row.alloc, &last, item));
    stands(row, is_refused, read(row, &mangler, item))
}

fn placed(node: Expression) -> ExpressionNode
    ensures { result.node ≡ node }
{
    Spanned {
        node,
        span: Span { start: 0, end: 0 },
    }
}

/// The size that a text writes.
fn literal(row: Row<'_>, text: &str) -> Expression
    ensures { tree_below 2 (expression_view result) ≡ true }
{
    Expression::Literal(Literal::Text(row.copy_of(text)))
}

fn plain_type(number: usize) -> TypeExpression
    ensures { (n : ℕ) → number < n → tree_below n (type_view result) ≡ true }
{
    TypeExpression {
        path: None,
        ident: Ident(number),
        template_args: None,
    }
}

/// `array<f32, size>`, where `array` has the number 0 and `f32` the number 1, or `array` where memory is wanting.
fn array_of(row: Row<'_>, size: Expression) -> TypeExpression
    requires below { tree_below 2 (expression_view size) ≡ true }
    ensures below { tree_below 2 (type_view result) ≡ true }
{
    let element = TemplateArg {
        expression: placed(Expression::TypeOrIdentifier(plain_type(1))),
    };
    let size = TemplateArg {
        expression: placed(size),
    };
    match vec![in row.alloc; element, size] {
        Ok(arguments) => TypeExpression {
            path: None,
            ident: Ident(0),
            template_args: Some(arguments),
        },
        Err(_) => {
            row.refused_if(true);
            plain_type(0)
        }
    }
}

/// The sum of two numbers, as `1 + 1`.
fn sum(row: Row<'_>, left: &str, right: &str) -> Result<Expression, AllocError>
    ensures { IfOk result (λ sum. tree_below 2 (expression_view sum) ≡ true) }
{
    Ok(Expression::Binary {
        operator: BinaryOperator::Addition,
        left: Box::new(row.alloc, placed(literal(row, left)))?,
        right: Box::new(row.alloc, placed(literal(row, right)))?,
    })
}

/// The name in Unicode form of the first variant of `f`, for the type `array<f32, size>`.
fn variant_of_f(row: Row<'_>, size: Expression) -> Value
    requires below { tree_below 2 (expression_view size) ≡ true }
{
    let mut names = Names::new(row.alloc);
    row.refused_if(is_refused(names.add("array")));
    row.refused_if(is_refused(names.add("f32")));
    let array = array_of(row, size);
    if names.len() == 2 {
        match row.told(UnicodeMangler.mangle_types(row.alloc, &names, "f", 1, from_ref(&array))) {
            Ok(name) => Value::String(name),
            Err(fault) => fault,
        }
    } else {
        Value::Null
    }
}

/// The name of a variant whose types are written, for the size of a row, which is a number or a sum of two.
pub fn written_variant(row: Row<'_>) -> Value {
    match row.list("array_of_f32_of_size") {
        [Value::String(number)] => variant_of_f(row, literal(row, number.as_str())),
        [Value::String(left), Value::String(right)] => {
            match sum(row, left.as_str(), right.as_str()) {
                Ok(sum) => variant_of_f(row, sum),
                Err(_) => {
                    row.refused_if(true);
                    Value::Null
                }
            }
        }
        _ => row.text_value("no such size"),
    }
}

/// The name that a mangler gives to the variant of a row's `number` of its item, without types.
pub fn variant<M: Mangler>(row: Row<'_>, mangler: &M) -> Value {
    let number = u32::try_from(row.number("number", 0)).unwrap_or(0);
    let names = Names::new(row.alloc);
    row.printed(mangler.mangle_types(row.alloc, &names, row.text("item"), number, &[]))
}

/// The same of a mangler of numbers, whose number of each item is 7.
pub fn variant_of_numbers(row: Row<'_>) -> Value {
    variant(row, &HashMangler::new(Always(7)))
}

/// The same of a mangler with a record, of one that writes types.
pub fn variant_of_record(row: Row<'_>) -> Value {
    variant(row, &CacheMangler::new(row.alloc, UnicodeMangler))
}

/// The name that a mangler gives to the item of a row, what it reads that name as, and the name of a variant of the item.
fn answers<M: Mangler>(row: Row<'_>, mangler: &mut M) -> Value {
    let path = row.path("path");
    let name = row.or(
        mangler.mangle(row.alloc, &path, row.text("item")),
        String::new(row.alloc),
    );
    let mut answer = Object::new(row.alloc);
    answer.put("read", read(row, mangler, name.as_str()));
    answer.put("variant", variant(row, mangler));
    answer.put("name", Value::String(name));
    answer.end(row)
}

/// What a mangler in a box answers, one with a record, which names an item by itself.
pub fn boxed_mangler(row: Row<'_>) -> Value {
    match row.boxed(CacheMangler::new(row.alloc, NoMangler)) {
        Some(mangler) => {
            let mut mangler = mangler;
            answers(row, &mut mangler)
        }
        None => Value::Null,
    }
}

/// What such a mangler answers where it is lent, and what it reads the item as when it is given back.
pub fn lent_mangler(row: Row<'_>) -> Value {
    let mut mangler = CacheMangler::new(row.alloc, NoMangler);
    let mut lent = &mut mangler;
    let answers = answers(row, &mut lent);
    let mut answer = Object::new(row.alloc);
    answer.put("lent", answers);
    answer.put("given_back", read(row, &mangler, row.text("item")));
    answer.end(row)
}

/// Whether the escape form of the item of a row is read back.
pub fn reversible(row: Row<'_>) -> Value {
    Value::Bool(EscapeMangler.is_reversible(&row.path("path"), row.text("item")))
}
