//! The conditions of imports and declarations, as they are written.

use std::alloc::{AllocError, Global};
use wesl_cond_choices::place::Place;
use wesl_explain_places::ReadModule;
use wesl_link_tables::numbers::spelling;
use wesl_tree::{
    Attribute, AttributeNode, BinaryOperator, Expression, ExpressionNode, GlobalDeclaration,
    Literal, Names, UnaryOperator,
};

/// An operator between conditions.
fn operator_text(operator: BinaryOperator) -> &'static str {
    match operator {
        BinaryOperator::ShortCircuitAnd => " && ",
        BinaryOperator::ShortCircuitOr => " || ",
        _ => " .. ",
    }
}

/// Writes a condition; what stands for no condition is left out.
fn push_formula(
    out: &mut String,
    names: &Names,
    formula: &ExpressionNode,
) -> Result<(), AllocError> {
    match &formula.node {
        Expression::Literal(Literal::Bool(true)) => out.push_str("true"),
        Expression::Literal(Literal::Bool(false)) => out.push_str("false"),
        Expression::Parenthesized { expression } => {
            out.push_str("(")?;
            push_formula(out, names, expression)?;
            out.push_str(")")
        }
        Expression::Unary {
            operator: UnaryOperator::LogicalNegation,
            operand,
        } => {
            out.push_str("!")?;
            push_formula(out, names, operand)
        }
        Expression::Binary {
            operator,
            left,
            right,
        } => {
            push_formula(out, names, left)?;
            out.push_str(operator_text(*operator))?;
            push_formula(out, names, right)
        }
        Expression::TypeOrIdentifier(ty) => out.push_str(spelling(names, ty.ident)),
        _ => out.push_str(".."),
    }
}

/// A condition with its word, as it is written.
fn condition_text(
    alloc: Global,
    names: &Names,
    word: &str,
    formula: &ExpressionNode,
) -> Result<String, AllocError> {
    let mut text = String::from_str(alloc, word)?;
    text.push_str("(")?;
    push_formula(&mut text, names, formula)?;
    text.push_str(")")?;
    Ok(text)
}

/// An attribute as it is written, where it is a condition.
fn attribute_text(
    alloc: Global,
    names: &Names,
    attribute: &Attribute,
) -> Result<Option<String>, AllocError> {
    match attribute {
        Attribute::If(formula) => Ok(Some(condition_text(alloc, names, "@if", formula)?)),
        Attribute::Elif(formula) => Ok(Some(condition_text(alloc, names, "@elif", formula)?)),
        Attribute::Else => Ok(Some(String::from_str(alloc, "@else")?)),
        _ => Ok(None),
    }
}

/// The first of these attributes that is a condition, as it is written.
fn condition_in(
    alloc: Global,
    names: &Names,
    attributes: &[AttributeNode],
) -> Result<Option<String>, AllocError> {
    for attribute in attributes {
        let text = attribute_text(alloc, names, &attribute.node)?;
        if text.is_some() {
            return Ok(text);
        }
    }
    Ok(None)
}

/// The attributes of a declaration.
fn attributes_of(node: &GlobalDeclaration) -> &[AttributeNode] {
    match node {
        GlobalDeclaration::Void => &[],
        GlobalDeclaration::Declaration(declaration) => &declaration.attributes,
        GlobalDeclaration::TypeAlias(alias) => &alias.attributes,
        GlobalDeclaration::Struct(structure) => &structure.attributes,
        GlobalDeclaration::Function(function) => &function.attributes,
        GlobalDeclaration::ConstAssert(assertion) => &assertion.attributes,
    }
}

/// The condition of the declaration with a number.
fn declaration_condition(
    alloc: Global,
    module: &ReadModule,
    index: usize,
) -> Result<Option<String>, AllocError> {
    match module.unit.global_declarations().get(index) {
        Some(node) => condition_in(alloc, module.unit.names(), attributes_of(&node.node)),
        None => Ok(None),
    }
}

/// The condition of the import statement with a number.
fn import_condition(
    alloc: Global,
    module: &ReadModule,
    index: usize,
) -> Result<Option<String>, AllocError> {
    match module.unit.imports().get(index) {
        Some(node) => condition_in(alloc, module.unit.names(), &node.node.attributes),
        None => Ok(None),
    }
}

/// The condition of what stands at a place of a module, as it is written.
pub fn condition_at(
    alloc: Global,
    module: Option<&ReadModule>,
    place: Place,
) -> Result<Option<String>, AllocError> {
    let Some(module) = module else {
        return Ok(None);
    };
    match place {
        Place::Declaration(index) => declaration_condition(alloc, module, index),
        Place::Import(index) => import_condition(alloc, module, index),
        Place::Always | Place::Name(_) => Ok(None),
    }
}
