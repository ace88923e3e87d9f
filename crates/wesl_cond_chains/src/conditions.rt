//! The condition among the attributes of a node.
ghost use Rattle.std.specs.Prelude.{◌≡◌, map};
ghost use Rattle.wesl_cond_chains.specs.Chains.{follows_on, holds};
ghost use Rattle.wesl_cond_chains.specs.Conditions.{first_condition, recast};
ghost use Rattle.wesl_cond_chains.specs.Nodes.{answers, attributes_forest, condition_of_attribute, condition_view, attribute_tree, instead, is_any, marked, marked_tree};
ghost use Rattle.wesl_cond_chains.specs.Formulas.{form, written};
ghost use Rattle.wesl_cond_chains.specs.FormulaResidual.{residual};
ghost use Rattle.wesl_tree_syntax.specs.Tree.{before, end};
ghost use Rattle.wesl_tree_syntax.specs.View.{attribute_view, expression_view};

use crate::formula::{decided, simplify};
use std::mem;
use wesl_cond_features::{Features, Role, Truth};
use wesl_tree_names::Names;
use wesl_tree_syntax::{
    Attribute, AttributeNode, Attributes, Expression, ExpressionNode, Literal, Spanned,
};

/// A condition, as an attribute holds it.
#[derive(Clone, Copy)]
pub enum Condition<'a> {
    /// `@if(formula)`
    If(&'a ExpressionNode),
    /// `@elif(formula)`
    Elif(&'a ExpressionNode),
    /// `@else`
    Else,
}

/// The condition that an attribute is, if it is one.
pub fn condition_of(attribute: &Attribute) -> Option<Condition<'_>>
    ensures { condition_view result ≡ condition_of_attribute attribute.now }
{
    match attribute {
        Attribute::If(formula) => Some(Condition::If(formula)),
        Attribute::Elif(formula) => Some(Condition::Elif(formula)),
        Attribute::Else => Some(Condition::Else),
        Attribute::Align(_)
        | Attribute::Binding(_)
        | Attribute::BlendSrc(_)
        | Attribute::Builtin(_)
        | Attribute::Const
        | Attribute::Diagnostic { .. }
        | Attribute::Group(_)
        | Attribute::Id(_)
        | Attribute::Interpolate(_)
        | Attribute::Invariant
        | Attribute::Location(_)
        | Attribute::MustUse
        | Attribute::Size(_)
        | Attribute::WorkgroupSize { .. }
        | Attribute::Vertex
        | Attribute::Fragment
        | Attribute::Compute
        | Attribute::Publish
        | Attribute::Custom { .. } => None,
    }
}

/// Whether an attribute is a condition.
pub fn is_condition(attribute: &Attribute) -> bool
    ensures { result ≡ is_any (condition_of_attribute attribute.now) }
{
    condition_of(attribute).is_some()
}

/// Whether the first condition, if there is one, is an `@elif` or an `@else`.
pub fn follows_on(attributes: &[AttributeNode]) -> bool
    ensures { result ≡ follows_on (first_condition (attributes_forest attributes.now)) }
{
    for attribute in attributes {
        match condition_of(&attribute.node) {
            Some(Condition::If(_)) => return false,
            Some(Condition::Elif(_) | Condition::Else) => return true,
            None => {}
        }
    }
    false
}

/// Whether the first condition holds; no condition and an `@else` count as true.
pub fn holds(attributes: &[AttributeNode], names: &Names, features: &Features) -> Truth
    ensures { result ≡ holds (answers names.now features.now) (first_condition (attributes_forest attributes.now)) }
{
    for attribute in attributes {
        match condition_of(&attribute.node) {
            Some(Condition::If(formula) | Condition::Elif(formula)) => {
                return decided(&formula.node, names, features);
            }
            Some(Condition::Else) => return Truth::Yes,
            None => {}
        }
    }
    Truth::Yes
}

/// Takes a formula out of its place, with what is left of it.
fn left_over(formula: &mut ExpressionNode, names: &Names, features: &Features) -> ExpressionNode
    ensures left { expression_view result.node ≡ written (residual (answers names.now features.now) (form (expression_view formula.old.node))) }
    ensures span { result.span ≡ formula.old.span }
{
    simplify(&mut formula.node, names, features);
    Spanned {
        node: mem::replace(&mut formula.node, Expression::Literal(Literal::Bool(true))),
        span: formula.span,
    }
}

/// What takes the place of an attribute by a new role, if anything does: a condition, with what is left of its formula.
fn marked(
    attribute: &mut Attribute,
    role: Role,
    names: &Names,
    features: &Features,
) -> Option<Attribute>
    ensures { instead result (before (attribute_view attribute.new) end) ≡ marked (answers names.now features.now) role (before (attribute_view attribute.old) end) }
{
    match (role, attribute) {
        (Role::Plain, _) => None,
        (Role::Else, Attribute::If(_) | Attribute::Elif(_)) => Some(Attribute::Else),
        (Role::If, Attribute::If(formula) | Attribute::Elif(formula)) => {
            Some(Attribute::If(left_over(formula, names, features)))
        }
        (Role::Elif, Attribute::If(formula) | Attribute::Elif(formula)) => {
            Some(Attribute::Elif(left_over(formula, names, features)))
        }
        _ => None,
    }
}

/// Marks the conditions among the attributes by a role, or drops them where the node is to be plain. No memory is taken.
pub fn recast(attributes: &mut Attributes, role: Role, names: &Names, features: &Features)
    ensures { attributes_forest attributes.new.items ≡ recast (answers names.now features.now) role (attributes_forest attributes.old.items) }
{
    match role {
        Role::Plain => attributes.retain(|attribute| !is_condition(&attribute.node)),
        Role::If | Role::Elif | Role::Else => mark_all(attributes, role, names, features),
    }
}

/// Marks each condition among the attributes by a role.
fn mark_all(attributes: &mut [AttributeNode], role: Role, names: &Names, features: &Features)
    ensures { map attribute_tree attributes.new ≡ map (marked_tree (answers names.now features.now) role) (map attribute_tree attributes.old) }
{
    for attribute in attributes.iter_mut() {
        if let Some(marked) = marked(&mut attribute.node, role, names, features) {
            attribute.node = marked;
        }
    }
}
