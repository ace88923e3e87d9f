//! Whether every identifier of a tree lies inside a table: attributes, declarations and imports.
ghost use Rattle.std.specs.Prelude.{◌≡◌};
ghost use Rattle.wesl_tree_syntax.specs.Tree.{tree_below, list, parameters, members};
ghost use Rattle.wesl_tree_syntax.specs.View.{type_view, expression_tree, attribute_view, attributes_tree, listed, optional, item_view, content_view, entry_view, import_view, directive_view, declaration_view, alias_view, member_view, struct_view, parameter_view, assert_view, placed, imports_tree, directives_tree};
ghost use Rattle.wesl_tree_syntax.specs.Tree.{member_node};

use crate::bounds::{node_is_below, nodes_are_below, type_is_below};
use wesl_tree_syntax::{
    Attribute, AttributeNode, ConstAssert, Declaration, ExpressionNode, FormalParameter,
    GlobalDirective, Import, ImportContent, ImportItem, ImportStatement, Spanned, Struct,
    StructMember, StructMemberNode, TypeAlias, TypeExpression,
};

#[tactic(auto, using(crate::proofs::Below::steps))]
pub fn optional_node_is_below(bound: usize, node: &Option<ExpressionNode>) -> bool
    ensures { result ≡ tree_below bound (optional expression_tree node.now) }
{
    match node {
        None => true,
        Some(node) => node_is_below(bound, node),
    }
}

#[tactic(auto, using(crate::proofs::Below::steps))]
pub fn optional_type_is_below(bound: usize, ty: &Option<TypeExpression>) -> bool
    ensures { result ≡ tree_below bound (optional type_view ty.now) }
{
    match ty {
        None => true,
        Some(ty) => type_is_below(bound, ty),
    }
}

#[tactic(auto, using(crate::proofs::Below::steps))]
pub fn attribute_is_below(bound: usize, attribute: &Attribute) -> bool
    ensures { result ≡ tree_below bound (attribute_view attribute.now) }
{
    match attribute {
        Attribute::Align(e)
        | Attribute::Binding(e)
        | Attribute::BlendSrc(e)
        | Attribute::Group(e)
        | Attribute::Id(e)
        | Attribute::Location(e)
        | Attribute::Size(e)
        | Attribute::If(e)
        | Attribute::Elif(e) => node_is_below(bound, e),
        Attribute::WorkgroupSize { x, y, z } => {
            node_is_below(bound, x)
                && optional_node_is_below(bound, y)
                && optional_node_is_below(bound, z)
        }
        Attribute::Custom { name: _, arguments } => match arguments {
            None => true,
            Some(arguments) => nodes_are_below(bound, arguments),
        },
        Attribute::Builtin(_)
        | Attribute::Const
        | Attribute::Diagnostic { .. }
        | Attribute::Interpolate(_)
        | Attribute::Invariant
        | Attribute::MustUse
        | Attribute::Vertex
        | Attribute::Fragment
        | Attribute::Compute
        | Attribute::Publish
        | Attribute::Else => true,
    }
}

pub fn attributes_are_below(bound: usize, attributes: &Vec<AttributeNode>) -> bool
    ensures { result ≡ tree_below bound (attributes_tree attributes.now) }
{
    for attribute in attributes {
        if !attribute_is_below(bound, &attribute.node) {
            return false;
        }
    }
    true
}

#[tactic(auto, using(crate::proofs::Below::steps))]
pub fn item_is_below(bound: usize, item: &ImportItem) -> bool
    ensures { result ≡ tree_below bound (item_view item.now) }
{
    match item.rename {
        None => item.ident.0 < bound,
        Some(rename) => item.ident.0 < bound && rename.0 < bound,
    }
}

#[cycle(import_bounds)]
#[tactic(auto, using(crate::proofs::Below::steps))]
pub fn content_is_below(bound: usize, content: &ImportContent) -> bool
    ensures { result ≡ tree_below bound (content_view content.now) }
{
    match content {
        ImportContent::Item(item) => item_is_below(bound, item),
        ImportContent::Collection(entries) => entries_are_below(bound, entries),
    }
}

#[cycle(import_bounds)]
pub fn entries_are_below(bound: usize, entries: &Vec<Import>) -> bool
    ensures { result ≡ tree_below bound (listed entry_view list entries.now) }
{
    for entry in entries {
        if !content_is_below(bound, &entry.content) {
            return false;
        }
    }
    true
}

#[tactic(auto, using(crate::proofs::Below::steps))]
pub fn import_is_below(bound: usize, import: &ImportStatement) -> bool
    ensures { result ≡ tree_below bound (import_view import.now) }
{
    attributes_are_below(bound, &import.attributes) && content_is_below(bound, &import.content)
}

pub fn imports_are_below(bound: usize, imports: &Vec<Spanned<ImportStatement>>) -> bool
    ensures { result ≡ tree_below bound (imports_tree imports.now) }
{
    for import in imports {
        if !import_is_below(bound, &import.node) {
            return false;
        }
    }
    true
}

#[tactic(auto, using(crate::proofs::Below::steps))]
pub fn directive_is_below(bound: usize, directive: &GlobalDirective) -> bool
    ensures { result ≡ tree_below bound (directive_view directive.now) }
{
    match directive {
        GlobalDirective::Diagnostic {
            attributes,
            severity: _,
            rule: _,
        } => attributes_are_below(bound, attributes),
        GlobalDirective::Enable {
            attributes,
            names: _,
        } => attributes_are_below(bound, attributes),
        GlobalDirective::Requires {
            attributes,
            names: _,
        } => attributes_are_below(bound, attributes),
    }
}

pub fn directives_are_below(bound: usize, directives: &Vec<Spanned<GlobalDirective>>) -> bool
    ensures { result ≡ tree_below bound (directives_tree directives.now) }
{
    for directive in directives {
        if !directive_is_below(bound, &directive.node) {
            return false;
        }
    }
    true
}

#[tactic(auto, using(crate::proofs::Below::steps))]
pub fn declaration_is_below(bound: usize, declaration: &Declaration) -> bool
    ensures { result ≡ tree_below bound (declaration_view declaration.now) }
{
    attributes_are_below(bound, &declaration.attributes)
        && declaration.ident.0 < bound
        && optional_type_is_below(bound, &declaration.ty)
        && optional_node_is_below(bound, &declaration.initializer)
}

#[tactic(auto, using(crate::proofs::Below::steps))]
pub fn alias_is_below(bound: usize, alias: &TypeAlias) -> bool
    ensures { result ≡ tree_below bound (alias_view alias.now) }
{
    attributes_are_below(bound, &alias.attributes)
        && alias.ident.0 < bound
        && type_is_below(bound, &alias.ty)
}

#[tactic(auto, using(crate::proofs::Below::steps))]
pub fn member_is_below(bound: usize, member: &StructMember) -> bool
    ensures { result ≡ tree_below bound (member_view member.now) }
{
    attributes_are_below(bound, &member.attributes) && type_is_below(bound, &member.ty)
}

pub fn members_are_below(bound: usize, all: &Vec<StructMemberNode>) -> bool
    ensures { result ≡ tree_below bound (listed (placed member_view member_node) members all.now) }
{
    for member in all {
        if !member_is_below(bound, &member.node) {
            return false;
        }
    }
    true
}

#[tactic(auto, using(crate::proofs::Below::steps))]
pub fn struct_is_below(bound: usize, structure: &Struct) -> bool
    ensures { result ≡ tree_below bound (struct_view structure.now) }
{
    attributes_are_below(bound, &structure.attributes)
        && structure.ident.0 < bound
        && members_are_below(bound, &structure.members)
}

#[tactic(auto, using(crate::proofs::Below::steps))]
pub fn parameter_is_below(bound: usize, parameter: &FormalParameter) -> bool
    ensures { result ≡ tree_below bound (parameter_view parameter.now) }
{
    attributes_are_below(bound, &parameter.attributes)
        && parameter.ident.0 < bound
        && type_is_below(bound, &parameter.ty)
}

pub fn parameters_are_below(bound: usize, all: &Vec<FormalParameter>) -> bool
    ensures { result ≡ tree_below bound (listed parameter_view parameters all.now) }
{
    for parameter in all {
        if !parameter_is_below(bound, parameter) {
            return false;
        }
    }
    true
}

#[tactic(auto, using(crate::proofs::Below::steps))]
pub fn assert_is_below(bound: usize, assertion: &ConstAssert) -> bool
    ensures { result ≡ tree_below bound (assert_view assertion.now) }
{
    attributes_are_below(bound, &assertion.attributes)
        && node_is_below(bound, &assertion.expression)
}
