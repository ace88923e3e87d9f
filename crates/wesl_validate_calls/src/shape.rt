//! What declarations are to calls.
ghost use Rattle.std.specs.Prelude.{◌≡◌, map, IfOk};
ghost use Rattle.wesl_tree_syntax.specs.View.{type_view};
ghost use Rattle.wesl_validate_rules.specs.Calls.{alias_by, is_plain_alias};
ghost use Rattle.wesl_validate_calls.specs.Ends.{is_open};
ghost use Rattle.wesl_validate_calls.specs.Judged.{count_of};
ghost use Rattle.wesl_validate_calls.specs.Tables.{shape_at};
ghost use Rattle.wesl_validate_calls.specs.Views.{shape_by, shape_view};

use std::alloc::{AllocError, Global};
use wesl_tree_syntax::{GlobalDeclaration, GlobalDeclarationNode, TypeExpression};

/// What a declaration is to a call.
#[derive(Clone, Copy)]
pub(crate) enum Shape {
    /// a function with so many parameters
    Function(usize),
    /// a structure with so many members
    Struct(usize),
    /// an alias of a type with a path or with template arguments
    OpenAlias,
    /// an alias of a plain name of this number
    Alias(usize),
    /// a value, or nothing
    Other,
}

fn alias_shape(ty: &TypeExpression) -> Shape
    ensures { shape_view result ≡ alias_by (type_view ty.now).children }
{
    match &ty.path {
        Some(_) => Shape::OpenAlias,
        None => match &ty.template_args {
            Some(_) => Shape::OpenAlias,
            None => Shape::Alias(ty.ident.0),
        },
    }
}

#[tactic(auto, using(wesl_scope_strip::proofs::Keeping::trees_count))]
fn shape_of(declaration: &GlobalDeclaration) -> Shape
    ensures { shape_view result ≡ shape_by declaration.now }
{
    match declaration {
        GlobalDeclaration::Void => Shape::Other,
        GlobalDeclaration::Declaration(_) => Shape::Other,
        GlobalDeclaration::TypeAlias(alias) => alias_shape(&alias.ty),
        GlobalDeclaration::Struct(record) => Shape::Struct(record.members.len()),
        GlobalDeclaration::Function(function) => Shape::Function(function.parameters.len()),
        GlobalDeclaration::ConstAssert(_) => Shape::Other,
    }
}

/// Of each declaration what it is to a call. Refused for want of memory alone.
pub(crate) fn shapes_of(
    alloc: Global,
    declarations: &Vec<GlobalDeclarationNode>,
) -> Result<Vec<Shape>, AllocError>
    ensures { IfOk result (λ shapes. map shape_view shapes.items ≡ map (λ d. shape_by d.node) declarations.now.items) }
{
    let mut shapes = Vec::with_capacity(alloc, declarations.len())?;
    for declaration in declarations {
        shapes.push(shape_of(&declaration.node))?;
    }
    Ok(shapes)
}

/// What declaration `declaration` is to a call.
#[tactic(auto, using(crate::proofs::Shaping::at_mapped, crate::proofs::Shaping::at_mapped_past))]
pub(crate) fn shape_at(shapes: &Vec<Shape>, declaration: usize) -> Shape
    ensures { shape_view result ≡ shape_at (map shape_view shapes.now.items) declaration }
{
    if declaration < shapes.len() {
        shapes[declaration]
    } else {
        Shape::Other
    }
}

/// Whether it takes any count of arguments.
pub(crate) fn is_open(shape: Shape) -> bool
    ensures { result ≡ is_open (shape_view shape) }
{
    match shape {
        Shape::OpenAlias => true,
        _ => false,
    }
}

/// How many arguments it takes, if it is a function or a structure.
pub(crate) fn count_of(shape: Shape) -> Option<usize>
    ensures { result ≡ count_of (shape_view shape) }
{
    match shape {
        Shape::Function(count) => Some(count),
        Shape::Struct(count) => Some(count),
        Shape::OpenAlias => None,
        Shape::Alias(_) => None,
        Shape::Other => None,
    }
}

/// Whether it is an alias of a plain name.
pub(crate) fn is_plain_alias(shape: Shape) -> bool
    ensures { result ≡ is_plain_alias (shape_view shape) }
{
    match shape {
        Shape::Alias(_) => true,
        _ => false,
    }
}
