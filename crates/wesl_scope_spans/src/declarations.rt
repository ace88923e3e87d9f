//! The spans of the identifiers of global declarations.
ghost use Rattle.wesl_tree_syntax.specs.Tree.{member_node, members, parameters};
ghost use Rattle.wesl_tree_syntax.specs.View.{alias_view, declarations_tree, function_view, global_view, listed, member_view, parameter_view, placed, struct_view};
ghost use Rattle.wesl_scope_spans.specs.Adds.{Adds, AddsAnywhere};

use crate::attributes::in_attributes;
use crate::expressions::{in_optional_type, in_type};
use crate::places::Places;
use crate::statements::{in_assertion, in_compound, in_declaration};
use wesl_tree::{
    FormalParameter, Function, GlobalDeclaration, GlobalDeclarationNode, Span, Struct,
    StructMember, StructMemberNode, TypeAlias,
};

/// Those of a type alias.
fn in_alias(alias: &TypeAlias, round: Span, places: &mut Places)
    ensures { Adds round places.old (alias_view alias.now) places.new }
{
    in_attributes(&alias.attributes, places);
    places.meet(round);
    in_type(&alias.ty, round, places);
}

/// Those of a member of a structure.
fn in_member(member: &StructMember, round: Span, places: &mut Places)
    ensures { Adds round places.old (member_view member.now) places.new }
{
    in_attributes(&member.attributes, places);
    in_type(&member.ty, round, places);
}

/// Those of the members of a structure, in order.
fn in_members(all: &Vec<StructMemberNode>, places: &mut Places)
    ensures { AddsAnywhere places.old (listed (placed member_view member_node) members all.now) places.new }
{
    for member in all {
        in_member(&member.node, member.span, places);
    }
}

/// Those of a structure.
fn in_structure(structure: &Struct, round: Span, places: &mut Places)
    ensures { Adds round places.old (struct_view structure.now) places.new }
{
    in_attributes(&structure.attributes, places);
    places.meet(round);
    in_members(&structure.members, places);
}

/// Those of a parameter.
fn in_parameter(parameter: &FormalParameter, round: Span, places: &mut Places)
    ensures { Adds round places.old (parameter_view parameter.now) places.new }
{
    in_attributes(&parameter.attributes, places);
    places.meet(round);
    in_type(&parameter.ty, round, places);
}

/// Those of the parameters of a function, in order.
fn in_parameters(all: &Vec<FormalParameter>, round: Span, places: &mut Places)
    ensures { Adds round places.old (listed parameter_view parameters all.now) places.new }
{
    for parameter in all {
        in_parameter(parameter, round, places);
    }
}

/// Those of a function.
fn in_function(function: &Function, round: Span, places: &mut Places)
    ensures { Adds round places.old (function_view function.now) places.new }
{
    in_attributes(&function.attributes, places);
    places.meet(round);
    in_parameters(&function.parameters, round, places);
    in_attributes(&function.return_attributes, places);
    in_optional_type(&function.return_type, round, places);
    in_compound(&function.body, places);
}

/// Those of a global declaration.
fn in_global(declaration: &GlobalDeclaration, round: Span, places: &mut Places)
    ensures { Adds round places.old (global_view declaration.now) places.new }
{
    match declaration {
        GlobalDeclaration::Void => {}
        GlobalDeclaration::Declaration(declaration) => in_declaration(declaration, round, places),
        GlobalDeclaration::TypeAlias(alias) => in_alias(alias, round, places),
        GlobalDeclaration::Struct(structure) => in_structure(structure, round, places),
        GlobalDeclaration::Function(function) => in_function(function, round, places),
        GlobalDeclaration::ConstAssert(assertion) => in_assertion(assertion, places),
    }
}

/// Those of the global declarations of a module, in order.
pub fn in_declarations(declarations: &Vec<GlobalDeclarationNode>, places: &mut Places)
    ensures { AddsAnywhere places.old (declarations_tree declarations.now) places.new }
{
    for declaration in declarations {
        in_global(&declaration.node, declaration.span, places);
    }
}
