//! What is replaced in declarations, imports and directives.
ghost use Rattle.wesl_visit_rewrite.specs.Replaced.{rule};
ghost use Rattle.wesl_visit_rewrite.specs.Went.{AllWent, WentTo};
ghost use Rattle.wesl_tree_syntax.specs.Tree.{declaration_node, directive_node, import_node, member_node};
ghost use Rattle.wesl_tree_syntax.specs.View.{alias_view, directive_view, function_view, global_view, import_view, member_view, parameter_view, placed, struct_view};

use crate::replace::attribute::{at_attributes, at_optional_type};
use crate::replace::expression::at_type;
use crate::replace::statement::{in_assert, in_compound, in_declaration};
use wesl_tree_syntax::{
    FormalParameter, Function, GlobalDeclaration, GlobalDeclarationNode, GlobalDirective,
    GlobalDirectiveNode, ImportStatement, ImportStatementNode, Struct, StructMember,
    StructMemberNode, TypeAlias,
};
use wesl_visit_collect::{Replace, Rewrite, law_of_words};

pub(crate) fn in_alias<T: Replace, R: Rewrite<T>>(
    alias: &mut TypeAlias,
    deep: bool,
    rewriter: &mut R,
    goes: bool,
) -> bool
    ensures { WentTo (rule T.Kind.sought R.rewrites deep) alias_view goes alias.old result alias.new }
{
    let goes = at_attributes(&mut alias.attributes, deep, rewriter, goes);
    at_type(&mut alias.ty, deep, rewriter, goes)
}

pub(crate) fn in_member<T: Replace, R: Rewrite<T>>(
    member: &mut StructMember,
    deep: bool,
    rewriter: &mut R,
    goes: bool,
) -> bool
    ensures { WentTo (rule T.Kind.sought R.rewrites deep) member_view goes member.old result member.new }
{
    let goes = at_attributes(&mut member.attributes, deep, rewriter, goes);
    at_type(&mut member.ty, deep, rewriter, goes)
}

fn in_members<T: Replace, R: Rewrite<T>>(
    all: &mut [StructMemberNode],
    deep: bool,
    rewriter: &mut R,
    goes: bool,
) -> bool
    ensures { AllWent (rule T.Kind.sought R.rewrites deep) (placed member_view member_node) goes all.old result all.new }
{
    let mut goes = goes;
    for i in 0..all.len() {
        goes = in_member(&mut all[i].node, deep, rewriter, goes);
    }
    goes
}

pub(crate) fn in_struct<T: Replace, R: Rewrite<T>>(
    structure: &mut Struct,
    deep: bool,
    rewriter: &mut R,
    goes: bool,
) -> bool
    ensures { WentTo (rule T.Kind.sought R.rewrites deep) struct_view goes structure.old result structure.new }
{
    let goes = at_attributes(&mut structure.attributes, deep, rewriter, goes);
    in_members(&mut structure.members, deep, rewriter, goes)
}

fn in_parameter<T: Replace, R: Rewrite<T>>(
    parameter: &mut FormalParameter,
    deep: bool,
    rewriter: &mut R,
    goes: bool,
) -> bool
    ensures { WentTo (rule T.Kind.sought R.rewrites deep) parameter_view goes parameter.old result parameter.new }
{
    let goes = at_attributes(&mut parameter.attributes, deep, rewriter, goes);
    at_type(&mut parameter.ty, deep, rewriter, goes)
}

fn in_parameters<T: Replace, R: Rewrite<T>>(
    all: &mut [FormalParameter],
    deep: bool,
    rewriter: &mut R,
    goes: bool,
) -> bool
    ensures { AllWent (rule T.Kind.sought R.rewrites deep) parameter_view goes all.old result all.new }
{
    let mut goes = goes;
    for i in 0..all.len() {
        goes = in_parameter(&mut all[i], deep, rewriter, goes);
    }
    goes
}

pub(crate) fn in_function<T: Replace, R: Rewrite<T>>(
    function: &mut Function,
    deep: bool,
    rewriter: &mut R,
    goes: bool,
) -> bool
    ensures { WentTo (rule T.Kind.sought R.rewrites deep) function_view goes function.old result function.new }
{
    let goes = at_attributes(&mut function.attributes, deep, rewriter, goes);
    let goes = in_parameters(&mut function.parameters, deep, rewriter, goes);
    let goes = at_attributes(&mut function.return_attributes, deep, rewriter, goes);
    let goes = at_optional_type(&mut function.return_type, deep, rewriter, goes);
    in_compound(&mut function.body, deep, rewriter, goes)
}

pub(crate) fn in_global<T: Replace, R: Rewrite<T>>(
    declaration: &mut GlobalDeclaration,
    deep: bool,
    rewriter: &mut R,
    goes: bool,
) -> bool
    ensures { WentTo (rule T.Kind.sought R.rewrites deep) global_view goes declaration.old result declaration.new }
{
    match declaration {
        GlobalDeclaration::Void => goes,
        GlobalDeclaration::Declaration(declaration) => in_declaration(
            declaration,
            deep,
            rewriter,
            goes,
        ),
        GlobalDeclaration::TypeAlias(alias) => in_alias(alias, deep, rewriter, goes),
        GlobalDeclaration::Struct(structure) => in_struct(structure, deep, rewriter, goes),
        GlobalDeclaration::Function(function) => in_function(function, deep, rewriter, goes),
        GlobalDeclaration::ConstAssert(assertion) => in_assert(assertion, deep, rewriter, goes),
    }
}

pub(crate) fn in_declarations<T: Replace, R: Rewrite<T>>(
    declarations: &mut [GlobalDeclarationNode],
    deep: bool,
    rewriter: &mut R,
    goes: bool,
) -> bool
    ensures { AllWent (rule T.Kind.sought R.rewrites deep) (placed global_view declaration_node) goes declarations.old result declarations.new }
{
    let mut goes = goes;
    for i in 0..declarations.len() {
        goes = in_global(&mut declarations[i].node, deep, rewriter, goes);
    }
    goes
}

/// What stands in the attributes of an import is passed over, but they are a list of attributes.
fn in_import<T: Replace, R: Rewrite<T>>(
    import: &mut ImportStatement,
    deep: bool,
    rewriter: &mut R,
    goes: bool,
) -> bool
    ensures { WentTo (rule T.Kind.sought R.rewrites deep) import_view goes import.old result import.new }
{
    law_of_words();
    T::finish_attributes(&mut import.attributes, rewriter, goes)
}

pub(crate) fn in_imports<T: Replace, R: Rewrite<T>>(
    imports: &mut [ImportStatementNode],
    deep: bool,
    rewriter: &mut R,
    goes: bool,
) -> bool
    ensures { AllWent (rule T.Kind.sought R.rewrites deep) (placed import_view import_node) goes imports.old result imports.new }
{
    let mut goes = goes;
    for i in 0..imports.len() {
        goes = in_import(&mut imports[i].node, deep, rewriter, goes);
    }
    goes
}

fn in_directive<T: Replace, R: Rewrite<T>>(
    directive: &mut GlobalDirective,
    deep: bool,
    rewriter: &mut R,
    goes: bool,
) -> bool
    ensures { WentTo (rule T.Kind.sought R.rewrites deep) directive_view goes directive.old result directive.new }
{
    law_of_words();
    match directive {
        GlobalDirective::Diagnostic {
            attributes,
            severity: _,
            rule: _,
        } => T::finish_attributes(attributes, rewriter, goes),
        GlobalDirective::Enable {
            attributes,
            names: _,
        } => T::finish_attributes(attributes, rewriter, goes),
        GlobalDirective::Requires {
            attributes,
            names: _,
        } => T::finish_attributes(attributes, rewriter, goes),
    }
}

pub(crate) fn in_directives<T: Replace, R: Rewrite<T>>(
    directives: &mut [GlobalDirectiveNode],
    deep: bool,
    rewriter: &mut R,
    goes: bool,
) -> bool
    ensures { AllWent (rule T.Kind.sought R.rewrites deep) (placed directive_view directive_node) goes directives.old result directives.new }
{
    let mut goes = goes;
    for i in 0..directives.len() {
        goes = in_directive(&mut directives[i].node, deep, rewriter, goes);
    }
    goes
}
