//! What is collected in declarations, imports, directives and whole units.
ghost use Rattle.wesl_tree_syntax.specs.Tree.{before, end};
ghost use Rattle.wesl_tree_syntax.specs.View.{alias_view, declarations_tree, directive_view, directives_tree, function_view, global_view, imports_tree, member_view, struct_view};
ghost use Rattle.wesl_visit_collect.specs.Adds.{Adds};

use crate::collect::attribute::{at_attributes, at_optional_type};
use crate::collect::expression::at_type;
use crate::collect::statement::{in_assert, in_compound, in_declaration};
use crate::collected::Collected;
use crate::kinds::{Kind, NodeRef};
use wesl_tree_syntax::{
    Attributes, Function, GlobalDeclaration, GlobalDeclarationNode, GlobalDirective,
    GlobalDirectiveNode, ImportStatementNode, Struct, StructMember, TypeAlias,
};

/// Adds the nodes of a kind in a type alias, in document order.
pub fn in_alias<'a, T: Kind>(alias: &'a TypeAlias, found: &mut Collected<'a, T>)
    ensures { Adds T.sought T.view found.old (before (alias_view alias.now) end) found.new }
{
    at_attributes(&alias.attributes, found);
    at_type(&alias.ty, found);
}

/// Adds those in a member of a structure.
pub fn in_member<'a, T: Kind>(member: &'a StructMember, found: &mut Collected<'a, T>)
    ensures { Adds T.sought T.view found.old (before (member_view member.now) end) found.new }
{
    at_attributes(&member.attributes, found);
    at_type(&member.ty, found);
}

/// Adds those in a structure.
pub fn in_struct<'a, T: Kind>(structure: &'a Struct, found: &mut Collected<'a, T>)
    ensures { Adds T.sought T.view found.old (before (struct_view structure.now) end) found.new }
{
    at_attributes(&structure.attributes, found);
    for member in &structure.members {
        in_member(&member.node, found);
    }
}

/// Adds those in a function.
pub fn in_function<'a, T: Kind>(function: &'a Function, found: &mut Collected<'a, T>)
    ensures { Adds T.sought T.view found.old (before (function_view function.now) end) found.new }
{
    at_attributes(&function.attributes, found);
    for parameter in &function.parameters {
        at_attributes(&parameter.attributes, found);
        at_type(&parameter.ty, found);
    }
    at_attributes(&function.return_attributes, found);
    at_optional_type(&function.return_type, found);
    in_compound(&function.body, found);
}

/// Adds those in a global declaration.
pub fn in_global<'a, T: Kind>(declaration: &'a GlobalDeclaration, found: &mut Collected<'a, T>)
    ensures { Adds T.sought T.view found.old (before (global_view declaration.now) end) found.new }
{
    match declaration {
        GlobalDeclaration::Void => {}
        GlobalDeclaration::Declaration(declaration) => in_declaration(declaration, found),
        GlobalDeclaration::TypeAlias(alias) => in_alias(alias, found),
        GlobalDeclaration::Struct(structure) => in_struct(structure, found),
        GlobalDeclaration::Function(function) => in_function(function, found),
        GlobalDeclaration::ConstAssert(assertion) => in_assert(assertion, found),
    }
}

/// Adds those in global declarations.
pub fn in_declarations<'a, T: Kind>(
    declarations: &'a Vec<GlobalDeclarationNode>,
    found: &mut Collected<'a, T>,
)
    ensures { Adds T.sought T.view found.old (before (declarations_tree declarations.now) end) found.new }
{
    for declaration in declarations {
        in_global(&declaration.node, found);
    }
}

/// Adds the attributes of imports. What stands in them is passed over, as the other words are.
pub fn in_imports<'a, T: Kind>(imports: &'a Vec<ImportStatementNode>, found: &mut Collected<'a, T>)
    ensures { Adds T.sought T.view found.old (before (imports_tree imports.now) end) found.new }
{
    for import in imports {
        found.enter(NodeRef::Attributes(&import.node.attributes));
    }
}

/// Adds the attributes of a directive. What stands in them is passed over, as the other words are.
fn in_directive<'a, T: Kind>(directive: &'a GlobalDirective, found: &mut Collected<'a, T>)
    ensures { Adds T.sought T.view found.old (before (directive_view directive.now) end) found.new }
{
    match directive {
        GlobalDirective::Diagnostic {
            attributes,
            severity: _,
            rule: _,
        } => {
            found.enter(NodeRef::Attributes(attributes));
        }
        GlobalDirective::Enable {
            attributes,
            names: _,
        } => {
            found.enter(NodeRef::Attributes(attributes));
        }
        GlobalDirective::Requires {
            attributes,
            names: _,
        } => {
            found.enter(NodeRef::Attributes(attributes));
        }
    }
}

/// Adds those in directives, whose words are passed over.
pub fn in_directives<'a, T: Kind>(
    directives: &'a Vec<GlobalDirectiveNode>,
    found: &mut Collected<'a, T>,
)
    ensures { Adds T.sought T.view found.old (before (directives_tree directives.now) end) found.new }
{
    for directive in directives {
        in_directive(&directive.node, found);
    }
}
