//! Numbers for the identifiers of declarations.
ghost use Rattle.wesl_tree_syntax.specs.Tree.{member_node, members, parameters};
ghost use Rattle.wesl_tree_syntax.specs.View.{alias_view, assert_view, declaration_view, declarations_tree, function_view, global_view, listed, member_view, parameter_view, placed, struct_view};
ghost use Rattle.wesl_tree_renumber.specs.Renumbers.{Renumbers};

use crate::renumbering::Renumbering;
use wesl_tree_syntax::{
    ConstAssert, Declaration, FormalParameter, Function, GlobalDeclaration, GlobalDeclarationNode,
    Struct, StructMember, StructMemberNode, TypeAlias,
};

impl<'a> Renumbering<'a> {
    pub(crate) fn declaration(&mut self, declaration: &mut Declaration)
        ensures { Renumbers self.old self.new declaration_view declaration.old declaration.new }
    {
        self.attributes(&mut declaration.attributes);
        self.ident(&mut declaration.ident);
        self.optional_type(&mut declaration.ty);
        self.optional_node(&mut declaration.initializer);
    }

    pub(crate) fn assertion(&mut self, assertion: &mut ConstAssert)
        ensures { Renumbers self.old self.new assert_view assertion.old assertion.new }
    {
        self.attributes(&mut assertion.attributes);
        self.node(&mut assertion.expression);
    }

    fn alias(&mut self, alias: &mut TypeAlias)
        ensures { Renumbers self.old self.new alias_view alias.old alias.new }
    {
        self.attributes(&mut alias.attributes);
        self.ident(&mut alias.ident);
        self.type_expression(&mut alias.ty);
    }

    fn member(&mut self, member: &mut StructMember)
        ensures { Renumbers self.old self.new member_view member.old member.new }
    {
        self.attributes(&mut member.attributes);
        self.type_expression(&mut member.ty);
    }

    fn members(&mut self, all: &mut Vec<StructMemberNode>)
        ensures { Renumbers self.old self.new (listed (placed member_view member_node) members) all.old all.new }
    {
        for member in all.iter_mut() {
            self.member(&mut member.node);
        }
    }

    fn structure(&mut self, structure: &mut Struct)
        ensures { Renumbers self.old self.new struct_view structure.old structure.new }
    {
        self.attributes(&mut structure.attributes);
        self.ident(&mut structure.ident);
        self.members(&mut structure.members);
    }

    fn parameter(&mut self, parameter: &mut FormalParameter)
        ensures { Renumbers self.old self.new parameter_view parameter.old parameter.new }
    {
        self.attributes(&mut parameter.attributes);
        self.ident(&mut parameter.ident);
        self.type_expression(&mut parameter.ty);
    }

    fn parameters(&mut self, all: &mut Vec<FormalParameter>)
        ensures { Renumbers self.old self.new (listed parameter_view parameters) all.old all.new }
    {
        for parameter in all.iter_mut() {
            self.parameter(parameter);
        }
    }

    fn function(&mut self, function: &mut Function)
        ensures { Renumbers self.old self.new function_view function.old function.new }
    {
        self.attributes(&mut function.attributes);
        self.ident(&mut function.ident);
        self.parameters(&mut function.parameters);
        self.attributes(&mut function.return_attributes);
        self.optional_type(&mut function.return_type);
        self.compound(&mut function.body);
    }

    fn global(&mut self, declaration: &mut GlobalDeclaration)
        ensures { Renumbers self.old self.new global_view declaration.old declaration.new }
    {
        match declaration {
            GlobalDeclaration::Void => {}
            GlobalDeclaration::Declaration(declaration) => self.declaration(declaration),
            GlobalDeclaration::TypeAlias(alias) => self.alias(alias),
            GlobalDeclaration::Struct(structure) => self.structure(structure),
            GlobalDeclaration::Function(function) => self.function(function),
            GlobalDeclaration::ConstAssert(assertion) => self.assertion(assertion),
        }
    }

    /// Gives numbers to the identifiers of global declarations.
    pub fn globals(&mut self, declarations: &mut Vec<GlobalDeclarationNode>)
        ensures { Renumbers self.old self.new declarations_tree declarations.old declarations.new }
    {
        for declaration in declarations.iter_mut() {
            self.global(&mut declaration.node);
        }
    }
}
