//! Parentheses in declarations.
ghost use Rattle.wesl_tree_syntax.specs.Tree.{member_node, members, parameters};
ghost use Rattle.wesl_tree_syntax.specs.View.{alias_view, assert_view, declaration_view, declarations_tree, function_view, global_view, listed, member_view, parameter_view, placed, struct_view};
ghost use Rattle.wesl_text_guard.specs.Guards.{Guards};

use crate::guard::Guard;
use wesl_tree_syntax::{
    ConstAssert, Declaration, FormalParameter, Function, GlobalDeclaration, GlobalDeclarationNode,
    Struct, StructMember, StructMemberNode, TypeAlias,
};

impl Guard {
    pub(crate) fn declaration(&mut self, declaration: &mut Declaration)
        ensures { Guards self.old self.new declaration_view declaration.old declaration.new }
    {
        self.attributes(&mut declaration.attributes);
        self.optional_type(&mut declaration.ty);
        self.optional_node(&mut declaration.initializer);
    }

    pub(crate) fn assertion(&mut self, assertion: &mut ConstAssert)
        ensures { Guards self.old self.new assert_view assertion.old assertion.new }
    {
        self.attributes(&mut assertion.attributes);
        self.node(&mut assertion.expression);
    }

    fn alias(&mut self, alias: &mut TypeAlias)
        ensures { Guards self.old self.new alias_view alias.old alias.new }
    {
        self.attributes(&mut alias.attributes);
        self.type_expression(&mut alias.ty);
    }

    fn member(&mut self, member: &mut StructMember)
        ensures { Guards self.old self.new member_view member.old member.new }
    {
        self.attributes(&mut member.attributes);
        self.type_expression(&mut member.ty);
    }

    fn members(&mut self, all: &mut Vec<StructMemberNode>)
        ensures { Guards self.old self.new (listed (placed member_view member_node) members) all.old all.new }
    {
        for member in all.iter_mut() {
            self.member(&mut member.node);
        }
    }

    fn structure(&mut self, structure: &mut Struct)
        ensures { Guards self.old self.new struct_view structure.old structure.new }
    {
        self.attributes(&mut structure.attributes);
        self.members(&mut structure.members);
    }

    fn parameter(&mut self, parameter: &mut FormalParameter)
        ensures { Guards self.old self.new parameter_view parameter.old parameter.new }
    {
        self.attributes(&mut parameter.attributes);
        self.type_expression(&mut parameter.ty);
    }

    fn parameters(&mut self, all: &mut Vec<FormalParameter>)
        ensures { Guards self.old self.new (listed parameter_view parameters) all.old all.new }
    {
        for parameter in all.iter_mut() {
            self.parameter(parameter);
        }
    }

    fn function(&mut self, function: &mut Function)
        ensures { Guards self.old self.new function_view function.old function.new }
    {
        self.attributes(&mut function.attributes);
        self.parameters(&mut function.parameters);
        self.attributes(&mut function.return_attributes);
        self.optional_type(&mut function.return_type);
        self.compound(&mut function.body);
    }

    fn global(&mut self, declaration: &mut GlobalDeclaration)
        ensures { Guards self.old self.new global_view declaration.old declaration.new }
    {
        match declaration {
            GlobalDeclaration::Void => {}
            GlobalDeclaration::Declaration(declaration) => self.declaration(declaration),
            GlobalDeclaration::TypeAlias(alias) => self.alias(alias),
            GlobalDeclaration::Struct(structure) => self.structure(structure),
            GlobalDeclaration::Function(function) => self.function(function),
            GlobalDeclaration::ConstAssert(assertion) => self.assertion(assertion),
        }
    }

    /// Puts parentheses in global declarations.
    pub fn globals(&mut self, declarations: &mut Vec<GlobalDeclarationNode>)
        ensures { Guards self.old self.new declarations_tree declarations.old declarations.new }
    {
        for declaration in declarations.iter_mut() {
            self.global(&mut declaration.node);
        }
    }
}
