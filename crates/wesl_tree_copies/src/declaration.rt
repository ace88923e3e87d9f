//! Copies of declarations.
ghost use Rattle.wesl_tree_syntax.specs.Tree.{declaration_node, member_node, members, parameters};
ghost use Rattle.wesl_tree_syntax.specs.View.{alias_view, assert_view, declaration_view, declarations_tree, function_view, global_view, listed, member_view, parameter_view, placed, struct_view};
ghost use Rattle.wesl_tree_copies.specs.Copied.{Copies};

use crate::copying::Copying;
use wesl_tree_syntax::{
    ConstAssert, Declaration, FormalParameter, Function, GlobalDeclaration, GlobalDeclarationNode,
    Spanned, Struct, StructMember, StructMemberNode, TypeAlias,
};

impl<'a> Copying<'a> {
    /// A copy of a declaration.
    pub fn declaration(&mut self, declaration: &Declaration) -> Declaration
        ensures { Copies self.old self.new declaration_view declaration.now result }
    {
        Declaration {
            attributes: self.attributes(&declaration.attributes),
            kind: declaration.kind,
            ident: self.number(declaration.ident),
            ty: self.optional_type(&declaration.ty),
            initializer: self.optional_node(&declaration.initializer),
        }
    }

    /// A copy of a type alias.
    pub fn alias(&mut self, alias: &TypeAlias) -> TypeAlias
        ensures { Copies self.old self.new alias_view alias.now result }
    {
        TypeAlias {
            attributes: self.attributes(&alias.attributes),
            ident: self.number(alias.ident),
            ty: self.type_expression(&alias.ty),
        }
    }

    /// A copy of a member of a structure.
    pub fn member(&mut self, member: &StructMember) -> StructMember
        ensures { Copies self.old self.new member_view member.now result }
    {
        StructMember {
            attributes: self.attributes(&member.attributes),
            name: self.text(&member.name),
            ty: self.type_expression(&member.ty),
        }
    }

    /// A copy of a member of a structure.
    pub fn member_node(&mut self, node: &StructMemberNode) -> StructMemberNode
        ensures { Copies self.old self.new (placed member_view member_node) node.now result }
    {
        Spanned {
            node: self.member(&node.node),
            span: node.span,
        }
    }

    fn members(&mut self, all: &Vec<StructMemberNode>) -> Vec<StructMemberNode>
        ensures { Copies self.old self.new (listed (placed member_view member_node) members) all.now result }
    {
        let mut copies = self.list(all.len());
        for member in all {
            let copy = self.member_node(member);
            self.push(&mut copies, copy);
        }
        copies
    }

    /// A copy of a structure.
    pub fn structure(&mut self, structure: &Struct) -> Struct
        ensures { Copies self.old self.new struct_view structure.now result }
    {
        Struct {
            attributes: self.attributes(&structure.attributes),
            ident: self.number(structure.ident),
            members: self.members(&structure.members),
        }
    }

    /// A copy of a parameter of a function.
    pub fn parameter(&mut self, parameter: &FormalParameter) -> FormalParameter
        ensures { Copies self.old self.new parameter_view parameter.now result }
    {
        FormalParameter {
            attributes: self.attributes(&parameter.attributes),
            ident: self.number(parameter.ident),
            ty: self.type_expression(&parameter.ty),
        }
    }

    fn parameters(&mut self, all: &Vec<FormalParameter>) -> Vec<FormalParameter>
        ensures { Copies self.old self.new (listed parameter_view parameters) all.now result }
    {
        let mut copies = self.list(all.len());
        for parameter in all {
            let copy = self.parameter(parameter);
            self.push(&mut copies, copy);
        }
        copies
    }

    /// A copy of a function.
    pub fn function(&mut self, function: &Function) -> Function
        ensures { Copies self.old self.new function_view function.now result }
    {
        Function {
            attributes: self.attributes(&function.attributes),
            ident: self.number(function.ident),
            parameters: self.parameters(&function.parameters),
            return_attributes: self.attributes(&function.return_attributes),
            return_type: self.optional_type(&function.return_type),
            body: self.compound(&function.body),
        }
    }

    /// A copy of an assertion.
    pub fn assertion(&mut self, assertion: &ConstAssert) -> ConstAssert
        ensures { Copies self.old self.new assert_view assertion.now result }
    {
        ConstAssert {
            attributes: self.attributes(&assertion.attributes),
            expression: self.node(&assertion.expression),
        }
    }

    /// A copy of a global declaration.
    pub fn global(&mut self, declaration: &GlobalDeclaration) -> GlobalDeclaration
        ensures { Copies self.old self.new global_view declaration.now result }
    {
        match declaration {
            GlobalDeclaration::Void => GlobalDeclaration::Void,
            GlobalDeclaration::Declaration(declaration) => GlobalDeclaration::Declaration(
                self.declaration(declaration),
            ),
            GlobalDeclaration::TypeAlias(alias) => {
                GlobalDeclaration::TypeAlias(self.alias(alias))
            }
            GlobalDeclaration::Struct(structure) => {
                GlobalDeclaration::Struct(self.structure(structure))
            }
            GlobalDeclaration::Function(function) => {
                GlobalDeclaration::Function(self.function(function))
            }
            GlobalDeclaration::ConstAssert(assertion) => {
                GlobalDeclaration::ConstAssert(self.assertion(assertion))
            }
        }
    }

    /// A copy of a global declaration.
    pub fn global_node(&mut self, node: &GlobalDeclarationNode) -> GlobalDeclarationNode
        ensures { Copies self.old self.new (placed global_view declaration_node) node.now result }
    {
        Spanned {
            node: self.global(&node.node),
            span: node.span,
        }
    }

    /// A copy of global declarations.
    pub fn globals(
        &mut self,
        declarations: &Vec<GlobalDeclarationNode>,
    ) -> Vec<GlobalDeclarationNode>
        ensures { Copies self.old self.new declarations_tree declarations.now result }
    {
        let mut copies = self.list(declarations.len());
        for declaration in declarations {
            let copy = self.global_node(declaration);
            self.push(&mut copies, copy);
        }
        copies
    }
}
