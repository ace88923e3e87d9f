//! The identifiers of declarations.
ghost use Rattle.wesl_tree_syntax.specs.Tree.{member_node, members as members_kind, parameters as parameters_kind};
ghost use Rattle.wesl_tree_syntax.specs.View.{alias_view, assert_view, declaration_view, function_view, global_view, listed, member_view, parameter_view, placed, struct_view};
ghost use Rattle.wesl_cond_alive.specs.Views.{here_view, spot_view};
ghost use Rattle.wesl_cond_alive.specs.Noted.{Leaves, Walks};

use crate::walk::{Here, Walk};
use wesl_tree_syntax::{
    ConstAssert, Declaration, FormalParameter, Function, GlobalDeclaration, Struct, StructMember,
    StructMemberNode, TypeAlias,
};

impl<'a> Walk<'a> {
    pub fn declaration(&mut self, here: &Here, declaration: &'a Declaration)
        ensures { Walks (here_view here.now) self.old self.new (declaration_view declaration.now) }
    {
        self.attributes(here, &declaration.attributes);
        self.add(here, declaration.ident);
        self.optional_type(here, &declaration.ty);
        self.optional_node(here, &declaration.initializer);
    }

    fn alias(&mut self, here: &Here, alias: &'a TypeAlias)
        ensures { Walks (here_view here.now) self.old self.new (alias_view alias.now) }
    {
        self.attributes(here, &alias.attributes);
        self.add(here, alias.ident);
        self.type_expression(here, &alias.ty);
    }

    fn member(&mut self, here: &Here, member: &'a StructMember)
        ensures { Leaves (here_view here.now) self.old self.new (member_view member.now) }
    {
        self.attributes(here, &member.attributes);
        self.type_expression(here, &member.ty);
    }

    fn members(&mut self, here: &Here, all: &'a Vec<StructMemberNode>)
        ensures { Walks (spot_view here.now) self.old self.new (listed (placed member_view member_node) members_kind all.now) }
    {
        let whole = here.whole();
        let places = self.judge_list(here.set, all);
        for i in 0..all.len() {
            self.member(&whole.place(&places, i), &all[i].node);
        }
    }

    fn structure(&mut self, here: &Here, structure: &'a Struct)
        ensures { Walks (here_view here.now) self.old self.new (struct_view structure.now) }
    {
        self.attributes(here, &structure.attributes);
        self.add(here, structure.ident);
        self.members(here, &structure.members);
    }

    fn parameter(&mut self, here: &Here, parameter: &'a FormalParameter)
        ensures { Walks (here_view here.now) self.old self.new (parameter_view parameter.now) }
    {
        self.attributes(here, &parameter.attributes);
        self.add(here, parameter.ident);
        self.type_expression(here, &parameter.ty);
    }

    fn parameters(&mut self, here: &Here, all: &'a Vec<FormalParameter>)
        ensures { Walks (spot_view here.now) self.old self.new (listed parameter_view parameters_kind all.now) }
    {
        let whole = here.whole();
        let places = self.judge_list(here.set, all);
        for i in 0..all.len() {
            self.parameter(&whole.place(&places, i), &all[i]);
        }
    }

    pub fn assertion(&mut self, here: &Here, assertion: &'a ConstAssert)
        ensures { Walks (here_view here.now) self.old self.new (assert_view assertion.now) }
    {
        self.attributes(here, &assertion.attributes);
        self.node(here, &assertion.expression);
    }

    fn function(&mut self, here: &Here, function: &'a Function)
        ensures { Walks (here_view here.now) self.old self.new (function_view function.now) }
    {
        self.attributes(here, &function.attributes);
        self.add(here, function.ident);
        self.parameters(here, &function.parameters);
        self.attributes(&here.whole(), &function.return_attributes);
        self.optional_type(here, &function.return_type);
        self.compound(&here.whole(), &function.body);
    }

    pub fn global(&mut self, here: &Here, declaration: &'a GlobalDeclaration)
        ensures { Walks (here_view here.now) self.old self.new (global_view declaration.now) }
    {
        match declaration {
            GlobalDeclaration::Void => {}
            GlobalDeclaration::Declaration(declaration) => self.declaration(here, declaration),
            GlobalDeclaration::TypeAlias(alias) => self.alias(here, alias),
            GlobalDeclaration::Struct(structure) => self.structure(here, structure),
            GlobalDeclaration::Function(function) => self.function(here, function),
            GlobalDeclaration::ConstAssert(assertion) => self.assertion(here, assertion),
        }
    }
}
