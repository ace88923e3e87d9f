//! The identifiers of declarations.
ghost use Rattle.wesl_tree_syntax.specs.Tree.{members, member_node, parameters};
ghost use Rattle.wesl_tree_syntax.specs.View.{listed, placed, declaration_view, alias_view, member_view, struct_view, parameter_view, assert_view};
ghost use Rattle.wesl_scope_occurrences.specs.Views.{here_view};
ghost use Rattle.wesl_scope_occurrences.specs.Noted.{Walks};

use crate::handler::Handler;
use crate::here::Here;
use crate::occurrence::Standing;
use crate::walk::Walk;
use wesl_tree::{
    ConstAssert, Declaration, FormalParameter, Struct, StructMember, StructMemberNode, TypeAlias,
};

impl<'a, H: Handler> Walk<'a, H> {
    /// A declaration of a value: its name is local in a function, and visible once the declaration has ended.
    pub fn declaration(&mut self, here: &Here, declaration: &'a Declaration)
        ensures { Walks H.after (here_view here.now) self.old self.new (declaration_view declaration.now) }
    {
        self.attributes(here, &declaration.attributes);
        self.meet(here, here.value_name(), declaration.ident);
        self.optional_type(here, &declaration.ty);
        self.optional_node(here, &declaration.initializer);
        self.end(here, declaration.ident);
    }

    /// A type alias.
    pub fn alias(&mut self, here: &Here, alias: &'a TypeAlias)
        ensures { Walks H.after (here_view here.now) self.old self.new (alias_view alias.now) }
    {
        self.attributes(here, &alias.attributes);
        self.meet(here, Standing::ModuleName, alias.ident);
        self.type_expression(here, &alias.ty);
    }

    /// A member of a struct, whose own name is none that is bound.
    fn member(&mut self, here: &Here, member: &'a StructMember)
        ensures { Walks H.after (here_view here.now) self.old self.new (member_view member.now) }
    {
        self.attributes(here, &member.attributes);
        self.type_expression(here, &member.ty);
    }

    /// The members of a struct, in order.
    fn members(&mut self, here: &Here, all: &'a Vec<StructMemberNode>)
        ensures { Walks H.after (here_view here.now) self.old self.new (listed (placed member_view member_node) members all.now) }
    {
        for member in all {
            self.member(here, &member.node);
        }
    }

    /// A struct.
    pub fn structure(&mut self, here: &Here, structure: &'a Struct)
        ensures { Walks H.after (here_view here.now) self.old self.new (struct_view structure.now) }
    {
        self.attributes(here, &structure.attributes);
        self.meet(here, Standing::ModuleName, structure.ident);
        self.members(here, &structure.members);
    }

    /// A parameter: its attributes and its type stand in the module's block.
    fn parameter(&mut self, here: &Here, parameter: &'a FormalParameter)
        ensures { Walks H.after (here_view here.now) self.old self.new (parameter_view parameter.now) }
    {
        let outside = here.in_module();
        self.attributes(&outside, &parameter.attributes);
        self.meet(here, Standing::Parameter, parameter.ident);
        self.type_expression(&outside, &parameter.ty);
    }

    /// The parameters of a function, in order.
    pub fn parameters(&mut self, here: &Here, all: &'a Vec<FormalParameter>)
        ensures { Walks H.after (here_view here.now) self.old self.new (listed parameter_view parameters all.now) }
    {
        for parameter in all {
            self.parameter(here, parameter);
        }
    }

    /// A `const_assert`.
    pub fn assertion(&mut self, here: &Here, assertion: &'a ConstAssert)
        ensures { Walks H.after (here_view here.now) self.old self.new (assert_view assertion.now) }
    {
        self.attributes(here, &assertion.attributes);
        self.node(here, &assertion.expression);
    }
}
