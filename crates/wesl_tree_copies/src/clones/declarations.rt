//! Copies of directives and declarations.
ghost use Rattle.wesl_tree_syntax.specs.Tree.{declaration_node, directive_node, member_node};
ghost use Rattle.wesl_tree_syntax.specs.View.{alias_view, assert_view, declaration_view, directive_view, function_view, global_view, member_view, parameter_view, struct_view};

use crate::clones::{Node, Placed};
use crate::copying::Copying;
use wesl_tree_syntax::{
    ConstAssert, Declaration, FormalParameter, Function, GlobalDeclaration, GlobalDirective,
    Struct, StructMember, TypeAlias,
};

impl Node for GlobalDirective {
    ghost tree = { directive_view };

    fn copied(&self, copying: &mut Copying<'_>) -> GlobalDirective {
        copying.directive(self)
    }
}

impl Placed for GlobalDirective {
    ghost place = { directive_node };
}

impl Node for Declaration {
    ghost tree = { declaration_view };

    fn copied(&self, copying: &mut Copying<'_>) -> Declaration {
        copying.declaration(self)
    }
}

impl Node for TypeAlias {
    ghost tree = { alias_view };

    fn copied(&self, copying: &mut Copying<'_>) -> TypeAlias {
        copying.alias(self)
    }
}

impl Node for StructMember {
    ghost tree = { member_view };

    fn copied(&self, copying: &mut Copying<'_>) -> StructMember {
        copying.member(self)
    }
}

impl Placed for StructMember {
    ghost place = { member_node };
}

impl Node for Struct {
    ghost tree = { struct_view };

    fn copied(&self, copying: &mut Copying<'_>) -> Struct {
        copying.structure(self)
    }
}

impl Node for FormalParameter {
    ghost tree = { parameter_view };

    fn copied(&self, copying: &mut Copying<'_>) -> FormalParameter {
        copying.parameter(self)
    }
}

impl Node for Function {
    ghost tree = { function_view };

    fn copied(&self, copying: &mut Copying<'_>) -> Function {
        copying.function(self)
    }
}

impl Node for ConstAssert {
    ghost tree = { assert_view };

    fn copied(&self, copying: &mut Copying<'_>) -> ConstAssert {
        copying.assertion(self)
    }
}

impl Node for GlobalDeclaration {
    ghost tree = { global_view };

    fn copied(&self, copying: &mut Copying<'_>) -> GlobalDeclaration {
        copying.global(self)
    }
}

impl Placed for GlobalDeclaration {
    ghost place = { declaration_node };
}
