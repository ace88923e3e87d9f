//! Functions, and declarations of a module.
ghost use Rattle.std.specs.Prelude.{◌≡◌};
ghost use Rattle.wesl_tree_syntax.specs.Tree.{declaration_node};
ghost use Rattle.wesl_tree_syntax.specs.View.{global_view, declarations_tree, placed};

use crate::tables::Tables;
use wesl_tree_syntax::{GlobalDeclaration, GlobalDeclarationNode};

impl Tables<'_> {
    ghost use Rattle.wesl_tree_spelling.specs.Tables.{same_in};

    #[tactic(auto, using(crate::proofs::Bools::steps))]
    fn same_global(&self, left: &GlobalDeclaration, right: &GlobalDeclaration) -> bool
        ensures { result ≡ same_in self.now (global_view left.now) (global_view right.now) }
    {
        match (left, right) {
            (GlobalDeclaration::Void, GlobalDeclaration::Void) => true,
            (GlobalDeclaration::Declaration(left), GlobalDeclaration::Declaration(right)) =>
                self.same_declaration(left, right),
            (GlobalDeclaration::TypeAlias(left), GlobalDeclaration::TypeAlias(right)) =>
                self.same_attributes(&left.attributes, &right.attributes)
                    && self.same_ident(left.ident, right.ident)
                    && self.same_type(&left.ty, &right.ty),
            (GlobalDeclaration::Struct(left), GlobalDeclaration::Struct(right)) =>
                self.same_attributes(&left.attributes, &right.attributes)
                    && self.same_ident(left.ident, right.ident)
                    && self.same_members(&left.members, &right.members),
            (GlobalDeclaration::Function(left), GlobalDeclaration::Function(right)) =>
                self.same_attributes(&left.attributes, &right.attributes)
                    && self.same_ident(left.ident, right.ident)
                    && self.same_parameters(&left.parameters, &right.parameters)
                    && self.same_attributes(&left.return_attributes, &right.return_attributes)
                    && self.same_optional_type(&left.return_type, &right.return_type)
                    && self.same_compound(&left.body, &right.body),
            (GlobalDeclaration::ConstAssert(left), GlobalDeclaration::ConstAssert(right)) =>
                self.same_assert(left, right),
            _ => false,
        }
    }

    #[tactic(auto, using(crate::proofs::Bools::steps))]
    fn same_global_node(&self, left: &GlobalDeclarationNode, right: &GlobalDeclarationNode) -> bool
        ensures { result ≡ same_in self.now (placed global_view declaration_node left.now) (placed global_view declaration_node right.now) }
    {
        self.same_span(left.span, right.span) && self.same_global(&left.node, &right.node)
    }

    pub(crate) fn same_declarations(
        &self,
        left: &Vec<GlobalDeclarationNode>,
        right: &Vec<GlobalDeclarationNode>,
    ) -> bool
        ensures { result ≡ same_in self.now (declarations_tree left.now) (declarations_tree right.now) }
    {
        if left.len() != right.len() {
            return false;
        }
        for i in 0..left.len() {
            if !self.same_global_node(&left[i], &right[i]) {
                return false;
            }
        }
        true
    }
}
