//! Directives, and declarations but for functions.
ghost use Rattle.std.specs.Prelude.{◌≡◌};
ghost use Rattle.wesl_tree_syntax.specs.Tree.{directive_node, member_node, members, parameters};
ghost use Rattle.wesl_tree_syntax.specs.View.{access_tree, kind_tree, directive_view, directives_tree, declaration_view, member_view, parameter_view, assert_view, listed, optional, placed};

use crate::tables::{Tables, same_texts};
use wesl_tree_syntax::{
    AccessMode, ConstAssert, Declaration, DeclarationKind, FormalParameter, GlobalDirective,
    GlobalDirectiveNode, StructMember, StructMemberNode,
};

impl Tables<'_> {
    ghost use Rattle.wesl_tree_spelling.specs.Tables.{same_in};

    #[tactic(auto, using(crate::proofs::Bools::steps))]
    fn same_directive(&self, left: &GlobalDirective, right: &GlobalDirective) -> bool
        ensures { result ≡ same_in self.now (directive_view left.now) (directive_view right.now) }
    {
        match (left, right) {
            (
                GlobalDirective::Diagnostic {
                    attributes: left_attributes,
                    severity: left,
                    rule: left_rule,
                },
                GlobalDirective::Diagnostic {
                    attributes: right_attributes,
                    severity: right,
                    rule: right_rule,
                },
            ) => self.same_attributes(left_attributes, right_attributes)
                && *left == *right
                && *left_rule == *right_rule,
            (
                GlobalDirective::Enable {
                    attributes: left_attributes,
                    names: left,
                },
                GlobalDirective::Enable {
                    attributes: right_attributes,
                    names: right,
                },
            )
            | (
                GlobalDirective::Requires {
                    attributes: left_attributes,
                    names: left,
                },
                GlobalDirective::Requires {
                    attributes: right_attributes,
                    names: right,
                },
            ) => self.same_attributes(left_attributes, right_attributes) && same_texts(left, right),
            _ => false,
        }
    }

    #[tactic(auto, using(crate::proofs::Bools::steps))]
    fn same_directive_node(&self, left: &GlobalDirectiveNode, right: &GlobalDirectiveNode) -> bool
        ensures { result ≡ same_in self.now (placed directive_view directive_node left.now) (placed directive_view directive_node right.now) }
    {
        self.same_span(left.span, right.span) && self.same_directive(&left.node, &right.node)
    }

    pub(crate) fn same_directives(
        &self,
        left: &Vec<GlobalDirectiveNode>,
        right: &Vec<GlobalDirectiveNode>,
    ) -> bool
        ensures { result ≡ same_in self.now (directives_tree left.now) (directives_tree right.now) }
    {
        if left.len() != right.len() {
            return false;
        }
        for i in 0..left.len() {
            if !self.same_directive_node(&left[i], &right[i]) {
                return false;
            }
        }
        true
    }

    #[tactic(auto, using(crate::proofs::Bools::steps))]
    fn same_access(&self, left: &Option<AccessMode>, right: &Option<AccessMode>) -> bool
        ensures { result ≡ same_in self.now (optional access_tree left.now) (optional access_tree right.now) }
    {
        match (left, right) {
            (None, None) => true,
            (Some(left), Some(right)) => *left == *right,
            _ => false,
        }
    }

    #[tactic(auto, using(crate::proofs::Bools::steps))]
    fn same_kind(&self, left: &DeclarationKind, right: &DeclarationKind) -> bool
        ensures { result ≡ same_in self.now (kind_tree left.now) (kind_tree right.now) }
    {
        match (left, right) {
            (DeclarationKind::Const, DeclarationKind::Const) => true,
            (DeclarationKind::Override, DeclarationKind::Override) => true,
            (DeclarationKind::Let, DeclarationKind::Let) => true,
            (DeclarationKind::Var(None), DeclarationKind::Var(None)) => true,
            (
                DeclarationKind::Var(Some((left, left_access))),
                DeclarationKind::Var(Some((right, right_access))),
            ) => *left == *right && self.same_access(left_access, right_access),
            _ => false,
        }
    }

    #[tactic(auto, using(crate::proofs::Bools::steps))]
    pub(crate) fn same_declaration(&self, left: &Declaration, right: &Declaration) -> bool
        ensures { result ≡ same_in self.now (declaration_view left.now) (declaration_view right.now) }
    {
        self.same_attributes(&left.attributes, &right.attributes)
            && self.same_kind(&left.kind, &right.kind)
            && self.same_ident(left.ident, right.ident)
            && self.same_optional_type(&left.ty, &right.ty)
            && self.same_optional_node(&left.initializer, &right.initializer)
    }

    #[tactic(auto, using(crate::proofs::Bools::steps))]
    fn same_member(&self, left: &StructMember, right: &StructMember) -> bool
        ensures { result ≡ same_in self.now (member_view left.now) (member_view right.now) }
    {
        self.same_attributes(&left.attributes, &right.attributes)
            && left.name == right.name
            && self.same_type(&left.ty, &right.ty)
    }

    #[tactic(auto, using(crate::proofs::Bools::steps))]
    fn same_member_node(&self, left: &StructMemberNode, right: &StructMemberNode) -> bool
        ensures { result ≡ same_in self.now (placed member_view member_node left.now) (placed member_view member_node right.now) }
    {
        self.same_span(left.span, right.span) && self.same_member(&left.node, &right.node)
    }

    pub(crate) fn same_members(
        &self,
        left: &Vec<StructMemberNode>,
        right: &Vec<StructMemberNode>,
    ) -> bool
        ensures { result ≡ same_in self.now (listed (placed member_view member_node) members left.now) (listed (placed member_view member_node) members right.now) }
    {
        if left.len() != right.len() {
            return false;
        }
        for i in 0..left.len() {
            if !self.same_member_node(&left[i], &right[i]) {
                return false;
            }
        }
        true
    }

    #[tactic(auto, using(crate::proofs::Bools::steps))]
    fn same_parameter(&self, left: &FormalParameter, right: &FormalParameter) -> bool
        ensures { result ≡ same_in self.now (parameter_view left.now) (parameter_view right.now) }
    {
        self.same_attributes(&left.attributes, &right.attributes)
            && self.same_ident(left.ident, right.ident)
            && self.same_type(&left.ty, &right.ty)
    }

    pub(crate) fn same_parameters(
        &self,
        left: &Vec<FormalParameter>,
        right: &Vec<FormalParameter>,
    ) -> bool
        ensures { result ≡ same_in self.now (listed parameter_view parameters left.now) (listed parameter_view parameters right.now) }
    {
        if left.len() != right.len() {
            return false;
        }
        for i in 0..left.len() {
            if !self.same_parameter(&left[i], &right[i]) {
                return false;
            }
        }
        true
    }

    #[tactic(auto, using(crate::proofs::Bools::steps))]
    pub(crate) fn same_assert(&self, left: &ConstAssert, right: &ConstAssert) -> bool
        ensures { result ≡ same_in self.now (assert_view left.now) (assert_view right.now) }
    {
        self.same_attributes(&left.attributes, &right.attributes)
            && self.same_node(&left.expression, &right.expression)
    }
}
