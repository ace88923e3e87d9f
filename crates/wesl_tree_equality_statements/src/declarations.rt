//! Equality of directives and of the declarations that hold no statement.
ghost use Rattle.std.specs.Prelude.{◌≡◌, ◌↔◌, IsTrue};
ghost use Rattle.wesl_tree_syntax.specs.View.{directive_view, alias_view, member_view, struct_view, parameter_view, assert_view, declaration_view};
ghost use Rattle.wesl_tree_equality.specs.Numbered.{numbered};

use wesl_tree_syntax::{
    ConstAssert, Declaration, FormalParameter, GlobalDirective, Struct, StructMember, TypeAlias,
};

/// Whether two directives are equal: they say the same.
#[tactic(auto, using(crate::proofs::OfDeclarations::directive_decided))]
pub fn equal_directives(directive: &GlobalDirective, other: &GlobalDirective) -> bool
    ensures { IsTrue result ↔ (numbered (directive_view directive.now) ≡ numbered (directive_view other.now)) }
{
    directive == other
}

/// Whether two aliases of types are equal: they say the same.
#[tactic(auto, using(crate::proofs::OfDeclarations::alias_decided))]
pub fn equal_type_aliases(alias: &TypeAlias, other: &TypeAlias) -> bool
    ensures { IsTrue result ↔ (numbered (alias_view alias.now) ≡ numbered (alias_view other.now)) }
{
    alias == other
}

/// Whether two members of structures are equal: they say the same.
#[tactic(auto, using(crate::proofs::OfDeclarations::member_decided))]
pub fn equal_members(member: &StructMember, other: &StructMember) -> bool
    ensures { IsTrue result ↔ (numbered (member_view member.now) ≡ numbered (member_view other.now)) }
{
    member == other
}

/// Whether two structures are equal: they say the same.
#[tactic(auto, using(crate::proofs::OfDeclarations::struct_decided))]
pub fn equal_structs(structure: &Struct, other: &Struct) -> bool
    ensures { IsTrue result ↔ (numbered (struct_view structure.now) ≡ numbered (struct_view other.now)) }
{
    structure == other
}

/// Whether two parameters are equal: they say the same.
#[tactic(auto, using(crate::proofs::OfDeclarations::parameter_decided))]
pub fn equal_parameters(parameter: &FormalParameter, other: &FormalParameter) -> bool
    ensures { IsTrue result ↔ (numbered (parameter_view parameter.now) ≡ numbered (parameter_view other.now)) }
{
    parameter == other
}

/// Whether two constant assertions are equal: they say the same.
#[tactic(auto, using(crate::proofs::OfDeclarations::assert_decided))]
pub fn equal_const_asserts(assertion: &ConstAssert, other: &ConstAssert) -> bool
    ensures { IsTrue result ↔ (numbered (assert_view assertion.now) ≡ numbered (assert_view other.now)) }
{
    assertion == other
}

/// Whether two declarations of values are equal: they say the same.
#[tactic(auto, using(crate::proofs::OfDeclarations::declaration_decided))]
pub fn equal_declarations(declaration: &Declaration, other: &Declaration) -> bool
    ensures { IsTrue result ↔ (numbered (declaration_view declaration.now) ≡ numbered (declaration_view other.now)) }
{
    declaration == other
}
