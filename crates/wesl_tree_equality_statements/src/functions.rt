//! Equality of functions and of global declarations.
ghost use Rattle.std.specs.Prelude.{◌≡◌, ◌↔◌, IsTrue};
ghost use Rattle.wesl_tree_syntax.specs.View.{function_view, global_view};
ghost use Rattle.wesl_tree_equality.specs.Numbered.{numbered};

use wesl_tree_syntax::{Function, GlobalDeclaration};

/// Whether two functions are equal: they say the same.
#[tactic(auto, using(crate::proofs::OfFunctions::function_decided))]
pub fn equal_functions(function: &Function, other: &Function) -> bool
    ensures { IsTrue result ↔ (numbered (function_view function.now) ≡ numbered (function_view other.now)) }
{
    function == other
}

/// Whether two global declarations are equal: they are of one kind and say the same.
#[tactic(auto, using(crate::proofs::OfFunctions::global_decided))]
pub fn equal_global_declarations(declaration: &GlobalDeclaration, other: &GlobalDeclaration) -> bool
    ensures { IsTrue result ↔ (numbered (global_view declaration.now) ≡ numbered (global_view other.now)) }
{
    declaration == other
}
