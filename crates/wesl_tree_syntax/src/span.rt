//! Nodes with the place where they stand in their source.
ghost use Rattle.std.proofs.Common.{rules};
ghost use Rattle.std.specs.Cmp.Rules.{comparing};
ghost use Rattle.std.specs.Ordering.{on};
ghost use Rattle.std.specs.Prelude.{◌≡◌};

use wesl_tree_names::Span;

/// A node with its span, which equality ignores.
#[derive(Debug, Drop)]
pub struct Spanned<T> {
    /// what stands there
    pub node: T,
    /// from where to where
    pub span: Span,
}

impl<T: PartialEq> PartialEq for Spanned<T> {
    ghost eq = { on (λ x. x.node) T.eq };

    ghost laws = { Prim.search (comparing, rules) };

    fn eq(&self, other: &Self) -> bool {
        self.node == other.node
    }
}

/// Two nodes are equal where what they hold is equal, wherever each of them stands.
pub fn law_of_equality<T: PartialEq>(left: &Spanned<T>, right: &Spanned<T>) -> bool
    ensures { result ≡ T.eq left.now.node right.now.node }
{
    left == right
}
