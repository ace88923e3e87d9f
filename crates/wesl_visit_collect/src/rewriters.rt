//! What rewriting does to a node of a kind.
ghost use Rattle.std.specs.Prelude.{◌≡◌, ◌&&◌, is_ok, not, IfErr, IfOk};
ghost use Rattle.wesl_tree_names.specs.declared.errors.Error as error;
ghost use Rattle.wesl_visit_collect.specs.Picks.{seeks_attributes, seeks_expressions, seeks_statements, seeks_types};
ghost use Rattle.wesl_visit_collect.specs.Finished.{Finished};
ghost use Rattle.wesl_tree_syntax.specs.Tree.{Tree};
ghost use Rattle.wesl_tree_syntax.specs.View.{attributes_tree, expression_tree, statement_tree, type_view};

use crate::kinds::Kind;
use wesl_tree_names::Error;
use wesl_tree_syntax::{Attributes, ExpressionNode, StatementNode, TypeExpression};

/// What a node of a kind becomes. `rewrites` relates the trees before and after.
pub trait Rewrite<T: Kind> {
    ghost rewrites: { Tree → Tree → Type 0 };

    /// Puts another node in place of this one. Refused for want of memory alone, and then the node is as it was.
    fn rewrite(&mut self, node: &mut T) -> Result<(), Error>
        ensures rewritten { IfOk result (λ _. rewrites (T.view node.old) (T.view node.new)) }
        ensures kept { IfErr result (λ _. T.view node.new ≡ T.view node.old) }
        ensures refused { IfErr result (λ e. e ≡ error.Memory) };
}

/// A kind whose nodes are replaced in place.
pub trait Replace: Kind {
    /// Whether expressions are of this kind and are taken as they stand, without those inside them.
    fn takes_whole_expressions(deep: bool) -> bool
        ensures { result ≡ (seeks_expressions Self.sought && not deep) };

    /// Whether types are of this kind and are taken as they stand, without those inside them.
    fn takes_whole_types(deep: bool) -> bool
        ensures { result ≡ (seeks_types Self.sought && not deep) };

    /// Whether statements are of this kind and are taken as they stand, without those inside them.
    fn takes_whole_statements(deep: bool) -> bool
        ensures { result ≡ (seeks_statements Self.sought && not deep) };

    /// Whether lists of attributes are of this kind and are taken as they stand, without those inside them.
    fn takes_whole_attributes(deep: bool) -> bool
        ensures { result ≡ (seeks_attributes Self.sought && not deep) };

    /// Rewrites an expression, where this is the kind of expressions and no rewriter refused before.
    fn finish_expression<R: Rewrite<Self>>(
        node: &mut ExpressionNode,
        rewriter: &mut R,
        goes: bool,
    ) -> bool
        ensures { Finished (seeks_expressions Self.sought) R.rewrites goes (expression_tree node.old) result (expression_tree node.new) };

    /// Rewrites a type, where this is the kind of types and no rewriter refused before.
    fn finish_type<R: Rewrite<Self>>(
        node: &mut TypeExpression,
        rewriter: &mut R,
        goes: bool,
    ) -> bool
        ensures { Finished (seeks_types Self.sought) R.rewrites goes (type_view node.old) result (type_view node.new) };

    /// Rewrites a statement, where this is the kind of statements and no rewriter refused before.
    fn finish_statement<R: Rewrite<Self>>(
        node: &mut StatementNode,
        rewriter: &mut R,
        goes: bool,
    ) -> bool
        ensures { Finished (seeks_statements Self.sought) R.rewrites goes (statement_tree node.old) result (statement_tree node.new) };

    /// Rewrites a list of attributes, where this is the kind of lists of attributes and no rewriter refused before.
    fn finish_attributes<R: Rewrite<Self>>(
        node: &mut Attributes,
        rewriter: &mut R,
        goes: bool,
    ) -> bool
        ensures { Finished (seeks_attributes Self.sought) R.rewrites goes (attributes_tree node.old) result (attributes_tree node.new) };
}

// Whether a rewriter did not refuse. Why it did is let go of here, for all kinds.
fn is_granted<E: Drop>(outcome: Result<(), E>) -> bool
    ensures { result ≡ is_ok outcome }
{
    outcome.is_ok()
}

impl Replace for ExpressionNode {
    fn takes_whole_expressions(deep: bool) -> bool {
        !deep
    }

    fn takes_whole_types(_: bool) -> bool {
        false
    }

    fn takes_whole_statements(_: bool) -> bool {
        false
    }

    fn takes_whole_attributes(_: bool) -> bool {
        false
    }

    fn finish_expression<R: Rewrite<ExpressionNode>>(
        node: &mut ExpressionNode,
        rewriter: &mut R,
        goes: bool,
    ) -> bool {
        if goes {
            is_granted(rewriter.rewrite(node))
        } else {
            false
        }
    }

    fn finish_type<R: Rewrite<ExpressionNode>>(
        _: &mut TypeExpression,
        _: &mut R,
        goes: bool,
    ) -> bool {
        goes
    }

    fn finish_statement<R: Rewrite<ExpressionNode>>(
        _: &mut StatementNode,
        _: &mut R,
        goes: bool,
    ) -> bool {
        goes
    }

    fn finish_attributes<R: Rewrite<ExpressionNode>>(
        _: &mut Attributes,
        _: &mut R,
        goes: bool,
    ) -> bool {
        goes
    }
}

impl Replace for TypeExpression {
    fn takes_whole_expressions(_: bool) -> bool {
        false
    }

    fn takes_whole_types(deep: bool) -> bool {
        !deep
    }

    fn takes_whole_statements(_: bool) -> bool {
        false
    }

    fn takes_whole_attributes(_: bool) -> bool {
        false
    }

    fn finish_expression<R: Rewrite<TypeExpression>>(
        _: &mut ExpressionNode,
        _: &mut R,
        goes: bool,
    ) -> bool {
        goes
    }

    fn finish_type<R: Rewrite<TypeExpression>>(
        node: &mut TypeExpression,
        rewriter: &mut R,
        goes: bool,
    ) -> bool {
        if goes {
            is_granted(rewriter.rewrite(node))
        } else {
            false
        }
    }

    fn finish_statement<R: Rewrite<TypeExpression>>(
        _: &mut StatementNode,
        _: &mut R,
        goes: bool,
    ) -> bool {
        goes
    }

    fn finish_attributes<R: Rewrite<TypeExpression>>(
        _: &mut Attributes,
        _: &mut R,
        goes: bool,
    ) -> bool {
        goes
    }
}

impl Replace for StatementNode {
    fn takes_whole_expressions(_: bool) -> bool {
        false
    }

    fn takes_whole_types(_: bool) -> bool {
        false
    }

    fn takes_whole_statements(deep: bool) -> bool {
        !deep
    }

    fn takes_whole_attributes(_: bool) -> bool {
        false
    }

    fn finish_expression<R: Rewrite<StatementNode>>(
        _: &mut ExpressionNode,
        _: &mut R,
        goes: bool,
    ) -> bool {
        goes
    }

    fn finish_type<R: Rewrite<StatementNode>>(
        _: &mut TypeExpression,
        _: &mut R,
        goes: bool,
    ) -> bool {
        goes
    }

    fn finish_statement<R: Rewrite<StatementNode>>(
        node: &mut StatementNode,
        rewriter: &mut R,
        goes: bool,
    ) -> bool {
        if goes {
            is_granted(rewriter.rewrite(node))
        } else {
            false
        }
    }

    fn finish_attributes<R: Rewrite<StatementNode>>(
        _: &mut Attributes,
        _: &mut R,
        goes: bool,
    ) -> bool {
        goes
    }
}

impl Replace for Attributes {
    fn takes_whole_expressions(_: bool) -> bool {
        false
    }

    fn takes_whole_types(_: bool) -> bool {
        false
    }

    fn takes_whole_statements(_: bool) -> bool {
        false
    }

    fn takes_whole_attributes(deep: bool) -> bool {
        !deep
    }

    fn finish_expression<R: Rewrite<Attributes>>(
        _: &mut ExpressionNode,
        _: &mut R,
        goes: bool,
    ) -> bool {
        goes
    }

    fn finish_type<R: Rewrite<Attributes>>(_: &mut TypeExpression, _: &mut R, goes: bool) -> bool {
        goes
    }

    fn finish_statement<R: Rewrite<Attributes>>(
        _: &mut StatementNode,
        _: &mut R,
        goes: bool,
    ) -> bool {
        goes
    }

    fn finish_attributes<R: Rewrite<Attributes>>(
        node: &mut Attributes,
        rewriter: &mut R,
        goes: bool,
    ) -> bool {
        if goes {
            is_granted(rewriter.rewrite(node))
        } else {
            false
        }
    }
}
