//! Visits: lists of nodes, and runs of a visitor over them; and rewriting.
ghost use Rattle.std.specs.Prelude.{◌≡◌, IfErr, IfOk, false, true};
ghost use Rattle.wesl_visit_collect.specs.Sought.{test};
ghost use Rattle.wesl_tree_names.specs.declared.errors.Error as error;
ghost use Rattle.wesl_visit_rewrite.specs.Holders.{KeepsNumbers};
ghost use Rattle.wesl_visit_rewrite.specs.Replaced.{ReplacedBelow, StoppedBelow, rule};
ghost use Rattle.wesl_tree_syntax.specs.Nodes.{all_nodes, outermost};
ghost use Rattle.wesl_tree_syntax.specs.Tree.{Tree};
ghost use Rattle.wesl_visit_collect.specs.Lent.{views};
ghost use Rattle.wesl_visit.specs.Run.{Begun, Run};
ghost use Rattle.wesl_visit_collect.specs.Seen.{below};

use crate::collectors::Collect;
use std::alloc::Global;
use wesl_tree::TranslationUnit;
use wesl_tree_names::Error;
use wesl_tree_syntax::{
    Attribute, Attributes, ConstAssert, Declaration, Expression, ExpressionNode, Function,
    GlobalDeclaration, Spanned, Statement, StatementNode, Struct, StructMember, TypeAlias,
    TypeExpression,
};
use wesl_visit_collect::{Kind, Replace, Rewrite};

/// What is done at each node of a kind.
///
/// `meets` relates the state before, the node's tree and the state after. `unchanged` is what a refusal keeps.
pub trait Visitor<T: Kind> {
    ghost meets: { Self → Tree → Self → Type 0 };

    ghost unchanged: { Self → Self → Type 0 };

    /// Meets a node. Refused for want of memory alone.
    fn meet(&mut self, node: &T) -> Result<(), Error>
        ensures met { IfOk result (λ _. meets self.old (T.view node.now) self.new) }
        ensures kept { IfErr result (λ _. unchanged self.old self.new) }
        ensures refused { IfErr result (λ e. e ≡ error.Memory) };

    ghost stays: { (visitor : Self) → unchanged visitor visitor };
}

/// Visits and rewriting of the nodes of kind `T` that lie strictly below, in document order.
///
/// Visits and rewriting of expressions and types pass over words: formulas of conditional attributes (WESL,
/// "Conditional Translation"), and what stands in the attributes of imports and directives.
pub trait Visit<T: Replace>: Collect {
    /// The outermost nodes. Refused for want of memory alone.
    final fn visit(&self, alloc: Global) -> Result<Vec<&T>, Error>
        ensures listed { IfOk result (λ nodes. views T.view nodes.items ≡ outermost (test T.sought) (below T.sought (Self.tree self.now))) }
        ensures refused { IfErr result (λ e. e ≡ error.Memory) }
    {
        let nodes = self.collect(alloc, false)?;
        Ok(nodes)
    }

    /// Meets every node once, a node before those inside it. Refused for want of memory, or where the visitor refuses;
    /// then a beginning of the nodes was met.
    final fn visit_rec<V: Visitor<T>>(&self, alloc: Global, visitor: &mut V) -> Result<(), Error>
    where
        T: Visit<T>,
        ensures met { IfOk result (λ _. Run V.meets (all_nodes (test T.sought) (below T.sought (Self.tree self.now))) visitor.old visitor.new) }
        ensures begun { IfErr result (λ _. Begun V.meets V.unchanged (all_nodes (test T.sought) (below T.sought (Self.tree self.now))) visitor.old visitor.new) }
        ensures refused { IfErr result (λ e. e ≡ error.Memory) }
    {
        let nodes = self.collect(alloc, true)?;
        for node in &nodes {
            visitor.meet(*node)?;
        }
        Ok(())
    }

    /// Replaces the outermost nodes, each by what `rewriter` makes of it. Refused for want of memory, where the rewriter
    /// refuses: the places met before hold their replacement then, and the others are as they were.
    ///
    /// Of a whole unit, the rewriter is to make nodes whose numbers are in the table of such nodes. An empty unit, made
    /// with `alloc`, stands in its place meanwhile, which takes no memory.
    final fn rewrite<R: Rewrite<T>>(&mut self, alloc: Global, rewriter: &mut R) -> Result<(), Error>
        requires numbers { KeepsNumbers (Self.table self.old) R.rewrites }
        ensures replaced { IfOk result (λ _. ReplacedBelow (rule T.sought R.rewrites false) (Self.tree self.old) (Self.tree self.new)) }
        ensures stopped { IfErr result (λ _. StoppedBelow (rule T.sought R.rewrites false) (Self.tree self.old) (Self.tree self.new)) }
        ensures named { Self.table self.new ≡ Self.table self.old }
        ensures same_spans { Self.spans self.new ≡ Self.spans self.old }
        ensures refused { IfErr result (λ e. e ≡ error.Memory) }
    {
        if self.replace(alloc, false, rewriter) {
            Ok(())
        } else {
            Err(Error::Memory)
        }
    }

    /// Replaces all nodes, those inside a node before it, and never enters a replacement. The arguments, what is asked of
    /// the rewriter and what a refusal leaves are those of `rewrite`.
    final fn rewrite_rec<R: Rewrite<T>>(
        &mut self,
        alloc: Global,
        rewriter: &mut R,
    ) -> Result<(), Error>
    where
        T: Visit<T>,
        requires numbers { KeepsNumbers (Self.table self.old) R.rewrites }
        ensures replaced { IfOk result (λ _. ReplacedBelow (rule T.sought R.rewrites true) (Self.tree self.old) (Self.tree self.new)) }
        ensures stopped { IfErr result (λ _. StoppedBelow (rule T.sought R.rewrites true) (Self.tree self.old) (Self.tree self.new)) }
        ensures named { Self.table self.new ≡ Self.table self.old }
        ensures same_spans { Self.spans self.new ≡ Self.spans self.old }
        ensures refused { IfErr result (λ e. e ≡ error.Memory) }
    {
        if self.replace(alloc, true, rewriter) {
            Ok(())
        } else {
            Err(Error::Memory)
        }
    }
}

/// A node with its span has the visits of its plain node.
impl<T: Replace, N: Visit<T>> Visit<T> for Spanned<N> {}

impl Visit<ExpressionNode> for Expression {}

impl Visit<TypeExpression> for Expression {}

impl Visit<TypeExpression> for TypeExpression {}

impl Visit<Attributes> for Statement {}

impl Visit<TypeExpression> for Statement {}

impl Visit<ExpressionNode> for Statement {}

impl Visit<StatementNode> for Statement {}

impl Visit<TypeExpression> for Attribute {}

impl Visit<ExpressionNode> for TranslationUnit {}

impl Visit<StatementNode> for TranslationUnit {}

impl Visit<Attributes> for TranslationUnit {}

impl Visit<TypeExpression> for TranslationUnit {}

impl Visit<ExpressionNode> for GlobalDeclaration {}

impl Visit<StatementNode> for GlobalDeclaration {}

impl Visit<Attributes> for GlobalDeclaration {}

impl Visit<TypeExpression> for GlobalDeclaration {}

impl Visit<TypeExpression> for Declaration {}

impl Visit<TypeExpression> for TypeAlias {}

impl Visit<TypeExpression> for Struct {}

impl Visit<TypeExpression> for StructMember {}

impl Visit<TypeExpression> for Function {}

impl Visit<TypeExpression> for ConstAssert {}
