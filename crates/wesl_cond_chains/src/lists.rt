//! What stays of a list of nodes, left within its own room.
ghost use Rattle.std.specs.Prelude.{◌≡◌};
ghost use Rattle.wesl_cond_chains.specs.Conditions.{attributes_in, is_void, recast, with_attributes};
ghost use Rattle.wesl_cond_chains.specs.Lists.{element, still};
ghost use Rattle.wesl_cond_chains.specs.Judging.{Closes};
ghost use Rattle.wesl_cond_chains.specs.Nodes.{answers, attributes_forest, nodes_forest, optional_forest};
ghost use Rattle.wesl_cond_chains.specs.Places.{span_of};
ghost use Rattle.wesl_cond_chains.specs.Following.{LeavesBoth, LeavesLast, LeavesNodes, PassesNodes, TakesNode, left_of_list};
ghost use Rattle.wesl_tree_syntax.specs.Tree.{Tree, before, end};

use crate::conditions::{follows_on, holds};
use wesl_cond_features::{Chain, Features, Role};
use wesl_tree_names::{Names, Span};
use wesl_tree_syntax::AttributeNode;

/// A node whose attributes may hold a condition.
pub trait Conditional {
    ghost tree: { Self → Tree };

    /// Whether it is nothing but a `;`.
    fn is_void(&self) -> bool
        ensures { result ≡ is_void (tree self.now).label (tree self.now).children };

    /// The place of the node, `0..0` where its kind has none.
    fn span(&self) -> Span
        ensures { result ≡ span_of (tree self.now).label };

    /// Its attributes.
    fn attributes(&self) -> &[AttributeNode]
        ensures { attributes_forest result.now ≡ attributes_in (before (tree self.now) end) };

    /// Marks its condition by its role in a chain.
    fn recast(&mut self, role: Role, names: &Names, features: &Features)
        ensures { before (tree self.new) end ≡ with_attributes (recast (answers names.now features.now) role) (before (tree self.old) end) };
}

/// Takes the next node of a list, marks it if it stays, and says whether it does.
fn keep<T: Conditional>(node: &mut T, chain: &mut Chain, names: &Names, features: &Features) -> bool
    ensures { TakesNode element (answers names.now features.now) chain.old (T.tree node.old) chain.new (T.tree node.new) result }
{
    if node.is_void() {
        return false;
    }
    let follows_on = follows_on(node.attributes());
    let holds = holds(node.attributes(), names, features);
    match chain.take(follows_on, holds) {
        Some(role) => {
            node.recast(role, names, features);
            true
        }
        None => false,
    }
}

/// Takes the next node of a list as it is, and says whether it stays. `chain` is what has become of the branches before.
pub fn stays<T: Conditional>(
    node: &T,
    chain: &mut Chain,
    names: &Names,
    features: &Features,
) -> bool
    ensures { TakesNode still (answers names.now features.now) chain.old (T.tree node.now) chain.new (T.tree node.now) result }
{
    if node.is_void() {
        return false;
    }
    let follows_on = follows_on(node.attributes());
    let holds = holds(node.attributes(), names, features);
    chain.take(follows_on, holds).is_some()
}

/// Takes the nodes at the beginning of a list as they are.
fn follow<T: Conditional>(nodes: &Vec<T>, chain: &mut Chain, names: &Names, features: &Features)
    ensures { PassesNodes (answers names.now features.now) T.tree chain.old nodes.now.items chain.new }
{
    for node in nodes {
        let _ = stays(node, chain, names, features);
    }
}

/// Whether there is a node that closes a list and stays there.
pub fn closes<T: Conditional, L: Conditional>(
    nodes: &Vec<T>,
    last: &Option<L>,
    names: &Names,
    features: &Features,
) -> bool
    ensures { Closes (answers names.now features.now) (nodes_forest T.tree nodes.now.items) (optional_forest L.tree last.now) result }
{
    let mut chain = Chain::new();
    follow(nodes, &mut chain, names, features);
    match last {
        Some(node) => stays(node, &mut chain, names, features),
        None => false,
    }
}

/// Leaves of the nodes those that stay, moved within the list.
fn settle<T: Conditional + Drop>(
    nodes: &mut Vec<T>,
    chain: &mut Chain,
    names: &Names,
    features: &Features,
)
    ensures { LeavesNodes (answers names.now features.now) T.tree chain.old nodes.old.items chain.new nodes.new.items }
{
    let mut kept = 0;
    for read in 0..nodes.len() {
        if keep(&mut nodes[read], chain, names, features) {
            nodes.swap(kept, read);
            kept += 1;
        }
    }
    nodes.truncate(kept);
}

/// Leaves what closes a list where it stays.
fn settle_last<T: Conditional + Drop>(
    last: &mut Option<T>,
    chain: &mut Chain,
    names: &Names,
    features: &Features,
)
    ensures { LeavesLast (answers names.now features.now) T.tree chain.old last.old chain.new last.new }
{
    if let Some(node) = last {
        if !keep(node, chain, names, features) {
            *last = None;
        }
    }
}

/// Leaves what is left of a list whose nodes are already judged inside.
pub fn settle_list<T: Conditional + Drop>(nodes: &mut Vec<T>, names: &Names, features: &Features)
    ensures { nodes_forest T.tree nodes.new.items ≡ left_of_list (answers names.now features.now) (nodes_forest T.tree nodes.old.items) }
{
    let mut chain = Chain::new();
    settle(nodes, &mut chain, names, features);
}

/// Leaves what is left of a list with what closes it, all of which is already judged inside.
pub fn settle_both<T: Conditional + Drop, L: Conditional + Drop>(
    nodes: &mut Vec<T>,
    last: &mut Option<L>,
    names: &Names,
    features: &Features,
)
    ensures { LeavesBoth (answers names.now features.now) T.tree nodes.old.items L.tree last.old nodes.new.items last.new }
{
    let mut chain = Chain::new();
    settle(nodes, &mut chain, names, features);
    settle_last(last, &mut chain, names, features);
}
