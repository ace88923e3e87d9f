//! Which choices keep a node of a judged list.
ghost use Rattle.std.specs.Prelude.{◌≡◌, ℕ, [], ◌∷◌, ◌++◌, IfOk, List, false, length, map, true};
ghost use Rattle.wesl_cond_chains.specs.Lists.{Element, elements};
ghost use Rattle.wesl_cond_chains.specs.Nodes.{optional_forest};
ghost use Rattle.wesl_cond_chains.specs.Picked.{is_true};
ghost use Rattle.wesl_cond_choices.specs.Choices.{has as holds};
ghost use Rattle.wesl_tree_syntax.specs.Tree.{forest_of};
ghost use Rattle.wesl_cond_alive.specs.Choices.{IsSetOf};
ghost use Rattle.wesl_cond_alive.specs.Kept.{kept_indexes};
ghost use Rattle.wesl_cond_alive.specs.Positions.{has};
ghost use Rattle.wesl_cond_alive.specs.Sound.{outline_of};
ghost use Rattle.wesl_cond_alive.specs.Views.{outline_view};
ghost use Rattle.wesl_cond_positions.specs.Found.{IsFound, IsFreeAfter, choice_in, keeps_leaf, keeps_node};

use crate::lookup::Lookup;
use std::alloc::{AllocError, Global};
use wesl_cond_alive::{Outline, formula_set};
use wesl_cond_chains::Conditional;
use wesl_cond_choices::choices::Choices;

/// Puts an outline behind others.
fn put<'a>(outlines: &mut Vec<Outline<'a>>, outline: Outline<'a>) -> Result<(), AllocError>
    ensures { IfOk result (λ _. outlines.new.items ≡ outlines.old.items ++ outline.entry ∷ []) }
{
    match outlines.push(outline) {
        Ok(()) => Ok(()),
        Err(_) => Err(AllocError),
    }
}

/// What matters of the nodes of a list.
fn outlines<T: Conditional>(alloc: Global, nodes: &Vec<T>) -> Result<Vec<Outline<'_>>, AllocError>
    ensures { IfOk result (λ found. map outline_view found.items ≡ map outline_of (elements false (forest_of (map T.tree nodes.now.items)))) }
{
    let mut found = Vec::new(alloc);
    for node in nodes {
        put(&mut found, Outline::of(node))?;
    }
    Ok(found)
}

/// What matters of what closes a list is put behind that of its nodes.
fn put_last<'a, T: Conditional>(
    found: &mut Vec<Outline<'a>>,
    last: &'a Option<T>,
) -> Result<(), AllocError>
    ensures { IfOk result (λ _. map outline_view found.new.items ≡ map outline_view found.old.items ++ map outline_of (elements true (optional_forest T.tree last.now))) }
{
    match last {
        Some(node) => put(found, Outline::of(node)),
        None => Ok(()),
    }
}

/// What matters of the nodes of a list and of what closes it.
pub fn outlines_of_both<'a, T: Conditional, L: Conditional>(
    alloc: Global,
    nodes: &'a Vec<T>,
    last: &'a Option<L>,
) -> Result<Vec<Outline<'a>>, AllocError>
    ensures { IfOk result (λ found. map outline_view found.items ≡ map outline_of (elements false (forest_of (map T.tree nodes.now.items)) ++ elements true (optional_forest L.tree last.now))) }
{
    let mut found = outlines(alloc, nodes)?;
    put_last(&mut found, last)?;
    Ok(found)
}

impl<'a> Lookup<'a> {
    /// All choices.
    pub fn all(&self) -> Result<Choices, AllocError>
        ensures { IfOk result (IsFound self.now (λ choice. true)) }
    {
        Choices::all(self.alloc, self.flags.len())
    }

    /// No choice.
    pub fn none(&self) -> Result<Choices, AllocError>
        ensures { IfOk result (IsFound self.now (λ choice. false)) }
    {
        Choices::none(self.alloc, self.flags.len())
    }

    /// All choices, or none.
    pub fn all_if(&self, is_there: bool) -> Result<Choices, AllocError>
        ensures { IfOk result (IsFound self.now (λ choice. is_there)) }
    {
        if is_there { self.all() } else { self.none() }
    }

    /// The choices under which the condition of a node is true.
    fn branch(&self, node: &Outline<'_>) -> Result<Choices, AllocError>
        ensures { IfOk result (IsFound self.now (λ choice. is_true choice (outline_view node.now).condition)) }
    {
        match node.formula() {
            Some(formula) => formula_set(self.alloc, self.names, self.flags, formula),
            None => self.all(),
        }
    }

    /// Leaves of the choices under which no branch of a chain was true those of which it is so after a node, too.
    fn narrow(
        &self,
        free: &mut Choices,
        node: &Outline<'_>,
        is_whole: bool,
    ) -> Result<(), AllocError>
        requires { free.old.flags ≡ length self.now.flags.now }
        ensures { IfOk result (λ _. IsFreeAfter self.now is_whole (outline_view node.now) free.old free.new) }
    {
        if node.is_void || is_whole {
            return Ok(());
        }
        if !node.follows_on() {
            *free = self.all()?;
        }
        free.without(&self.branch(node)?);
        Ok(())
    }

    /// The choices that keep a node, by whether it stays whole, and those under which no branch before it was true.
    fn node(
        &self,
        node: &Outline<'_>,
        is_whole: bool,
        free: &Choices,
    ) -> Result<Choices, AllocError>
        requires { free.now.flags ≡ length self.now.flags.now }
        ensures over { IfOk result (λ c. c.flags ≡ length self.now.flags.now) }
        ensures kept { IfOk result (IsSetOf (length self.now.flags.now) (λ k. keeps_node (choice_in self.now k) is_whole (holds free.now k) (outline_view node.now))) }
    {
        if node.is_void {
            return self.none();
        }
        if is_whole {
            return self.all();
        }
        let mut kept = self.branch(node)?;
        if node.follows_on() {
            kept.and(free);
        }
        Ok(kept)
    }

    /// The choices that keep the node with this number of the list that has these outlines.
    pub fn numbered(&self, nodes: &[Outline<'_>], number: usize) -> Result<Choices, AllocError>
        ensures over { IfOk result (λ c. c.flags ≡ length self.now.flags.now) }
        ensures kept { IfOk result (λ c. (xs : List (Element ℕ)) → map outline_view nodes.now ≡ map outline_of xs → IsFound self.now (λ choice. has (kept_indexes choice xs) number) c) }
    {
        if number >= nodes.len() {
            return self.none();
        }
        let mut free = self.all()?;
        let mut is_whole = true;
        for i in 0..number {
            let node = &nodes[i];
            let others = &nodes[i + 1..];
            is_whole = node.whole_after(is_whole, others);
            self.narrow(&mut free, node, is_whole)?;
        }
        let node = &nodes[number];
        let others = &nodes[number + 1..];
        self.node(node, node.whole_after(is_whole, others), &free)
    }

    /// The same of a list of nodes.
    pub fn listed<T: Conditional>(
        &self,
        nodes: &Vec<T>,
        number: usize,
    ) -> Result<Choices, AllocError>
        ensures { IfOk result (IsFound self.now (λ choice. has (kept_indexes choice (elements false (forest_of (map T.tree nodes.now.items)))) number)) }
    {
        let outlines = outlines(self.alloc, nodes)?;
        self.numbered(&outlines, number)
    }

    /// The choices that keep the node at a position from a list on, below whose nodes no judged list lies.
    pub fn leaf<T: Conditional>(
        &self,
        nodes: &Vec<T>,
        position: &[usize],
    ) -> Result<Choices, AllocError>
        ensures { IfOk result (IsFound self.now (λ choice. keeps_leaf choice position.now (forest_of (map T.tree nodes.now.items)))) }
    {
        match position {
            [] => self.all(),
            [number, ..] => self.listed(nodes, *number),
        }
    }
}
