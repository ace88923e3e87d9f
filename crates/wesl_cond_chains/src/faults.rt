//! The faults of the conditions of a list.
ghost use Rattle.std.specs.Prelude.{◌≡◌, ◌&&◌, List, false, map, not};
ghost use Rattle.wesl_cond_chains.specs.Chains.{follows_on};
ghost use Rattle.wesl_cond_chains.specs.Conditions.{first_condition};
ghost use Rattle.wesl_cond_chains.specs.Faults.{conditions, opens, place_faults};
ghost use Rattle.wesl_cond_chains.specs.Judging.{NodeBegins, NodesBegin};
ghost use Rattle.wesl_cond_chains.specs.Nodes.{attributes_forest, condition_of_attribute, is_several, replies, closed_nodes, nodes_in};
ghost use Rattle.wesl_cond_chains.specs.Evaluation.{Judges};
ghost use Rattle.wesl_cond_chains.specs.Places.{all_condition_places, condition_places, found_at, list_places};
ghost use Rattle.wesl_tree_names.specs.Path.{Text};

use crate::conditions::{Condition, condition_of, follows_on, is_condition};
use crate::judge::check_formula;
use crate::lists::Conditional;
use std::alloc::Global;
use wesl_cond_features::Features;
use wesl_tree_names::{CondCompError, Diagnostic, Error, Names, Span};
use wesl_tree_syntax::{Attribute, AttributeNode};

/// Whether several of the attributes are conditions.
#[tactic(auto, using(crate::proofs::Places::several_steps))]
pub fn has_several(attributes: &[AttributeNode]) -> bool
    ensures { result ≡ is_several (conditions (attributes_forest attributes.now)) }
{
    let mut seen = false;
    for attribute in attributes {
        if is_condition(&attribute.node) {
            if seen {
                return true;
            }
            seen = true;
        }
    }
    false
}

/// Whether an `@elif` or an `@else` may come after a node of these attributes.
#[tactic(auto, using(crate::proofs::Places::opens_steps))]
pub fn opens(attributes: &[AttributeNode]) -> bool
    ensures { result ≡ opens (conditions (attributes_forest attributes.now)) }
{
    for attribute in attributes {
        match condition_of(&attribute.node) {
            Some(Condition::If(_) | Condition::Elif(_)) => return true,
            Some(Condition::Else) | None => {}
        }
    }
    false
}

/// Judges the formula of an attribute, if it has one that is a condition's.
fn check_attribute(
    alloc: Global,
    attribute: &Attribute,
    names: &Names,
    features: &Features,
) -> Result<(), Diagnostic>
    ensures { Judges names.now (condition_places (replies names.now features.now) (condition_of_attribute attribute.now)) result }
{
    match condition_of(attribute) {
        Some(Condition::If(formula)) => check_formula(alloc, formula, names, features),
        Some(Condition::Elif(formula)) => check_formula(alloc, formula, names, features),
        Some(Condition::Else) | None => Ok(()),
    }
}

/// Judges the formulas of all conditions among the attributes.
fn check_formulas(
    alloc: Global,
    attributes: &[AttributeNode],
    names: &Names,
    features: &Features,
) -> Result<(), Diagnostic>
    ensures { Judges names.now (all_condition_places (replies names.now features.now) (attributes_forest attributes.now)) result }
{
    for attribute in attributes {
        match check_attribute(alloc, &attribute.node, names, features) {
            Ok(()) => {}
            Err(fault) => return Err(fault),
        }
    }
    Ok(())
}

/// Whether the first condition goes on with a chain, and none is open.
pub fn is_orphan(attributes: &[AttributeNode], opened: bool) -> bool
    ensures { result ≡ not opened && follows_on (first_condition (attributes_forest attributes.now)) }
{
    !opened && follows_on(attributes)
}

/// Judges where the conditions among the attributes stand: there is one at most, and an `@elif` or an `@else` goes on
/// with a chain that is open. `span` is the place of their node.
fn check_place(attributes: &[AttributeNode], opened: bool, span: Span) -> Result<(), Diagnostic>
    ensures { (names : List Text) → Judges names (map (found_at span) (place_faults opened (conditions (attributes_forest attributes.now)))) result }
{
    if has_several(attributes) {
        return Err(Diagnostic::at(Error::CondComp(CondCompError::DuplicateIf), span));
    }
    if is_orphan(attributes, opened) {
        return Err(Diagnostic::at(Error::CondComp(CondCompError::NoPrecedingIf), span));
    }
    Ok(())
}

/// Judges the conditions of the next node of a list, and says whether a chain is open after it.
fn check_node<T: Conditional>(
    alloc: Global,
    node: &T,
    opened: bool,
    names: &Names,
    features: &Features,
) -> Result<bool, Diagnostic>
    ensures { NodeBegins names.now (replies names.now features.now) opened (T.tree node.now) result }
{
    if node.is_void() {
        return Ok(opened);
    }
    let attributes = node.attributes();
    match check_place(attributes, opened, node.span()) {
        Ok(()) => match check_formulas(alloc, attributes, names, features) {
            Ok(()) => Ok(opens(attributes)),
            Err(fault) => Err(fault),
        },
        Err(fault) => Err(fault),
    }
}

/// Judges the conditions of the nodes at the beginning of a list, and says whether a chain is open after them.
fn check_nodes<T: Conditional>(
    alloc: Global,
    nodes: &Vec<T>,
    names: &Names,
    features: &Features,
) -> Result<bool, Diagnostic>
    ensures { NodesBegin names.now (replies names.now features.now) T.tree nodes.now.items result }
{
    let mut opened = false;
    for node in nodes {
        match check_node(alloc, node, opened, names, features) {
            Ok(after) => opened = after,
            Err(fault) => return Err(fault),
        }
    }
    Ok(opened)
}

/// Judges the conditions of the nodes of a list.
pub fn check_list<T: Conditional>(
    alloc: Global,
    nodes: &Vec<T>,
    names: &Names,
    features: &Features,
) -> Result<(), Diagnostic>
    ensures { Judges names.now (list_places (replies names.now features.now) false (nodes_in T.tree nodes.now.items)) result }
{
    match check_nodes(alloc, nodes, names, features) {
        Ok(_) => Ok(()),
        Err(fault) => Err(fault),
    }
}

/// Judges the conditions of the nodes of a list and of what closes it.
pub fn check_both<T: Conditional, L: Conditional>(
    alloc: Global,
    nodes: &Vec<T>,
    last: &Option<L>,
    names: &Names,
    features: &Features,
) -> Result<(), Diagnostic>
    ensures { Judges names.now (list_places (replies names.now features.now) false (closed_nodes T.tree nodes.now.items L.tree last.now)) result }
{
    match check_nodes(alloc, nodes, names, features) {
        Ok(opened) => match last {
            Some(last) => match check_node(alloc, last, opened, names, features) {
                Ok(_) => Ok(()),
                Err(fault) => Err(fault),
            },
            None => Ok(()),
        },
        Err(fault) => Err(fault),
    }
}
