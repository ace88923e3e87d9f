//! The faults of the conditions of a list.
ghost use Rattle.std.specs.Prelude.{◌≡◌, Bool, false, is_ok};
ghost use Rattle.wesl_cond_chains.specs.Nodes.{as_element, closed_nodes, nodes_in};
ghost use Rattle.wesl_cond_chains.specs.Places.{opened_after, opened_through};
ghost use Rattle.wesl_cond_faults.specs.Telling.{AddsList, AddsNode};

use crate::attributes::{place_of, tell_formulas, tell_place};
use crate::told::Told;
use wesl_cond_chains::{Conditional, opens};
use wesl_cond_features::Features;
use wesl_tree_names::{Diagnostic, Names};

/// Tells the faults of the conditions of the next node of a list, and says whether a chain is open after it.
fn tell_node<T: Conditional>(
    told: &mut Told,
    node: &T,
    opened: bool,
    names: &Names,
    features: &Features,
) -> bool
    ensures told { AddsNode names.now features.now opened (T.tree node.now) told.old told.new }
    ensures opened { (closes : Bool) → result ≡ opened_after opened (as_element closes (T.tree node.now)) }
{
    if node.is_void() {
        return opened;
    }
    let attributes = node.attributes();
    let span = place_of(node.span(), attributes);
    tell_place(told, attributes, opened, span);
    tell_formulas(told, attributes, names, features);
    opens(attributes)
}

/// Tells the faults of the conditions of the nodes at the beginning of a list, and says whether a chain is open after
/// them.
fn tell_nodes<T: Conditional>(
    told: &mut Told,
    nodes: &Vec<T>,
    names: &Names,
    features: &Features,
) -> bool
    ensures told { AddsList names.now features.now (nodes_in T.tree nodes.now.items) told.old told.new }
    ensures opened { result ≡ opened_through false (nodes_in T.tree nodes.now.items) }
{
    let mut opened = false;
    for node in nodes {
        opened = tell_node(told, node, opened, names, features);
    }
    opened
}

/// Whether a list was judged to have no fault. The one that was found first is let go: all are told.
pub fn is_clear(outcome: Result<(), Diagnostic>) -> bool
    ensures { result ≡ is_ok outcome }
{
    outcome.is_ok()
}

/// Tells the faults of the conditions of the nodes of a list.
pub fn tell_list<T: Conditional>(
    told: &mut Told,
    nodes: &Vec<T>,
    names: &Names,
    features: &Features,
)
    ensures { AddsList names.now features.now (nodes_in T.tree nodes.now.items) told.old told.new }
{
    let _ = tell_nodes(told, nodes, names, features);
}

/// Tells the faults of the conditions of the nodes of a list and of what closes it.
pub fn tell_both<T: Conditional, L: Conditional>(
    told: &mut Told,
    nodes: &Vec<T>,
    last: &Option<L>,
    names: &Names,
    features: &Features,
)
    ensures { AddsList names.now features.now (closed_nodes T.tree nodes.now.items L.tree last.now) told.old told.new }
{
    let opened = tell_nodes(told, nodes, names, features);
    match last {
        Some(last) => {
            let _ = tell_node(told, last, opened, names, features);
        }
        None => {}
    }
}
