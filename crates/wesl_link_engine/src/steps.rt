//! Steps to what is held in a link, told by paths and names.
ghost use Rattle.std.specs.Prelude.{◌≡◌, ◌<◌, IfOk, OnOk, Some, length, map, slice_get};
ghost use Rattle.wesl_tree_names.specs.Path.{Text, path_view};
ghost use Rattle.wesl_link_symbols.specs.declared.ids.PathId.{PathId};
ghost use Rattle.wesl_tree_base.specs.declared.ids.NameId.{NameId};
ghost use Rattle.wesl_link_symbols.specs.Tables as tables;
ghost use Rattle.wesl_link_tables.specs.Numbering.{NameAt, PathAt};
ghost use Rattle.wesl_link_tables.specs.TextsView.{numbering_of_texts as numbering};
ghost use Rattle.wesl_link_engine.specs.Homes.{AddsHome, AreHomes, AreTellable, IsEntered, IsTellable};
ghost use Rattle.wesl_link_engine.specs.Keeping.{IsLinkOf, all_loaded, task_in};
ghost use Rattle.wesl_link_engine.specs.Reasons.{told_node, step_view, steps_told};

use crate::link::{Link, table_at};
use crate::loaded::LoadedModule;
use std::alloc::{AllocError, Global};
use std::collections::HashMap;
use wesl_link_reach::link::Linked;
use wesl_link_reasons::node::Node;
use wesl_link_symbols::ids::{NameId, PathId};
use wesl_link_symbols::keyed::{put, value_at};
use wesl_link_tables::texts::NumberTexts;
use wesl_tree_names::ModulePath;

/// What asks for something in a link, or is asked for.
#[derive(Clone, Copy, Drop)]
pub enum Step<'a> {
    /// A name of the root that is kept.
    KeptName(&'a str),
    /// The module at a path. Its const_asserts ask; of an eager link it also takes with it the modules that it imports from and
    /// all that it declares.
    Module(&'a ModulePath),
    /// The declarations of a name in the module at a path.
    Item(&'a ModulePath, &'a str),
}

/// Notes which module of a link the number of its path is that of.
fn add_home(
    homes: &mut HashMap<PathId, usize>,
    linked: &Linked,
    module: &LoadedModule,
    index: usize,
) -> Result<(), AllocError>
    requires { (t : tables.Table PathId NameId) × (slice_get linked.now.tables «module».now.place ≡ Some t) }
    ensures { OnOk result (AddsHome linked.now.tables «module».now index homes.old.entries homes.new.entries) }
{
    put(homes, table_at(linked, module.place).path(), index)
}

/// Of the number of each module's path which module it is: 0 is the root, the others follow.
fn homes_of(alloc: Global, link: &Link) -> Result<HashMap<PathId, usize>, AllocError>
    requires { IsLinkOf (task_in link.now) link.now }
    ensures { IfOk result (λ homes. AreHomes link.now homes.entries) }
{
    let mut homes = HashMap::new(alloc);
    add_home(&mut homes, &link.linked, &link.root, 0)?;
    for (index, module) in link.others.iter().enumerate() {
        add_home(&mut homes, &link.linked, module, index + 1)?;
    }
    Ok(homes)
}

/// The path of a module: 0 is the root, the others follow.
fn path_at(link: &Link, index: usize) -> &ModulePath
    requires { index < length (all_loaded link.now) }
    ensures { slice_get (map (λ m. path_view m.path) (all_loaded link.now)) index ≡ Some (path_view result.now) }
{
    if index == 0 {
        &link.root.path
    } else {
        &link.others[index - 1].path
    }
}

/// The path of a number that is a module's.
fn path_of<'a>(link: &'a Link, homes: &HashMap<PathId, usize>, id: PathId) -> &'a ModulePath
    requires homes { AreHomes link.now homes.now.entries }
    requires entered { IsEntered link.now id }
    ensures { PathAt (numbering link.now.numbers) id (path_view result.now) }
{
    let Some(index) = value_at(homes, id) else {
        unreachable!()
    };
    path_at(link, index)
}

/// The name of a number that has one.
fn name_of(numbers: &NumberTexts, id: NameId) -> &str
    requires { (x : Text) × NameAt (numbering numbers.now) id x }
    ensures { NameAt (numbering numbers.now) id result.now }
{
    match numbers.names.name(id) {
        Some(name) => name,
        None => unreachable!(),
    }
}

/// A node of a link, told by the paths of modules and by names.
fn step_of<'a>(
    link: &'a Link,
    homes: &HashMap<PathId, usize>,
    node: Node<PathId, NameId>,
) -> Step<'a>
    requires homes { AreHomes link.now homes.now.entries }
    requires tellable { IsTellable link.now node }
    ensures { step_view result ≡ told_node (numbering link.now.numbers) node }
{
    match node {
        Node::KeptName(name) => Step::KeptName(name_of(&link.numbers, name)),
        Node::Module(path) => Step::Module(path_of(link, homes, path)),
        Node::Item(symbol) => Step::Item(
            path_of(link, homes, symbol.path),
            name_of(&link.numbers, symbol.name),
        ),
    }
}

/// The same of nodes, in their order.
fn steps_by<'a>(
    alloc: Global,
    link: &'a Link,
    homes: &HashMap<PathId, usize>,
    nodes: &[Node<PathId, NameId>],
) -> Result<Vec<Step<'a>>, AllocError>
    requires homes { AreHomes link.now homes.now.entries }
    requires tellable { AreTellable link.now nodes.now }
    ensures { IfOk result (λ steps. steps_told steps.items ≡ map (told_node (numbering link.now.numbers)) nodes.now) }
{
    let mut steps = Vec::new(alloc);
    for node in nodes {
        steps.push(step_of(link, homes, *node))?;
    }
    Ok(steps)
}

/// Nodes of a link whose modules it has, told by paths and names, in their order.
pub(crate) fn steps_of<'a>(
    alloc: Global,
    link: &'a Link,
    nodes: &[Node<PathId, NameId>],
) -> Result<Vec<Step<'a>>, AllocError>
    requires sound { IsLinkOf (task_in link.now) link.now }
    requires tellable { AreTellable link.now nodes.now }
    ensures { IfOk result (λ steps. steps_told steps.items ≡ map (told_node (numbering link.now.numbers)) nodes.now) }
{
    let homes = homes_of(alloc, link)?;
    steps_by(alloc, link, &homes, nodes)
}
