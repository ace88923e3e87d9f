//! Why something is held in a link.
ghost use Rattle.std.specs.Prelude.{Contains, IfOk, IfSome, IfNone};
ghost use Rattle.wesl_tree_names.specs.Path.{path_view};
ghost use Rattle.wesl_link_tables.specs.Numbering.{PathAt};
ghost use Rattle.wesl_link_tables.specs.TextsView.{numbering_of_texts as numbering};
ghost use Rattle.wesl_link_engine.specs.Keeping.{IsLinkOf, all_loaded, task_in};
ghost use Rattle.wesl_link_engine.specs.Homes.{HasNone};
ghost use Rattle.wesl_link_engine.specs.Reasons.{AreReasonsIn, HasTexts, HoldsIn, IsNodeOf, IsReasonOf, TellsOnce, item_at, module_node, told_node, steps_told};

use crate::link::{Link, table_at};
use crate::loaded::LoadedModule;
use crate::steps::{Step, steps_of};
use std::alloc::{AllocError, Global};
use wesl_link_reasons::node::Node;
use wesl_link_reasons::{Reasons, reasons_of};
use wesl_link_symbols::ids::{NameId, PathId};
use wesl_link_symbols::symbols::Symbol;
use wesl_tree_names::{ModulePath, law_of_equality};

/// The number of the path of a module of a link.
fn number_of(link: &Link, module: &LoadedModule) -> PathId
    requires sound { IsLinkOf (task_in link.now) link.now }
    requires inside { Contains (all_loaded link.now) «module».now }
    ensures { PathAt (numbering link.now.numbers) result (path_view «module».now.path) }
{
    table_at(&link.linked, module.place).path()
}

/// The number of a path, if a module of the link stands there: each is looked at once.
fn number_at(link: &Link, path: &ModulePath) -> Option<PathId>
    requires { IsLinkOf (task_in link.now) link.now }
    ensures found { IfSome result (λ p. PathAt (numbering link.now.numbers) p (path_view path.now)) }
    ensures none { IfNone result (HasNone link.now (path_view path.now)) }
{
    law_of_equality();
    if link.root.path == *path {
        return Some(number_of(link, &link.root));
    }
    for module in &link.others {
        if module.path == *path {
            return Some(number_of(link, module));
        }
    }
    None
}

/// The symbol of a name in the module at a path, if the link has the module and the name has a number.
fn item_of(link: &Link, path: &ModulePath, name: &str) -> Option<Node<PathId, NameId>>
    requires { IsLinkOf (task_in link.now) link.now }
    ensures found { IfSome result (IsNodeOf (numbering link.now.numbers) (item_at path.now name.now)) }
    ensures none { IfNone result (HoldsIn link.now (item_at path.now name.now) → ⊥) }
{
    match number_at(link, path) {
        Some(path) => match link.numbers.names.find(name) {
            Some(name) => Some(Node::Item(Symbol { path, name })),
            None => None,
        },
        None => None,
    }
}

/// The module at a path, if the link has it.
fn module_of(link: &Link, path: &ModulePath) -> Option<Node<PathId, NameId>>
    requires { IsLinkOf (task_in link.now) link.now }
    ensures found { IfSome result (IsNodeOf (numbering link.now.numbers) (module_node path.now)) }
    ensures none { IfNone result (HoldsIn link.now (module_node path.now) → ⊥) }
{
    match number_at(link, path) {
        Some(path) => Some(Node::Module(path)),
        None => None,
    }
}

/// Why each symbol and each module of a link is held.
fn all_reasons(alloc: Global, link: &Link) -> Result<Reasons, AllocError>
    requires sound { IsLinkOf (task_in link.now) link.now }
    ensures { IfOk result (AreReasonsIn link.now) }
{
    let root = table_at(&link.linked, link.root.place).path();
    let reasons = reasons_of(alloc, link.linked.tables(), root, &link.kept, link.is_eager)?;
    Ok(reasons)
}

/// The steps to a node; none where it is not held.
fn steps_to<'a>(
    alloc: Global,
    link: &'a Link,
    node: Node<PathId, NameId>,
) -> Result<Option<Vec<Step<'a>>>, AllocError>
    requires sound { IsLinkOf (task_in link.now) link.now }
    requires named { HasTexts (numbering link.now.numbers) node }
    ensures told { IfOk result (λ o. IfSome o (λ steps. IsReasonOf link.now (told_node (numbering link.now.numbers) node) (steps_told steps.items))) }
    ensures once { IfOk result TellsOnce }
    ensures none { IfOk result (λ o. IfNone o (HoldsIn link.now (told_node (numbering link.now.numbers) node) → ⊥)) }
{
    let reasons = all_reasons(alloc, link)?;
    match reasons.of_node(alloc, node)? {
        Some(chain) => Ok(Some(steps_of(alloc, link, &chain)?)),
        None => Ok(None),
    }
}

/// Why the symbol of a name in the module at a path is held in a link.
pub(crate) fn item_reason<'a>(
    alloc: Global,
    link: &'a Link,
    path: &ModulePath,
    name: &str,
) -> Result<Option<Vec<Step<'a>>>, AllocError>
    requires sound { IsLinkOf (task_in link.now) link.now }
    ensures told { IfOk result (λ o. IfSome o (λ steps. IsReasonOf link.now (item_at path.now name.now) (steps_told steps.items))) }
    ensures once { IfOk result TellsOnce }
    ensures none { IfOk result (λ o. IfNone o (HoldsIn link.now (item_at path.now name.now) → ⊥)) }
{
    match item_of(link, path, name) {
        Some(node) => steps_to(alloc, link, node),
        None => Ok(None),
    }
}

/// Why the module at a path is held in a link.
pub(crate) fn module_reason<'a>(
    alloc: Global,
    link: &'a Link,
    path: &ModulePath,
) -> Result<Option<Vec<Step<'a>>>, AllocError>
    requires sound { IsLinkOf (task_in link.now) link.now }
    ensures told { IfOk result (λ o. IfSome o (λ steps. IsReasonOf link.now (module_node path.now) (steps_told steps.items))) }
    ensures once { IfOk result TellsOnce }
    ensures none { IfOk result (λ o. IfNone o (HoldsIn link.now (module_node path.now) → ⊥)) }
{
    match module_of(link, path) {
        Some(node) => steps_to(alloc, link, node),
        None => Ok(None),
    }
}
