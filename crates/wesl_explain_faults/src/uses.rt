//! Who asks for a fault, as it is told.
ghost use Rattle.std.specs.Prelude.{◌≡◌, map, IfOk};
ghost use Rattle.wesl_link_flaws.specs.Searching.{IsReady};
ghost use Rattle.wesl_explain_faults.specs.Told.{asker_in};

use crate::held::HeldNodes;
use std::alloc::{AllocError, Global};
use wesl_cond_choices::place::Place;
use wesl_explain_places::{ReadModules, identifier_of, span_of};
use wesl_link_flaws::asker::Asker;
use wesl_link_flaws::given::{Given, ask};
use wesl_link_reasons::node::Node;
use wesl_link_symbols::ids::{NameId, PathId};
use wesl_link_symbols::symbols::{LookUp, Symbol};
use wesl_link_symbols::table::{Declaration, Table};
use wesl_tree::Span;

/// A use of a name for which there is a fault.
#[derive(Clone, Copy)]
pub struct Use {
    /// Who asks.
    pub asker: Asker<PathId, NameId>,
    /// The name of the declaration that asks; a const_assert has none.
    pub name: Option<NameId>,
    /// The number of the identifier in that declaration.
    pub identifier: Option<usize>,
    /// Where it is asked: the innermost node round that identifier, or the import.
    pub span: Option<Span>,
    /// Where what asks stands among what is held.
    pub place: Option<usize>,
}

/// The module and the number of the declaration that asks.
fn declaration_of(asker: Asker<PathId, NameId>) -> Option<(PathId, usize)> {
    match asker {
        Asker::Named(path, index, _) | Asker::Unclear(path, index, _) => Some((path, index)),
        _ => None,
    }
}

/// The declaration with a number of the module at a path.
fn declaration_at<'g>(given: &'g Given<'_>, path: PathId, index: usize) -> Option<&'g Declaration>
    requires ready { IsReady given.now }
{
    match given.table(path) {
        Some(table) => table.declarations().get(index),
        None => None,
    }
}

/// The name of the declaration that asks.
fn name_of(given: &Given<'_>, asker: Asker<PathId, NameId>) -> Option<NameId>
    requires ready { IsReady given.now }
{
    match declaration_of(asker) {
        Some((path, index)) => match declaration_at(given, path, index) {
            Some(declaration) => declaration.name(),
            None => None,
        },
        None => None,
    }
}

/// What holds who asks: a symbol by its declarations, and a const_assert, an import or a module by the module.
fn node_of(asker: Asker<PathId, NameId>, name: Option<NameId>) -> Node<PathId, NameId> {
    match asker {
        Asker::Kept(name) => Node::KeptName(name),
        Asker::Named(path, _, _)
        | Asker::Unclear(path, _, _)
        | Asker::Imported(path, _)
        | Asker::Whole(path) => match name {
            Some(name) => Node::Item(Symbol { path, name }),
            None => Node::Module(path),
        },
    }
}

/// What is told of who asks.
fn use_of(
    given: &Given<'_>,
    read: &ReadModules,
    held: &HeldNodes,
    asker: Asker<PathId, NameId>,
) -> Use
    requires ready { IsReady given.now }
    ensures { result.asker ≡ asker }
{
    let name = name_of(given, asker);
    let identifier = identifier_of(read, asker);
    Use {
        asker,
        name,
        identifier,
        span: span_of(read, asker, identifier),
        place: held.place_of(node_of(asker, name)),
    }
}

/// What is told of all that ask, in their order.
pub fn uses_of(
    alloc: Global,
    given: &Given<'_>,
    read: &ReadModules,
    held: &HeldNodes,
    askers: &[Asker<PathId, NameId>],
) -> Result<Vec<Use>, AllocError>
    requires ready { IsReady given.now }
    ensures { IfOk result (λ uses. map asker_in uses.items ≡ askers.now) }
{
    let mut uses = Vec::with_capacity(alloc, askers.len())?;
    for asker in askers {
        uses.push(use_of(given, read, held, *asker))?;
    }
    Ok(uses)
}

/// What a reference of a declaration asks for.
fn reference_asked(
    given: &Given<'_>,
    path: PathId,
    index: usize,
    number: usize,
) -> Option<LookUp<PathId, NameId>>
    requires ready { IsReady given.now }
{
    let Some(table) = given.table(path) else {
        return None;
    };
    let Some(declaration) = table.declarations().get(index) else {
        return None;
    };
    match declaration.references().get(number) {
        Some(reference) => Some(ask(table, reference)),
        None => None,
    }
}

/// What an import asks for.
fn import_asked(table: &Table, number: usize) -> Option<LookUp<PathId, NameId>> {
    match table.imports().get(number) {
        Some(import) => Some(LookUp {
            asker: Some(table.path()),
            path: import.path,
            name: import.item,
            from: import.from,
        }),
        None => None,
    }
}

/// The look-up of who asks. An unclear name and a module have none.
pub fn look_up_of(given: &Given<'_>, asker: Asker<PathId, NameId>) -> Option<LookUp<PathId, NameId>>
    requires ready { IsReady given.now }
{
    match asker {
        Asker::Kept(name) => Some(LookUp {
            asker: None,
            path: given.root,
            name,
            from: Place::Always,
        }),
        Asker::Named(path, index, number) => reference_asked(given, path, index, number),
        Asker::Imported(path, number) => match given.table(path) {
            Some(table) => import_asked(table, number),
            None => None,
        },
        Asker::Unclear(_, _, _) | Asker::Whole(_) => None,
    }
}
