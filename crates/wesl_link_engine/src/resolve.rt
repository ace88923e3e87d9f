//! Linking a root with the modules that it reaches.
ghost use Rattle.std.specs.Prelude.{◌≡◌, [], false, List, IfOk, IfErr, IfSome, drop, length, ◌<◌};
ghost use Rattle.wesl_tree_names.specs.declared.errors.Error as error;
ghost use Rattle.wesl_tree_base.specs.Borrowed.{texts};
ghost use Rattle.wesl_tree_names.specs.Path.{Text, Path, path_view, is_relative};
ghost use Rattle.wesl_link_reach.specs.Faults.{AreDistinct};
ghost use Rattle.wesl_link_reach.specs.Linking.{paths};
ghost use Rattle.wesl_link_tables.specs.Numbering.{AreRelated, Grows, NameAt};
ghost use Rattle.wesl_link_tables.specs.NumbersView.{numbering};
ghost use Rattle.wesl_link_engine.specs.Handing.{Follows, StaysLent};
ghost use Rattle.wesl_link_engine.specs.Resolved.{module_at};
ghost use Rattle.wesl_link_engine.specs.Keeping.{IsSound, resolved};
ghost use Rattle.wesl_link_engine.specs.Asking.{request_view, kept_of, AnswersTheSame};
ghost use Rattle.wesl_link_engine.specs.Linking.{asked_root, IsOrderFrom, LinksRoot, RefusesRoot};
ghost use Rattle.wesl_link_engine.specs.Rooted.{IsTableOf, HasItsMarks, AreKeptTexts, HoldsLink, IsReached, RefusesNumbered};
ghost use Rattle.wesl_link_engine.specs.Taking.{AreKept};

use crate::given::GivenNames;
use crate::link::Link;
use crate::loaded::{Held, LoadedModule, take_modules};
use crate::modules::{ModuleLoader, Source};
use crate::refusals::diagnostic_of;
use crate::request::LinkRequest;
use crate::resolutions::Resolutions;
use indexmap::IndexMap;
use std::alloc::{AllocError, Global};
use std::marker::{Brand, PhantomData};
use std::mem::replace;
use wesl_link_reach::link::{Linked, link_table};
use wesl_link_symbols::ids::{NameId, PathId};
use wesl_link_symbols::table::Table;
use wesl_link_tables::marks::Mark;
use wesl_link_tables::numbers::Numbers;
use wesl_link_tables::table::{Tabled, table_of};
use wesl_resolve_base::Resolver;
use wesl_tree::TranslationUnit;
use wesl_tree_names::{Diagnostic, Error, ModulePath};

/// The numbers of names.
fn numbers_of(
    alloc: Global,
    numbers: &mut Numbers,
    keep: &[&str],
) -> Result<Vec<NameId>, AllocError>
    ensures numbered { IfOk result (λ kept. AreRelated (NameAt (numbering numbers.new)) kept.items (texts keep.now)) }
    ensures grows { Grows (numbering numbers.old) (numbering numbers.new) }
{
    let mut kept = Vec::new(alloc);
    for name in keep {
        kept.push(numbers.name(name)?)?;
    }
    Ok(kept)
}

/// The numbers of the names that are kept: none where all is asked for.
fn kept_numbers(
    alloc: Global,
    numbers: &mut Numbers,
    request: &LinkRequest<'_>,
) -> Result<Vec<NameId>, AllocError>
    ensures numbered { IfOk result (λ kept. AreRelated (NameAt (numbering numbers.new)) kept.items (kept_of (request_view request.now))) }
    ensures grows { Grows (numbering numbers.old) (numbering numbers.new) }
{
    if request.is_eager {
        Ok(Vec::new(alloc))
    } else {
        numbers_of(alloc, numbers, request.keep)
    }
}

/// The root of a link: its path, its unit with what the identifiers of each declaration are, and the names that are kept
/// or that all was asked for.
#[derive(Drop)]
struct Root {
    path: ModulePath,
    unit: TranslationUnit,
    marks: Vec<Vec<Mark>>,
    kept: Vec<NameId>,
    is_eager: bool,
}

/// A root, its symbol table, and the names that are kept once more, to be taken by the worklist.
#[derive(Drop)]
struct TabledRoot {
    root: Root,
    table: Table,
    asked: Vec<NameId>,
}

/// The root that stands at the path of a request, and its symbol table; none where memory was wanting.
fn root_of(
    alloc: Global,
    numbers: &mut Numbers,
    request: &LinkRequest<'_>,
    unit: TranslationUnit,
) -> Option<TabledRoot>
    requires { is_relative (path_view request.now.root.now) ≡ false }
    ensures root { IfSome result (λ t. IsTableOf (numbering numbers.new) t.root t.table) }
    ensures marked { IfSome result (λ t. HasItsMarks (numbering numbers.new) t.root) }
    ensures kept { IfSome result (λ t. AreKeptTexts (numbering numbers.new) t.root (kept_of (request_view request.now))) }
    ensures asked { IfSome result (λ t. t.asked.items ≡ t.root.kept.items) }
    ensures module { IfSome result (λ t. module_at t.root.path t.root.unit ≡ asked_root (request_view request.now) unit) }
    ensures eager { IfSome result (λ t. t.root.is_eager ≡ request.now.is_eager) }
{
    let path = request.root;
    let Some(id) = numbers.path(alloc, path).ok() else {
        return None;
    };
    let Some(own) = path.try_clone(alloc).ok() else {
        return None;
    };
    let Some(kept) = kept_numbers(alloc, numbers, request).ok() else {
        return None;
    };
    let Some(asked) = Vec::from_slice(alloc, &kept).ok() else {
        return None;
    };
    let Some(Tabled { table, marks }) = table_of(alloc, numbers, id, path, &unit).ok() else {
        return None;
    };
    let root = Root {
        path: own,
        unit,
        marks,
        kept,
        is_eager: request.is_eager,
    };
    Some(TabledRoot { root, table, asked })
}

/// What a link found: the root, and the modules of its other tables, each symbol under its own name.
fn found_of(
    alloc: Global,
    numbers: Numbers,
    units: &mut IndexMap<PathId, Held>,
    root: Root,
    linked: Linked,
) -> Result<Resolutions, Error>
    requires some { 0 < length linked.tables }
    requires left { AreKept (numbering numbers) units.old.entries (drop 1 linked.tables) }
    requires once { AreDistinct (paths (drop 1 linked.tables)) }
    ensures found { IfOk result (HoldsLink root (numbering numbers) units.old.entries linked) }
    ensures refused { IfErr result (λ e. e ≡ error.Memory) }
{
    let others = take_modules(alloc, &numbers, &linked.tables()[1..], units)?;
    let numbers = numbers.into_texts(alloc)?;
    let link = Link {
        root: LoadedModule {
            path: root.path,
            place: 0,
            unit: root.unit,
            marks: root.marks,
        },
        others,
        kept: root.kept,
        is_eager: root.is_eager,
        numbers,
        linked,
    };
    Ok(Resolutions {
        link: Some(link),
        given: GivenNames::new(alloc),
    })
}

/// Links a root with the modules of a resolver, whose relations are held fixed. The diagnostic of a refusal tells the module
/// that holds the fault.
fn reach_modules<R: Resolver, S: Source<R>>(
    alloc: Global,
    modules: &mut ModuleLoader<'_, '_, R, S>,
    tabled: TabledRoot,
    max_modules: usize,
) -> Result<Resolutions, Diagnostic>
    requires ready { R.ready modules.old.resolver.now }
    requires stays { StaysLent R.Resolver S.these S.loan modules.old.resolver.now modules.old.resolver.ghost_name }
    requires follows { Follows (R.hands modules.old.resolver.now) (R.refuses modules.old.resolver.now) S.hands S.refuses }
    requires first { S.first ≡ numbering modules.old.numbers.now }
    requires nothing { modules.old.units.now.entries ≡ [] }
    requires root { IsTableOf (numbering modules.old.numbers.now) tabled.root tabled.table }
    requires marked { HasItsMarks (numbering modules.old.numbers.now) tabled.root }
    requires asked { is_relative (path_view tabled.root.path) ≡ false }
    requires kept { (keep : List Text) × AreKeptTexts (numbering modules.old.numbers.now) tabled.root keep }
    requires again { tabled.asked.items ≡ tabled.root.kept.items }
    ensures reached { IfOk result (IsReached S.hands S.refuses (numbering modules.old.numbers.now) tabled.root max_modules) }
    ensures refused { RefusesNumbered S.hands S.refuses (numbering modules.old.numbers.now) tabled.root max_modules result }
    ensures these { S.these modules.new.resolver.now }
    ensures stays_ready { R.ready modules.new.resolver.now }
    ensures loan { modules.new.resolver.ghost_name ≡ modules.old.resolver.ghost_name }
{
    let TabledRoot { root, table, asked } = tabled;
    match link_table(alloc, table, asked, root.is_eager, modules, max_modules) {
        Ok(linked) => {
            let numbers = replace(modules.numbers, Numbers::new(alloc));
            match found_of(alloc, numbers, modules.units, root, linked) {
                Ok(found) => Ok(found),
                Err(error) => Err(Diagnostic::of(error)),
            }
        }
        Err(fault) => Err(diagnostic_of(alloc, modules.numbers, fault)),
    }
}

/// Links a root, whose unit this is, with the modules of a resolver: with what the kept names and the const_asserts reach, or
/// with the modules that it imports from or refers to, and those that they do (WESL, "Imports").
///
/// `resolver` hands out every module but the root, and means afterwards what it meant; no more than `max_modules` are
/// loaded, the root counted. Refused where binders of one name with different targets are alive together, where a name stands
/// for two things where it is used or where a look-up comes to it, where a module with such a name has more than 16 flags,
/// where the resolver refuses a path, where a look-up finds nothing or nothing that it may see, where there are more modules
/// than may be, and for want of memory. The diagnostic tells the module that has the two targets, or that lacks the name or
/// hides it.
pub fn link_root<R: Resolver>(
    alloc: Global,
    request: &LinkRequest<'_>,
    unit: TranslationUnit,
    resolver: &mut R,
) -> Result<Resolutions, Diagnostic>
    requires ready { R.ready resolver.old }
    requires asked { is_relative (path_view request.now.root.now) ≡ false }
    ensures linked { IfOk result (λ r. LinksRoot R.Resolver resolver.old (request_view request.now) unit (resolved r)) }
    ensures order { IfOk result (λ r. IsOrderFrom (request_view request.now) unit (resolved r)) }
    ensures kept { IfOk result (λ r. (resolved r).kept ≡ kept_of (request_view request.now)) }
    ensures eager { IfOk result (λ r. (resolved r).is_eager ≡ request.now.is_eager) }
    ensures sound { IfOk result IsSound }
    ensures names { IfOk result (λ r. (p : Path) (n : Text) → (resolved r).names p n ≡ n) }
    ensures refused { IfErr result (RefusesRoot R.Resolver resolver.old (request_view request.now) unit) }
    ensures same { AnswersTheSame R.Resolver resolver.old resolver.new }
    ensures stays_ready { R.ready resolver.new }
{
    let mut numbers = Numbers::new(alloc);
    let Some(tabled) = root_of(alloc, &mut numbers, request, unit) else {
        return Err(Diagnostic::of(Error::Memory));
    };
    let mut units = IndexMap::new(alloc);
    let mut modules = ModuleLoader::<'_, '_, R, Brand> {
        resolver,
        numbers: &mut numbers,
        units: &mut units,
        source: PhantomData,
    };
    reach_modules::<R, Brand>(alloc, &mut modules, tabled, request.max_modules)
}
