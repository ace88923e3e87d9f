//! Why a link is refused: all its faults, with who asks for each.
ghost use Rattle.std.specs.Prelude.{◌≡◌, ◌<◌, false, vec_len, IfOk, IfSome};
ghost use Rattle.wesl_link_reach.specs.Laws.{IsClear};
ghost use Rattle.wesl_tree_names.specs.Path.{path_view, is_relative};
ghost use Rattle.wesl_explain_world.specs.Explained.{TellsFaults};

use crate::explanation::{Explanation, Fault, FaultLine};
use crate::faults::{condition_faults, fault_line_of, fault_of};
use crate::loading::TableLoader;
use crate::sources::Sources;
use crate::world::{kept_names, root_table};
use std::alloc::{AllocError, Global};
use wesl_explain_faults::{
    Asker, FaultCure, Flaw, HeldUntil, LinkFault, NearNames, ReadModules, RefusedLink, Texts, Use,
    Wrong, no_way, refused_link,
};
use wesl_link::LinkRequest;
use wesl_link_faults::open::{OpenError, Opened};
use wesl_link_faults::open_table;
use wesl_link_flaws::absence::Absence;
use wesl_link_symbols::ids::{NameId, PathId};
use wesl_link_symbols::table::Table;
use wesl_program_bundle::BundleModule;
use wesl_tree::{Diagnostic, Error, ImportError, Interner, ModulePath, ResolveError};

/// What was found when a link went on behind its faults.
type Found = Opened<ResolveError>;

/// The text of the path of a module.
fn listed_path(alloc: Global, module: &BundleModule<'_>) -> Result<String, AllocError> {
    module.path.to_text(alloc).ok().ok_or(AllocError)
}

/// The texts of the paths of a bundle's modules, each once.
pub fn listed_paths(alloc: Global, modules: &[BundleModule<'_>]) -> Result<Interner, AllocError> {
    let mut listed = Interner::new(alloc);
    for module in modules {
        listed.number(listed_path(alloc, module)?.as_str())?;
    }
    Ok(listed)
}

/// A copy of the path of a number.
fn path_of(alloc: Global, texts: &Texts, path: PathId) -> Result<ModulePath, AllocError> {
    match texts.module(path) {
        Some(module) => module.try_clone(alloc).ok().ok_or(AllocError),
        None => Err(AllocError),
    }
}

/// A copy of the name of a number.
fn name_of(alloc: Global, texts: &Texts, name: NameId) -> Result<String, AllocError> {
    String::from_str(alloc, texts.name(name))
}

/// The error of a name that is wrong in a module.
fn error_of_name(
    alloc: Global,
    texts: &Texts,
    flaw: Flaw<NameId>,
    at: PathId,
    max_modules: usize,
) -> Result<Error, AllocError> {
    let path = path_of(alloc, texts, at)?;
    let error = match flaw {
        Flaw::NoModule => return Ok(Error::ModuleLimit(max_modules)),
        Flaw::Clash(name) => ImportError::DuplicateSymbol(name_of(alloc, texts, name)?),
        Flaw::Lacking(name) => ImportError::MissingDecl(path, name_of(alloc, texts, name)?),
        Flaw::Hidden(name) => ImportError::Private(name_of(alloc, texts, name)?, path),
        Flaw::Unsure(name) => ImportError::AmbiguousSymbol(name_of(alloc, texts, name)?),
    };
    Ok(Error::Import(error))
}

/// The error of a path without a module.
fn error_of_absence(
    alloc: Global,
    texts: &Texts,
    at: PathId,
    absence: Absence<ResolveError>,
) -> Result<Error, AllocError> {
    match absence {
        Absence::TurnedAway(refusal) => Ok(Error::of_resolve(refusal)),
        Absence::Crowded => {
            let path = path_of(alloc, texts, at)?;
            Ok(Error::Import(ImportError::TooManyFlags(path)))
        }
    }
}

/// What helps where no module is at a path.
fn cures_of_absence(error: &Error) -> &'static [FaultCure] {
    match error {
        Error::ModuleLimit(_) => &[FaultCure::MaxModules],
        Error::Import(ImportError::TooManyFlags(_)) => &[FaultCure::Features],
        Error::Import(ImportError::ResolveError(refusal)) => cures_of_refusal(refusal),
        _ => &[],
    }
}

/// What helps where a resolver refuses a path.
fn cures_of_refusal(refusal: &ResolveError) -> &'static [FaultCure] {
    match refusal {
        ResolveError::ModuleNotFound(_, _) => &[FaultCure::Path],
        ResolveError::Error(diagnostic) => match &diagnostic.error {
            Error::CondComp(_) => &[FaultCure::Condition],
            _ => &[],
        },
        _ => &[],
    }
}

/// The absence with a number.
fn take_absence(
    absences: &mut Vec<Absence<ResolveError>>,
    number: Option<usize>,
) -> Option<Absence<ResolveError>> {
    let place = number?;
    match absences.get_mut(place) {
        Some(absence) => Some(std::mem::replace(absence, Absence::Crowded)),
        None => None,
    }
}

/// What is known beside the faults themselves.
#[derive(Drop)]
struct Around<'a, 't> {
    texts: &'a Texts,
    sources: &'a mut Sources<'t>,
    /// the texts of the paths of the bundle's modules
    listed: &'a Interner,
    max_modules: usize,
}

/// Whether a fault is that no module is at a path.
fn is_not_found(error: &Error) -> bool {
    match error {
        Error::Import(ImportError::ResolveError(ResolveError::ModuleNotFound(_, _))) => true,
        _ => false,
    }
}

/// The listed path that is nearest to one at which no module is, if one is near.
fn near_path(
    alloc: Global,
    around: &Around<'_, '_>,
    near: &mut NearNames,
    error: &Error,
    at: PathId,
) -> Result<Option<String>, AllocError> {
    if !is_not_found(error) {
        return Ok(None);
    }
    match near.wanted(around.texts.path(at)) {
        Some(wanted) => near.nearest_path(alloc, wanted, around.listed),
        None => Ok(None),
    }
}

/// The path of a module of the bundle whose name is that of an item that is asked for in the module at a path.
fn named_module(
    alloc: Global,
    texts: &Texts,
    listed: &Interner,
    link: &LinkFault,
) -> Result<Option<String>, AllocError> {
    let Some(last) = link.way.asked.ending().last() else {
        return Ok(None);
    };
    let mut wanted = String::from_str(alloc, texts.path(last.path))?;
    wanted.push_str("::")?;
    wanted.push_str(texts.name(last.name))?;
    if listed.find(wanted.as_str()).is_some() {
        Ok(Some(wanted))
    } else {
        Ok(None)
    }
}

/// The diagnostic of a fault: a name that is wrong is told with its module.
fn diagnostic_of(
    alloc: Global,
    texts: &Texts,
    wrong: Wrong,
    error: Error,
) -> Result<Diagnostic, AllocError> {
    let mut diagnostic = Diagnostic::of(error);
    if wrong.flaw != Flaw::NoModule {
        diagnostic.module = Some(path_of(alloc, texts, wrong.at)?);
    }
    Ok(diagnostic)
}

/// The error of a fault.
fn error_of(
    alloc: Global,
    around: &Around<'_, '_>,
    absences: &mut Vec<Absence<ResolveError>>,
    link: &LinkFault,
) -> Result<Error, AllocError> {
    let at = link.wrong.at;
    match take_absence(absences, link.absence) {
        Some(absence) => error_of_absence(alloc, around.texts, at, absence),
        None => error_of_name(alloc, around.texts, link.wrong.flaw, at, around.max_modules),
    }
}

/// The faults of the conditions of a module that is refused.
fn conditions_at(
    alloc: Global,
    around: &mut Around<'_, '_>,
    link: &LinkFault,
) -> Result<Vec<FaultLine>, AllocError> {
    if link.absence.is_none() {
        return Ok(Vec::new(alloc));
    }
    let path = path_of(alloc, around.texts, link.wrong.at)?;
    condition_faults(alloc, around.sources, &path)
}

/// All that is told of a fault of a link.
fn link_fault(
    alloc: Global,
    around: &mut Around<'_, '_>,
    near: &mut NearNames,
    absences: &mut Vec<Absence<ResolveError>>,
    link: LinkFault,
) -> Result<Fault, AllocError> {
    let mut link = link;
    let error = error_of(alloc, around, absences, &link)?;
    if link.wrong.flaw == Flaw::NoModule {
        link.cures = cures_of_absence(&error);
    }
    let near_path = near_path(alloc, around, near, &error, link.wrong.at)?;
    let named_module = named_module(alloc, around.texts, around.listed, &link)?;
    let conditions = conditions_at(alloc, around, &link)?;
    let diagnostic = diagnostic_of(alloc, around.texts, link.wrong, error)?;
    Ok(Fault {
        line: fault_line_of(alloc, diagnostic)?,
        link: Some(link),
        conditions,
        near_path,
        named_module,
    })
}

/// All that is told of the faults of a link.
fn link_faults(
    alloc: Global,
    around: &mut Around<'_, '_>,
    absences: &mut Vec<Absence<ResolveError>>,
    found: Vec<LinkFault>,
) -> Result<Vec<Fault>, AllocError> {
    let mut near = NearNames::new();
    let mut faults = Vec::with_capacity(alloc, found.len())?;
    for link in found {
        faults.push(link_fault(alloc, around, &mut near, absences, link)?)?;
    }
    Ok(faults)
}

/// A fault of the root itself.
fn root_fault(alloc: Global, root: PathId) -> Result<LinkFault, AllocError> {
    let mut uses = Vec::new(alloc);
    uses.push(Use {
        asker: Asker::Whole(root),
        name: None,
        identifier: None,
        span: None,
        place: Some(0),
    })?;
    Ok(LinkFault {
        wrong: Wrong {
            flaw: Flaw::NoModule,
            at: root,
        },
        absence: None,
        uses,
        way: no_way(alloc),
        near: None,
        targets: Vec::new(alloc),
        cures: &[],
    })
}

/// What is found when a link goes on behind its faults, and the names that are kept: nothing where there is no root to begin
/// with.
fn opened_link(
    alloc: Global,
    request: &LinkRequest<'_>,
    loader: &mut TableLoader<'_>,
) -> Result<Option<(Found, Vec<NameId>)>, AllocError>
    requires { is_relative (path_view request.now.root.now) ≡ false }
    ensures { IfOk result (λ found. IfSome found (λ f. IsClear f.0.tables.items)) }
{
    let root = match root_table(alloc, loader, request.root) {
        Ok(root) => root,
        Err(Error::Memory) => return Err(AllocError),
        Err(_) => return Ok(None),
    };
    let kept = kept_names(alloc, loader, request)?;
    let kept_again = Vec::from_slice(alloc, &kept)?;
    match open_table(
        alloc,
        root,
        kept_again,
        request.is_eager,
        loader,
        request.max_modules,
    ) {
        Ok(found) => Ok(Some((found, kept))),
        Err(OpenError::Memory) => Err(AllocError),
        Err(_) => Ok(None),
    }
}

/// The explanation of a refused link: its faults, what was held until then, and the texts of the numbers.
fn with_faults(
    alloc: Global,
    texts: Texts,
    faults: Vec<Fault>,
    until: HeldUntil,
) -> Result<Explanation, AllocError>
    requires { 0 < vec_len faults }
    ensures { IfOk result TellsFaults }
{
    let (names, paths) = texts.into_lists(alloc)?;
    let mut told = Explanation::nothing(alloc);
    told.names = names;
    told.paths = paths;
    told.faults = faults;
    told.until = Some(until);
    Ok(told)
}

/// The same with what was loaded until then, and what was asked of it.
fn with_tables(
    alloc: Global,
    told: Explanation,
    tables: Vec<Table>,
    kept: &[NameId],
    is_eager: bool,
) -> Result<Explanation, AllocError>
    requires { TellsFaults told }
    ensures { IfOk result TellsFaults }
{
    let mut told = told;
    told.tables = tables;
    told.kept = Vec::from_slice(alloc, kept)?;
    told.is_eager = is_eager;
    Ok(told)
}

/// The faults of a link: the one that it was refused with where no other was found.
fn faults_or(
    alloc: Global,
    around: &mut Around<'_, '_>,
    absences: &mut Vec<Absence<ResolveError>>,
    found: Vec<LinkFault>,
    diagnostic: Diagnostic,
) -> Result<Vec<Fault>, AllocError>
    ensures { IfOk result (λ faults. 0 < vec_len faults) }
{
    let mut faults = link_faults(alloc, around, absences, found)?;
    if faults.is_empty() {
        faults.push(fault_of(alloc, diagnostic)?)?;
    }
    Ok(faults)
}

/// What was loaded, and the names and paths of it.
#[derive(Drop)]
struct Loaded<'t> {
    sources: Sources<'t>,
    texts: Texts,
    read: ReadModules,
}

/// What a loader has loaded: the modules of these tables, and the root.
fn loaded_of<'t>(
    alloc: Global,
    loader: TableLoader<'t>,
    root: PathId,
    tables: &[Table],
) -> Result<Loaded<'t>, AllocError> {
    let TableLoader {
        sources,
        numbers,
        read,
    } = loader;
    Ok(Loaded {
        sources,
        texts: Texts::new(alloc, numbers, root, tables)?,
        read: match read {
            Some(read) => read,
            None => ReadModules::new(alloc),
        },
    })
}

/// What is told of a link in which this was found.
fn explain_found(
    alloc: Global,
    request: &LinkRequest<'_>,
    diagnostic: Diagnostic,
    loaded: Loaded<'_>,
    listed: &Interner,
    root: PathId,
    found: Found,
    kept: &[NameId],
) -> Result<Explanation, AllocError>
    requires { IsClear found.tables.items }
    ensures { IfOk result TellsFaults }
{
    let Loaded {
        mut sources,
        texts,
        read,
    } = loaded;
    let Opened {
        tables,
        asked: _,
        mut absences,
        told,
        beyond: _,
    } = found;
    let link = refused_link(
        alloc,
        &tables,
        &told,
        root,
        kept,
        request.is_eager,
        &texts,
        &read,
    )?;
    drop(told);
    let RefusedLink { faults, until } = link;
    let mut around = Around {
        texts: &texts,
        sources: &mut sources,
        listed,
        max_modules: request.max_modules,
    };
    let faults = faults_or(alloc, &mut around, &mut absences, faults, diagnostic)?;
    let told = with_faults(alloc, texts, faults, until)?;
    with_tables(alloc, told, tables, kept, request.is_eager)
}

/// What is told where there is no root to begin with.
fn explain_root(
    alloc: Global,
    request: &LinkRequest<'_>,
    diagnostic: Diagnostic,
    loaded: Loaded<'_>,
    root: PathId,
) -> Result<Explanation, AllocError>
    ensures { IfOk result TellsFaults }
{
    let Loaded {
        mut sources,
        texts,
        read,
    } = loaded;
    let link = refused_link(alloc, &[], &[], root, &[], request.is_eager, &texts, &read)?;
    let RefusedLink { faults: _, until } = link;
    let conditions = condition_faults(alloc, &mut sources, request.root)?;
    let mut faults = Vec::new(alloc);
    faults.push(Fault {
        line: fault_line_of(alloc, diagnostic)?,
        link: Some(root_fault(alloc, root)?),
        conditions,
        near_path: None,
        named_module: None,
    })?;
    with_faults(alloc, texts, faults, until)
}

/// What is told of a link that is refused: all its faults. Where memory was short in it, that alone is told.
pub fn explain_refusal(
    alloc: Global,
    request: &LinkRequest<'_>,
    diagnostic: Diagnostic,
    sources: Sources<'_>,
    listed: &Interner,
) -> Result<Explanation, AllocError>
    requires { is_relative (path_view request.now.root.now) ≡ false }
    ensures { IfOk result TellsFaults }
{
    let mut loader = TableLoader::new(alloc, sources, true);
    let root = loader.numbers.path(alloc, request.root)?;
    let found = opened_link(alloc, request, &mut loader)?;
    match found {
        Some((found, kept)) => {
            let loaded = loaded_of(alloc, loader, root, &found.tables)?;
            explain_found(
                alloc, request, diagnostic, loaded, listed, root, found, &kept,
            )
        }
        None => {
            let loaded = loaded_of(alloc, loader, root, &[])?;
            explain_root(alloc, request, diagnostic, loaded, root)
        }
    }
}
