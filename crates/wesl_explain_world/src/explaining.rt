//! From the bytes of a bundle to what is told of its link.
ghost use Rattle.std.specs.Prelude.{◌≡◌, false, IfOk};
ghost use Rattle.wesl_tree_names.specs.Path.{path_view, is_relative};
ghost use Rattle.wesl_explain_world.specs.Why.{HasItsReasons};
ghost use Rattle.wesl_explain_world.specs.Explained.{ExplainsHeld, ExplainsLink, TellsAll};

use crate::asking::unused_imports;
use crate::explanation::{Explanation, Fault, HeldDeclaration};
use crate::faults::fault_of;
use crate::freeing::free_in;
use crate::holding::held_in;
use crate::loading::TableLoader;
use crate::refusing::{explain_refusal, listed_paths};
use crate::sources::Sources;
use crate::world::{World, world_of};
use bumpalo::Bump;
use json::Scratch;
use std::alloc::{AllocError, Global};
use wesl_explain_clashes::clashes_in;
use wesl_explain_faults::Texts;
use wesl_explain_ways::Depths;
use wesl_link::{LinkRequest, Resolutions, link_at};
use wesl_link_symbols::ids::PathId;
use wesl_program::{BundleMangler, bundle_of_bytes};
use wesl_program_bundle::{BuiltinNames, Bundle, Options};
use wesl_tree::{Diagnostic, Error, ModulePath, TranslationUnit};
use wesl_validate::validate_wgsl;
use wesl_validate_builtins::Builtins;

/// What is told of the bundle that the bytes are: why the modules and declarations of a link are held in it, or a fault.
pub fn explained(alloc: Global, bytes: &[u8]) -> Result<Explanation, AllocError>
    ensures { IfOk result (ExplainsHeld bytes.now) }
{
    let mut scratch = Scratch::new(alloc);
    let arena = Bump::new(alloc);
    match bundle_of_bytes(alloc, bytes, &mut scratch, &arena) {
        Ok(bundle) => explain(alloc, bundle),
        Err(error) => {
            let mut told = Explanation::nothing(alloc);
            told.faults.push(fault_of(alloc, Diagnostic::of(error))?)?;
            Ok(told)
        }
    }
}

// The names that are kept.
fn names<'b>(alloc: Global, keep: &'b [String]) -> Result<Vec<&'b str>, AllocError> {
    let mut names = Vec::with_capacity(alloc, keep.len())?;
    for name in keep {
        names.push(name.as_str())?;
    }
    Ok(names)
}

// The built-in names of a bundle.
fn builtins_of(listed: Option<BuiltinNames>) -> Option<Builtins> {
    match listed {
        Some(listed) => Some(Builtins::new(listed.names, listed.functions, listed.constructors)),
        None => None,
    }
}

// What is told of a bundle.
fn explain(alloc: Global, bundle: Bundle) -> Result<Explanation, AllocError>
    requires { is_relative (path_view bundle.root) ≡ false }
    ensures { IfOk result (ExplainsLink bundle.entry.options.eager) }
{
    let Bundle {
        root,
        keep,
        modules,
        packages,
        features,
        options,
        builtins,
    } = bundle;
    let keep = names(alloc, &keep)?;
    let listed = listed_paths(alloc, &modules)?;
    let request = LinkRequest {
        root: &root,
        keep: &keep,
        is_eager: options.eager,
        max_modules: options.max_modules,
    };
    let mut sources = Sources::new(alloc, modules, packages, features)?;
    match link_at(alloc, &request, &mut sources) {
        Ok(found) => explain_link(
            alloc,
            &request,
            options,
            builtins_of(builtins),
            found,
            sources,
        ),
        Err(diagnostic) => explain_refusal(alloc, &request, diagnostic, sources, &listed),
    }
}

// The linked unit under its printed names.
fn unit_of(
    alloc: Global,
    mut found: Resolutions,
    options: Options,
) -> Result<TranslationUnit, AllocError> {
    let mut mangler = BundleMangler {
        naming: options.mangler,
    };
    match found.mangle(alloc, &mut mangler, options.mangle_root) {
        Ok(()) => found.assemble(alloc, true).ok().ok_or(AllocError),
        Err(_) => Err(AllocError),
    }
}

// The world of a link over symbol tables, and the texts of its numbers.
fn world_in(
    alloc: Global,
    request: &LinkRequest<'_>,
    found: &Resolutions,
    sources: Sources<'_>,
) -> Result<(World, Texts), Error>
    requires { is_relative (path_view request.now.root.now) ≡ false }
    ensures { IfOk result (λ found. HasItsReasons request.now.is_eager found.0) }
{
    let order = found.module_order(alloc)?;
    let mut loader = TableLoader::new(alloc, sources, false);
    let root = loader.numbers.path(alloc, request.root)?;
    let world = world_of(alloc, &mut loader, request, &order)?;
    let TableLoader {
        sources: _,
        numbers,
        read: _,
    } = loader;
    let texts = Texts::new(alloc, numbers, root, world.linked.tables())?;
    Ok((world, texts))
}

// What is told of a link.
fn explain_link(
    alloc: Global,
    request: &LinkRequest<'_>,
    options: Options,
    builtins: Option<Builtins>,
    found: Resolutions,
    sources: Sources<'_>,
) -> Result<Explanation, AllocError>
    requires { is_relative (path_view request.now.root.now) ≡ false }
    ensures { IfOk result (ExplainsLink request.now.is_eager) }
{
    match world_in(alloc, request, &found, sources) {
        Ok((world, texts)) => {
            let unit = unit_of(alloc, found, options)?;
            explain_world(alloc, options, builtins, world, texts, &unit)
        }
        Err(error) => {
            let mut told = Explanation::nothing(alloc);
            told.faults.push(fault_of(alloc, Diagnostic::of(error))?)?;
            Ok(told)
        }
    }
}

// Of each declaration of the linked unit its module.
fn homes_of(alloc: Global, held: &[HeldDeclaration]) -> Result<Vec<PathId>, AllocError> {
    let mut homes = Vec::with_capacity(alloc, held.len())?;
    for declaration in held {
        homes.push(declaration.path)?;
    }
    Ok(homes)
}

// The fault of a linked unit, where a bundle lists what is built in.
fn faults_in(
    alloc: Global,
    unit: &TranslationUnit,
    builtins: Option<&Builtins>,
) -> Result<Vec<Fault>, AllocError> {
    let mut faults = Vec::new(alloc);
    let Some(builtins) = builtins else {
        return Ok(faults);
    };
    if let Err(diagnostic) = validate_wgsl(alloc, unit, builtins) {
        faults.push(fault_of(alloc, diagnostic)?)?;
    }
    Ok(faults)
}

// What is told of a link over symbol tables, and of its unit.
fn explain_world(
    alloc: Global,
    options: Options,
    builtins: Option<Builtins>,
    world: World,
    texts: Texts,
    unit: &TranslationUnit,
) -> Result<Explanation, AllocError>
    ensures { IfOk result (TellsAll world) }
{
    let held = held_in(alloc, &world, &texts, options)?;
    let homes = homes_of(alloc, &held)?;
    let clashes = clashes_in(alloc, unit, &homes, world.root(), options)?;
    let free = free_in(alloc, &world, &texts, unit, builtins.as_ref())?;
    let unused = unused_imports(alloc, &world, &texts)?;
    let faults = faults_in(alloc, unit, builtins.as_ref())?;
    let depths = Depths::of(alloc, world.reasons.nodes())?;
    let (names, paths) = texts.into_lists(alloc)?;
    let is_eager = options.eager;
    let World {
        linked,
        reasons,
        places: _,
        order,
        kept,
    } = world;
    Ok(Explanation {
        paths,
        names,
        reasons: Some(reasons),
        depths,
        modules: order,
        held,
        clashes,
        free,
        unused,
        faults,
        until: None,
        linked: Some(linked),
        tables: Vec::new(alloc),
        kept,
        is_eager,
    })
}
