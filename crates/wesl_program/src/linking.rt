//! From a bundle to what is found of its link, and from that to what is answered of the linked unit.
ghost use Rattle.std.specs.Prelude.{◌≡◌, map, false, string_bytes, IfOk, IfErr, option_copied};
ghost use Rattle.wesl_tree_base.specs.Borrowed.{texts};
ghost use Rattle.wesl_tree_names.specs.Path.{path_view, is_relative};
ghost use Rattle.wesl_tree_names.specs.declared.errors.Diagnostic.{out-Diagnostic};
ghost use Rattle.wesl_program_bundle.specs.PackageViews.{packages_view};
ghost use Rattle.wesl_program_bundle.specs.Views.{bundle_view, module_view};
ghost use Rattle.wesl_program.specs.FoundBundle.{FindsBundle, AnswersFound, RefusesFound};
ghost use Rattle.wesl_program.specs.Recording.{FindsUnrecorded, RefusesToRecord};
ghost use Rattle.wesl_program.specs.Hands.{HoldsBundle};
ghost use Rattle.wesl_program.specs.Holds.{Holds};
ghost use Rattle.wesl_program.specs.Refused.{IsLinkFault};

use crate::answer::Answer;
use crate::bundle_resolver::BundleSources;
use crate::modules::BundleUnits;
use crate::naming::BundleMangler;
use crate::validity::check_valid;
use std::alloc::{AllocError, Global};
use wesl_cond_features::Features;
use wesl_link::{FoundLink, LinkRequest, find_mapped};
use wesl_program_bundle::{BuiltinNames, Bundle, BundleModule, Options, Package};
use wesl_program_packages::HeldPackages;
use wesl_resolve_base::Resolver;
use wesl_scope::names_clash;
use wesl_source_map::SourceMapper;
use wesl_tree::{Diagnostic, ModulePath};

/// What was found of a bundle's link before its unit is made, and what the bundle asks of the unit. Nothing that borrows from
/// the bundle's bytes is left in it.
#[derive(Drop)]
pub(crate) struct Found {
    /// What was found.
    pub link: FoundLink<BundleMangler>,
    /// Whether the names of the root's items are given by the mangler too.
    pub mangle_root: bool,
    /// Whether the answer's unit is written with spans.
    pub spans: bool,
    /// The names that are built in. Without them nothing is validated.
    pub builtins: Option<BuiltinNames>,
}

/// Finds what a bundle's modules are linked to, and makes no unit of it yet.
///
/// The root is handed out as each other module is, and each is linked as the bundle's features leave it. Of the other
/// modules those are loaded that are reached from the names that are kept, or from all that is declared, and no more than
/// the bundle allows.
pub(crate) fn find(alloc: Global, bundle: Bundle) -> Result<Found, Diagnostic>
    requires fixed { is_relative (path_view bundle.root) ≡ false }
    ensures found { IfOk result (FindsBundle (bundle_view bundle.entry)) }
    ensures refused { IfErr result (λ d. IsLinkFault (bundle_view bundle.entry) (out-Diagnostic d).error) }
{
    let Bundle {
        root,
        keep,
        modules,
        packages,
        features,
        options,
        builtins,
    } = bundle;
    let sources = sources_of(alloc, modules, packages)?;
    match find_recorded(alloc, &keep, root, sources, features.as_ref(), options) {
        Ok(link) => Ok(Found {
            link,
            mangle_root: options.mangle_root,
            spans: options.spans,
            builtins,
        }),
        Err(diagnostic) => Err(diagnostic),
    }
}

// Finds a link of what a resolver hands out, with nothing recorded before.
fn find_recorded<R: Resolver + Drop>(
    alloc: Global,
    keep: &[String],
    root: ModulePath,
    resolver: R,
    features: Option<&Features>,
    options: Options,
) -> Result<FoundLink<BundleMangler>, Diagnostic>
    requires ready { R.ready resolver }
    requires asked { is_relative (path_view root) ≡ false }
    ensures found { IfOk result (FindsUnrecorded R.Resolver resolver (option_copied features.entry) root (map string_bytes keep.now) options) }
    ensures refused { IfErr result (RefusesToRecord R.Resolver resolver (option_copied features.entry) root (map string_bytes keep.now) options) }
{
    let keep = names(alloc, keep)?;
    let naming = BundleMangler {
        naming: options.mangler,
    };
    let mapper = SourceMapper::new(alloc, root.try_clone(alloc)?, resolver, naming);
    let request = LinkRequest {
        root: &root,
        keep: &keep,
        is_eager: options.eager,
        max_modules: options.max_modules,
    };
    find_mapped(alloc, &request, mapper, features)
}

/// The unit that is linked of what was found, whether its names clash, and what they stand for: the names of the modules' items
/// are as the bundle's mangler gives them, and those of the root's stay where it says nothing else. Where the bundle has
/// built-in names, the unit is validated by them, and refused with the validator's fault.
pub(crate) fn linked(alloc: Global, found: Found) -> Result<Answer, Diagnostic>
    ensures linked { IfOk result (AnswersFound found) }
    ensures refused { IfErr result (λ d. RefusesFound found (out-Diagnostic d).error) }
{
    let Found {
        link,
        mangle_root,
        spans,
        builtins,
    } = found;
    let made = link.finish(alloc, mangle_root)?;
    if let Err(diagnostic) = check_valid(alloc, &made.unit, builtins) {
        return Err(diagnostic);
    }
    let clash = names_clash(alloc, &made.unit)?;
    Ok(Answer {
        clash,
        map: made.map,
        unit: made.unit,
        spans,
    })
}

// The units of the modules, by their paths.
fn modules_of<'t>(
    alloc: Global,
    listed: Vec<BundleModule<'t>>,
) -> Result<BundleUnits<'t>, AllocError>
    ensures held { IfOk result (λ m. Holds (map module_view listed.entry.items) m) }
{
    let mut modules = BundleUnits::new(alloc);
    for module in listed {
        modules.add(module.path, module.unit)?;
    }
    Ok(modules)
}

/// Looks up a path among the modules, or, where it begins in a named package, in the packages. Of packages of one name the
/// first counts. Refused for want of memory alone.
pub fn sources_of<'t>(
    alloc: Global,
    listed: Vec<BundleModule<'t>>,
    packages: Vec<Package<'t>>,
) -> Result<BundleSources<'t>, AllocError>
    ensures held { IfOk result (HoldsBundle (packages_view packages.entry.items) (map module_view listed.entry.items)) }
{
    let modules = modules_of(alloc, listed)?;
    let packages = HeldPackages::new(alloc, packages)?;
    Ok(BundleSources { modules, packages })
}

/// The names, lent. Refused for want of memory alone.
pub fn names<'b>(alloc: Global, keep: &'b [String]) -> Result<Vec<&'b str>, AllocError>
    ensures { IfOk result (λ v. texts v.items ≡ map string_bytes keep.now) }
{
    let mut names = Vec::with_capacity(alloc, keep.len())?;
    for name in keep {
        names.push(name.as_str())?;
    }
    Ok(names)
}
