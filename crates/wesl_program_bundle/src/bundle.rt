//! The bundle: the root's path, the names that are kept, and the modules.
ghost use Rattle.std.specs.Prelude.{◌≡◌, None, Ok, Some, IfOk, IfErr, OnOk, map, false, true};
ghost use Rattle.serde_json.specs.Find.{get};
ghost use Rattle.wesl_json_form.specs.View.{borrowed_view};
ghost use Rattle.wesl_tree_names.specs.Path.{path_view, is_relative};
ghost use Rattle.wesl_json_form.specs.Keys.{has_only};
ghost use Rattle.wesl_program_bundle.specs.Broken.{IfPlace, Locates, LocatesMember};
ghost use Rattle.wesl_program_bundle.specs.Bundle.{bundle_in, bundle_keys, bundle_of, module_in};
ghost use Rattle.wesl_program_bundle.specs.Forms.{optional, a_list_of, a_module, a_bundle, IsBrokenBundle};
ghost use Rattle.wesl_program_bundle.specs.Parts.{IsKeyOr};
ghost use Rattle.wesl_program_bundle.specs.Reading.{or_empty};
ghost use Rattle.wesl_program_bundle.specs.Views.{bundle_view, module_view};

use crate::builtins::{BuiltinNames, builtins_member};
use crate::features::features_member;
use crate::floats::check_whole;
use crate::joined::{both, inside, only, with_item};
use crate::members::{BundleError, path_member, texts_member, under, unit_member, wrong};
use crate::options::{Options, read_options};
use crate::packages::{Package, packages_member};
use std::alloc::Global;
use wesl_cond_features::Features;
use wesl_json_form::BorrowedValue;
use wesl_tree_names::ModulePath;

/// A bundle whose units are not read yet: of each the value is kept, a copy of that within the bundle's.
#[derive(Drop)]
pub struct Bundle<'t> {
    /// The path of the root. It is not relative.
    pub root: ModulePath,
    /// The names of the root that are kept.
    pub keep: Vec<String>,
    /// The modules in order. Of those at one path the last counts.
    pub modules: Vec<BundleModule<'t>>,
    /// The packages in order. Of those with one name the first counts.
    pub packages: Vec<Package<'t>>,
    /// The answers for feature flags. Without them no condition is judged.
    pub features: Option<Features>,
    /// How the modules are linked.
    pub options: Options,
    /// The names that are built in. Without them nothing is validated.
    pub builtins: Option<BuiltinNames>,
}

/// A module of a bundle.
#[derive(Drop)]
pub struct BundleModule<'t> {
    /// Where the module is. The path is not relative.
    pub path: ModulePath,
    /// A copy of the value that its unit is read from.
    pub unit: BorrowedValue<'t>,
}

/// The bundle that a value is. Refused at a place of the value that breaks the form, and then the value is no bundle,
/// or for want of memory.
pub fn read_bundle<'t>(alloc: Global, value: &BorrowedValue<'t>) -> Result<Bundle<'t>, BundleError>
    ensures ok { IfOk result (λ b. bundle_of (borrowed_view value.now) ≡ Some (bundle_view b)) }
    ensures fixed { IfOk result (λ b. is_relative (path_view b.root) ≡ false) }
    ensures place { IfErr result (λ e. IfPlace e (IsBrokenBundle (borrowed_view value.now))) }
    ensures unread { IfErr result (λ e. IfPlace e (λ _. bundle_of (borrowed_view value.now) ≡ None)) }
{
    match check_whole(alloc, value) {
        Ok(()) => read_members(alloc, value),
        Err(error) => Err(error),
    }
}

fn read_members<'t>(alloc: Global, value: &BorrowedValue<'t>) -> Result<Bundle<'t>, BundleError>
    ensures ok { IfOk result (λ b. bundle_in (borrowed_view value.now) ≡ Some (bundle_view b)) }
    ensures fixed { IfOk result (λ b. is_relative (path_view b.root) ≡ false) }
    ensures place { IfErr result (Locates a_bundle (borrowed_view value.now)) }
{
    let root = path_member(alloc, value, "root");
    let keep = texts_member(alloc, value, "keep", false);
    let modules = modules_member(alloc, value, "modules");
    let packages = packages_member(alloc, value, "packages");
    let features = features_member(alloc, value, "features");
    let options = read_options(alloc, value);
    let builtins = builtins_member(alloc, value, "builtins");
    let sources = both(both(root, keep), both(modules, packages));
    let settings = both(features, both(options, builtins));
    match only_known(alloc, value, both(sources, settings)) {
        Ok((sources, settings)) => {
            let (named, listed) = sources;
            let (root, keep) = named;
            let (modules, packages) = listed;
            let (features, others) = settings;
            let (options, builtins) = others;
            Ok(Bundle {
                root,
                keep,
                modules,
                packages,
                features,
                options,
                builtins,
            })
        }
        Err(error) => Err(error),
    }
}

// What is read of a bundle, if it has no keys but a bundle's.
fn only_known<T: Drop>(
    alloc: Global,
    value: &BorrowedValue<'_>,
    read: Result<T, BundleError>,
) -> Result<T, BundleError>
    ensures ok { IfOk result (λ x. read ≡ Ok x) }
    ensures keys { OnOk result (has_only bundle_keys (borrowed_view value.now) ≡ true) }
    ensures place { IfErr result (IsKeyOr (has_only bundle_keys (borrowed_view value.now)) read) }
{
    let known = [
        "root",
        "keep",
        "modules",
        "packages",
        "features",
        "mangler",
        "mangle_root",
        "eager",
        "max_modules",
        "form",
        "builtins",
    ];
    only(alloc, value, &known, read)
}

// The modules at the key, none where it is not there.
fn modules_member<'t>(
    alloc: Global,
    value: &BorrowedValue<'t>,
    key: &str,
) -> Result<Vec<BundleModule<'t>>, BundleError>
    ensures ok { IfOk result (λ ms. or_empty module_in (get key.now (borrowed_view value.now)) ≡ Some (map module_view ms.items)) }
    ensures place { IfErr result (LocatesMember (optional key.now (a_list_of a_module)) (borrowed_view value.now)) }
{
    let Some(list) = value.get(key) else {
        return Ok(Vec::new(alloc));
    };
    let Some(items) = list.as_array() else {
        return Err(under(alloc, wrong(alloc), key));
    };
    let mut modules = Ok(Vec::new(alloc));
    for (index, item) in items.iter().enumerate() {
        let module = module_of(alloc, item);
        modules = with_item(alloc, modules, index, module);
    }
    inside(alloc, key, modules)
}

fn module_of<'t>(alloc: Global, value: &BorrowedValue<'t>) -> Result<BundleModule<'t>, BundleError>
    ensures ok { IfOk result (λ m. module_in (borrowed_view value.now) ≡ Some (module_view m)) }
    ensures place { IfErr result (Locates a_module (borrowed_view value.now)) }
{
    let path = path_member(alloc, value, "path");
    let unit = unit_member(alloc, value, "unit");
    match only(alloc, value, &["path", "unit"], both(path, unit)) {
        Ok((path, unit)) => Ok(BundleModule { path, unit }),
        Err(error) => Err(error),
    }
}
