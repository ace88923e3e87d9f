//! Which module is the root.
ghost use Rattle.std.specs.Prelude.{◌≡◌, ◌⊎◌, Some, None, IfOk, IfErr};
ghost use Rattle.wesl_tree_names.specs.Path.{path_view};
ghost use Rattle.wesl_text_project.specs.Naming.{module_named, module_of_file, said_root};
ghost use Rattle.wesl_text_project.specs.declared.fault.ProjectFault.TheVariants as fault;

use crate::fault::{ProjectFault, or_memory};
use crate::files::{ModuleFile, module_file};
use crate::layout::Layout;
use std::alloc::{AllocError, Global};
use std::fs;
use std::path::Path;
use std::rt::Files;
use wesl_tree_names::ModulePath;

/// The path that a text says from the outside: neither `self` nor `super` begins it.
pub fn parsed_root(alloc: Global, text: &str) -> Result<ModulePath, ProjectFault>
    ensures parsed { IfOk result (λ path. said_root text.now ≡ Some (path_view path)) }
    ensures refused { IfErr result (λ e. (e ≡ fault.Memory) ⊎ (said_root text.now ≡ None)) }
{
    match or_memory(ModulePath::parse(alloc, text))? {
        Some(path) if !path.is_relative() => Ok(path),
        _ => Err(ProjectFault::Project(format!(in alloc;
            "`{text}` is no path of a root module, as package::main is one"
        )?)),
    }
}

/// The path of the module that a file stands for which lies directly in the folder of the modules.
pub fn root_of_file(alloc: Global, file: &str) -> Result<ModulePath, ProjectFault>
    ensures named { IfOk result (λ path. path_view path ≡ module_of_file file.now) }
    ensures refused { IfErr result (λ e. e ≡ fault.Memory) }
{
    let stem = Path::new(file).file_stem().unwrap_or("");
    module_named(alloc, stem)
}

// The path of the module of a name, directly in the project: that of `lib` and `package` is the root module.
fn module_named(alloc: Global, stem: &str) -> Result<ModulePath, ProjectFault>
    ensures named { IfOk result (λ path. path_view path ≡ module_named stem.now) }
    ensures refused { IfErr result (λ e. e ≡ fault.Memory) }
{
    let mut path = ModulePath::new_root(alloc);
    if stem != "lib" && stem != "package" {
        or_memory(path.push(stem))?;
    }
    Ok(path)
}

/// The root of a project that tells none: `package::main`, else `package`, else the only module in the folder.
pub fn default_root<R: Files + AllocGlobal + Clone + Drop>(
    rt: &R,
    layout: &Layout,
) -> Result<ModulePath, ProjectFault> {
    let alloc = rt.alloc();
    for name in ["main", "lib"] {
        let path = module_named(alloc, name)?;
        if let ModuleFile::File(_) = module_file(rt, alloc, layout, &path)? {
            return Ok(path);
        }
    }
    let names = names_in(rt, layout.folder.as_str())?;
    let folder = layout.project.as_str();
    match names.as_slice() {
        [] => Err(ProjectFault::Project(format!(in alloc;
            "{folder}: no file `*.wesl` or `*.wgsl` in it"
        )?)),
        [only] => module_named(alloc, only.as_str()),
        _ => {
            let listed = listed(alloc, &names)?;
            Err(ProjectFault::Project(format!(in alloc;
                "{folder}: none of its modules is named `main`; name the root by --root: {listed}"
            )?))
        }
    }
}

// The paths of modules of names.
fn listed(alloc: Global, names: &[String]) -> Result<String, AllocError> {
    let mut text = String::new(alloc);
    for name in names {
        if !text.is_empty() {
            text.push_str(", ")?;
        }
        text.push_str("package::")?;
        text.push_str(name.as_str())?;
    }
    Ok(text)
}

// The names of the modules whose files lie directly in a folder, in the order of their bytes.
fn names_in<R: Files + AllocGlobal + Clone + Drop>(
    rt: &R,
    folder: &str,
) -> Result<Vec<String>, ProjectFault> {
    let alloc = rt.alloc();
    let shown = if folder.is_empty() { "." } else { folder };
    let mut names: Vec<String> = Vec::new(alloc);
    let Ok(entries) = fs::read_dir(rt, shown) else {
        return Ok(names);
    };
    for entry in entries {
        if let Ok(entry) = entry {
            if let Some(name) = module_name(entry.file_name()) {
                names.push(String::from_str(alloc, name)?)?;
            }
        }
    }
    names.sort()?;
    names.dedup();
    Ok(names)
}

// The name of the module that a file stands for, if it is one of a module.
fn module_name(file: &str) -> Option<&str> {
    if file.starts_with('.') {
        return None;
    }
    match file.rsplit_once('.') {
        Some((name, "wesl")) => Some(name),
        Some((name, "wgsl")) => Some(name),
        _ => None,
    }
}
