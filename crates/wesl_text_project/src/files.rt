//! Which file a module's path stands for.
use crate::layout::Layout;
use crate::paths::below;
use std::alloc::{AllocError, Global};
use std::path::Path;
use std::rt::Files;
use wesl_tree_names::{ModulePath, PathOrigin};

/// What a module's path stands for.
#[derive(Drop)]
pub enum ModuleFile {
    /// A file.
    File(String),
    /// A folder of a package, which is a module that declares nothing.
    Folder,
    /// Nothing. It carries why.
    Missing(String),
}

// The first of the files with a name before an ending that is there.
fn file_named<R: Files>(
    rt: &R,
    alloc: Global,
    folder: &str,
    name: &str,
) -> Result<Option<String>, AllocError> {
    for ending in [".wesl", ".wgsl"] {
        let inside = format!(in alloc; "{name}{ending}")?;
        let file = below(alloc, folder, inside.as_str())?;
        if Path::new(file.as_str()).is_file(rt) {
            return Ok(Some(file));
        }
    }
    Ok(None)
}

// The file of the root module of a folder.
fn root_file<R: Files>(rt: &R, alloc: Global, folder: &str) -> Result<Option<String>, AllocError> {
    match file_named(rt, alloc, folder, "lib")? {
        Some(file) => Ok(Some(file)),
        None => file_named(rt, alloc, folder, "package"),
    }
}

// Whether components name a file that stands for a module by them: that of the root module does not, and none is hidden.
fn is_named(components: &[String]) -> bool {
    if let [only] = components {
        if only.as_str() == "lib" || only.as_str() == "package" {
            return false;
        }
    }
    components
        .iter()
        .all(|component| !component.as_str().starts_with('.'))
}

// What stands for the module at these components of a folder: a file, or else a folder.
fn module_at<R: Files>(
    rt: &R,
    alloc: Global,
    folder: &str,
    components: &[String],
) -> Result<Option<ModuleFile>, AllocError> {
    if !is_named(components) {
        return Ok(None);
    }
    let Some((last, before)) = components.split_last() else {
        return Ok(Some(match root_file(rt, alloc, folder)? {
            Some(file) => ModuleFile::File(file),
            None => ModuleFile::Folder,
        }));
    };
    let mut inside = String::from_str(alloc, folder)?;
    for component in before {
        inside = below(alloc, inside.as_str(), component.as_str())?;
    }
    if let Some(file) = file_named(rt, alloc, inside.as_str(), last.as_str())? {
        return Ok(Some(ModuleFile::File(file)));
    }
    let whole = below(alloc, inside.as_str(), last.as_str())?;
    if Path::new(whole.as_str()).is_dir(rt) {
        Ok(Some(ModuleFile::Folder))
    } else {
        Ok(None)
    }
}

// What a path stands for that begins in a package of a name.
fn in_package<R: Files>(
    rt: &R,
    alloc: Global,
    layout: &Layout,
    name: &str,
    components: &[String],
) -> Result<ModuleFile, AllocError> {
    let Some(folder) = layout.package_folder(name) else {
        return Ok(ModuleFile::Missing(missing_package(alloc, layout, name)?));
    };
    if let Some(found) = module_at(rt, alloc, folder, components)? {
        return Ok(found);
    }
    let mut module = last_part(name);
    for (index, component) in components.iter().enumerate() {
        let so_far = components
            .get(..index.saturating_add(1))
            .unwrap_or(components);
        if module_at(rt, alloc, folder, so_far)?.is_none() {
            return Ok(ModuleFile::Missing(format!(in alloc;
                "in module `{module}`, no submodule named `{component}`"
            )?));
        }
        module = component.as_str();
    }
    Ok(ModuleFile::Missing(format!(in alloc; "in module `{module}`, no such submodule")?))
}

// The part of a package's name behind the last slash.
fn last_part(name: &str) -> &str {
    match name.rsplit_once('/') {
        Some((_, last)) => last,
        None => name,
    }
}

// Why no package has a name.
fn missing_package(alloc: Global, layout: &Layout, name: &str) -> Result<String, AllocError> {
    let mut above = String::new(alloc);
    for part in name.split('/') {
        let is_first = above.is_empty();
        if !is_first {
            above.push('/')?;
        }
        above.push_str(part)?;
        if layout.package_folder(above.as_str()).is_none() {
            return if is_first {
                format!(in alloc; "dependency `{name}` not found")
            } else {
                format!(in alloc; "dependency `{part}` not found in package path `{name}`")
            };
        }
    }
    format!(in alloc; "dependency `{name}` not found")
}

// What a path stands for among the project's own modules.
fn own_module<R: Files>(
    rt: &R,
    alloc: Global,
    layout: &Layout,
    components: &[String],
) -> Result<ModuleFile, AllocError> {
    match module_at(rt, alloc, layout.folder.as_str(), components)? {
        Some(found) => owned(alloc, layout, found),
        None => no_own(alloc),
    }
}

// What was found in the project's folder, unless it lies in that of a package.
fn owned(alloc: Global, layout: &Layout, found: ModuleFile) -> Result<ModuleFile, AllocError> {
    match found {
        ModuleFile::File(file) => {
            if layout.is_left_out(file.as_str()) {
                no_own(alloc)
            } else {
                Ok(ModuleFile::File(file))
            }
        }
        ModuleFile::Folder => no_own(alloc),
        ModuleFile::Missing(reason) => Ok(ModuleFile::Missing(reason)),
    }
}

// None of the project's own modules.
fn no_own(alloc: Global) -> Result<ModuleFile, AllocError> {
    Ok(ModuleFile::Missing(String::from_str(alloc, "virtual module")?))
}

/// What a module's path stands for: `package::a::b` for `a/b.wesl` or else `a/b.wgsl` in the folder of the project's modules, and
/// `package` for `lib` or else `package` there; a path that begins with the name of a package for a file in its folder likewise, or
/// for a folder there. Refused for want of memory alone.
pub fn module_file<R: Files>(
    rt: &R,
    alloc: Global,
    layout: &Layout,
    path: &ModulePath,
) -> Result<ModuleFile, AllocError> {
    match &path.origin {
        PathOrigin::Package(name) => {
            in_package(rt, alloc, layout, name.as_str(), &path.components)
        }
        _ => own_module(rt, alloc, layout, &path.components),
    }
}
