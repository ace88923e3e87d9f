//! The libraries of a project's layout.
use std::alloc::{AllocError, Global};
use std::fs;
use std::rt::Files;
use wesl_text_homes::{Libraries, UsedPackage, parted_folders};
use wesl_text_project::Layout;
use wesl_tree::ModulePath;

/// The libraries of a layout, whose root has a path. Refused for want of memory alone.
pub fn libraries_of<R: Files + AllocGlobal>(
    rt: &R,
    layout: &Layout,
    root: &ModulePath,
) -> Result<Libraries, AllocError> {
    let alloc = rt.alloc();
    let packages = real_packages(rt, alloc, layout)?;
    Libraries::of_packages(alloc, &packages, root)
}

/// The warnings that a folder of a layout is several libraries, so that what it declares is linked several times. Refused for want of
/// memory alone.
pub fn parted_warnings<R: Files + AllocGlobal>(
    rt: &R,
    layout: &Layout,
) -> Result<Vec<String>, AllocError> {
    let alloc = rt.alloc();
    let packages = real_packages(rt, alloc, layout)?;
    let mut told = Vec::new(alloc);
    for parted in parted_folders(alloc, &packages)? {
        let folder = parted.folder;
        let first = parted.first;
        let other = parted.other;
        told.push(format!(in alloc;
            "warning: the packages `{first}` and `{other}` are the folder {folder}, and are linked apart: the names that it uses lead on to other libraries"
        )?)?;
    }
    Ok(told)
}

// The packages of a layout, of those of one name the first, with the real names of their folders.
fn real_packages<R: Files + AllocGlobal>(
    rt: &R,
    alloc: Global,
    layout: &Layout,
) -> Result<Vec<UsedPackage>, AllocError> {
    let mut packages: Vec<UsedPackage> = Vec::new(alloc);
    for package in &layout.packages {
        let name = package.name.as_str();
        if !packages.iter().any(|known| known.name.as_str() == name) {
            let folder = real_folder(rt, alloc, package.folder.as_str())?;
            packages.push(UsedPackage {
                name: String::from_str(alloc, name)?,
                folder,
            })?;
        }
    }
    Ok(packages)
}

// The real name of a folder, or its name where that cannot be told.
fn real_folder<R: Files + AllocGlobal>(
    rt: &R,
    alloc: Global,
    folder: &str,
) -> Result<String, AllocError> {
    let shown = if folder.is_empty() { "." } else { folder };
    match fs::canonicalize(rt, shown) {
        Ok(real) => String::from_str(alloc, real.as_str()),
        Err(_) => String::from_str(alloc, folder),
    }
}
