//! The packages that a project uses, and what they use.
use crate::described::Described;
use crate::description::{Description, module_folder, refuse_unknown, table_of, text_at, wrong};
use crate::fault::ProjectFault;
use crate::layout::{Layout, PackageFolder};
use crate::paths::below;
use std::alloc::{AllocError, Global};
use std::mem::replace;
use std::path::Path;
use std::rt::Files;

// How many packages a project may use, those of packages counted.
const MOST_PACKAGES: usize = 256;

// The name of a package that one of a name, or the project, uses.
fn name_below(alloc: Global, above: &str, name: &str) -> Result<String, AllocError> {
    if above.is_empty() {
        String::from_str(alloc, name)
    } else {
        format!(in alloc; "{above}/{name}")
    }
}

/// Adds the packages of a `project.json`, which nest: each lies in the folder `packages`, under its name or what `dir` says, and
/// `dependencies` has those that it uses.
pub(crate) fn add_nested(
    alloc: Global,
    file: &str,
    packages: &mut Vec<PackageFolder>,
    told: Described<'_>,
    folder: &str,
) -> Result<(), ProjectFault> {
    let place = below(alloc, folder, "packages")?;
    let mut left = Vec::new(alloc);
    if let Some(listed) = told.get("packages") {
        left.push((String::new(alloc), listed))?;
    }
    for index in 0..MOST_PACKAGES {
        let Some(found) = nested_at(alloc, file, packages, left.get(index), place.as_str())? else {
            return Ok(());
        };
        for inner in found {
            left.push(inner)?;
        }
    }
    Err(wrong(alloc, file, "too many packages")?)
}

// Adds the packages of one list, and answers the lists of what they use; none where there is no list.
fn nested_at<'v>(
    alloc: Global,
    file: &str,
    packages: &mut Vec<PackageFolder>,
    listed: Option<&(String, Described<'v>)>,
    place: &str,
) -> Result<Option<Vec<(String, Described<'v>)>>, ProjectFault> {
    let Some((above, told)) = listed else {
        return Ok(None);
    };
    let Some(members) = told.members(alloc)? else {
        return Err(wrong(
            alloc,
            file,
            "packages are no object with a key for each name",
        )?);
    };
    let mut inner = Vec::new(alloc);
    for (name, package) in members.iter() {
        let whole = name_below(alloc, above.as_str(), name)?;
        let folder = text_at(alloc, file, *package, "dir")?.unwrap_or(*name);
        if let Some(dependencies) = package.get("dependencies") {
            inner.push((whole.clone()?, dependencies))?;
        }
        packages.push(PackageFolder {
            name: whole,
            folder: below(alloc, place, folder)?,
        })?;
    }
    Ok(Some(inner))
}

/// Adds the dependencies of a `wesl.toml`, each by the folder that its `path` says.
pub(crate) fn add_dependencies(
    alloc: Global,
    file: &str,
    packages: &mut Vec<PackageFolder>,
    told: Described<'_>,
    above: &str,
    folder: &str,
) -> Result<(), ProjectFault> {
    let Some(dependencies) = told.get("dependencies") else {
        return Ok(());
    };
    let Some(members) = dependencies.members(alloc)? else {
        return Err(wrong(
            alloc,
            file,
            "`dependencies` by anything but a table is not there yet",
        )?);
    };
    for (name, dependency) in members.iter() {
        let Some(path) = text_at(alloc, file, *dependency, "path")? else {
            return Err(ProjectFault::Project(format!(in alloc;
                "{file}: the package `{name}` has no `path`; other packages than folders are not there yet"
            )?));
        };
        packages.push(PackageFolder {
            name: name_below(alloc, above, name)?,
            folder: below(alloc, folder, path)?,
        })?;
    }
    Ok(())
}

/// The packages that are given by name and folder: `a/b` is the package `b` that the package `a` uses.
pub fn given_packages(
    alloc: Global,
    given: &[(&str, &str)],
) -> Result<Vec<PackageFolder>, ProjectFault> {
    let mut packages = Vec::new(alloc);
    for (name, folder) in given.iter() {
        packages.push(PackageFolder {
            name: String::from_str(alloc, name)?,
            folder: String::from_str(alloc, folder)?,
        })?;
    }
    Ok(packages)
}

/// Where the modules of a project lie: those of packages that are given first, and then of those that the project describes. A
/// package with a `wesl.toml` has its modules where that says, and uses what that says.
pub fn layout_of<R: Files + AllocGlobal>(
    rt: &R,
    project: &str,
    description: &mut Description,
    given: Vec<PackageFolder>,
) -> Result<Layout, ProjectFault> {
    let alloc = rt.alloc();
    let mut packages = given;
    let described = replace(&mut description.packages, Vec::new(alloc));
    for package in described {
        packages.push(package)?;
    }
    follow_manifests(rt, project, &mut packages)?;
    let layout = Layout {
        project: String::from_str(alloc, project)?,
        folder: below(alloc, project, description.folder.as_str())?,
        packages,
    };
    check_folders(rt, &layout)?;
    Ok(layout)
}

// Reads the manifests of packages, and adds the packages that they name.
fn follow_manifests<R: Files + AllocGlobal>(
    rt: &R,
    project: &str,
    packages: &mut Vec<PackageFolder>,
) -> Result<(), ProjectFault> {
    for index in 0..MOST_PACKAGES {
        let Some(package) = packages.get_mut(index) else {
            return Ok(());
        };
        let used = used_by(rt, package)?;
        for dependency in used {
            packages.push(dependency)?;
        }
    }
    Err(ProjectFault::Project(format!(in rt.alloc();
        "{project}: more than {MOST_PACKAGES} packages"
    )?))
}

// What a package uses by its own manifest, which also says where its modules lie.
fn used_by<R: Files + AllocGlobal>(
    rt: &R,
    package: &mut PackageFolder,
) -> Result<Vec<PackageFolder>, ProjectFault> {
    let alloc = rt.alloc();
    let mut used = Vec::new(alloc);
    let file = below(alloc, package.folder.as_str(), "wesl.toml")?;
    if !Path::new(file.as_str()).is_file(rt) {
        return Ok(used);
    }
    let value = table_of(rt, file.as_str())?;
    let told = Described::Toml(&value);
    refuse_unknown(alloc, file.as_str(), told)?;
    add_dependencies(
        alloc,
        file.as_str(),
        &mut used,
        told,
        package.name.as_str(),
        package.folder.as_str(),
    )?;
    let inside = module_folder(alloc, file.as_str(), told)?;
    package.folder = below(alloc, package.folder.as_str(), inside.as_str())?;
    Ok(used)
}

// Asks that each folder is there, and that each package that uses another one is given too.
fn check_folders<R: Files + AllocGlobal>(rt: &R, layout: &Layout) -> Result<(), ProjectFault> {
    let alloc = rt.alloc();
    check_folder(rt, layout.folder.as_str())?;
    for package in &layout.packages {
        check_folder(rt, package.folder.as_str())?;
        if let Some((above, name)) = package.name.as_str().rsplit_once('/') {
            if layout.package_folder(above).is_none() {
                return Err(ProjectFault::Project(format!(in alloc;
                    "the package `{above}`, which is to use `{name}`, is not given"
                )?));
            }
        }
    }
    Ok(())
}

// Asks that a folder is there.
fn check_folder<R: Files + AllocGlobal>(rt: &R, folder: &str) -> Result<(), ProjectFault> {
    let shown = if folder.is_empty() { "." } else { folder };
    if Path::new(shown).is_dir(rt) {
        Ok(())
    } else {
        Err(ProjectFault::Project(format!(in rt.alloc(); "{shown}: no such folder")?))
    }
}
