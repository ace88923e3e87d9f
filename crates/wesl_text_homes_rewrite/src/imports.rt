//! Imports of packages, and what they become.
use crate::memory::one;
use std::alloc::{AllocError, Global};
use std::mem::replace;
use wesl_text_homes::Libraries;
use wesl_tree_names::{ModulePath, PathOrigin};
use wesl_tree_syntax::{Import, ImportContent, ImportStatement};

/// Turns an import of a module in this package, as a link has it, if it lies in one, to the homes of the libraries.
pub(crate) fn turn_import(
    alloc: Global,
    libraries: &Libraries,
    within: Option<&str>,
    import: &mut ImportStatement,
) -> Result<(), AllocError> {
    match replace(&mut import.path, None) {
        Some(path) => turn_path(alloc, libraries, within, import, path),
        None => turn_content(alloc, libraries, &mut import.content),
    }
}

// Turns an import that had a path.
fn turn_path(
    alloc: Global,
    libraries: &Libraries,
    within: Option<&str>,
    import: &mut ImportStatement,
    path: ModulePath,
) -> Result<(), AllocError> {
    let turned = match &path.origin {
        PathOrigin::Package(name) => libraries.turned(alloc, within, name.as_str())?,
        _ => None,
    };
    match turned {
        Some(home) => {
            let components = components_below(alloc, home, &path.components)?;
            let whole = ImportContent::Collection(Vec::new(alloc));
            let content = replace(&mut import.content, whole);
            let entry = Import {
                path: components,
                content,
            };
            import.content = ImportContent::Collection(one(alloc, entry)?);
        }
        None => import.path = Some(path),
    }
    Ok(())
}

/// The name of a package with components behind it.
pub(crate) fn components_below(
    alloc: Global,
    package: String,
    components: &[String],
) -> Result<Vec<String>, AllocError> {
    let mut whole = one(alloc, package)?;
    for component in components {
        whole.push(component.clone()?)?;
    }
    Ok(whole)
}

// Turns the entries of a collection without a path, each of which begins with the name of a package of the project.
fn turn_content(
    alloc: Global,
    libraries: &Libraries,
    content: &mut ImportContent,
) -> Result<(), AllocError> {
    if let ImportContent::Collection(entries) = content {
        for entry in entries.iter_mut() {
            turn_entry(alloc, libraries, entry)?;
        }
    }
    Ok(())
}

// Turns an entry that begins with the name of a package of the project.
fn turn_entry(alloc: Global, libraries: &Libraries, entry: &mut Import) -> Result<(), AllocError> {
    let Some(first) = entry.path.first_mut() else {
        return Ok(());
    };
    if let Some(home) = libraries.turned(alloc, None, first.as_str())? {
        *first = home;
    }
    Ok(())
}
