//! The paths of what is told: as a project has them, and the files of their modules.
use std::alloc::{AllocError, Global};
use wesl_explain_text::ModuleFile;
use wesl_text_link::ReadModules;
use wesl_text_project::shown_below;
use wesl_tree::ModulePath;

/// The paths of these texts, as a link has them.
pub(crate) fn paths_of(
    alloc: Global,
    texts: &[String],
) -> Result<Vec<Option<ModulePath>>, AllocError> {
    let mut paths = Vec::with_capacity(alloc, texts.len())?;
    for text in texts {
        let path = match ModulePath::parse(alloc, text.as_str()) {
            Ok(path) => path,
            Err(_) => return Err(AllocError),
        };
        paths.push(path)?;
    }
    Ok(paths)
}

/// The texts of paths, as the project has them.
pub(crate) fn told_texts(
    alloc: Global,
    modules: ReadModules<'_>,
    paths: &[Option<ModulePath>],
) -> Result<Vec<String>, AllocError> {
    let mut texts = Vec::with_capacity(alloc, paths.len())?;
    for path in paths {
        let text = match path {
            Some(path) => {
                let told = modules.libraries.told_path(alloc, path)?;
                format!(in alloc; "{told}")?
            }
            None => String::new(alloc),
        };
        texts.push(text)?;
    }
    Ok(texts)
}

/// The files of the modules at paths.
pub(crate) fn files_of<'m>(
    alloc: Global,
    modules: ReadModules<'m>,
    paths: &[Option<ModulePath>],
) -> Result<Vec<Option<ModuleFile<'m>>>, AllocError> {
    let mut files = Vec::with_capacity(alloc, paths.len())?;
    for path in paths {
        files.push(file_at(modules, path.as_ref()))?;
    }
    Ok(files)
}

// The file of the module at a path.
fn file_at<'m>(modules: ReadModules<'m>, path: Option<&ModulePath>) -> Option<ModuleFile<'m>> {
    let module = modules.read.get(path?)?;
    Some(ModuleFile {
        name: shown_below(modules.layout.project.as_str(), module.file.as_str()),
        lines: &module.lines,
    })
}
