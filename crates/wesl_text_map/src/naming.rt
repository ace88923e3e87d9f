//! How a map names files.
use std::alloc::{AllocError, Global};

/// A file as it is named from the folder of another one. Where that cannot be told by their names, the file as it is; of no name, none.
pub fn seen_from(alloc: Global, other: &str, file: &str) -> Result<String, AllocError> {
    if file.is_empty() || other.starts_with('/') != file.starts_with('/') {
        return String::from_str(alloc, file);
    }
    let whole = parts(alloc, other)?;
    let folder = whole.get(..whole.len().saturating_sub(1)).unwrap_or(&[]);
    let names = parts(alloc, file)?;
    let common = folder
        .iter()
        .zip(names.iter())
        .take_while(|(left, right)| **left == **right)
        .count();
    let above = folder.get(common..).unwrap_or(&[]);
    if above.iter().any(|name| *name == "..") {
        return String::from_str(alloc, file);
    }
    climbed(alloc, above.len(), names.get(common..).unwrap_or(&[]))
}

// The names of which the name of a file is made.
fn parts<'f>(alloc: Global, file: &'f str) -> Result<Vec<&'f str>, AllocError> {
    let mut names = Vec::new(alloc);
    for name in file.split('/') {
        if !name.is_empty() && name != "." {
            names.push(name)?;
        }
    }
    Ok(names)
}

// The file of some names, so many folders above.
fn climbed(alloc: Global, above: usize, names: &[&str]) -> Result<String, AllocError> {
    let mut file = String::new(alloc);
    for _folder in 0..above {
        file.push_str("../")?;
    }
    for (index, name) in names.iter().enumerate() {
        if index > 0 {
            file.push('/')?;
        }
        file.push_str(name)?;
    }
    Ok(file)
}
