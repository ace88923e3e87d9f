//! Names of files.
use std::alloc::{AllocError, Global};

/// The name of a file or folder in a folder.
pub fn below(alloc: Global, folder: &str, name: &str) -> Result<String, AllocError> {
    if folder.is_empty() || folder == "." || name.starts_with('/') {
        return String::from_str(alloc, name);
    }
    if name.is_empty() || name == "." {
        return String::from_str(alloc, folder);
    }
    let folder = folder.trim_end_matches('/');
    format!(in alloc; "{folder}/{name}")
}

/// A file as it is shown from a folder: without the folder's name, where it lies in it.
pub fn shown_below<'f>(folder: &str, file: &'f str) -> &'f str {
    let folder = folder.trim_end_matches('/');
    match file.strip_prefix(folder) {
        Some(rest) => match rest.strip_prefix('/') {
            Some(inside) => inside,
            None => file,
        },
        None => file,
    }
}
