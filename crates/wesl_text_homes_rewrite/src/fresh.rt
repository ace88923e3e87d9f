//! Imports that stand for paths before names.
use crate::binders::name_of;
use crate::memory::one;
use std::alloc::{AllocError, Global};
use wesl_tree_names::{Ident, Names, Span};
use wesl_tree_syntax::{
    Import, ImportContent, ImportItem, ImportStatement, ImportStatementNode, Spanned,
};

/// An import of an item, under a name that nothing else in the module has.
#[derive(Drop)]
pub(crate) struct FreshImport {
    /// the package, as a link has it, and the components of the module in it
    path: Vec<String>,
    /// the item
    item: Ident,
    /// its name here
    pub(crate) name: String,
}

/// The number of the import of an item at a path that begins with a package, which is added if it is not there yet. `firsts` are the
/// names with which paths of the module begin.
pub(crate) fn fresh_number(
    alloc: Global,
    fresh: &mut Vec<FreshImport>,
    names: &Names,
    firsts: &[&str],
    path: Vec<String>,
    item: Ident,
) -> Result<usize, AllocError> {
    if let Some(number) = known_number(fresh, names, &path, item) {
        return Ok(number);
    }
    let name = fresh_name(alloc, fresh, names, firsts, name_of(names, item))?;
    let number = fresh.len();
    fresh.push(FreshImport { path, item, name })?;
    Ok(number)
}

// The number of the import of an item at a path, if it is there.
fn known_number(
    fresh: &[FreshImport],
    names: &Names,
    path: &[String],
    item: Ident,
) -> Option<usize> {
    for (number, import) in fresh.iter().enumerate() {
        if import.path.as_slice() == path && name_of(names, import.item) == name_of(names, item) {
            return Some(number);
        }
    }
    None
}

// A name that nothing has yet: that of the item with the least number behind it that makes it one.
fn fresh_name(
    alloc: Global,
    fresh: &[FreshImport],
    names: &Names,
    firsts: &[&str],
    item: &str,
) -> Result<String, AllocError> {
    for number in 0..u64::MAX {
        let name = format!(in alloc; "{item}{number}")?;
        if !is_taken(fresh, names, firsts, name.as_str()) {
            return Ok(name);
        }
    }
    Err(AllocError)
}

// Whether something has a name: an identifier, the package with which a path begins, or a fresh import.
fn is_taken(fresh: &[FreshImport], names: &Names, firsts: &[&str], name: &str) -> bool {
    for number in 0..names.len() {
        if names.name(Ident(number)) == name {
            return true;
        }
    }
    firsts.iter().any(|first| *first == name)
        || fresh.iter().any(|import| import.name.as_str() == name)
}

/// The statement of an import whose name has become an identifier.
pub(crate) fn fresh_statement(
    alloc: Global,
    import: FreshImport,
    ident: Ident,
) -> Result<ImportStatementNode, AllocError> {
    let FreshImport {
        path,
        item,
        name: _,
    } = import;
    let item = ImportItem {
        ident: item,
        rename: Some(ident),
    };
    let entry = Import {
        path,
        content: ImportContent::Item(item),
    };
    Ok(Spanned {
        node: ImportStatement {
            attributes: Vec::new(alloc),
            path: None,
            content: ImportContent::Collection(one(alloc, entry)?),
        },
        span: Span { start: 0, end: 0 },
    })
}
