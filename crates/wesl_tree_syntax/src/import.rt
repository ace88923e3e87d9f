//! Imports (WESL, "Imports").
use crate::attribute::Attributes;
use crate::span::Spanned;
use wesl_tree_names::{Ident, ModulePath};

/// `import path::content;`
#[derive(PartialEq)]
pub struct ImportStatement {
    /// its attributes, as `@publish` or a condition
    pub attributes: Attributes,
    /// the path before the content, if there is one
    pub path: Option<ModulePath>,
    /// what is imported from there
    pub content: ImportContent,
}

/// An import statement with its span.
pub type ImportStatementNode = Spanned<ImportStatement>;

/// An imported item, `ident` or `ident as rename`.
#[derive(Debug, PartialEq)]
pub struct ImportItem {
    /// the name that the item has where it is declared
    pub ident: Ident,
    /// the name that it gets here, if that is another
    pub rename: Option<Ident>,
}

/// What an import statement, or an entry of a collection, brings in.
#[cycle(import)]
#[derive(PartialEq)]
pub enum ImportContent {
    /// one item
    Item(ImportItem),
    /// `{entry, entry, ..}`
    Collection(Vec<Import>),
}

/// An entry of a collection, `path::content`.
#[cycle(import)]
#[derive(PartialEq)]
pub struct Import {
    /// the names that lead on from the path before the collection
    pub path: Vec<String>,
    /// what is imported from there
    pub content: ImportContent,
}

impl Drop for ImportStatement {
    fn drop(self) {
        let ImportStatement {
            attributes: _,
            path: _,
            content: _,
        } = self;
    }
}

impl Drop for ImportItem {
    fn drop(self) {
        let ImportItem {
            ident: _,
            rename: _,
        } = self;
    }
}

impl Drop for ImportContent {
    #[cycle(letting_import_go)]
    fn drop(self) {
        match self {
            ImportContent::Item(_) => {}
            ImportContent::Collection(_) => {}
        }
    }
}

impl Drop for Import {
    #[cycle(letting_import_go)]
    fn drop(self) {
        let Import {
            path: _,
            content: _,
        } = self;
    }
}
