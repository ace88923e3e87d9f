//! The comments before the declarations of a printed text: module, item, file and line of each.
use crate::asking::{declared, name_of};
use crate::modules::{ProjectModules, ReadModule};
use std::alloc::{AllocError, Global};
use wesl_source_map::{BasicSourceMap, SourceMap};
use wesl_text_project::shown_below;
use wesl_tree::{GlobalDeclarationNode, ModulePath, Span, TranslationUnit};

/// Where a declaration of the linked unit comes from.
#[derive(Clone, Copy)]
pub(crate) struct Origin<'m> {
    /// its module
    pub(crate) path: &'m ModulePath,
    /// its module as it was read, where its place is known
    pub(crate) module: Option<&'m ReadModule>,
    /// its name there
    pub(crate) item: &'m str,
}

impl<'r, R> ProjectModules<'r, R> {
    /// Where a declaration of a name comes from. Where two modules print one name, the place decides.
    pub(crate) fn origin<'m>(
        &'m self,
        map: &'m BasicSourceMap,
        root: &'m ModulePath,
        name: &'m str,
        span: Span,
    ) -> Origin<'m> {
        let (path, item) = map.get_decl(name).unwrap_or((root, name));
        if let Some(module) = self.read.get(path) {
            if stands_there(module, item, span) {
                return Origin {
                    path,
                    module: Some(module),
                    item,
                };
            }
        }
        for (other, module) in self.read.iter() {
            if stands_there(module, name, span) {
                return Origin {
                    path: other,
                    module: Some(module),
                    item: name,
                };
            }
        }
        Origin {
            path,
            module: None,
            item,
        }
    }

    // The comment of a declaration, empty where it declares nothing.
    fn comment<'m>(
        &'m self,
        alloc: Global,
        map: &'m BasicSourceMap,
        root: &'m ModulePath,
        unit: &'m TranslationUnit,
        node: &GlobalDeclarationNode,
    ) -> Result<String, AllocError> {
        let Some(ident) = declared(&node.node) else {
            return Ok(String::new(alloc));
        };
        let name = name_of(unit.names(), ident);
        let origin = self.origin(map, root, name, node.span);
        let path = self.libraries.told_path(alloc, origin.path)?;
        let item = origin.item;
        match origin.module {
            Some(module) => {
                let file = shown_below(self.layout.project.as_str(), module.file.as_str());
                let line = module.lines.line(node.span.start as usize);
                format!(in alloc; "// {path}::{item}, {file}:{line}\n")
            }
            None => format!(in alloc; "// {path}::{item}\n"),
        }
    }

    /// The printed text of a unit with a comment before each declaration of a name. Its declarations are parted by empty lines; where
    /// they are not, the text stays as it is.
    pub(crate) fn with_comments(
        &self,
        alloc: Global,
        text: String,
        map: &BasicSourceMap,
        root: &ModulePath,
        unit: &TranslationUnit,
    ) -> Result<String, AllocError> {
        let nodes = unit.global_declarations();
        let parts: Vec<&str> = text.as_str().split("\n\n").collect(alloc)?;
        let Some(head) = parts.len().checked_sub(nodes.len()) else {
            return String::from_str(alloc, text.as_str());
        };
        let mut whole = String::new(alloc);
        for (index, part) in parts.iter().enumerate() {
            if index > 0 {
                whole.push_str("\n\n")?;
            }
            if let Some(node) = node_at(nodes, index, head) {
                let comment = (&*self).comment(alloc, &*map, &*root, &*unit, node)?;
                whole.push_str(comment.as_str())?;
            }
            whole.push_str(part)?;
        }
        Ok(whole)
    }
}

// The declaration of a part, where it stands behind the head.
fn node_at(
    nodes: &Vec<GlobalDeclarationNode>,
    index: usize,
    head: usize,
) -> Option<&GlobalDeclarationNode> {
    match index.checked_sub(head) {
        Some(behind) => nodes.get(behind),
        None => None,
    }
}

// Whether a module declares an item at a place.
fn stands_there(module: &ReadModule, item: &str, span: Span) -> bool {
    let before = module
        .declared
        .partition_point(|one| one.0.start < span.start);
    match module.declared.get(before) {
        Some((place, name)) => *place == span && name.as_str() == item,
        None => false,
    }
}
