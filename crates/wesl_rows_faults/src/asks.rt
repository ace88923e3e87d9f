//! Which paths a link asks its resolver for, and which names it asks its mangler for.
use serde_json::Value;
use std::alloc::Global;
use wesl_link::resolve_lazy;
use wesl_resolve::{EscapeMangler, Mangler};
use wesl_resolve_base::Resolver;
use wesl_rows_base::{List, Object, Row};
use wesl_tree::{TranslationUnit, TypeExpression};
use wesl_tree_names::{Error, ModulePath, Names, ResolveError};

/// Asks another resolver, and keeps the paths that it was asked for. That memory was wanting for one is noted in the row.
#[derive(Drop)]
struct Counting<'a, R> {
    row: Row<'a>,
    inner: R,
    asked: Vec<String>,
}

impl<R: Resolver> Resolver for Counting<'_, R> {
    ghost ready = { λ s. R.ready s.inner };

    ghost hands = { λ s p u. R.hands s.inner p u };

    ghost refuses = { λ s p e. R.refuses s.inner p e };

    ghost source = { λ s p text. R.source s.inner p text };

    ghost lacks = { λ s p e. R.lacks s.inner p e };

    ghost shown = { λ s p name. R.shown s.inner p name };

    fn resolve_source(&mut self, alloc: Global, path: &ModulePath) -> Result<String, ResolveError> {
        self.inner.resolve_source(alloc, path)
    }

    fn resolve_module(
        &mut self,
        alloc: Global,
        path: &ModulePath,
    ) -> Result<TranslationUnit, ResolveError> {
        let text = self.row.or(path.to_text(alloc), String::new(alloc));
        self.row.push(&mut self.asked, text);
        self.inner.resolve_module(alloc, path)
    }

    fn display_name(
        &self,
        alloc: Global,
        path: &ModulePath,
    ) -> Result<Option<String>, ResolveError> {
        self.inner.display_name(alloc, path)
    }
}

/// How often a path is among those that were asked for.
fn count(asked: &[String], path: &str) -> usize {
    let mut count: usize = 0;
    for other in asked {
        if other.as_str() == path {
            count = count.wrapping_add(1);
        }
    }
    count
}

/// How often each path was asked for.
fn counts(row: Row<'_>, asked: &[String]) -> Value {
    let mut counts = Object::new(row.alloc);
    for path in asked {
        counts.number(path.as_str(), count(asked, path.as_str()));
    }
    counts.end(row)
}

/// How often a lazy link of a row's modules asks for each path, and how many modules it has, or how it is refused.
pub fn counted(row: Row<'_>) -> Value {
    let keep = row.texts("keep");
    let path = row.rooted("path");
    let root = row.unit("unit");
    let mut counting = Counting {
        row,
        inner: row.modules("modules"),
        asked: Vec::new(row.alloc),
    };
    match row.told(resolve_lazy(row.alloc, keep.as_slice(), root, &path, &mut counting, 1000)) {
        Ok(found) => {
            let modules = row.or(found.module_order(row.alloc), Vec::new(row.alloc));
            let mut answer = Object::new(row.alloc);
            answer.put("asked", counts(row, counting.asked.as_slice()));
            answer.number("modules", modules.len());
            answer.end(row)
        }
        Err(fault) => fault,
    }
}

/// Asks another mangler, and keeps the items that it was asked for, as texts. That memory was wanting for one is noted in
/// the row.
#[derive(Drop)]
struct NameLog<'a, M> {
    row: Row<'a>,
    inner: M,
    asked: Vec<String>,
}

impl<M: Mangler> Mangler for NameLog<'_, M> {
    ghost name_of = { λ s p i. M.name_of s.inner p i };

    ghost recorded = { λ s name. M.recorded s.inner name };

    ghost writes = { λ s. M.writes s.inner };

    ghost item_of = { λ s name. M.item_of s.inner name };

    ghost variant_of = { λ s names i n ts. M.variant_of s.inner names i n ts };

    fn mangle(&mut self, alloc: Global, path: &ModulePath, item: &str) -> Result<String, Error> {
        let module = self.row.or(path.to_text(alloc), String::new(alloc));
        let text = self
            .row
            .or(format!(in alloc; "{module}::{item}"), String::new(alloc));
        self.row.push(&mut self.asked, text);
        self.inner.mangle(alloc, path, item)
    }

    fn unmangle(
        &self,
        alloc: Global,
        mangled: &str,
    ) -> Result<Option<(ModulePath, String)>, Error> {
        self.inner.unmangle(alloc, mangled)
    }

    fn mangle_types(
        &self,
        alloc: Global,
        names: &Names,
        item: &str,
        variant: u32,
        types: &[TypeExpression],
    ) -> Result<String, Error> {
        self.inner.mangle_types(alloc, names, item, variant, types)
    }
}

/// Texts as a value.
fn text_list(row: Row<'_>, texts: &[String]) -> Value {
    let mut list = List::new(row.alloc);
    for text in texts {
        list.text(text.as_str());
    }
    list.end(row)
}

/// The items whose names the lazy link of a row's modules asks its mangler for, each as often as it asks, or how the link is
/// refused. The root is mangled where the row has `mangle_root`.
pub fn names_asked(row: Row<'_>) -> Value {
    let keep = row.texts("keep");
    let path = row.rooted("path");
    let root = row.unit("unit");
    let mut modules = row.modules("modules");
    match resolve_lazy(row.alloc, keep.as_slice(), root, &path, &mut modules, 1000) {
        Ok(found) => {
            let mut found = found;
            let mut log = NameLog {
                row,
                inner: EscapeMangler,
                asked: Vec::new(row.alloc),
            };
            row.done(found.mangle(row.alloc, &mut log, row.has("mangle_root")));
            text_list(row, log.asked.as_slice())
        }
        Err(refusal) => row.answer_of(refusal),
    }
}
