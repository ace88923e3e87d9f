//! A caller of the linker: it links modules that it holds itself, and answers the linked unit as JSON.
//!
//! Its input is the text of a JSON object with a tree for the text of each module's path. The root is `package::main`, and
//! `main` is kept of it.
#![tactic(auto)]

mod faults;
mod mapped;
mod steps;
mod together;

pub use faults::{condition_faults, unit_faults};
pub use mapped::{MappedLink, link_by, name_all};
use serde_json::Value;
use std::alloc::Global;
pub use steps::names_given;
pub use together::are_together;
use wesl_cond::{Feature, Features};
use wesl_json::{unit_of_value, value_of_unit};
use wesl_link::{LinkRequest, Resolver, link_under};
use wesl_mangle::EscapeMangler;
use wesl_scope::{Builtins, Reading, clashes, free_names, names_clash};
use wesl_tree::{Diagnostic, Error, ModulePath, ResolveError, TranslationUnit};

/// The trees of modules, each under the text of its path.
#[derive(Drop)]
struct Trees {
    trees: Value,
}

impl Trees {
    /// The tree of the module at a path.
    fn tree_at(&self, alloc: Global, path: &ModulePath) -> Result<&Value, ResolveError> {
        let (Some(text), Some(path)) = (path.to_text(alloc).ok(), path.try_clone(alloc).ok()) else {
            return Err(ResolveError::Memory);
        };
        match self.trees.get(text.as_str()) {
            Some(tree) => Ok(tree),
            None => Err(ResolveError::ModuleNotFound(
                path,
                String::from_str(alloc, "no such tree")?,
            )),
        }
    }
}

impl Resolver for Trees {
    ghost hands = { λ _ p u. Unit {0} };

    ghost refuses = { λ _ p e. Unit {0} };

    ghost source = { λ _ p text. Unit {0} };

    ghost shown = { λ _ p name. Unit {0} };

    fn resolve_source(&mut self, alloc: Global, path: &ModulePath) -> Result<String, ResolveError> {
        Ok(self.tree_at(alloc, path)?.to_string(alloc)?)
    }

    fn resolve_module(
        &mut self,
        alloc: Global,
        path: &ModulePath,
    ) -> Result<TranslationUnit, ResolveError> {
        match unit_of_value(alloc, self.tree_at(alloc, path)?) {
            Ok(unit) => Ok(unit),
            Err(Error::Memory) => Err(ResolveError::Memory),
            Err(error) => Err(ResolveError::Error(Box::new(alloc, Diagnostic::of(error))?)),
        }
    }

    fn display_name(
        &self,
        _alloc: Global,
        _path: &ModulePath,
    ) -> Result<Option<String>, ResolveError> {
        Ok(None)
    }
}

/// The unit that is linked of the modules, where the flag `fast` is enabled and every other disabled.
fn linked(alloc: Global, modules: Trees) -> Result<TranslationUnit, Diagnostic> {
    let mut features = Features::new(alloc);
    features
        .flags
        .insert(String::from_str(alloc, "fast")?, Feature::Enable)?;
    let mut root = ModulePath::new_root(alloc);
    root.push("main")?;
    let request = LinkRequest {
        root: &root,
        keep: &["main"],
        is_eager: false,
        max_modules: 1000,
    };
    let mut found = link_under(alloc, &request, modules, Some(&features))?;
    found.mangle(alloc, &mut EscapeMangler, false)?;
    Ok(found.assemble(alloc, true)?)
}

/// The linked unit as a line, and whether its names clash as another.
fn lines(alloc: Global, unit: &TranslationUnit) -> Result<String, anyhow::Error> {
    let clash = names_clash(alloc, unit)?;
    let line = value_of_unit(alloc, unit)?.to_string(alloc)?;
    Ok(format!(in alloc; "{line}\nnames clash: {clash}")?)
}

/// What is told of the modules of a text: the lines of the linked unit, or its refusal.
pub fn told(alloc: Global, text: &str) -> Result<String, anyhow::Error> {
    let trees = Value::from_str(alloc, text)?;
    match linked(alloc, Trees { trees }) {
        Ok(unit) => lines(alloc, &unit),
        Err(refusal) => Ok(format!(in alloc; "refused: {refusal}")?),
    }
}

/// A line for each name of a unit that reads otherwise than it is meant, and for each that nothing in it means.
pub fn warnings(
    alloc: Global,
    unit: &TranslationUnit,
    builtins: &Builtins,
) -> Result<String, Error> {
    let mut text = String::new(alloc);
    for clash in clashes(alloc, unit)?.as_slice() {
        let what = match clash.reading {
            Reading::Captured(_) => "is captured",
            Reading::Unbound => "is unbound",
            Reading::Duplicate(_) => "is there twice",
        };
        text.push_str(format!(in alloc; "{} {what}\n", clash.name)?.as_str())?;
    }
    for name in free_names(alloc, unit, builtins)?.as_slice() {
        text.push_str(format!(in alloc; "{name} is free\n")?.as_str())?;
    }
    Ok(text)
}
