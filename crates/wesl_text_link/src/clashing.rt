//! Why the text of a linked unit is not what its modules mean, as far as the places of declarations tell it.
use crate::asking::{declared, name_of};
use crate::modules::ProjectModules;
use crate::telling::add_place;
use std::alloc::{AllocError, Global};
use wesl_scope::clashes;
use wesl_scope_occurrences::{Identifiers, occurrences};
use wesl_scope_words::word_clashes;
use wesl_source_map::BasicSourceMap;
use wesl_text_project::{ProjectFault, or_memory};
use wesl_tree::{ModulePath, TranslationUnit};

// How many names are told.
const MOST_NAMES: usize = 5;

const CLASH: &str =
    "warning: the printed names clash: the text does not mean what the modules do; take another --mangler, or rename";

const WORDS: &str =
    "warning: printed names are words of `var<..>`, so that compilers refuse the text; take --mangle-root, or rename";

impl<'r, R> ProjectModules<'r, R> {
    /// The lines that warn of a clash, if there is one, and of words that are captured, with where the first few names are declared.
    pub(crate) fn clash_lines(
        &self,
        alloc: Global,
        map: &BasicSourceMap,
        root: &ModulePath,
        unit: &TranslationUnit,
        clash: bool,
    ) -> Result<String, ProjectFault> {
        let mut lines = String::new(alloc);
        if clash {
            let names = clashing_names(alloc, unit)?;
            let note = "is read as something else too";
            (&*self).add_names(alloc, &mut lines, &*map, &*root, unit, CLASH, &names, note)?;
        }
        let names = capturing_names(alloc, unit)?;
        if !names.is_empty() {
            let note = "declares a name that a `var<..>` says";
            (&*self).add_names(alloc, &mut lines, &*map, &*root, unit, WORDS, &names, note)?;
        }
        Ok(lines)
    }

    // Adds a warning, and of names the places where what is printed under them is declared.
    fn add_names<'m>(
        &'m self,
        alloc: Global,
        lines: &mut String,
        map: &'m BasicSourceMap,
        root: &'m ModulePath,
        unit: &TranslationUnit,
        warning: &str,
        names: &'m [&'m str],
        note: &str,
    ) -> Result<(), AllocError> {
        if !lines.is_empty() {
            lines.push('\n')?;
        }
        lines.push_str(warning)?;
        for name in names.iter() {
            let text = format!(in alloc; "`{name}` is what this is printed as, and {note}")?;
            self.add_declarations(alloc, lines, map, root, unit, name, text.as_str())?;
        }
        Ok(())
    }

    // Adds the places where what is printed under a name is declared.
    fn add_declarations<'m>(
        &'m self,
        alloc: Global,
        lines: &mut String,
        map: &'m BasicSourceMap,
        root: &'m ModulePath,
        unit: &TranslationUnit,
        name: &'m str,
        text: &str,
    ) -> Result<(), AllocError> {
        for node in unit.global_declarations() {
            if let Some(ident) = declared(&node.node) {
                if name_of(unit.names(), ident) == name {
                    let origin = self.origin(map, root, name, node.span);
                    if let Some(module) = origin.module {
                        add_place(alloc, lines, "note", module, node.span, text)?;
                    }
                }
            }
        }
        Ok(())
    }
}

// Adds a name to the first few, unless it is there.
fn add_name<'u>(names: &mut Vec<&'u str>, name: &'u str) -> Result<(), AllocError> {
    if names.len() < MOST_NAMES && !names.iter().any(|known| *known == name) {
        names.push(name)?;
    }
    Ok(())
}

// The first few names that clash, each once.
fn clashing_names(alloc: Global, unit: &TranslationUnit) -> Result<Vec<&str>, ProjectFault> {
    let mut names = Vec::new(alloc);
    for clash in or_memory(clashes(alloc, unit))? {
        add_name(&mut names, clash.name)?;
    }
    Ok(names)
}

// The printed names of the first few declarations that capture words of variables, or in which these are captured, each once.
fn capturing_names(alloc: Global, unit: &TranslationUnit) -> Result<Vec<&str>, ProjectFault> {
    let mut names = Vec::new(alloc);
    let found = or_memory(word_clashes(alloc, unit))?;
    if found.is_empty() {
        return Ok(names);
    }
    let all = occurrences(alloc, unit)?;
    for clash in &found {
        if let Some(name) = name_round(unit, &all, clash.binder.place) {
            add_name(&mut names, name)?;
        }
    }
    Ok(names)
}

// The printed name of the declaration that an identifier stands in.
fn name_round<'u>(
    unit: &'u TranslationUnit,
    all: &Identifiers<'_>,
    place: usize,
) -> Option<&'u str> {
    let number = all.all.get(place)?.declaration?;
    let ident = declared(&unit.global_declarations().get(number)?.node)?;
    Some(name_of(unit.names(), ident))
}
