//! A module, turned to the homes of libraries.
use crate::fresh::{FreshImport, fresh_statement};
use crate::imports::turn_import;
use crate::memory::memory;
use crate::references::{Turns, turns_of};
use std::alloc::{AllocError, Global};
use wesl_text_homes::Libraries;
use wesl_tree::TranslationUnit;
use wesl_tree_names::{Error, Ident, ModulePath, Names, PathOrigin};
use wesl_tree_syntax::{
    GlobalDeclarationNode, GlobalDirectiveNode, ImportStatementNode, TypeExpression,
};
use wesl_visit_rewrite::{Holder, Rewrite};

/// A unit at a path, as a link has it, whose imports and paths lead to the homes of libraries. Its conditions have been judged. Where
/// each library has one chain it is the unit. Refused for want of memory alone.
pub fn redirect(
    alloc: Global,
    unit: TranslationUnit,
    path: &ModulePath,
    libraries: &Libraries,
) -> Result<TranslationUnit, AllocError> {
    if libraries.is_plain() {
        return Ok(unit);
    }
    let within = match &path.origin {
        PathOrigin::Package(name) => Some(name.as_str()),
        _ => None,
    };
    let unit = with_imports(alloc, libraries, within, unit)?;
    let turns = turns_of(alloc, libraries, path, within, &unit)?;
    with_references(alloc, unit, turns)
}

// The unit of parts whose identifiers are numbers of the table, as those of a unit are that was taken apart, and those that were added
// to it: so there is one.
fn whole(
    names: Names,
    imports: Vec<ImportStatementNode>,
    directives: Vec<GlobalDirectiveNode>,
    declarations: Vec<GlobalDeclarationNode>,
) -> Result<TranslationUnit, AllocError> {
    match TranslationUnit::from_parts(names, imports, directives, declarations) {
        Some(unit) => Ok(unit),
        None => Err(AllocError),
    }
}

// A unit whose imports are turned.
fn with_imports(
    alloc: Global,
    libraries: &Libraries,
    within: Option<&str>,
    unit: TranslationUnit,
) -> Result<TranslationUnit, AllocError> {
    let (names, mut imports, directives, declarations) = unit.into_parts();
    for import in imports.iter_mut() {
        turn_import(alloc, libraries, within, &mut import.node)?;
    }
    whole(names, imports, directives, declarations)
}

// A unit whose references are turned.
fn with_references(
    alloc: Global,
    unit: TranslationUnit,
    turns: Turns,
) -> Result<TranslationUnit, AllocError> {
    let Turns {
        fresh,
        imports: turned,
    } = turns;
    if fresh.is_empty() {
        return Ok(unit);
    }
    let (mut names, mut imports, directives, mut declarations) = unit.into_parts();
    let idents = add_fresh(alloc, &mut names, &mut imports, fresh)?;
    let mut turning = Turning {
        idents: &idents,
        imports: &turned,
        next: 0,
    };
    for declaration in declarations.iter_mut() {
        if !declaration.node.replace(alloc, true, &mut turning) {
            return Err(AllocError);
        }
    }
    whole(names, imports, directives, declarations)
}

// Adds imports with their names, and answers the identifiers of these.
fn add_fresh(
    alloc: Global,
    names: &mut Names,
    imports: &mut Vec<ImportStatementNode>,
    fresh: Vec<FreshImport>,
) -> Result<Vec<Ident>, AllocError> {
    let mut idents = Vec::new(alloc);
    for import in fresh {
        let ident = memory(names.add(import.name.as_str()))?;
        idents.push(ident)?;
        imports.push(fresh_statement(alloc, import, ident)?)?;
    }
    Ok(idents)
}

// Puts the names of imports in the place of paths and names.
#[derive(Drop)]
struct Turning<'t> {
    // the names of the imports
    idents: &'t [Ident],
    // of each type in turn the number of its import, if it has one
    imports: &'t [Option<usize>],
    // which is the next
    next: usize,
}

impl Turning<'_> {
    // The identifier of the import that stands for the next type.
    fn next_ident(&mut self) -> Option<Ident> {
        let number = self.next;
        self.next = number.saturating_add(1);
        match self.imports.get(number) {
            Some(Some(import)) => self.idents.get(*import).copied(),
            _ => None,
        }
    }
}

impl Rewrite<TypeExpression> for Turning<'_> {
    ghost rewrites = { λ before after. Unit {0} };

    fn rewrite(&mut self, node: &mut TypeExpression) -> Result<(), Error> {
        if let Some(ident) = self.next_ident() {
            node.path = None;
            node.ident = ident;
        }
        Ok(())
    }
}
