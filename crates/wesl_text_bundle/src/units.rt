//! The units of modules that a link read, and what stands in them.
use std::alloc::{AllocError, Global};
use wesl_cond::condition;
use wesl_text_homes_rewrite::redirect;
use wesl_text_link::{
    LinkWish, ReadModule, ReadModules, bound_names, copies, declared, entry_points, name_of,
    refusal_line, unit_of_module,
};
use wesl_tree::{ModulePath, ResolveError, Span, TranslationUnit};

/// What a module says, as a bundle has it.
#[derive(Drop)]
pub(crate) enum BundledUnit {
    /// A unit.
    Unit(TranslationUnit),
    /// No unit. It carries the line that tells why.
    Fault(String),
}

/// What a module says: its file, where each library has one chain. Else it is what a link has, whose conditions are judged and whose
/// paths lead to the homes of libraries, but where a condition has a fault.
pub(crate) fn bundled(
    alloc: Global,
    modules: ReadModules<'_>,
    path: &ModulePath,
    module: &ReadModule,
) -> Result<BundledUnit, AllocError> {
    match linked_unit(alloc, modules, path, module) {
        Ok(unit) => Ok(BundledUnit::Unit(unit)),
        Err(refusal) => Ok(BundledUnit::Fault(refusal_line(
            alloc,
            modules.libraries,
            module,
            refusal,
        )?)),
    }
}

// The unit of a module, as a bundle has it.
fn linked_unit(
    alloc: Global,
    modules: ReadModules<'_>,
    path: &ModulePath,
    module: &ReadModule,
) -> Result<TranslationUnit, ResolveError> {
    let unit = unit_of_module(alloc, path, module)?;
    if modules.libraries.is_plain() {
        return Ok(unit);
    }
    match condition(alloc, unit, modules.features) {
        Ok(left) => Ok(redirect(alloc, left, path, modules.libraries)?),
        Err(_) => unit_of_module(alloc, path, module),
    }
}

// The unit of the module at a path, as the features leave it; none where that cannot be had.
fn left_unit(
    alloc: Global,
    modules: ReadModules<'_>,
    path: &ModulePath,
) -> Option<TranslationUnit> {
    let module = modules.read.get(path)?;
    let unit = unit_of_module(alloc, path, module).ok()?;
    condition(alloc, unit, modules.features).ok()
}

/// The names of the root that a link keeps: those that it is told, or else the entry points of the root, where that has a unit.
pub(crate) fn kept_names(
    alloc: Global,
    modules: ReadModules<'_>,
    wish: &LinkWish<'_>,
) -> Result<Vec<String>, AllocError> {
    if let Some(keep) = wish.keep {
        return copies(alloc, keep);
    }
    match left_unit(alloc, modules, wish.root) {
        Some(unit) => match entry_points(alloc, &unit) {
            Ok(names) => Ok(names),
            Err(_) => Err(AllocError),
        },
        None => Ok(Vec::new(alloc)),
    }
}

/// A name that stands in a module, and where; a `const_assert` has none.
#[derive(Drop)]
pub struct PlacedName {
    /// The name.
    pub name: Option<String>,
    /// Where what has it stands.
    pub span: Span,
}

/// The names that stand in a module, as the features leave it.
#[derive(Drop)]
pub struct PlacedNames {
    /// Those of its global declarations, in the order of the text.
    pub declared: Vec<PlacedName>,
    /// Those that its imports bind.
    pub imported: Vec<PlacedName>,
}

/// The names that stand in the module at a path of a link; none where it has no unit. Refused for want of memory alone.
pub fn placed_names(
    alloc: Global,
    modules: ReadModules<'_>,
    path: &ModulePath,
) -> Result<PlacedNames, AllocError> {
    match left_unit(alloc, modules, path) {
        Some(unit) => Ok(PlacedNames {
            declared: placed_declarations(alloc, &unit)?,
            imported: placed_imports(alloc, modules, path, &unit)?,
        }),
        None => Ok(PlacedNames {
            declared: Vec::new(alloc),
            imported: Vec::new(alloc),
        }),
    }
}

// The names of global declarations.
fn placed_declarations(
    alloc: Global,
    unit: &TranslationUnit,
) -> Result<Vec<PlacedName>, AllocError> {
    let mut placed = Vec::new(alloc);
    for node in unit.global_declarations() {
        let name = match declared(&node.node) {
            Some(ident) => Some(String::from_str(alloc, name_of(unit.names(), ident))?),
            None => None,
        };
        placed.push(PlacedName {
            name,
            span: node.span,
        })?;
    }
    Ok(placed)
}

// The names that imports bind.
fn placed_imports(
    alloc: Global,
    modules: ReadModules<'_>,
    path: &ModulePath,
    unit: &TranslationUnit,
) -> Result<Vec<PlacedName>, AllocError> {
    let mut placed = Vec::new(alloc);
    for (name, span) in bound_names(alloc, modules.libraries, path, unit)? {
        placed.push(PlacedName {
            name: Some(name),
            span,
        })?;
    }
    Ok(placed)
}
