//! The binders of a module, and whether a path begins with the name of an import.
use crate::memory::memory;
use std::alloc::{AllocError, Global};
use wesl_cond_alive::{alive_of, flags_of_unit};
use wesl_cond_choices::alive::Alive;
use wesl_cond_choices::place::Place;
use wesl_tree::TranslationUnit;
use wesl_tree_names::{Ident, ModulePath, Names, PathOrigin};
use wesl_tree_syntax::{GlobalDeclaration, ImportContent, ImportItem};

/// What a name of a module may stand for.
#[derive(Drop)]
struct Binder {
    // the name
    bound: Ident,
    // the module that has what it stands for
    module: ModulePath,
    // its name there
    item: Ident,
    // the number of the import statement, if it is one of an import
    import: Option<usize>,
}

/// The binders of a module with a target, and which of its places some choice of flags keeps together.
#[derive(Drop)]
pub(crate) struct Binders {
    all: Vec<Binder>,
    alive: Alive,
}

impl Binders {
    /// Those of a unit at a path. Refused for want of memory alone.
    pub(crate) fn of(
        alloc: Global,
        path: &ModulePath,
        unit: &TranslationUnit,
    ) -> Result<Binders, AllocError> {
        let mut all = Vec::new(alloc);
        add_declarations(alloc, &mut all, path, unit)?;
        for (number, node) in unit.imports().iter().enumerate() {
            match &node.node.path {
                Some(start) => {
                    let base = memory(path.join_path(alloc, start))?;
                    add_content(&node.node.content, alloc, &mut all, number, base)?;
                }
                None => add_collection(alloc, &mut all, number, &node.node.content)?,
            }
        }
        let alive = alive_places(alloc, unit)?;
        Ok(Binders { all, alive })
    }

    /// Whether a path that stands with the identifier at a place begins with the name of an import: that of one target, or that of
    /// an import which is alive together with the identifier.
    pub(crate) fn is_import(&self, names: &Names, name: &str, place: usize) -> bool {
        let is_split = self.is_split(names, name);
        for binder in &self.all {
            if let Some(number) = binder.import {
                if name_of(names, binder.bound) == name
                    && (!is_split
                        || self
                            .alive
                            .together(Place::Name(place), Place::Import(number)))
                {
                    return true;
                }
            }
        }
        false
    }

    // Whether the binders of a name have several targets.
    fn is_split(&self, names: &Names, name: &str) -> bool {
        let mut first: Option<&Binder> = None;
        for binder in &self.all {
            if name_of(names, binder.bound) == name {
                match first {
                    Some(other) if !has_one_target(names, other, binder) => return true,
                    Some(_) => {}
                    None => first = Some(binder),
                }
            }
        }
        false
    }
}

// Whether two binders have one target.
fn has_one_target(names: &Names, one: &Binder, other: &Binder) -> bool {
    one.module == other.module && name_of(names, one.item) == name_of(names, other.item)
}

/// The name of an identifier of a table.
pub(crate) fn name_of(names: &Names, ident: Ident) -> &str {
    if ident.0 < names.len() {
        names.name(ident)
    } else {
        ""
    }
}

// The places that some choice of the flags of a unit keeps together: none, where there are more than 16.
fn alive_places(alloc: Global, unit: &TranslationUnit) -> Result<Alive, AllocError> {
    let flags = flags_of_unit(alloc, unit)?;
    if flags.len() > 16 {
        return Ok(Alive::none());
    }
    alive_of(alloc, unit, &flags)
}

// Adds the declarations.
fn add_declarations(
    alloc: Global,
    all: &mut Vec<Binder>,
    path: &ModulePath,
    unit: &TranslationUnit,
) -> Result<(), AllocError> {
    for node in unit.global_declarations() {
        if let Some(ident) = declared(&node.node) {
            all.push(Binder {
                bound: ident,
                module: memory(path.try_clone(alloc))?,
                item: ident,
                import: None,
            })?;
        }
    }
    Ok(())
}

// The identifier that a declaration declares.
fn declared(declaration: &GlobalDeclaration) -> Option<Ident> {
    match declaration {
        GlobalDeclaration::Declaration(inner) => Some(inner.ident),
        GlobalDeclaration::TypeAlias(inner) => Some(inner.ident),
        GlobalDeclaration::Struct(inner) => Some(inner.ident),
        GlobalDeclaration::Function(inner) => Some(inner.ident),
        GlobalDeclaration::Void => None,
        GlobalDeclaration::ConstAssert(_) => None,
    }
}

// Adds what a statement without a path imports: entries begin with the name of a package, and an item has no target.
fn add_collection(
    alloc: Global,
    all: &mut Vec<Binder>,
    number: usize,
    content: &ImportContent,
) -> Result<(), AllocError> {
    let ImportContent::Collection(entries) = content else {
        return Ok(());
    };
    for entry in entries {
        if let Some((package, components)) = entry.path.split_first() {
            let origin = PathOrigin::Package(package.clone()?);
            let root = ModulePath::new(origin, Vec::new(alloc));
            let base = memory(root.join(alloc, components))?;
            add_content(&entry.content, alloc, all, number, base)?;
        }
    }
    Ok(())
}

// Adds what is imported from a path on.
fn add_content(
    content: &ImportContent,
    alloc: Global,
    all: &mut Vec<Binder>,
    number: usize,
    base: ModulePath,
) -> Result<(), AllocError> {
    match content {
        ImportContent::Item(item) => add_item(all, number, base, item),
        ImportContent::Collection(entries) => {
            for entry in entries {
                let inner = memory(base.join(alloc, &entry.path))?;
                add_content(&entry.content, alloc, all, number, inner)?;
            }
            Ok(())
        }
    }
}

// Adds an imported item.
fn add_item(
    all: &mut Vec<Binder>,
    number: usize,
    module: ModulePath,
    item: &ImportItem,
) -> Result<(), AllocError> {
    all.push(Binder {
        bound: item.rename.unwrap_or(item.ident),
        module,
        item: item.ident,
        import: Some(number),
    })?;
    Ok(())
}
