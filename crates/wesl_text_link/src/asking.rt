//! Where a module asks for an item of another one, uses a name, or binds one.
use std::alloc::{AllocError, Global};
use wesl_text_homes::Libraries;
use wesl_text_project::or_memory;
use wesl_tree::{
    Expression, ExpressionNode, GlobalDeclaration, Ident, ImportContent, ModulePath, Names,
    PathOrigin, Span, TranslationUnit, TypeExpression,
};
use wesl_visit::Collect;

/// What is looked for in a module.
#[derive(Clone, Copy)]
pub(crate) enum Wanted<'w> {
    /// Where it asks for an item of the module at a path of a link, or without one for any item of it.
    Item(&'w ModulePath, Option<&'w str>),
    /// Where it uses a name without a path.
    Name(&'w str),
    /// Where it declares or imports a name.
    Binder(&'w str),
}

/// Where a module stands.
#[derive(Clone, Copy)]
pub(crate) struct At<'a> {
    /// its path, as the project has it
    pub(crate) path: &'a ModulePath,
    /// the libraries of the project
    pub(crate) libraries: &'a Libraries,
}

// An item that a module imports.
#[derive(Drop)]
struct Imported {
    // the module that has it, as a link has it
    target: ModulePath,
    // the item with its module's path before it, as the project has it
    whole: ModulePath,
    // its name there
    item: String,
    // its name here
    bound: String,
    span: Span,
}

/// The places in the unit of a module.
pub(crate) fn places_in(
    alloc: Global,
    at: &At<'_>,
    unit: &TranslationUnit,
    wanted: Wanted<'_>,
) -> Result<Vec<Span>, AllocError> {
    let imports = imports_of(alloc, at, unit)?;
    let mut places = Vec::new(alloc);
    for import in &imports {
        if is_import_wanted(import, wanted) {
            places.push(import.span)?;
        }
    }
    add_binders(&mut places, unit, wanted)?;
    add_expressions(alloc, &mut places, at, unit, &imports, wanted)?;
    if places.is_empty() {
        add_declarations(alloc, &mut places, at, unit, &imports, wanted)?;
    }
    Ok(places)
}

// Whether an import is one that is looked for.
fn is_import_wanted(import: &Imported, wanted: Wanted<'_>) -> bool {
    match wanted {
        Wanted::Item(module, None) => import.target == *module,
        Wanted::Item(module, Some(item)) => {
            import.target == *module && import.item.as_str() == item
        }
        Wanted::Name(_) => false,
        Wanted::Binder(name) => import.bound.as_str() == name,
    }
}

/// The name of an identifier of a table, empty where it has none.
pub fn name_of(names: &Names, ident: Ident) -> &str {
    if ident.0 < names.len() {
        names.name(ident)
    } else {
        ""
    }
}

/// The name that a declaration declares.
pub fn declared(declaration: &GlobalDeclaration) -> Option<Ident> {
    match declaration {
        GlobalDeclaration::Declaration(inner) => Some(inner.ident),
        GlobalDeclaration::TypeAlias(inner) => Some(inner.ident),
        GlobalDeclaration::Struct(inner) => Some(inner.ident),
        GlobalDeclaration::Function(inner) => Some(inner.ident),
        GlobalDeclaration::Void => None,
        GlobalDeclaration::ConstAssert(_) => None,
    }
}

/// The names that the imports of a unit at a path of a link bind, and where these stand. Refused for want of memory alone.
pub fn bound_names(
    alloc: Global,
    libraries: &Libraries,
    path: &ModulePath,
    unit: &TranslationUnit,
) -> Result<Vec<(String, Span)>, AllocError> {
    let path = &libraries.told_path(alloc, path)?;
    let at = At { path, libraries };
    let mut bound = Vec::new(alloc);
    for import in &imports_of(alloc, &at, unit)? {
        bound.push((String::from_str(alloc, import.bound.as_str())?, import.span))?;
    }
    Ok(bound)
}

// The items that a unit imports.
fn imports_of(
    alloc: Global,
    at: &At<'_>,
    unit: &TranslationUnit,
) -> Result<Vec<Imported>, AllocError> {
    let mut imports = Vec::new(alloc);
    for node in unit.imports() {
        if let Some(path) = &node.node.path {
            let start = joined(alloc, at, path)?;
            add_items(
                &node.node.content,
                alloc,
                at.libraries,
                &mut imports,
                unit.names(),
                start,
                node.span,
            )?;
        }
    }
    Ok(imports)
}

// A path in a module, from outside, as the project has it.
fn joined(alloc: Global, at: &At<'_>, path: &ModulePath) -> Result<ModulePath, AllocError> {
    remembered(at.path.join_path(alloc, path))
}

// What is refused for want of memory alone.
fn remembered<T, E: Drop>(answer: Result<T, E>) -> Result<T, AllocError> {
    match or_memory(answer) {
        Ok(value) => Ok(value),
        Err(_) => Err(AllocError),
    }
}

// Adds the items of an import's content below a path.
fn add_items(
    content: &ImportContent,
    alloc: Global,
    libraries: &Libraries,
    imports: &mut Vec<Imported>,
    names: &Names,
    target: ModulePath,
    span: Span,
) -> Result<(), AllocError> {
    match content {
        ImportContent::Item(item) => {
            let name = name_of(names, item.ident);
            let bound = name_of(names, item.rename.unwrap_or(item.ident));
            let import = import_of(alloc, libraries, target, name, bound, span)?;
            imports.push(import)?;
        }
        ImportContent::Collection(entries) => {
            for entry in entries {
                let inner = remembered(target.join(alloc, &entry.path))?;
                add_items(
                    &entry.content,
                    alloc,
                    libraries,
                    imports,
                    names,
                    inner,
                    span,
                )?;
            }
        }
    }
    Ok(())
}

// An imported item.
fn import_of(
    alloc: Global,
    libraries: &Libraries,
    module: ModulePath,
    item: &str,
    bound: &str,
    span: Span,
) -> Result<Imported, AllocError> {
    let target = libraries.linked_path(alloc, &module)?;
    let mut whole = module;
    remembered(whole.push(item))?;
    Ok(Imported {
        target,
        whole,
        item: String::from_str(alloc, item)?,
        bound: String::from_str(alloc, bound)?,
        span,
    })
}

// Adds the declarations of a name.
fn add_binders(
    places: &mut Vec<Span>,
    unit: &TranslationUnit,
    wanted: Wanted<'_>,
) -> Result<(), AllocError> {
    let Wanted::Binder(name) = wanted else {
        return Ok(());
    };
    for node in unit.global_declarations() {
        if let Some(ident) = declared(&node.node) {
            if name_of(unit.names(), ident) == name {
                places.push(node.span)?;
            }
        }
    }
    Ok(())
}

// Adds the expressions that ask for what is looked for.
fn add_expressions(
    alloc: Global,
    places: &mut Vec<Span>,
    at: &At<'_>,
    unit: &TranslationUnit,
    imports: &[Imported],
    wanted: Wanted<'_>,
) -> Result<(), AllocError> {
    let nodes = remembered(unit.collect::<ExpressionNode>(alloc, true))?;
    for node in nodes.iter() {
        if let Some(ty) = type_of(&node.node) {
            if is_type_wanted(alloc, at, unit.names(), imports, ty, wanted)? {
                places.push(node.span)?;
            }
        }
    }
    Ok(())
}

// The type or name that an expression is, or calls.
fn type_of(expression: &Expression) -> Option<&TypeExpression> {
    match expression {
        Expression::TypeOrIdentifier(ty) => Some(ty),
        Expression::FunctionCall(call) => Some(&call.ty),
        _ => None,
    }
}

// Adds the declarations with a type that asks for what is looked for.
fn add_declarations(
    alloc: Global,
    places: &mut Vec<Span>,
    at: &At<'_>,
    unit: &TranslationUnit,
    imports: &[Imported],
    wanted: Wanted<'_>,
) -> Result<(), AllocError> {
    for node in unit.global_declarations() {
        let types = remembered(node.node.collect::<TypeExpression>(alloc, true))?;
        if has_wanted(alloc, at, unit.names(), imports, &types, wanted)? {
            places.push(node.span)?;
        }
    }
    Ok(())
}

// Whether one of some types asks for what is looked for.
fn has_wanted(
    alloc: Global,
    at: &At<'_>,
    names: &Names,
    imports: &[Imported],
    types: &[&TypeExpression],
    wanted: Wanted<'_>,
) -> Result<bool, AllocError> {
    for ty in types.iter() {
        if is_type_wanted(alloc, at, names, imports, ty, wanted)? {
            return Ok(true);
        }
    }
    Ok(false)
}

// Whether a type or name asks for what is looked for.
fn is_type_wanted(
    alloc: Global,
    at: &At<'_>,
    names: &Names,
    imports: &[Imported],
    ty: &TypeExpression,
    wanted: Wanted<'_>,
) -> Result<bool, AllocError> {
    let name = name_of(names, ty.ident);
    match (wanted, &ty.path) {
        (Wanted::Name(wanted), None) => Ok(name == wanted),
        (Wanted::Item(module, item), Some(path)) => {
            if item.unwrap_or(name) == name {
                leads_to(alloc, at, imports, path, module)
            } else {
                Ok(false)
            }
        }
        _ => Ok(false),
    }
}

// Whether a path leads to a module, by itself or by an import of its first name.
fn leads_to(
    alloc: Global,
    at: &At<'_>,
    imports: &[Imported],
    path: &ModulePath,
    module: &ModulePath,
) -> Result<bool, AllocError> {
    let itself = joined(alloc, at, path)?;
    if at.libraries.linked_path(alloc, &itself)? == *module {
        return Ok(true);
    }
    let PathOrigin::Package(first) = &path.origin else {
        return Ok(false);
    };
    for import in imports {
        if import.bound.as_str() == first.as_str() {
            let through = remembered(import.whole.join(alloc, &path.components))?;
            if at.libraries.linked_path(alloc, &through)? == *module {
                return Ok(true);
            }
        }
    }
    Ok(false)
}
