//! Links over symbol tables, whose paths and names are numbers.
ghost use Rattle.std.specs.Prelude.{◌≡◌, IfOk};

use serde_json::Value;
use std::alloc::Global;
use wesl_cond_choices::alive::Alive;
use wesl_cond_choices::place::Place;
use wesl_link_reach::error::LinkError;
use wesl_link_reach::link::{Linked, link_table};
use wesl_link_reach::loader::{LoadError, Loader};
use wesl_link_symbols::ids::{NameId, PathId};
use wesl_link_symbols::symbols::{Import, Reference, Symbol};
use wesl_link_symbols::table::{Declaration, Table};
use wesl_rows_base::{List, Object, Row, numbers_value};

/// Hands out the modules that a row lists, refuses every other path, and keeps the paths that it was asked for.
#[derive(Drop)]
struct Shelf<'a> {
    row: Row<'a>,
    asked: Vec<usize>,
}

impl Loader<usize> for Shelf<'_> {
    ghost hands = { λ _ _ _. Unit {0} };

    ghost refuses = { λ _ _ _. Unit {0} };

    ghost ready = { λ _ _. Unit {0} };

    fn load(&mut self, alloc: Global, path: PathId) -> Result<Table, LoadError<usize>> {
        self.row.push(&mut self.asked, path.0);
        match module_at(self.row, path) {
            Some(module) => table(alloc, path, module),
            None => Err(LoadError::Refused(path.0)),
        }
    }
}

/// The imports of a module.
fn imports(module: Row<'_>) -> Vec<Import<PathId, NameId>> {
    let mut imports = Vec::new(module.alloc);
    for value in module.list("imports") {
        let row = module.of(value);
        let import = Import {
            bound: NameId(row.number("bound", 0)),
            path: PathId(row.number("path", 0)),
            item: NameId(row.number("item", 0)),
            published: matches!(row.value.get("published"), Some(Value::Bool(true))),
            place: Place::Always,
            from: Place::Always,
            order: 2,
        };
        module.push(&mut imports, import);
    }
    imports
}

/// The path at a key.
fn path(row: Row<'_>, key: &str) -> Option<PathId> {
    if row.has(key) {
        Some(PathId(row.number(key, 0)))
    } else {
        None
    }
}

/// Whether a module declares a name.
fn declares(module: Row<'_>, name: NameId) -> bool {
    for value in module.list("declarations") {
        let row = module.of(value);
        if row.has("name") && NameId(row.number("name", 0)) == name {
            return true;
        }
    }
    false
}

/// A name of the module at a path, asked for from where no condition plays a part.
fn asked(path: PathId, name: NameId) -> Reference<PathId, NameId> {
    Reference {
        path,
        name,
        from: Place::Always,
    }
}

/// What a name without a path asks for in the module at a path with these imports: its own declaration, else what its
/// imports of the name aim at.
fn add_plain(
    module: Row<'_>,
    at: PathId,
    imports: &[Import<PathId, NameId>],
    name: NameId,
    references: &mut Vec<Reference<PathId, NameId>>,
) {
    if declares(module, name) {
        module.push(references, asked(at, name));
        return;
    }
    for import in imports {
        if import.bound == name {
            module.push(references, asked(import.path, import.item));
        }
    }
}

/// A declaration with the names that it uses, each with its path, if it has one. One without a name is a const_assert.
fn declaration(
    module: Row<'_>,
    at: PathId,
    imports: &[Import<PathId, NameId>],
    row: Row<'_>,
) -> Declaration {
    let mut references = Vec::new(row.alloc);
    for value in row.list("uses") {
        let used = row.of(value);
        let name = NameId(used.number("name", 0));
        match path(used, "path") {
            Some(path) => row.push(&mut references, asked(path, name)),
            None => add_plain(module, at, imports, name, &mut references),
        }
    }
    let name = if row.has("name") {
        Some(NameId(row.number("name", 0)))
    } else {
        None
    };
    Declaration::new(name, Place::Always, references, Vec::new(row.alloc))
}

/// The declarations of a module.
fn declarations(
    module: Row<'_>,
    at: PathId,
    imports: &[Import<PathId, NameId>],
) -> Vec<Declaration> {
    let mut declarations = Vec::new(module.alloc);
    for value in module.list("declarations") {
        let declaration = declaration(module, at, imports, module.of(value));
        module.push(&mut declarations, declaration);
    }
    declarations
}

/// The symbol table of a module.
fn table(alloc: Global, at: PathId, module: Row<'_>) -> Result<Table, LoadError<usize>>
    ensures { IfOk result (λ t. t.path ≡ at) }
{
    let imports = imports(module);
    let declarations = declarations(module, at, &imports);
    match Table::new(alloc, at, imports, declarations, Alive::none(), false) {
        Ok(table) => Ok(table),
        Err(_) => Err(LoadError::Memory),
    }
}

/// The first of a row's modules that is at a path.
fn module_at<'a>(row: Row<'a>, at: PathId) -> Option<Row<'a>> {
    for value in row.list("modules") {
        if path(row.of(value), "path") == Some(at) {
            return Some(row.of(value));
        }
    }
    None
}

/// The kept names of a row.
fn kept(row: Row<'_>) -> Vec<NameId> {
    let mut kept = Vec::new(row.alloc);
    for value in row.list("keep") {
        row.push(&mut kept, NameId(row.of(value).number("name", 0)));
    }
    kept
}

/// The paths of the modules of a link.
fn paths(row: Row<'_>, linked: &Linked) -> Value {
    let mut paths = List::new(row.alloc);
    for table in linked.tables() {
        paths.number(table.path().0);
    }
    paths.end(row)
}

/// The symbols that a link reached.
fn symbols(row: Row<'_>, linked: &Linked) -> Value {
    let mut pairs = List::new(row.alloc);
    for symbol in linked.symbols() {
        pairs.put(numbers_value(row, &[symbol.path.0, symbol.name.0]));
    }
    pairs.end(row)
}

/// What the first name of the root's first declaration stands for, where that is a const_assert.
fn first_meaning(linked: &Linked) -> Option<Symbol<PathId, NameId>> {
    let tables = linked.tables();
    if tables.is_empty() {
        return None;
    }
    let table = &tables[0];
    let declarations = table.declarations();
    if declarations.is_empty() {
        return None;
    }
    let declaration = &declarations[0];
    let references = declaration.references();
    if references.is_empty() {
        return None;
    }
    match declaration.name() {
        Some(_) => None,
        None => Some(linked.denotes(table, &references[0])),
    }
}

/// Puts a fault with these numbers.
fn put_fault(row: Row<'_>, answer: &mut Object, fault: &str, numbers: &[usize]) {
    answer.put("args", numbers_value(row, numbers));
    answer.text("fault", fault);
}

/// Puts the fault of a refused link.
fn put_refused(row: Row<'_>, answer: &mut Object, error: &LinkError<usize>) {
    match error {
        LinkError::DuplicateSymbol(_, name) => put_fault(row, answer, "DuplicateSymbol", &[name.0]),
        LinkError::Refused(path) => put_fault(row, answer, "Refused", &[*path]),
        LinkError::MissingDecl(path, name) => {
            put_fault(row, answer, "MissingDecl", &[path.0, name.0]);
        }
        LinkError::Private(name, path) => put_fault(row, answer, "Private", &[name.0, path.0]),
        LinkError::AmbiguousSymbol(name) => put_fault(row, answer, "AmbiguousSymbol", &[name.0]),
        LinkError::TooManyFlags(path) => put_fault(row, answer, "TooManyFlags", &[path.0]),
        LinkError::ModuleLimit(limit) => put_fault(row, answer, "ModuleLimit", &[*limit]),
        LinkError::Memory => put_fault(row, answer, "Memory", &[]),
    }
}

/// Puts what a link has.
fn put_reached(row: Row<'_>, answer: &mut Object, linked: &Linked) {
    match first_meaning(linked) {
        Some(symbol) => answer.put("first", numbers_value(row, &[symbol.path.0, symbol.name.0])),
        None => answer.put("first", Value::Null),
    }
    answer.put("modules", paths(row, linked));
    answer.put("symbols", symbols(row, linked));
    answer.number("turns", linked.turns());
}

/// What a link from a table answers over the tables of a row, with the paths that its loader was asked for: an eager one
/// where the row has a key `eager`, else a lazy one with the kept names.
fn linked_from(row: Row<'_>, root: Table) -> Value {
    let alloc = row.alloc;
    let asked = Vec::new(alloc);
    let mut shelf = Shelf { row, asked };
    let limit = row.number("limit", 0);
    let found = link_table(alloc, root, kept(row), row.has("eager"), &mut shelf, limit);
    let mut answer = Object::new(alloc);
    answer.put("asked", numbers_value(row, shelf.asked.as_slice()));
    match &found {
        Ok(linked) => put_reached(row, &mut answer, linked),
        Err(error) => put_refused(row, &mut answer, error),
    }
    answer.end(row)
}

/// What an eager or a lazy link answers over the tables of a row.
pub fn linked(row: Row<'_>) -> Value {
    match table(row.alloc, PathId(0), row) {
        Ok(root) => linked_from(row, root),
        Err(_) => {
            row.refused_if(true);
            Value::Null
        }
    }
}
