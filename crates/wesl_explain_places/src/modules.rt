//! The modules of a link as they were read.
ghost use Rattle.std.specs.Prelude.{◌≡◌, false};
ghost use Rattle.wesl_tree_names.specs.Path.{path_view, is_relative};

use std::alloc::{AllocError, Global};
use std::collections::HashMap;
use wesl_cond_choices::place::Place;
use wesl_link_paths::PathNumbers;
use wesl_link_symbols::ids::PathId;
use wesl_link_symbols::keyed;
use wesl_link_tables::imports::imports;
use wesl_link_tables::marks::Mark;
use wesl_scope_spans::identifier_spans;
use wesl_tree::{ModulePath, Span, TranslationUnit};

/// A module as it was read.
#[derive(Drop)]
pub struct ReadModule {
    pub path: PathId,
    /// The unit as the features leave it.
    pub unit: TranslationUnit,
    /// Of each declaration what its identifiers are to a link.
    pub marks: Vec<Vec<Mark>>,
}

/// The numbers of the identifiers of a declaration that ask, and of those that are unclear.
#[derive(Drop)]
struct Asking {
    asks: Vec<usize>,
    unclear: Vec<usize>,
}

/// A module, and the places in it.
#[derive(Drop)]
struct Placed {
    module: ReadModule,
    /// of each identifier of the module the span of the innermost node round it
    spans: Vec<Span>,
    /// of each declaration the number of the first of its identifiers
    starts: Vec<usize>,
    /// of each declaration its identifiers for which there may be a fault
    asking: Vec<Asking>,
    /// of each import where its statement stands
    imports: Vec<Place>,
}

/// The modules that were read, and where each of them stands.
#[derive(Drop)]
pub struct ReadModules {
    list: Vec<Placed>,
    places: HashMap<PathId, usize>,
}

/// How many identifiers stand in the declarations of a module.
fn count_of(marks: &[Vec<Mark>]) -> usize {
    let mut count = 0_usize;
    for own in marks {
        count = count.saturating_add(own.len());
    }
    count
}

/// Of each declaration the number of the first of its identifiers, of so many in all: those of declarations are the last.
fn starts_of(
    alloc: Global,
    marks: &[Vec<Mark>],
    identifiers: usize,
) -> Result<Vec<usize>, AllocError> {
    let mut starts = Vec::new(alloc);
    let mut start = identifiers.saturating_sub(count_of(marks));
    for own in marks {
        starts.push(start)?;
        start = start.saturating_add(own.len());
    }
    Ok(starts)
}

/// The identifiers of a declaration that ask, and those that are unclear.
fn asking_of(alloc: Global, marks: &[Mark]) -> Result<Asking, AllocError> {
    let mut asks = Vec::new(alloc);
    let mut unclear = Vec::new(alloc);
    for (number, mark) in marks.iter().enumerate() {
        match mark {
            Mark::Asks(_) => asks.push(number)?,
            Mark::Unclear(_) => unclear.push(number)?,
            _ => {}
        }
    }
    Ok(Asking { asks, unclear })
}

/// Of each declaration its identifiers for which there may be a fault.
fn asking_in(alloc: Global, marks: &[Vec<Mark>]) -> Result<Vec<Asking>, AllocError> {
    let mut asking = Vec::new(alloc);
    for own in marks {
        asking.push(asking_of(alloc, own)?)?;
    }
    Ok(asking)
}

/// Of each import of a module at a path where its statement stands.
fn statements_of(
    alloc: Global,
    path: &ModulePath,
    unit: &TranslationUnit,
) -> Result<Vec<Place>, AllocError>
    requires { is_relative (path_view path.now) ≡ false }
{
    let mut numbers = PathNumbers::new(alloc);
    let own = numbers.number(alloc, path)?;
    let found = imports(alloc, &mut numbers, own, unit.imports())?;
    let mut statements = Vec::new(alloc);
    for import in &found {
        statements.push(import.place)?;
    }
    Ok(statements)
}

impl ReadModules {
    /// No modules. They take no memory.
    pub fn new(alloc: Global) -> ReadModules {
        ReadModules {
            list: Vec::new(alloc),
            places: HashMap::new(alloc),
        }
    }

    /// Adds a module that has this path.
    pub fn put(
        &mut self,
        alloc: Global,
        path: &ModulePath,
        module: ReadModule,
    ) -> Result<(), AllocError>
        requires { is_relative (path_view path.now) ≡ false }
    {
        let spans = identifier_spans(alloc, &module.unit)?;
        let starts = starts_of(alloc, &module.marks, spans.len())?;
        let asking = asking_in(alloc, &module.marks)?;
        let imports = statements_of(alloc, path, &module.unit)?;
        keyed::put(&mut self.places, module.path, self.list.len())?;
        self.list.push(Placed {
            module,
            spans,
            starts,
            asking,
            imports,
        })?;
        Ok(())
    }

    /// The module at a path, with its places.
    fn placed(&self, path: PathId) -> Option<&Placed> {
        match keyed::value_at(&self.places, path) {
            Some(place) => self.list.get(place),
            None => None,
        }
    }

    /// The module at a path.
    pub fn at(&self, path: PathId) -> Option<&ReadModule> {
        match self.placed(path) {
            Some(placed) => Some(&placed.module),
            None => None,
        }
    }

    /// The number in a declaration of the one with this number of its identifiers that ask.
    pub fn asking_identifier(
        &self,
        path: PathId,
        declaration: usize,
        number: usize,
    ) -> Option<usize> {
        let asking = self.placed(path)?.asking.get(declaration)?;
        asking.asks.get(number).copied()
    }

    /// The number in a declaration of the one with this number of its identifiers that are unclear.
    pub fn unclear_identifier(
        &self,
        path: PathId,
        declaration: usize,
        number: usize,
    ) -> Option<usize> {
        let asking = self.placed(path)?.asking.get(declaration)?;
        asking.unclear.get(number).copied()
    }

    /// The span of the innermost node round an identifier, which has this number in the declaration with that one.
    pub fn identifier_span(&self, path: PathId, declaration: usize, number: usize) -> Option<Span> {
        let placed = self.placed(path)?;
        let start = placed.starts.get(declaration)?;
        told(*placed.spans.get(start.saturating_add(number))?)
    }

    /// The span of the declaration with a number.
    pub fn declaration_span(&self, path: PathId, number: usize) -> Option<Span> {
        let placed = self.placed(path)?;
        let node = placed.module.unit.global_declarations().get(number)?;
        told(node.span)
    }

    /// The span of the statement of the import with a number.
    pub fn import_span(&self, path: PathId, number: usize) -> Option<Span> {
        let placed = self.placed(path)?;
        match placed.imports.get(number)? {
            Place::Import(statement) => {
                let node = placed.module.unit.imports().get(*statement)?;
                told(node.span)
            }
            _ => None,
        }
    }
}

/// A span, unless it is not told.
fn told(span: Span) -> Option<Span> {
    if span.start == 0 && span.end == 0 {
        None
    } else {
        Some(span)
    }
}
