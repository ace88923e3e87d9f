//! The linked unit: of each module, the directives and the declarations that are held.
ghost use Rattle.std.specs.Prelude.{◌≡◌, ◌↔◌, ◌++◌, ◌∷◌, [], false, List, Contains, IsTrue, IfOk, IfErr, map};
ghost use Rattle.wesl_tree_names.specs.declared.errors.Error as error;
ghost use Rattle.wesl_tree_syntax.specs.View.{texts_of};
ghost use Rattle.wesl_tree.specs.Translation.{unit_view};
ghost use Rattle.wesl_link_tables.specs.TextsView.{numbering_of_texts as numbering};
ghost use Rattle.wesl_link_assembly.specs.Directives.{AreThinned, all_directives};
ghost use Rattle.wesl_link_assembly.specs.Views.{Meaning, denotation_view};
ghost use Rattle.wesl_link_engine.specs.GivenView.{given as given_names};
ghost use Rattle.wesl_link_engine.specs.Linked.{IsAssembled};
ghost use Rattle.wesl_link_engine.specs.Keeping.{all_loaded, modules_in, name_text, name_under, IsLinkOf, task_in};
ghost use Rattle.wesl_link_engine.specs.Holding as holding;
ghost use Rattle.wesl_link_engine.specs.Holding.{declaration_tree};

use crate::given::GivenNames;
use crate::link::{Link, table_at};
use crate::loaded::LoadedModule;
use std::alloc::{AllocError, Global};
use wesl_link_assembly::{
    Denotation, Directives, Printing, law_of_meanings, linked_unit, thinned_directives,
    word_denotations,
};
use wesl_link_reach::link::Linked;
use wesl_link_symbols::ids::{NameId, PathId};
use wesl_link_symbols::symbols::Symbol;
use wesl_link_symbols::table::{Declaration, Table};
use wesl_link_tables::marks::Mark;
use wesl_link_tables::texts::NumberTexts;
use wesl_scope_occurrences::law_of_pieces;
use wesl_tree::TranslationUnit;
use wesl_tree_copies::TryClone;
use wesl_tree_names::Error;
use wesl_tree_syntax::{GlobalDeclaration, GlobalDeclarationNode, GlobalDirectiveNode};

/// The declarations that are held, what the identifiers of directives and of these stand for, in document order, and
/// whether memory was wanting for them.
#[derive(Drop)]
pub struct Parts<'a> {
    pub declarations: Vec<GlobalDeclarationNode>,
    pub denotations: Vec<Denotation<'a>>,
    pub is_refused: bool,
}

impl<'a> Parts<'a> {
    /// One more declaration.
    fn push(&mut self, declaration: GlobalDeclarationNode)
        ensures pushed { self.new.is_refused ≡ false → self.new.declarations.items ≡ self.old.declarations.items ++ declaration ∷ [] }
        ensures same { self.new.denotations ≡ self.old.denotations }
        ensures noted { self.new.is_refused ≡ false → self.old.is_refused ≡ false }
    {
        if self.declarations.push(declaration).is_err() {
            self.is_refused = true;
        }
    }

    /// What one more identifier stands for.
    fn tell(&mut self, denotation: Denotation<'a>)
        ensures told { self.new.is_refused ≡ false → self.new.denotations.items ≡ self.old.denotations.items ++ denotation.entry ∷ [] }
        ensures same { self.new.declarations ≡ self.old.declarations }
        ensures noted { self.new.is_refused ≡ false → self.old.is_refused ≡ false }
    {
        if self.denotations.push(denotation).is_err() {
            self.is_refused = true;
        }
    }
}

/// The names that symbols print as: those that a mangler gave, and their own.
#[derive(Drop)]
struct SymbolNames<'a> {
    numbers: &'a NumberTexts,
    given: &'a GivenNames,
}

impl<'a> Printing for SymbolNames<'a> {
    ghost printed = { λ s p n. holding.printed_by (numbering s.numbers.now) (given_names s.given.now) p n };

    fn name_of(&self, symbol: Symbol<PathId, NameId>) -> &str {
        match self.given.get(symbol) {
            Some(name) => name,
            None => text_of(self.numbers, symbol.name),
        }
    }
}

/// The text of a name; the empty text where it has none.
fn text_of(numbers: &NumberTexts, name: NameId) -> &str
    ensures { result.now ≡ name_text (numbering numbers.now) name }
{
    match numbers.names.name(name) {
        Some(text) => text,
        None => "",
    }
}

/// What an identifier of a held declaration stands for, by its mark.
fn denotation<'a>(
    numbers: &'a NumberTexts,
    linked: &Linked,
    table: &Table,
    mark: Mark,
) -> Denotation<'a>
    requires loaded { Contains linked.now.tables table.now }
    requires held { holding.IsAskable linked.now table.now mark }
    ensures { holding.IsMeant (numbering numbers.now) linked.now table.now mark (denotation_view result) }
{
    let path = table.path();
    match mark {
        Mark::Declares(name) => Denotation::Symbol(Symbol { path, name }),
        Mark::Asks(asked) => Denotation::Symbol(linked.denotes(table, &asked)),
        Mark::Unclear(_) => unreachable!(),
        Mark::Local(block, name) => Denotation::Local(path, block, text_of(numbers, name)),
        Mark::Free(name) => Denotation::Free(text_of(numbers, name)),
    }
}

/// What the identifiers of a held declaration stand for, after those before them.
fn add_denotations<'a>(
    numbers: &'a NumberTexts,
    linked: &Linked,
    table: &Table,
    marks: &[Mark],
    parts: &mut Parts<'a>,
)
    requires loaded { Contains linked.now.tables table.now }
    requires held { holding.AreAskable linked.now table.now marks.now }
    ensures told { parts.new.is_refused ≡ false → holding.AddsMeanings (numbering numbers.now) linked.now table.now marks.now parts.old.denotations.items parts.new.denotations.items }
    ensures same { parts.new.declarations ≡ parts.old.declarations }
    ensures noted { parts.new.is_refused ≡ false → parts.old.is_refused ≡ false }
{
    for mark in marks {
        parts.tell(denotation(numbers, linked, table, *mark));
    }
}

/// Whether a declaration of a module is held: what it binds is a symbol that is reached, or it is a const_assert.
pub(crate) fn is_held(
    linked: &Linked,
    table: &Table,
    row: &Declaration,
    declaration: &GlobalDeclaration,
) -> bool
    ensures { IsTrue result ↔ holding.IsHeldHere linked.now table.now.path declaration.now row.now.name }
{
    match row.name() {
        Some(name) => linked.holds(table.path(), name),
        None => matches!(declaration, GlobalDeclaration::ConstAssert(_)),
    }
}

/// A held declaration is added, by its marks.
pub(crate) fn add_declaration<'a>(
    numbers: &'a NumberTexts,
    linked: &Linked,
    table: &Table,
    marks: &[Mark],
    declaration: GlobalDeclarationNode,
    parts: &mut Parts<'a>,
)
    requires loaded { Contains linked.now.tables table.now }
    requires held { holding.AreAskable linked.now table.now marks.now }
    ensures added { parts.new.is_refused ≡ false → holding.AddsHeld (numbering numbers.now) linked.now table.now (declaration_tree declaration) marks.now parts.old parts.new }
    ensures noted { parts.new.is_refused ≡ false → parts.old.is_refused ≡ false }
{
    add_denotations(numbers, linked, table, marks, parts);
    parts.push(declaration);
}

/// A copy of a declaration of a module is added, where it is held: its row in the module's table, and its marks.
fn copy_declaration<'a>(
    alloc: Global,
    link: &'a Link,
    table: &Table,
    row: &Declaration,
    marks: &[Mark],
    declaration: &GlobalDeclarationNode,
    parts: &mut Parts<'a>,
)
    requires loaded { Contains link.now.linked.tables table.now }
    requires inside { Contains table.now.declarations row.now }
    requires refers { holding.RefersToAll row.now marks.now }
    requires clear { holding.IsHeldHere link.now.linked table.now.path declaration.now.node row.now.name → holding.AreClear marks.now }
    ensures added { parts.new.is_refused ≡ false → holding.AddsOne (numbering link.now.numbers) link.now.linked table.now declaration.now row.now.name marks.now parts.old parts.new }
    ensures noted { parts.new.is_refused ≡ false → parts.old.is_refused ≡ false }
{
    if !is_held(&link.linked, table, row, &declaration.node) {
        return;
    }
    let Ok(copy) = declaration.try_clone(alloc) else {
        parts.is_refused = true;
        return;
    };
    add_declaration(&link.numbers, &link.linked, table, marks, copy, parts);
}

/// Copies of the held declarations of a module are added.
fn copy_module<'a>(alloc: Global, link: &'a Link, module: &LoadedModule, parts: &mut Parts<'a>)
    requires sound { IsLinkOf (task_in link.now) link.now }
    requires inside { Contains (all_loaded link.now) «module».now }
    ensures added { parts.new.is_refused ≡ false → holding.AddsModule link.now «module».now parts.old parts.new }
    ensures noted { parts.new.is_refused ≡ false → parts.old.is_refused ≡ false }
{
    let table = table_at(&link.linked, module.place);
    let rows = table.declarations();
    let nodes = module.unit.global_declarations();
    for (index, declaration) in nodes.iter().enumerate() {
        let row = &rows[index];
        let marks = &module.marks[index];
        copy_declaration(alloc, link, table, row, marks, declaration, parts);
    }
}

/// The units of modules: the root's first.
fn units<'a>(
    alloc: Global,
    root: &'a LoadedModule,
    others: &'a [LoadedModule],
) -> Result<Vec<&'a TranslationUnit>, AllocError>
    ensures { IfOk result (λ us. map (λ u. unit_view u.now) us.items ≡ map (λ m. unit_view m.unit) (root.now ∷ others.now)) }
{
    let mut units = Vec::new(alloc);
    units.push(&root.unit)?;
    for module in others {
        units.push(&module.unit)?;
    }
    Ok(units)
}

/// Copies of the directives of modules that stay, and their words.
pub(crate) fn directives_of(
    alloc: Global,
    root: &LoadedModule,
    others: &[LoadedModule],
) -> Result<Directives, Error>
    ensures thinned { IfOk result (λ found. AreThinned (all_directives (map (λ m. unit_view m.unit) (root.now ∷ others.now))) found.nodes (texts_of found.words)) }
    ensures refused { IfErr result (λ e. e ≡ error.Memory) }
{
    let units = units(alloc, root, others)?;
    thinned_directives(alloc, &units)
}

/// Copies of the held declarations of all modules are added.
fn copy_modules<'a>(alloc: Global, link: &'a Link, parts: &mut Parts<'a>)
    requires sound { IsLinkOf (task_in link.now) link.now }
    ensures { parts.new.is_refused ≡ false → (words : List Meaning) → holding.AreParts link.now [] words parts.old → holding.AreParts link.now (all_loaded link.now) words parts.new }
{
    copy_module(alloc, link, &link.root, parts);
    for module in &link.others {
        copy_module(alloc, link, module, parts);
    }
}

/// The linked unit of directives and parts, under the names that a mangler gave.
pub(crate) fn unit_of_parts(
    alloc: Global,
    directives: Vec<GlobalDirectiveNode>,
    parts: Parts<'_>,
    numbers: &NumberTexts,
    given: &GivenNames,
) -> Result<TranslationUnit, Error>
    requires one_each { parts.is_refused ≡ false → holding.HasMeanings directives parts }
    ensures linked { IfOk result (λ unit. (parts.entry.is_refused ≡ false) × holding.IsLinkedOf (numbering numbers.now) (given_names given.now) directives parts.entry (unit_view unit)) }
    ensures refused { IfErr result (λ e. e ≡ error.Memory) }
{
    if parts.is_refused {
        return Err(Error::Memory);
    }
    let printing = SymbolNames { numbers, given };
    linked_unit(
        alloc,
        directives,
        parts.declarations,
        &parts.denotations,
        &printing,
    )
}

/// The linked unit of what a link found, under the names that a mangler gave: of copies of its declarations.
pub fn assembled(alloc: Global, link: &Link, given: &GivenNames) -> Result<TranslationUnit, Error>
    requires sound { IsLinkOf (task_in link.now) link.now }
    ensures assembled { IfOk result (λ unit. IsAssembled (modules_in link.now) (task_in link.now) (name_under (numbering link.now.numbers) (given_names given.now)) (unit_view unit)) }
    ensures refused { IfErr result (λ e. e ≡ error.Memory) }
{
    law_of_meanings();
    law_of_pieces();
    let Directives { nodes, words } = directives_of(alloc, &link.root, &link.others)?;
    let denotations = word_denotations(alloc, &words)?;
    let mut parts = Parts {
        declarations: Vec::new(alloc),
        denotations,
        is_refused: false,
    };
    copy_modules(alloc, link, &mut parts);
    unit_of_parts(alloc, nodes, parts, &link.numbers, given)
}
