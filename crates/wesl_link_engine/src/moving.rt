//! The linked unit of a link that is let go: its declarations move into the unit.
ghost use Rattle.std.specs.Prelude.{◌≡◌, ◌∷◌, [], false, List, Contains, IfOk, IfErr};
ghost use Rattle.wesl_tree_names.specs.declared.errors.Error as error;
ghost use Rattle.wesl_tree.specs.Translation.{unit_view};
ghost use Rattle.wesl_link_tables.specs.TextsView.{numbering_of_texts as numbering};
ghost use Rattle.wesl_link_engine.specs.GivenView.{given as given_names};
ghost use Rattle.wesl_link_engine.specs.Linked.{IsAssembled};
ghost use Rattle.wesl_link_engine.specs.Keeping.{modules_in, name_under, IsLinkOf, task_in};
ghost use Rattle.wesl_link_engine.specs.Holding as holding;
ghost use Rattle.wesl_link_engine.specs.declared.link.Link.{Link};

use crate::assemble::{Parts, add_declaration, directives_of, is_held, unit_of_parts};
use crate::given::GivenNames;
use crate::link::{Link, table_at};
use crate::loaded::LoadedModule;
use std::alloc::Global;
use wesl_link_assembly::{Directives, law_of_meanings, word_denotations};
use wesl_link_reach::link::Linked;
use wesl_link_symbols::table::{Declaration, Table};
use wesl_link_tables::marks::Mark;
use wesl_link_tables::texts::NumberTexts;
use wesl_scope_occurrences::law_of_pieces;
use wesl_tree::TranslationUnit;
use wesl_tree_names::Error;
use wesl_tree_syntax::GlobalDeclarationNode;

/// A declaration of a module moves into the parts, where it is held: its row in the module's table, and its marks.
fn move_declaration<'a>(
    numbers: &'a NumberTexts,
    linked: &Linked,
    table: &Table,
    row: &Declaration,
    marks: &[Mark],
    declaration: GlobalDeclarationNode,
    parts: &mut Parts<'a>,
)
    requires loaded { Contains linked.now.tables table.now }
    requires inside { Contains table.now.declarations row.now }
    requires refers { holding.RefersToAll row.now marks.now }
    requires clear { holding.IsHeldHere linked.now table.now.path declaration.node row.now.name → holding.AreClear marks.now }
    ensures added { parts.new.is_refused ≡ false → holding.AddsOne (numbering numbers.now) linked.now table.now declaration row.now.name marks.now parts.old parts.new }
    ensures noted { parts.new.is_refused ≡ false → parts.old.is_refused ≡ false }
{
    if !is_held(linked, table, row, &declaration.node) {
        return;
    }
    add_declaration(numbers, linked, table, marks, declaration, parts);
}

/// The held declarations of a module move into the parts. The others are let go, with all else of the module.
fn move_module<'a>(
    numbers: &'a NumberTexts,
    linked: &Linked,
    loaded: LoadedModule,
    parts: &mut Parts<'a>,
)
    requires sound { (l : Link) × holding.IsModuleOf l numbers.now linked.now loaded }
    ensures added { parts.new.is_refused ≡ false → (l : Link) → holding.IsModuleOf l numbers.now linked.now loaded → holding.AddsModule l loaded parts.old parts.new }
    ensures noted { parts.new.is_refused ≡ false → parts.old.is_refused ≡ false }
{
    let LoadedModule {
        path: _,
        place,
        unit,
        marks,
    } = loaded;
    let table = table_at(linked, place);
    let rows = table.declarations();
    let (_, _, _, declarations) = unit.into_parts();
    for (index, declaration) in declarations.into_iter().enumerate() {
        let row = &rows[index];
        let marks = &marks[index];
        move_declaration(numbers, linked, table, row, marks, declaration, parts);
    }
}

/// The held declarations of all modules move into the parts.
fn move_modules<'a>(
    numbers: &'a NumberTexts,
    linked: &Linked,
    root: LoadedModule,
    others: Vec<LoadedModule>,
    parts: &mut Parts<'a>,
)
    requires sound { (l : Link) × holding.AreModulesOf l numbers.now linked.now (root ∷ others.items) }
    ensures { parts.new.is_refused ≡ false → holding.MovesAll numbers.now linked.now (root ∷ others.items) parts.old parts.new }
{
    move_module(numbers, linked, root, parts);
    for module in others {
        move_module(numbers, linked, module, parts);
    }
}

/// The linked unit of what a link found, under the names that a mangler gave: of its own declarations.
pub fn moved(alloc: Global, link: Link, given: &GivenNames) -> Result<TranslationUnit, Error>
    requires sound { IsLinkOf (task_in link) link }
    ensures assembled { IfOk result (λ unit. IsAssembled (modules_in link) (task_in link) (name_under (numbering link.numbers) (given_names given.now)) (unit_view unit)) }
    ensures refused { IfErr result (λ e. e ≡ error.Memory) }
{
    law_of_meanings();
    law_of_pieces();
    let Directives { nodes, words } = directives_of(alloc, &link.root, &link.others)?;
    let Link {
        root,
        others,
        kept: _,
        is_eager: _,
        numbers,
        linked,
    } = link;
    let denotations = word_denotations(alloc, &words)?;
    let mut parts = Parts {
        declarations: Vec::new(alloc),
        denotations,
        is_refused: false,
    };
    move_modules(&numbers, &linked, root, others, &mut parts);
    unit_of_parts(alloc, nodes, parts, &numbers, given)
}
