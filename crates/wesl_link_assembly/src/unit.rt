//! The unit of nodes whose identifiers stand for something.
ghost use Rattle.std.specs.Prelude.{◌≡◌, ◌<◌, length, map, IfOk, IfErr};
ghost use Rattle.std.specs.List.{All};
ghost use Rattle.wesl_tree_names.specs.declared.errors.Error as error;
ghost use Rattle.wesl_tree_syntax.specs.Tree.{identifiers};
ghost use Rattle.wesl_tree_syntax.specs.Unit.{forest_of_unit, trees_of};
ghost use Rattle.wesl_tree.specs.Translation.{unit_view};
ghost use Rattle.wesl_tree_copies.specs.Renumbered as numbered;
ghost use Rattle.wesl_link_assembly.specs.Denotations.{printed_as};
ghost use Rattle.wesl_link_assembly.specs.Linked.{nodes_of, IsLinkedAs};
ghost use Rattle.wesl_link_assembly.specs.Views.{denotation_view};

use crate::denotation::{Denotation, Printing};
use crate::numbers::{names, numbers};
use crate::paths::drop_paths;
use std::alloc::Global;
use wesl_tree::{Error, Names, TranslationUnit};
use wesl_tree_renumber::Renumbering;
use wesl_tree_syntax::{GlobalDeclarationNode, GlobalDirectiveNode};

/// The unit of these nodes, without imports, whose identifiers take these numbers.
fn renumbered(
    alloc: Global,
    names: Names,
    mut directives: Vec<GlobalDirectiveNode>,
    mut declarations: Vec<GlobalDeclarationNode>,
    given: &[usize],
) -> TranslationUnit
    requires one_each { length given.now ≡ length (identifiers (forest_of_unit (nodes_of directives declarations))) }
    requires below { All (λ n. n < length names) given.now }
    ensures names { (unit_view result).names ≡ names }
    ensures trees { forest_of_unit (trees_of (unit_view result)) ≡ numbered.renumbered (forest_of_unit (nodes_of directives declarations)) given.now }
{
    let mut renumbering = Renumbering { rest: given };
    renumbering.directives(&mut directives);
    renumbering.globals(&mut declarations);
    let imports = Vec::new(alloc);
    TranslationUnit::from_parts(names, imports, directives, declarations).unwrap()
}

/// The unit of these nodes, in which each identifier is named and numbered by what it stands for. References lose their
/// paths; words keep theirs (WESL, "Imports").
///
/// `denotations` says of each identifier, in document order, what it stands for, and `printing` names the symbols.
/// Two identifiers have one number exactly where they stand for one thing, and numbers run 0, 1, 2, .. by first
/// occurrence; the table of names has one name for each. Refused for want of memory alone.
pub fn linked_unit<'a, P: Printing>(
    alloc: Global,
    directives: Vec<GlobalDirectiveNode>,
    declarations: Vec<GlobalDeclarationNode>,
    denotations: &[Denotation<'a>],
    printing: &'a P,
) -> Result<TranslationUnit, Error>
    requires one_each { length denotations.now ≡ length (identifiers (forest_of_unit (nodes_of directives declarations))) }
    ensures linked { IfOk result (λ unit. IsLinkedAs (printed_as (P.printed printing.now)) (nodes_of directives declarations) (map denotation_view denotations.now) (unit_view unit)) }
    ensures refused { IfErr result (λ e. e ≡ error.Memory) }
{
    let (given, different) = numbers(alloc, denotations)?;
    let names = names(alloc, different.as_slice(), printing)?;
    let mut unit = renumbered(alloc, names, directives, declarations, &given);
    drop_paths(alloc, &mut unit)?;
    Ok(unit)
}
