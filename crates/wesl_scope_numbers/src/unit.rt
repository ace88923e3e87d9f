//! Whole modules with other numbers.
ghost use Rattle.std.specs.Prelude.{◌≡◌, ◌<◌, length, map};
ghost use Rattle.std.specs.List.{All};
ghost use Rattle.wesl_tree_syntax.specs.Unit.{numbers, name_in, spelled};
ghost use Rattle.wesl_tree.specs.Translation.{unit_view};
ghost use Rattle.wesl_scope_numbers.specs.Nodes.{HasSameNodes};

use std::alloc::Global;
use std::mem;
use wesl_tree::{Names, TranslationUnit};
use wesl_tree_renumber::Renumbering;

/// Gives a module another table of names, and its identifiers the given numbers, in document order: one for each
/// identifier, each of which has the identifier's name in the new table.
///
/// The module has the same spelling, and the same nodes but for the numbers, spans too. It takes no memory.
pub fn renumber(alloc: Global, unit: &mut TranslationUnit, names: Names, given: &[usize])
    requires one_each { length given.now ≡ length (numbers (unit_view unit.old)) }
    requires below { All (λ n. n < length names) given.now }
    requires named { map (name_in names) given.now ≡ map (name_in (unit_view unit.old).names) (numbers (unit_view unit.old)) }
    ensures spelling { spelled (unit_view unit.new) ≡ spelled (unit_view unit.old) }
    ensures numbers { numbers (unit_view unit.new) ≡ given.now }
    ensures nodes { HasSameNodes (unit_view unit.old) (unit_view unit.new) }
    ensures names { (unit_view unit.new).names ≡ names }
{
    let whole = mem::replace(unit, TranslationUnit::new(alloc));
    let (_, mut imports, mut directives, mut declarations) = whole.into_parts();
    let mut renumbering = Renumbering { rest: given };
    renumbering.imports(&mut imports);
    renumbering.directives(&mut directives);
    renumbering.globals(&mut declarations);
    *unit = TranslationUnit::from_parts(names, imports, directives, declarations).unwrap();
}
