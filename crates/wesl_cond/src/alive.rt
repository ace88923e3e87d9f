//! What is kept of a module by some choice of its flags.
ghost use Rattle.std.specs.Prelude.{◌≡◌, ◌≤◌, ◌↔◌, IfOk, IfErr, IsTrue, length};
ghost use Rattle.wesl_cond_alive.specs.Choices.{flags};
ghost use Rattle.wesl_cond_alive.specs.Positions.{AreAliveTogether};
ghost use Rattle.wesl_tree_names.specs.declared.errors.Error as error;
ghost use Rattle.wesl_tree_syntax.specs.Unit.{spelled};
ghost use Rattle.wesl_tree.specs.Translation.{unit_view};

use std::alloc::Global;
use wesl_cond_alive::flags_of_unit;
use wesl_cond_positions::position_set;
use wesl_tree::TranslationUnit;
use wesl_tree_names::Error;

/// How many different flags the conditions of a unit name (WESL, "ConditionalTranslation"). A flag that is named more than
/// once counts once, and of a qualified name the flag is its last part.
///
/// ```
/// let is_small = flag_count(alloc, &unit)? <= 16;
/// ```
///
/// # Errors
/// [`Error::Memory`].
pub fn flag_count(alloc: Global, unit: &TranslationUnit) -> Result<usize, Error>
    ensures counted { IfOk result (λ n. n ≡ length (flags (spelled (unit_view unit.now)))) }
    ensures refused { IfErr result (λ e. e ≡ error.Memory) }
{
    let flags = flags_of_unit(alloc, unit)?;
    Ok(flags.len())
}

/// Whether some choice of a unit's flags keeps both nodes (WESL, "ConditionalTranslation"). The nodes are given by their
/// positions: a field adds its number, a list element its index, and options, variants and boxes add nothing. Where a list
/// that is judged may lie ahead, no choice keeps what a position that leads nowhere tells; where none may, a position stands
/// for the node in which it goes on.
///
/// ```
/// let can_clash = alive_together(alloc, &unit, &[2, 0], &[2, 1])?;
/// ```
///
/// # Errors
/// [`Error::Memory`].
pub fn alive_together(
    alloc: Global,
    unit: &TranslationUnit,
    first: &[usize],
    second: &[usize],
) -> Result<bool, Error>
    requires few { length (flags (spelled (unit_view unit.now))) ≤ 16 }
    ensures together { IfOk result (λ b. IsTrue b ↔ AreAliveTogether (spelled (unit_view unit.now)) first.now second.now) }
    ensures refused { IfErr result (λ e. e ≡ error.Memory) }
{
    let flags = flags_of_unit(alloc, unit)?;
    let first_set = position_set(alloc, unit, &flags, first)?;
    let second_set = position_set(alloc, unit, &flags, second)?;
    Ok(first_set.meets(&second_set))
}
