//! The sets of choices that a walk numbers.
ghost use Rattle.std.specs.Prelude.{◌≡◌, ◌<◌, ◌≤◌, ℕ, IfOk, Some, cond, length, map, true};
ghost use Rattle.std.specs.Option.{option_map};
ghost use Rattle.wesl_tree_base.specs.Borrowed.{texts};
ghost use Rattle.wesl_cond_chains.specs.Formulas.{form};
ghost use Rattle.wesl_cond_chains.specs.Picked.{Choice};
ghost use Rattle.wesl_cond_choices.specs.Choices.{has};
ghost use Rattle.wesl_tree_syntax.specs.View.{expression_view};
ghost use Rattle.wesl_cond_alive.specs.Choices.{IsSetOf, choice_by};
ghost use Rattle.wesl_cond_alive.specs.Sets.{AreNested, HasFirst, HasSetsOf, IsNarrowed, value};
ghost use Rattle.wesl_cond_alive.specs.Views.{branch_view};

use crate::formulas::formula_set;
use crate::walk::Branch;
use std::alloc::{AllocError, Global};
use wesl_cond_choices::choices::Choices;
use wesl_cond_sets::SetNumbers;
use wesl_tree_names::Names;
use wesl_tree_syntax::Expression;

/// The choices in which the formula of a branch is true: all, where it has none.
fn own_set(
    alloc: Global,
    names: &Names,
    flags: &[&str],
    formula: Option<&Expression>,
) -> Result<Choices, AllocError>
    requires few { length flags.now ≤ 16 }
    ensures over { IfOk result (λ c. c.flags ≡ length flags.now) }
    ensures own { IfOk result (λ c. IsSetOf (length flags.now) (λ k. value (choice_by names.now (texts flags.now) k) (option_map (λ e. form (expression_view e.now)) formula.entry)) c) }
{
    match formula {
        None => Choices::all(alloc, flags.len()),
        Some(formula) => formula_set(alloc, names, flags, formula),
    }
}

/// What a chain has left: all choices where a branch begins it, else what the branches before have.
fn begin(alloc: Global, left: &mut Choices, begins: bool) -> Result<(), AllocError>
    ensures over { IfOk result (λ _. left.new.flags ≡ left.old.flags) }
    ensures left { IfOk result (λ _. IsSetOf left.old.flags (λ k. cond begins true (has left.old k)) left.new) }
{
    if begins {
        *left = Choices::all(alloc, left.flags())?;
    }
    Ok(())
}

/// The choices that are in all three sets.
fn narrowed(holder: &Choices, left: &Choices, own: &Choices) -> Result<Choices, AllocError>
    requires left { left.now.flags ≡ holder.now.flags }
    requires own { own.now.flags ≡ holder.now.flags }
    ensures { IfOk result (λ c. IsNarrowed holder.now left.now own.now c) }
{
    let mut set = holder.try_clone()?;
    set.and(left);
    set.and(own);
    Ok(set)
}

/// The set of all choices, and the empty one.
fn first_sets(alloc: Global, flags: usize) -> Result<SetNumbers, AllocError>
    requires { flags ≤ 16 }
    ensures { IfOk result (λ s. HasFirst flags s) }
{
    let mut sets = SetNumbers::new(alloc);
    sets.add(Choices::all(alloc, flags)?)?;
    sets.add(Choices::none(alloc, flags)?)?;
    Ok(sets)
}

/// The sets of choices that branches have, after that of all choices and the empty one. Refused for want of memory alone.
pub fn sets_of(
    alloc: Global,
    names: &Names,
    flags: &[&str],
    branches: &[Branch],
) -> Result<SetNumbers, AllocError>
    requires few { length flags.now ≤ 16 }
    requires nested { AreNested 2 (map branch_view branches.now) }
    ensures { IfOk result (λ s. HasSetsOf (length flags.now) (choice_by names.now (texts flags.now)) s (map branch_view branches.now)) }
{
    let mut sets = first_sets(alloc, flags.len())?;
    let mut left = Choices::all(alloc, flags.len())?;
    for branch in branches {
        let own = own_set(alloc, names, flags, branch.formula)?;
        begin(alloc, &mut left, branch.begins)?;
        let Some(holder) = sets.get(branch.holder) else {
            unreachable!()
        };
        let set = narrowed(holder, &left, &own)?;
        left.without(&own);
        sets.add(set)?;
    }
    Ok(sets)
}
