//! Nodes of whole units.
ghost use Rattle.std.specs.Prelude.{◌≡◌, ◌≤◌, IfOk, length};
ghost use Rattle.wesl_tree_base.specs.Borrowed.{texts};
ghost use Rattle.wesl_tree_syntax.specs.Unit.{spelled, trees_of};
ghost use Rattle.wesl_tree_syntax.specs.View.{directives_tree, imports_tree};
ghost use Rattle.wesl_tree.specs.Translation.{unit_view};
ghost use Rattle.wesl_cond_alive.specs.Choices as choices;
ghost use Rattle.wesl_cond_alive.specs.Choices.{IsSetOf, choice_of};
ghost use Rattle.wesl_cond_alive.specs.Positions.{kept_in};
ghost use Rattle.wesl_cond_positions.specs.Found.{Finds, IsFound};

use crate::lookup::Lookup;
use std::alloc::{AllocError, Global};
use wesl_cond_choices::choices::Choices;
use wesl_tree::TranslationUnit;
use wesl_tree_syntax::{GlobalDirectiveNode, ImportStatementNode};

impl<'a> Lookup<'a> {
    fn imports(
        &self,
        nodes: &Vec<ImportStatementNode>,
        position: &[usize],
    ) -> Result<Choices, AllocError>
        ensures { Finds self.now position.now (imports_tree nodes.now) result }
    {
        self.leaf(nodes, position)
    }

    fn directives(
        &self,
        nodes: &Vec<GlobalDirectiveNode>,
        position: &[usize],
    ) -> Result<Choices, AllocError>
        ensures { Finds self.now position.now (directives_tree nodes.now) result }
    {
        self.leaf(nodes, position)
    }

    /// The choices that keep the node at a position of a unit.
    fn unit(&self, unit: &TranslationUnit, position: &[usize]) -> Result<Choices, AllocError>
        ensures { IfOk result (IsFound self.now (λ choice. kept_in choice position.now (trees_of (unit_view unit.now)))) }
    {
        match position {
            [] => self.all(),
            [0, rest @ ..] => self.imports(unit.imports(), rest),
            [1, rest @ ..] => self.directives(unit.global_directives(), rest),
            [2, rest @ ..] => self.globals(unit.global_declarations(), rest),
            _ => self.none(),
        }
    }
}

/// The choices of a unit's flags that keep its node at a position (WESL, "ConditionalTranslation"). Where a list that is judged
/// may lie ahead, no choice keeps what a position that leads nowhere tells; where none may, a position stands for the node in
/// which it goes on.
///
/// # Errors
/// Want of memory.
pub fn position_set(
    alloc: Global,
    unit: &TranslationUnit,
    flags: &[&str],
    position: &[usize],
) -> Result<Choices, AllocError>
    requires few { length flags.now ≤ 16 }
    requires all { texts flags.now ≡ choices.flags (spelled (unit_view unit.now)) }
    ensures over { IfOk result (λ c. c.flags ≡ length flags.now) }
    ensures set { IfOk result (IsSetOf (length flags.now) (λ k. kept_in (choice_of (texts flags.now) k) position.now (spelled (unit_view unit.now)))) }
{
    let look = Lookup {
        alloc,
        names: unit.names(),
        flags,
    };
    look.unit(unit, position)
}
