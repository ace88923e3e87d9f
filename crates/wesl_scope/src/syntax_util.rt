//! What is asked of a module's tree, and done to it.
ghost use Rattle.std.specs.Prelude.{◌≡◌, ◌<◌, ◌↔◌, ℕ, IfOk, IfErr, OnOk, length, map};
ghost use Rattle.std.specs.List.{Contains};
ghost use Rattle.wesl_tree_names.specs.declared.errors.Error as error;
ghost use Rattle.wesl_tree_syntax.specs.Unit.{UnitView, numbers, spelled};
ghost use Rattle.wesl_scope_occurrences.specs.Occurrences.{occurrences};
ghost use Rattle.wesl_scope_numbers.specs.Nodes.{HasSameNodes};
ghost use Rattle.wesl_scope.specs.EntryPoints.{entry_points_of};
ghost use Rattle.wesl_tree_syntax.specs.Numbers.{AreNumbers};
ghost use Rattle.wesl_scope_meanings.specs.Scopes.{keys};

use crate::entry_points::entry_point;
use std::alloc::Global;
use wesl_scope_numbers::{numbers_by_meaning, renumber};
use wesl_tree::{Error, Ident, TranslationUnit};

/// What is asked of a module's tree, and done to it.
pub trait SyntaxUtil {
    /// the module whose tree it is
    ghost unit: { Self → UnitView };

    /// The names of the entry points (WGSL, "Entry Points"): of the functions with `@vertex`, `@fragment` or
    /// `@compute`, in source order, each declaration once. Refused for want of memory alone.
    fn entry_points(&self, alloc: Global) -> Result<Vec<Ident>, Error>
        ensures names { IfOk result (λ names. map (λ i. i.0) names.items ≡ entry_points_of (unit self.now).declarations.children) }
        ensures refused { IfErr result (λ e. e ≡ error.Memory) };

    /// Gives the identifiers of a module new numbers, by what they mean: two have one number exactly where plain
    /// scoping gives them one key (WGSL, "Declaration and Scope"), and numbers run 0, 1, 2, .. by first occurrence in
    /// document order. The table of names then has one name for each number. The spelling stays, and spans too.
    ///
    /// Refused for want of memory alone; the unit is then as before.
    fn retarget_idents(&mut self, alloc: Global) -> Result<(), Error>
        ensures numbers { OnOk result (AreNumbers (keys (occurrences (spelled (unit self.old)))) (numbers (unit self.new))) }
        ensures nodes { OnOk result (HasSameNodes (unit self.old) (unit self.new)) }
        ensures spelling { OnOk result (spelled (unit self.new) ≡ spelled (unit self.old)) }
        ensures table { OnOk result ((m : ℕ) → (m < length (unit self.new).names) ↔ Contains (numbers (unit self.new)) m) }
        ensures refused { IfErr result (λ e. e ≡ error.Memory) }
        ensures unchanged { IfErr result (λ _. unit self.new ≡ unit self.old) };
}

impl SyntaxUtil for TranslationUnit {
    ghost use Rattle.wesl_tree.specs.Translation.{unit_view};

    ghost unit = { unit_view };

    fn entry_points(&self, alloc: Global) -> Result<Vec<Ident>, Error> {
        let mut names = Vec::new(alloc);
        for declaration in self.global_declarations() {
            if let Some(name) = entry_point(&declaration.node) {
                names.push(name)?;
            }
        }
        Ok(names)
    }

    fn retarget_idents(&mut self, alloc: Global) -> Result<(), Error> {
        let (given, names) = numbers_by_meaning(alloc, self)?;
        renumber(alloc, self, names, &given);
        Ok(())
    }
}
