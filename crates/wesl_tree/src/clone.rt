//! Copies of units.
ghost use Rattle.std.specs.Prelude.{◌≡◌, IfOk, IfErr};
ghost use Rattle.wesl_tree_names.specs.declared.errors.Error as error;
ghost use Rattle.wesl_tree.specs.Translation.{unit_view};

use crate::unit::TranslationUnit;
use std::alloc::Global;
use wesl_tree_copies::{Copying, unless_refused};
use wesl_tree_names::Error;

impl TranslationUnit {
    /// A copy of the unit, which equals it, spans too. Refused for want of memory alone.
    pub fn try_clone(&self, alloc: Global) -> Result<TranslationUnit, Error>
        ensures equal { IfOk result (λ unit. unit_view unit ≡ unit_view self.now) }
        ensures refused { IfErr result (λ e. e ≡ error.Memory) }
    {
        let names = self.names().try_clone(alloc)?;
        let mut copying = Copying::of(alloc);
        let imports = copying.imports(self.imports());
        let directives = copying.directives(self.global_directives());
        let declarations = copying.globals(self.global_declarations());
        match TranslationUnit::from_parts(names, imports, directives, declarations) {
            Some(unit) => unless_refused(copying.is_refused, unit),
            None => {
                prove!(copying.is_refused);
                Err(Error::Memory)
            }
        }
    }
}
