//! The names that a module leaves free.
ghost use Rattle.std.specs.Prelude.{◌≡◌, ◌↔◌, [], IfOk, IfErr};
ghost use Rattle.wesl_tree_base.specs.Borrowed.{texts};
ghost use Rattle.wesl_tree_names.specs.declared.errors.Error as error;
ghost use Rattle.wesl_tree.specs.Translation.{unit_view};
ghost use Rattle.wesl_validate_builtins.specs.Builtins.{builtins_view};
ghost use Rattle.wesl_validate_rules.specs.Valid.{IsDefined};
ghost use Rattle.wesl_validate_free.specs.Free.{free_names};

use crate::gather::unknown_names;
use crate::laws::law_of_free_names;
use std::alloc::Global;
use wesl_scope_occurrences::occurrences;
use wesl_tree::{Error, TranslationUnit};
use wesl_validate_builtins::Builtins;
use wesl_validate_rules::known_numbers;

/// The names that a module leaves to whoever takes it: those of references that nothing in it binds and that are not built
/// in (WGSL, "Declaration and Scope"), in document order of their first references, each once. It goes by the numbers of
/// `unit` as they stand; call `retarget_idents` first.
///
/// A reference is one of these where no binder has its number, and its name is neither one of the names of `builtins` nor
/// `_`; names with a path and arguments of custom attributes are not asked. There is none exactly where `validate_wesl`
/// takes each reference as defined, which tells the first of them alone.
///
/// `fn f() { x = y + x; }` leaves `x` and `y` free. Refused for want of memory alone.
pub fn free_names<'a>(
    alloc: Global,
    unit: &'a TranslationUnit,
    builtins: &Builtins,
) -> Result<Vec<&'a str>, Error>
    ensures told { IfOk result (λ free. texts free.items ≡ free_names (unit_view unit.now) (builtins_view builtins.now)) }
    ensures none { IfOk result (λ free. (free.items ≡ []) ↔ IsDefined (unit_view unit.now) (builtins_view builtins.now)) }
    ensures refused { IfErr result (λ e. e ≡ error.Memory) }
{
    law_of_free_names();
    let found = occurrences(alloc, unit)?;
    let names = unit.names();
    let known = known_numbers(alloc, names, &found, builtins)?;
    let free = unknown_names(alloc, names, &known, &found)?;
    Ok(free)
}
