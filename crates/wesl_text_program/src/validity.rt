//! What the built-in names of a bundle ask of its linked unit.
ghost use Rattle.std.specs.Prelude.{option_map};
ghost use Rattle.wesl_program_bundle.specs.Views as bundle;
ghost use Rattle.wesl_validate_builtins.specs.Builtins.{builtins_view};
ghost use Rattle.wesl_text_program.specs.Asked.{IsAskedBy};

use std::alloc::Global;
use wesl_program_bundle::BuiltinNames;
use wesl_text_linked::Validation;
use wesl_validate_builtins::Builtins;

// What is asked of the names of the linked unit, and under which built-in names: nothing, where there are none.
pub(crate) fn validation_of(alloc: Global, listed: Option<BuiltinNames>) -> (Validation, Builtins)
    ensures { IsAskedBy (option_map bundle.builtins_view listed) result.0 (builtins_view result.1) }
{
    match listed {
        Some(listed) => (
            Validation::Calls,
            Builtins::new(listed.names, listed.functions, listed.constructors),
        ),
        None => (
            Validation::Nothing,
            Builtins::new(Vec::new(alloc), Vec::new(alloc), Vec::new(alloc)),
        ),
    }
}
