//! The names that a bundle calls built in.
ghost use Rattle.std.specs.Prelude.{◌≡◌, Some, IfOk, IfErr, option_map};
ghost use Rattle.serde_json.specs.Find.{get};
ghost use Rattle.wesl_json_form.specs.View.{borrowed_view};
ghost use Rattle.wesl_program_bundle.specs.Broken.{Locates, LocatesMember};
ghost use Rattle.wesl_program_bundle.specs.Builtins.{builtins_in};
ghost use Rattle.wesl_program_bundle.specs.Forms.{optional, some_builtins};
ghost use Rattle.wesl_program_bundle.specs.Reading.{optional_in};
ghost use Rattle.wesl_program_bundle.specs.Views.{builtins_view};

use crate::joined::{both, inside, only};
use crate::members::{BundleError, texts_member};
use std::alloc::Global;
use wesl_json_form::BorrowedValue;

/// The names that are built in, for validation.
#[derive(Drop)]
pub struct BuiltinNames {
    /// The names that are defined.
    pub names: Vec<String>,
    /// The names of functions.
    pub functions: Vec<String>,
    /// The names of constructors.
    pub constructors: Vec<String>,
}

// The names at the key, none where it is not there.
pub(crate) fn builtins_member(
    alloc: Global,
    value: &BorrowedValue<'_>,
    key: &str,
) -> Result<Option<BuiltinNames>, BundleError>
    ensures ok { IfOk result (λ b. optional_in builtins_in (get key.now (borrowed_view value.now)) ≡ Some (option_map builtins_view b)) }
    ensures place { IfErr result (LocatesMember (optional key.now some_builtins) (borrowed_view value.now)) }
{
    match value.get(key) {
        Some(found) => inside(alloc, key, builtins_of(alloc, found)),
        None => Ok(None),
    }
}

fn builtins_of(
    alloc: Global,
    value: &BorrowedValue<'_>,
) -> Result<Option<BuiltinNames>, BundleError>
    ensures ok { IfOk result (λ b. optional_in builtins_in (Some (borrowed_view value.now)) ≡ Some (option_map builtins_view b)) }
    ensures place { IfErr result (Locates some_builtins (borrowed_view value.now)) }
{
    let names = texts_member(alloc, value, "names", true);
    let functions = texts_member(alloc, value, "functions", true);
    let constructors = texts_member(alloc, value, "constructors", true);
    let known = ["names", "functions", "constructors"];
    match only(
        alloc,
        value,
        &known,
        both(names, both(functions, constructors)),
    ) {
        Ok((names, callable)) => {
            let (functions, constructors) = callable;
            Ok(Some(BuiltinNames {
                names,
                functions,
                constructors,
            }))
        }
        Err(error) => Err(error),
    }
}
