//! Writing units.
ghost use Rattle.std.specs.Prelude.{◌≡◌, IfErr, IfOk};
ghost use Rattle.serde_json.specs.View.{view};
ghost use Rattle.wesl_tree_names.specs.declared.errors.Error as error;
ghost use Rattle.wesl_json_form.specs.Units.{written_as};
ghost use Rattle.wesl_tree.specs.Translation.{unit_view};

use crate::values::ValueSink;
use serde_json::Value;
use std::alloc::{AllocError, Global};
use wesl_json_light::law_of_order;
use wesl_json_print::print_unit_to;
use wesl_json_print_nodes::Printer;
use wesl_tree::{Error, TranslationUnit};

/// The value that a unit is written as: its form with the names for the identifiers, and in form 2, where spans are written, with
/// them.
///
/// Short forms are used wherever they exist, and empty lists and absent options are left out, except the arguments of a
/// type or of a custom attribute, which are written wherever they are there. Refused for want of memory alone.
pub fn value_of_unit(alloc: Global, spans: bool, unit: &TranslationUnit) -> Result<Value, Error>
    ensures written { IfOk result (λ v. view v ≡ written_as spans (unit_view unit.now)) }
    ensures refused { IfErr result (λ e. e ≡ error.Memory) }
{
    Ok(built_unit(alloc, spans, unit)?)
}

fn built_unit(alloc: Global, spans: bool, unit: &TranslationUnit) -> Result<Value, AllocError>
    ensures { IfOk result (λ v. view v ≡ written_as spans (unit_view unit.now)) }
{
    law_of_order();
    let mut out = Printer::new(alloc, ValueSink::new(alloc));
    print_unit_to(&mut out, spans, unit);
    out.into_sink().end()
}
