//! Whether a unit has places that form 2 writes.
ghost use Rattle.std.specs.Prelude.{◌≡◌, false, IfOk, OnOk};
ghost use Rattle.wesl_tree_syntax.specs.Shown.{placed};
ghost use Rattle.wesl_tree.specs.Translation.{unit_view};
ghost use Rattle.wesl_json.specs.UnitTexts.{shows_span};

use std::alloc::{AllocError, Global};
use wesl_json_print::{print_directives, print_imports};
use wesl_json_print_nodes::{Printer, Sink, print_declarations};
use wesl_tree::TranslationUnit;

/// Whether form 2 writes a span in one of the lists of a unit: no other number stands there.
pub(crate) fn shows_span(alloc: Global, unit: &TranslationUnit) -> Result<bool, AllocError>
    ensures { IfOk result (λ shows. shows ≡ shows_span (placed (unit_view unit.now))) }
{
    let names = unit.names();
    let mut out = Printer::new(alloc, NumberSink::new());
    print_imports(&mut out, true, names, unit.imports());
    print_directives(&mut out, true, names, unit.global_directives());
    print_declarations(&mut out, true, names, unit.global_declarations());
    out.into_sink().end()
}

/// A sink that notes whether a number is among what it is told.
#[derive(Drop)]
struct NumberSink {
    /// whether one was told
    has: bool,
    /// whether memory was wanting
    is_refused: bool,
}

impl NumberSink {
    // Nothing was told yet.
    fn new() -> NumberSink
        ensures { result.has ≡ false }
    {
        NumberSink {
            has: false,
            is_refused: false,
        }
    }

    // Whether a number was told, unless memory was wanting.
    fn end(self) -> Result<bool, AllocError>
        ensures given { IfOk result (λ has. has ≡ self.has) }
        ensures noted { OnOk result (self.is_refused ≡ false) }
    {
        if self.is_refused {
            Err(AllocError)
        } else {
            Ok(self.has)
        }
    }
}

impl Sink for NumberSink {
    ghost use Rattle.wesl_json.specs.Numbers.{NotesNumbers, notes_none, notes_more};

    ghost after = { NotesNumbers };

    fn begin(&mut self) {}

    fn close(&mut self) {}

    fn begin_list(&mut self) {}

    fn close_list(&mut self) {}

    fn key(&mut self, _key: &str) {}

    fn text(&mut self, _text: &str) {}

    fn truth(&mut self, _truth: bool) {}

    fn number(&mut self, _whole: u32) {
        self.has = true;
    }

    fn refuse(&mut self) {
        self.is_refused = true;
    }

    ghost none = { notes_none };

    ghost more = { notes_more };
}
