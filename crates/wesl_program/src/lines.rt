//! Lines: one that was made, or the one for want of memory.
ghost use Rattle.std.specs.Prelude.{◌≡◌};
ghost use Rattle.wesl_tree_names.specs.declared.errors.Diagnostic.{out-Diagnostic};
ghost use Rattle.wesl_program.specs.Fault.{fault_of};
ghost use Rattle.wesl_program.specs.Line.{TellsFault, fault_line, memory};
ghost use Rattle.wesl_program.specs.Made.{bytes_of};

use crate::fault_line::placed_line;
use crate::place::place_told;
use crate::refusal::Refusal;
use std::alloc::Global;

/// A line that was made, or one that takes no memory.
#[derive(Drop)]
pub enum Line {
    Made(String),
    Constant(&'static str),
}

impl Line {
    ghost use Rattle.wesl_program.specs.Made.{bytes_of};

    /// The bytes of the line.
    pub fn as_bytes(&self) -> &[u8]
        ensures { result.now ≡ bytes_of self.now }
    {
        match self {
            Line::Made(text) => text.as_bytes(),
            Line::Constant(text) => text.as_bytes(),
        }
    }
}

/// The line for want of memory, which takes none.
pub fn memory_line() -> Line
    ensures { bytes_of result ≡ fault_line memory }
{
    Line::Constant("{\"args\":[],\"fault\":\"Memory\"}\n")
}

/// The line of a refusal, or the one for want of memory. It tells where the fault stands where the refusal says so: the
/// module of a fault of a condition, a tree or a name, and the place of a condition in its source.
pub fn refusal_line(alloc: Global, refusal: Refusal) -> Line
    ensures { TellsFault refusal.is_placed (fault_of (out-Diagnostic refusal.diagnostic).error) (bytes_of result) }
{
    let place = place_told(&refusal);
    let line = match placed_line(alloc, &refusal.diagnostic.error, place).ok() {
        Some(line) => Line::Made(line),
        None => memory_line(),
    };
    drop(refusal);
    line
}
