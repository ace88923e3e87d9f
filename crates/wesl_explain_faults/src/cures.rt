//! What helps against a fault of a link.

use wesl_link_flaws::told::Flaw;
use wesl_link_symbols::ids::NameId;

/// What helps against a fault of a link.
#[derive(Clone, Copy, PartialEq, Eq)]
pub enum FaultCure {
    /// `@publish` before the import, or another import.
    Publish,
    /// A flag of the bundle's `features` that is decided.
    Features,
    /// A condition, or another one.
    Condition,
    /// Another name for one of two imports.
    Rename,
    /// A larger `max_modules`.
    MaxModules,
    /// Another name.
    Name,
    /// Another path.
    Path,
}

/// What helps where a name is wrong.
pub fn cures_of(flaw: Flaw<NameId>) -> &'static [FaultCure] {
    match flaw {
        Flaw::Clash(_) => &[FaultCure::Rename, FaultCure::Condition],
        Flaw::NoModule => &[],
        Flaw::Lacking(_) => &[FaultCure::Name],
        Flaw::Hidden(_) => &[FaultCure::Publish],
        Flaw::Unsure(_) => &[FaultCure::Features, FaultCure::Condition],
    }
}
