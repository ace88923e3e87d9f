//! Which places of a module a choice of feature flags keeps together (WESL, "ConditionalTranslation").
#![tactic(auto)]

mod alive;
mod attributes;
mod declarations;
mod expressions;
mod flags;
mod formulas;
mod imports;
mod laws;
mod outline;
mod sets;
mod statements;
mod units;
mod walk;

pub use alive::alive_of;
pub use flags::flags_of_unit;
pub use formulas::formula_set;
pub use laws::{law_of_positions, law_of_rows};
pub use outline::Outline;
