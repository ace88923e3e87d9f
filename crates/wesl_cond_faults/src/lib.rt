//! All faults of the conditions of a module at once, for tools that show them as they are found (WESL,
//! "ConditionalTranslation").
#![tactic(auto)]

mod attributes;
mod declarations;
mod formula;
mod laws;
mod lists;
mod statements;
mod told;
mod whole;

pub use laws::{law_of_all, law_of_one, law_of_refusals};
pub use whole::faults;
