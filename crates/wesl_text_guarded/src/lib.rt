//! Shader text of units that were made, with the parentheses that it needs.
#![tactic(auto)]

mod guarding;
pub mod laws;
mod printing;
mod rows;

pub use guarding::guard_unit;
pub use printing::print_guarded;
pub use rows::rows_of_parentheses;
pub use wesl_text::PrintFault;
