//! Units in their JSON form: as values and as texts.
#![tactic(auto)]

pub mod laws;
mod places;
mod text;
mod unit;
mod value_text;

pub use text::{JsonText, text_of_unit, unit_of_text};
pub use unit::{unit_of_borrowed, unit_of_value, value_of_unit, value_of_unit_2};
pub use value_text::{borrowed_of_text, text_of_value, value_of_text};
