//! Values with texts of their own and the light form that is read, each made of the other. That what is written of a tree is
//! read as it was, as laws of the form.
#![tactic(auto)]

mod laws;
mod of_value;
mod to_value;

pub use laws::{law_of_order, law_of_units, law_of_whole_values};
pub use of_value::borrowed_of_value;
pub use to_value::value_of_borrowed;
