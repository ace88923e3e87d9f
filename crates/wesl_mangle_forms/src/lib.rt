//! The names that items of modules are given, written and read back: the escape form and the Unicode form
//! (WESL, "NameMangling"); the trait of all that name items, and the mangler that gives each item its own name. The
//! others stand over them.
#![tactic(auto)]

mod escape;
mod laws;
mod mangler;
mod numbered;
mod reversible;
mod types;
mod unescape;
mod unicode;
mod ununicode;
mod writer;

pub use escape::escape_form;
pub use laws::{escape_round_trip, escape_rows, unicode_round_trip, unicode_rows};
pub use mangler::{Mangler, NoMangler};
pub use numbered::{is_made, number_item, told};
pub use reversible::is_reversible;
pub use unescape::read_escape;
pub use unicode::{unicode_form, unicode_variant};
pub use ununicode::read_unicode;
