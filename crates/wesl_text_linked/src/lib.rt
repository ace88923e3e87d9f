//! The text of linked units: from what a resolver hands out to a text that says the unit to which it is linked.
#![tactic(auto)]

mod linking;
mod naming;
mod request;
mod text;
mod unit;
mod validity;

pub use request::{TextRequest, Validation};
pub use text::{LinkedText, TextRefusal, linked_text};
pub use unit::{LinkedUnit, linked_unit};
pub use wesl_link::LinkRequest;
