//! Laws over public clauses. What plain scoping reads in a linked unit, and in the unit of a link (WGSL, "Declaration and
//! Scope"; WESL, "Imports"): over the clauses of `names_clash` and of `Resolutions::assemble`. And laws of scopes by
//! computation: the canonical numbers of worked modules, and whether the names of worked units read as their numbers say.
//! And one of conditional translation: places and positions tell the same nodes (WESL, "ConditionalTranslation").
#![tactic(auto)]

mod faith;
mod laws;
mod positions;
mod reading;
mod rows;

pub use faith::{faith_of_rows, numbers_of_faithful_rows};
pub use laws::{law_of_apart_names, law_of_canonical_links, law_of_escape_names};
pub use positions::law_of_positions;
pub use reading::law_of_reading;
pub use rows::{numbers_of_rows, retarget_row};
