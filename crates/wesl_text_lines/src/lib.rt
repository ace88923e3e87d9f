//! Lines and columns of a text, which people count from 1 (WGSL, "Blankspace and Line Breaks").
#![tactic(auto)]

mod line_end;
mod line_starts;
mod place;

pub use line_end::is_line_end;
pub use line_starts::LineStarts;
pub use place::{Place, place_of};
