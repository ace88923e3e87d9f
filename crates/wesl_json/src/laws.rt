//! What the JSON form of units promises, whatever the unit.

pub use wesl_json_form::law_of_places;
pub use wesl_json_light::{law_of_order, law_of_units, law_of_whole_values};
