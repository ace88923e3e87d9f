//! What the parts of the linker promise, whatever the module: for proofs of those who build on it.

pub use wesl_cond::laws::{
    law_of_both_stages, law_of_choices, law_of_faults, law_of_later_stages, law_of_repetition,
    law_of_spelling, law_of_stages, law_of_then, law_of_twice,
};
pub use wesl_json::laws::{law_of_order, law_of_places, law_of_units, law_of_whole_values};
pub use wesl_scope::laws::{law_of_spans, law_of_stripping};
