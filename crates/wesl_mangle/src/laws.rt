//! Laws of the names that are given: what is written is read back, and the worked examples.
pub use wesl_mangle_forms::{escape_round_trip, escape_rows, unicode_round_trip, unicode_rows};
