//! What paths and errors are made of: texts as pieces, places in a source, and the faults that hold no path.
#![tactic(auto)]

mod faults;
mod ids;
mod reading;
mod span;
mod writing;

pub use faults::{CondCompError, ValidateError};
pub use ids::NameId;
pub use reading::{has_slash, is_keyword, is_package_name, leading_supers, pieces_of};
pub use span::Span;
pub use writing::{copied, copied_texts, dependency_name, relative_text, write_relative};
