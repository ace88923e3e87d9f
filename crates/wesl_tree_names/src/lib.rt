//! Names, module paths and errors: what every layer of the linker speaks of.
#![tactic(auto)]

mod errors;
mod laws;
mod names;
mod path;
mod path_text;

pub use errors::{Diagnostic, Error, ImportError, ResolveError};
pub use laws::{law_of_equality, law_of_order, law_of_rows, law_of_texts};
pub use names::{Ident, Names};
pub use path::{ModulePath, PathOrigin};
pub use wesl_tree_base::{CondCompError, Span, ValidateError};
