//! What the crates of rows share: what a row says under its keys, what is noted of it, and answers as values.
//!
//! A row is a JSON object that names itself (`row`), the crate of its call (`of`, where that is not `wesl_rows`) and a
//! public call (`call`), and holds the call's inputs. What is not there, or of another kind, is read as the empty text, the
//! empty list or the number that is given for it; a path or a unit that is not there is noted. A row of which something is
//! noted has no line.
#![tactic(auto)]

mod answers;
mod faults;
mod inputs;
mod refusals;
mod texts;

pub use answers::{
    List, Object, found_value, item_value, line, names_value, numbers_value, unit_of_one,
};
pub use faults::{Worded, declared, fault, located, put_span, refused, stands};
pub use inputs::{Row, is_refused, text_of};
pub use texts::printed;
