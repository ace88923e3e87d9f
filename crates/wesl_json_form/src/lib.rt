//! The JSON form of trees; and JSON values that are read, in a light form: their texts are borrowed, and the members of an object
//! stand as they came. How such a value is read of a text, in one pass. Places in such values as JSON Pointers (RFC 6901), and the
//! keys of their objects.
#![tactic(auto)]

mod fault;
mod key;
mod keys;
mod laws;
mod members;
mod number;
mod number_text;
mod pointer;
mod read;
mod rows;
mod stacks;
mod value;

pub use fault::ReadFault;
pub use key::Key;
pub use keys::{has_only, has_only_beside};
pub use laws::law_of_places;
pub use number::{Number, NumberKind};
pub use pointer::{under_index, under_key};
pub use read::read_borrowed;
pub use rows::{row_of_a_constant, rows_of_nodes};
pub use value::{BorrowedValue, Members};
