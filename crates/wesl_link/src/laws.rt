//! Laws of links, for proofs of callers.

pub use wesl_link_engine::{law_of_eager_links, law_of_links};
