//! Equality of expressions, types and attributes: two nodes are equal where they say the same by the numbers of their
//! identifiers, wherever each stands in its source. `wesl_tree_equality_statements` has the other nodes. And equality of
//! spans, field by field.
#![tactic(auto)]

mod attributes;
mod expressions;
mod spans;

pub use attributes::equal_attributes;
pub use expressions::{
    equal_calls, equal_expressions, equal_literals, equal_template_arguments, equal_types,
};
pub use spans::equal_spans;
