//! The kinds of node that visits look for and rewriting replaces; and the engine of visits: one walk that collects the nodes of
//! a kind in document order.
#![tactic(auto)]

mod collect;
mod collected;
mod kinds;
mod laws;
mod rewriters;

pub use collect::attribute::in_attribute;
pub use collect::declaration::{
    in_alias, in_declarations, in_directives, in_function, in_global, in_imports, in_member,
    in_struct,
};
pub use collect::expression::{in_expression, in_type};
pub use collect::statement::{in_assert, in_declaration, in_else, in_statement};
pub use collected::Collected;
pub use kinds::{Kind, NodeRef};
pub use laws::{law_of_expressions, law_of_variants, law_of_words};
pub use rewriters::{Replace, Rewrite};
