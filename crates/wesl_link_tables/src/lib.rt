//! The symbol table of a module: what its imports bind, what it declares, and what the identifiers of its declarations
//! are to a link. And numbers for names, of which each distinct text has one.
#![tactic(auto)]

pub mod aims;
pub mod imports;
pub mod laws;
pub mod marks;
pub mod numbers;
pub mod reading;
pub mod table;
pub mod texts;
