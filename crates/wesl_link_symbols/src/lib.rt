//! Symbol tables of modules: paths and names as numbers, imports, references, declarations, and look-ups in one table.
#![tactic(auto)]

pub mod answer;
pub mod ids;
pub mod keyed;
pub mod laws;
pub mod row;
pub mod symbols;
pub mod table;
