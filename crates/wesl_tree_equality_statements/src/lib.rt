//! Equality of statements, imports, directives and declarations: two nodes are equal where they say the same by the numbers
//! of their identifiers, wherever each stands in its source. `wesl_tree_equality` has expressions, types and attributes.
#![tactic(auto)]

mod declarations;
mod functions;
mod imports;
mod statements;

pub use declarations::{
    equal_const_asserts, equal_declarations, equal_directives, equal_members, equal_parameters,
    equal_structs, equal_type_aliases,
};
pub use functions::{equal_functions, equal_global_declarations};
pub use imports::{
    equal_import_contents, equal_import_items, equal_import_statements, equal_imports,
};
pub use statements::{
    equal_break_if_statements, equal_case_selectors, equal_compound_statements,
    equal_continuing_statements, equal_else_clauses, equal_else_if_clauses, equal_if_clauses,
    equal_statements, equal_switch_clauses,
};
