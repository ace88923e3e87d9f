//! What holds of names, paths and nodes whatever is done with them. A caller cites a law by its call.
pub use wesl_tree_interner::law_of_ids;
pub use wesl_tree_names::{
    law_of_equality as law_of_path_equality, law_of_order, law_of_rows, law_of_texts,
};
pub use wesl_tree_syntax::law_of_equality as law_of_node_equality;
