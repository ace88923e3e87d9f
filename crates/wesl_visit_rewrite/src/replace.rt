//! One walk over a tree, which replaces the nodes of a kind in document order.
pub(crate) mod attribute;
pub(crate) mod declaration;
pub(crate) mod expression;
pub(crate) mod statement;
