//! What a link is asked for.

use wesl_tree_names::ModulePath;

/// What a link is asked for: what the names in `keep` of the root and the const_asserts reach, or all that is declared.
#[derive(Clone, Copy)]
pub struct LinkRequest<'a> {
    /// where the root stands
    pub root: &'a ModulePath,
    /// the names of the root that are kept; of an eager link they count for nothing
    pub keep: &'a [&'a str],
    /// whether all that the modules declare is asked for
    pub is_eager: bool,
    /// how many modules may be loaded, the root counted
    pub max_modules: usize,
}
