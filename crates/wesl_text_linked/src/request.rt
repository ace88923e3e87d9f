//! What the text of a link is asked for.
use wesl_link::LinkRequest;
use wesl_validate_builtins::Builtins;

/// What is asked of the names of a linked unit.
#[derive(Clone, Copy, PartialEq, Eq)]
pub enum Validation {
    /// Nothing.
    Nothing,
    /// That each is declared or built in.
    Names,
    /// Besides, that no name is declared twice and no declaration needs itself, and that calls fit.
    Calls,
}

/// What the text of a link is asked for.
#[derive(Clone, Copy)]
pub struct TextRequest<'w> {
    /// What is linked: the root's path, the names that are kept of it, and how many modules may be loaded.
    pub link: LinkRequest<'w>,
    /// Whether the names of the root's items are given by the mangler too.
    pub mangle_root: bool,
    /// What is asked of the names of the linked unit.
    pub validation: Validation,
    /// The names that are built in.
    pub builtins: &'w Builtins,
}
