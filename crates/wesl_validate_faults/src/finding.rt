//! What the validators find in a module.

/// What is wrong with a module, with the names that tell it.
#[derive(Clone, Copy, PartialEq, Eq, Hash)]
pub(crate) enum Finding<'a> {
    /// a name that is not defined, and before it the name of the declaration that holds the reference
    Undefined(Option<&'a str>, &'a str),
    /// a name that two imports or declarations have
    Duplicate(&'a str),
    /// the name of a declaration that reaches itself, and that of the last one on the way
    Cycle(&'a str, &'a str),
    /// in the declaration of a name a call of a function or a structure: the name of that, how many arguments it takes, and
    /// how many the call has
    Miscounted(Option<&'a str>, &'a str, usize, usize),
    /// in the declaration of a name a call of what cannot be called: the name of that
    NotCallable(Option<&'a str>, &'a str),
}
