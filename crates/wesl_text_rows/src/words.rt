//! The words of the command line.

/// What a user wishes to be told.
#[derive(Clone, Copy)]
pub enum Wish {
    /// The unit as JSON.
    Tree,
    /// Of each text of an array the unit as JSON.
    Trees,
    /// The unit as shader text.
    Print,
    /// A fault alone.
    Check,
}

/// What a word wishes.
pub fn wish_of(word: &str) -> Option<Wish> {
    match word {
        "--tree" => Some(Wish::Tree),
        "--trees" => Some(Wish::Trees),
        "--print" => Some(Wish::Print),
        "--check" => Some(Wish::Check),
        _ => None,
    }
}
