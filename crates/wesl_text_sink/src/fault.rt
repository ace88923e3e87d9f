//! Why there is no text.
use std::fmt;
use wesl_text_print::Unwritable;

/// Why nodes have not been printed.
#[derive(Clone, Copy, Debug, PartialEq, Eq, Drop)]
pub enum PrintFault {
    /// No text says a node.
    Unwritable(Unwritable),
    /// A text that is printed as a word is none.
    NoWord,
    /// A text that is printed as a name is none, or is a keyword or reserved.
    NoName,
    /// A text that is printed as the literal of a number is none.
    NoNumber,
    /// A text that is printed as the rule of a diagnostic is none.
    NoRule,
    /// The text would be read otherwise: a comparison as a template list, or a template list as comparisons.
    NotAsMeant,
    /// A text of 2^32 bytes or more.
    TooLong,
    /// Want of memory.
    Memory,
}

impl fmt::Display for PrintFault {
    fn fmt<W: fmt::Write>(&self, f: &mut fmt::Formatter<W>) -> fmt::Result {
        match self {
            PrintFault::Unwritable(reason) => {
                write!(f, "no text says this: {}", reason_of(*reason))
            }
            PrintFault::NoWord => write!(f, "what should be a word is none"),
            PrintFault::NoName => write!(
                f,
                "what should be a name is none, or is a keyword or reserved"
            ),
            PrintFault::NoNumber => write!(f, "what should be a number is none"),
            PrintFault::NoRule => write!(f, "what should be a rule of a diagnostic is none"),
            PrintFault::NotAsMeant => {
                write!(
                    f,
                    "a comparison would be read as a template list, or the reverse"
                )
            }
            PrintFault::TooLong => write!(f, "a text of 2^32 bytes or more"),
            PrintFault::Memory => write!(f, "out of memory"),
        }
    }
}

impl std::error::Error for PrintFault {}

// What no text says, in words.
fn reason_of(reason: Unwritable) -> &'static str {
    match reason {
        Unwritable::Operand => "an operand that stands in parentheses alone",
        Unwritable::EmptyList => "an empty template list",
        Unwritable::KnownAttribute => "a known attribute as one of another name",
        Unwritable::Words => "`@interpolate` with no word, or more than two",
        Unwritable::Sizes => "a third size of `@workgroup_size` without a second",
        Unwritable::Target => "a target that cannot be assigned to",
        Unwritable::OpenAttribute => "an attribute without operands before `(`",
        Unwritable::NoSelectors => "a clause of a `switch` without selectors",
        Unwritable::ForPart => "a statement that is no part of a `for`",
        Unwritable::Override => "an `override` in a function",
        Unwritable::Let => "a `let` outside of functions",
        Unwritable::NoValue => "a `const` or a `let` without a value",
        Unwritable::NoResult => "attributes of a result that is not there",
        Unwritable::NoWords => "`enable` or `requires` without a word",
    }
}
