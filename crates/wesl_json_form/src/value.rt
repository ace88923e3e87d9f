//! The light form of a value.
ghost use Rattle.std.specs.Prelude.{◌≡◌, is_some, option_map, option_and_then};
ghost use Rattle.serde_json.specs.Find.{as_array, as_bool, as_number, as_object, as_str, as_u64, get};
ghost use Rattle.wesl_json_form.specs.View.{borrowed_view, items_view, members_view};

use crate::key::Key;
use crate::members::last_at;
use crate::number::Number;

/// A JSON value whose texts stand elsewhere, and whose lists are slices of an arena. A copy of it is free, and none is let go.
#[derive(Clone, Copy)]
#[cycle(borrowed)]
pub enum BorrowedValue<'a> {
    /// `null`
    Null,
    /// `true` or `false`
    Bool(bool),
    /// a number
    Number(Number),
    /// a text
    String(&'a str),
    /// a list
    Array(&'a [BorrowedValue<'a>]),
    /// an object
    Object(Members<'a>),
}

/// The members of an object in the order in which they came. Of those with one key the last counts.
pub type Members<'a> = &'a [(Key<'a>, BorrowedValue<'a>)];

impl<'a> BorrowedValue<'a> {
    /// The member at a key, of an object.
    pub fn get(&self, key: &str) -> Option<&BorrowedValue<'a>>
        ensures { option_map (λ v. borrowed_view v.now) result ≡ get key.now (borrowed_view self.now) }
    {
        match self {
            BorrowedValue::Object(members) => last_at(*members, key),
            _ => None,
        }
    }

    /// Whether it is an object.
    pub fn is_object(&self) -> bool
        ensures { result ≡ is_some (as_object (borrowed_view self.now)) }
    {
        matches!(self, BorrowedValue::Object(_))
    }

    /// The members, of an object.
    pub fn as_object(&self) -> Option<Members<'a>>
        ensures { option_map (λ m. members_view m.now) result ≡ as_object (borrowed_view self.now) }
    {
        match self {
            BorrowedValue::Object(members) => Some(*members),
            _ => None,
        }
    }

    /// The items, of a list.
    pub fn as_array(&self) -> Option<&'a [BorrowedValue<'a>]>
        ensures { option_map (λ v. items_view v.now) result ≡ as_array (borrowed_view self.now) }
    {
        match self {
            BorrowedValue::Array(items) => Some(*items),
            _ => None,
        }
    }

    /// The text, of a text.
    pub fn as_str(&self) -> Option<&'a str>
        ensures { option_map (λ s. s.now) result ≡ as_str (borrowed_view self.now) }
    {
        match self {
            BorrowedValue::String(text) => Some(*text),
            _ => None,
        }
    }

    /// The truth value, of one.
    pub fn as_bool(&self) -> Option<bool>
        ensures { result ≡ as_bool (borrowed_view self.now) }
    {
        match self {
            BorrowedValue::Bool(truth) => Some(*truth),
            _ => None,
        }
    }

    /// The whole number from 0 on, of one below 2^64.
    pub fn as_u64(&self) -> Option<u64>
        ensures { result ≡ option_and_then as_u64 (as_number (borrowed_view self.now)) }
    {
        match self {
            BorrowedValue::Number(number) => number.as_u64(),
            _ => None,
        }
    }
}
