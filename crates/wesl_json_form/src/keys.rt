//! The keys of objects.
ghost use Rattle.std.specs.Prelude.{◌≡◌, map};
ghost use Rattle.std.specs.List.{list_any};
ghost use Rattle.std.specs.Str.{bytes_eq};
ghost use Rattle.wesl_json_form.specs.View.{borrowed_view, members_view};
ghost use Rattle.wesl_json_form.specs.Keys.{all_known, has_only, keys_beside};

use crate::value::{BorrowedValue, Members};

/// Whether a value is an object with no keys but these.
pub fn has_only(value: &BorrowedValue<'_>, known: &[&str]) -> bool
    ensures { result ≡ has_only (map (λ k. k.now) known.now) (borrowed_view value.now) }
{
    has_only_beside(value, false, "", known)
}

/// Whether a value is an object with no keys but these, and where so an extra one beside them.
pub fn has_only_beside(value: &BorrowedValue<'_>, beside: bool, extra: &str, known: &[&str]) -> bool
    ensures { result ≡ has_only (keys_beside beside extra.now (map (λ k. k.now) known.now)) (borrowed_view value.now) }
{
    match value.as_object() {
        Some(members) => all_known(members, beside, extra, known),
        None => false,
    }
}

fn all_known(members: Members<'_>, beside: bool, extra: &str, known: &[&str]) -> bool
    ensures { result ≡ all_known (keys_beside beside extra.now (map (λ k. k.now) known.now)) (members_view members.now) }
{
    for member in members {
        if !is_among(member.0.text(), beside, extra, known) {
            return false;
        }
    }
    true
}

fn is_among(key: &str, beside: bool, extra: &str, known: &[&str]) -> bool
    ensures { result ≡ list_any (λ x. bytes_eq x key.now) (keys_beside beside extra.now (map (λ k. k.now) known.now)) }
{
    (beside && extra == key) || known.contains(&key)
}
