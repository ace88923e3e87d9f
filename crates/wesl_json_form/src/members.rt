//! Looking up members.
ghost use Rattle.std.specs.Prelude.{◌≡◌, option_map};
ghost use Rattle.serde_json.specs.Find.{get_member};
ghost use Rattle.wesl_json_form.specs.View.{borrowed_view, members_view};

use crate::value::{BorrowedValue, Members};

// The value of the last member with a key.
pub(crate) fn last_at<'a>(members: Members<'a>, key: &str) -> Option<&'a BorrowedValue<'a>>
    ensures { option_map (λ v. borrowed_view v.now) result ≡ get_member key.now (members_view members.now) }
{
    let mut left = members.len();
    while left > 0 {
        left -= 1;
        let member = &members[left];
        if member.0.text() == key {
            return Some(&member.1);
        }
    }
    None
}
