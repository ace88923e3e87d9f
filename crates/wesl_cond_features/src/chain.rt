//! Chains of branches, judged one branch after the other.
ghost use Rattle.std.specs.Prelude.{◌≡◌, ◌&&◌, false};
ghost use Rattle.wesl_cond_features.specs.Branch.{fate, kept_after, decided_after};

use crate::features::Truth;

/// How a branch that stays is marked.
#[derive(Clone, Copy, Drop)]
pub enum Role {
    /// without a condition
    Plain,
    /// `@if`
    If,
    /// `@elif`
    Elif,
    /// `@else`
    Else,
}

/// What has become of the branches of a chain so far.
#[derive(Clone, Copy, Drop)]
pub struct Chain {
    /// a branch stays
    pub kept: bool,
    /// a branch was true
    pub decided: bool,
}

impl Chain {
    /// No branch yet.
    pub fn new() -> Chain
        ensures kept { result.kept ≡ false }
        ensures decided { result.decided ≡ false }
    {
        Chain {
            kept: false,
            decided: false,
        }
    }

    /// Takes the next node of a list, and says how it stays.
    pub fn take(&mut self, follows_on: bool, holds: Truth) -> Option<Role>
        ensures value { result ≡ fate (follows_on && self.old.kept) (follows_on && self.old.decided) holds }
        ensures kept { self.new.kept ≡ kept_after (follows_on && self.old.kept) (follows_on && self.old.decided) holds }
        ensures decided { self.new.decided ≡ decided_after (follows_on && self.old.decided) holds }
    {
        if !follows_on {
            *self = Chain::new();
        }
        if self.decided {
            return None;
        }
        let kept = self.kept;
        match holds {
            Truth::No => None,
            Truth::Yes => {
                self.kept = true;
                self.decided = true;
                Some(if kept { Role::Else } else { Role::Plain })
            }
            Truth::Undecided => {
                self.kept = true;
                Some(if kept { Role::Elif } else { Role::If })
            }
        }
    }
}
