//! Feature flags and what is answered for them (WESL, "ConditionalTranslation").
ghost use Rattle.std.specs.Prelude.{◌≡◌, ℕ, List, true, IfOk, IfErr, None, Some, bytes_eq, cond};
ghost use Rattle.std.specs.BTreeMap.{get_by_text};
ghost use Rattle.wesl_tree_names.specs.declared.errors.Error as error;
ghost use Rattle.wesl_cond_features.specs.Answers.{opposite, both_hold, one_holds};
ghost use Rattle.wesl_cond_features.specs.Features.{answer_to, says, and_then, SameAnswers, AddsAnswers};

use std::alloc::Global;
use std::collections::BTreeMap;
use wesl_tree_names::Error;

/// What becomes of a feature flag.
#[derive(Clone, Copy, Debug, PartialEq, Eq, Drop)]
pub enum Feature {
    /// The flag is true.
    Enable,
    /// The flag is false.
    Disable,
    /// The flag is left for a later stage.
    Keep,
    /// The flag is refused.
    Error,
}

// By hand, so that it says which answer it is: a derived one does not.
impl Default for Feature {
    ghost use Rattle.std.specs.Prelude.{◌≡◌};
    ghost use Rattle.wesl_cond_features.specs.declared.features.Feature.TheVariants.{Disable};

    ghost is_default = { λ answer. answer ≡ Disable };

    /// A flag of which nothing is said is disabled.
    fn default() -> Feature {
        Feature::Disable
    }
}

impl From<bool> for Feature {
    ghost use Rattle.std.specs.Prelude.{◌≡◌};
    ghost use Rattle.wesl_cond_features.specs.Switch.{switched};

    ghost from_gives = { λ flag answer. answer ≡ switched flag };

    fn from(flag: bool) -> Feature {
        if flag {
            Feature::Enable
        } else {
            Feature::Disable
        }
    }
}

/// What is known of a flag or of a formula: it holds, it does not, or neither is decided.
#[derive(Clone, Copy, Drop)]
pub enum Truth {
    /// It holds.
    Yes,
    /// It does not hold.
    No,
    /// Neither is decided.
    Undecided,
}

impl Feature {
    /// This answer, or the next one where this keeps the flag.
    pub fn then(self, next: Feature) -> Feature
        ensures { result ≡ and_then self next }
    {
        match self {
            Feature::Keep => next,
            Feature::Enable | Feature::Disable | Feature::Error => self,
        }
    }

    /// What the answer says of the flag; one that is kept or refused is undecided.
    pub fn says(self) -> Truth
        ensures { result ≡ says self }
    {
        match self {
            Feature::Enable => Truth::Yes,
            Feature::Disable => Truth::No,
            Feature::Keep | Feature::Error => Truth::Undecided,
        }
    }
}

impl Truth {
    /// What is known of `!self`.
    pub fn negated(self) -> Truth
        ensures { result ≡ opposite self }
    {
        match self {
            Truth::Yes => Truth::No,
            Truth::No => Truth::Yes,
            Truth::Undecided => Truth::Undecided,
        }
    }

    /// What is known of `self && other`.
    pub fn and(self, other: Truth) -> Truth
        ensures { result ≡ both_hold self other }
    {
        match (self, other) {
            (Truth::No, _) | (_, Truth::No) => Truth::No,
            (Truth::Yes, Truth::Yes) => Truth::Yes,
            (Truth::Undecided, _) | (_, Truth::Undecided) => Truth::Undecided,
        }
    }

    /// What is known of `self || other`.
    pub fn or(self, other: Truth) -> Truth
        ensures { result ≡ one_holds self other }
    {
        match (self, other) {
            (Truth::Yes, _) | (_, Truth::Yes) => Truth::Yes,
            (Truth::No, Truth::No) => Truth::No,
            (Truth::Undecided, _) | (_, Truth::Undecided) => Truth::Undecided,
        }
    }
}

/// An answer for each feature flag: that of `flags`, or else the default.
#[derive(Debug, Drop, PartialEq, Eq)]
pub struct Features {
    /// the answer for every flag that is not listed
    pub default: Feature,
    /// the answers by the names of flags
    pub flags: BTreeMap<String, Feature>,
}

impl Features {
    /// No flag is listed, and each is disabled. It takes no memory.
    pub fn new(alloc: Global) -> Features
        ensures default { result.default ≡ Feature.Disable }
        ensures flags { (name : List ℕ) → get_by_text result.flags name ≡ None }
    {
        Features {
            default: Feature::Disable,
            flags: BTreeMap::new(alloc),
        }
    }

    /// What is answered for the flag of this name.
    pub fn answer(&self, name: &str) -> Feature
        ensures { result ≡ answer_to self.now name.now }
    {
        match self.flags.get(name) {
            Some(feature) => *feature,
            None => self.default,
        }
    }

    /// The answers of `self`, and those of `next` where `self` keeps a flag, in one set. Refused for
    /// want of memory alone.
    pub fn then(&self, alloc: Global, next: &Features) -> Result<Features, Error>
        ensures default { IfOk result (λ both. both.default ≡ and_then self.now.default next.now.default) }
        ensures answers { IfOk result (λ both. (name : List ℕ) → answer_to both name ≡ and_then (answer_to self.now name) (answer_to next.now name)) }
        ensures refused { IfErr result (λ e. e ≡ error.Memory) }
    {
        let mut both = Features {
            default: self.default.then(next.default),
            flags: BTreeMap::new(alloc),
        };
        let has_first = add_answers(alloc, &mut both.flags, &self.flags, self, next);
        let has_next = add_answers(alloc, &mut both.flags, &next.flags, self, next);
        if has_first && has_next {
            Ok(both)
        } else {
            Err(Error::Memory)
        }
    }

    /// An equal copy. Refused for want of memory alone.
    pub fn try_clone(&self, alloc: Global) -> Result<Features, Error>
        ensures equal { IfOk result (λ copy. SameAnswers copy self.now) }
        ensures refused { IfErr result (λ e. e ≡ error.Memory) }
    {
        let mut copy = Features {
            default: self.default,
            flags: BTreeMap::new(alloc),
        };
        if add_answers(alloc, &mut copy.flags, &self.flags, self, self) {
            Ok(copy)
        } else {
            Err(Error::Memory)
        }
    }
}

/// Adds to `flags`, for each name that `names` lists, what `first` and then `next` answer for it. Tells whether there
/// was memory for it.
fn add_answers(
    alloc: Global,
    flags: &mut BTreeMap<String, Feature>,
    names: &BTreeMap<String, Feature>,
    first: &Features,
    next: &Features,
) -> bool
    ensures added { result ≡ true → AddsAnswers flags.old names.now first.now next.now flags.new }
{
    let mut is_whole = true;
    for name in names.keys() {
        let answer = first.answer(name).then(next.answer(name));
        if !add_answer(alloc, flags, name, answer) {
            is_whole = false;
        }
    }
    is_whole
}

/// Adds one answer. Tells whether there was memory for it.
fn add_answer(
    alloc: Global,
    flags: &mut BTreeMap<String, Feature>,
    name: &str,
    answer: Feature,
) -> bool
    ensures added { result ≡ true → (other : List ℕ) → get_by_text flags.new other ≡ cond (bytes_eq name.now other) (Some answer) (get_by_text flags.old other) }
{
    match String::from_str(alloc, name) {
        Ok(name) => flags.insert(name, answer).is_ok(),
        Err(_) => false,
    }
}
