//! Sets of choices of feature flags, as bit sets.
//!
//! A choice says of each flag whether it is true. With n flags it is a number below 2 ^ n, whose bit i is the value of flag i.
ghost use Rattle.std.specs.Prelude.{◌≡◌, ◌↔◌, ℕ, ◌/◌, ◌%◌, ◌^◌, ◌*◌, ◌+◌, ◌<◌, ◌≤◌, nat_eq, nat_lt, not, ◌&&◌, ◌||◌, IsTrue, true, false, IfOk, length};
ghost use Rattle.std.specs.Int.{bit_at};
ghost use Rattle.wesl_cond_choices.specs.Choices.{has, has_bit, word_count, IsEmpty, Meet};
ghost use Rattle.std.specs.Hash as fed;
ghost use Rattle.std.specs.Cmp.Lexicographic.{pointwise};
ghost use Rattle.std.specs.Ordering.{eq_of_both, on};
ghost use Rattle.std.specs.Cmp.Rules.{comparing, hashing};
ghost use Rattle.std.proofs.Common.{rules};

use std::alloc::{AllocError, Global};
use std::hash::{Hash, Hasher};
use std::marker::Model;

/// A set of choices of as many flags: at most 16, so that it takes at most 1,024 words.
pub struct Choices {
    flags: usize,
    words: Vec<u64>,
}

// By hand, so that it is proved once: a derived one is proved in each crate that lets go of a value.
impl Drop for Choices {
    fn drop(self) {
        let Choices { flags: _, words: _ } = self;
    }
}

impl Model for Choices {
    ghost use Rattle.wesl_cond_choices.specs.Choices as choices;

    ghost Value = { choices.Choices };

    ghost view = { λ c. record { flags = c.flags; words = c.words.items } };

    ghost invariant = { λ c. choices.IsSet (record { flags = c.flags; words = c.words.items }) };
}

impl PartialEq for Choices {
    ghost eq = { eq_of_both (on (λ c. c.flags) nat_eq) (on (λ c. c.words) (pointwise nat_eq)) };

    ghost laws = { Prim.search (comparing, rules) };

    fn eq(&self, other: &Choices) -> bool {
        self.flags == other.flags && self.words == other.words
    }
}

impl Eq for Choices {
    ghost laws = { Prim.search (comparing, rules) };
}

impl Hash for Choices {
    ghost hash_input = { λ c. fed.slice fed.u64 c.words };

    ghost respects_eq = { Prim.search (hashing, rules) };

    fn hash<H: Hasher>(&self, state: &mut H) {
        self.words.hash(state);
    }
}

/// How many words a set over these flags has.
fn word_count(flags: usize) -> usize
    requires { flags ≤ 16 }
    ensures { result ≡ word_count flags }
{
    if flags < 6 {
        return 1;
    }
    1usize << (flags - 6)
}

/// A word of the set of all choices of these flags. All words of that set are the same.
fn full_word(flags: usize) -> u64
    ensures { (b : ℕ) → b < 64 → nat_eq (bit_at result b) 1 ≡ nat_lt b (2 ^ flags) }
{
    match flags {
        0 => 0x1,
        1 => 0x3,
        2 => 0xF,
        3 => 0xFF,
        4 => 0xFFFF,
        5 => 0xFFFF_FFFF,
        _ => 0xFFFF_FFFF_FFFF_FFFF,
    }
}

/// The choices of the first word in which this flag, one of the first six, is true.
fn low_pattern(flag: usize) -> u64
    requires { flag < 6 }
    ensures { (b : ℕ) → b < 64 → bit_at result b ≡ bit_at b flag }
{
    match flag {
        0 => 0xAAAA_AAAA_AAAA_AAAA,
        1 => 0xCCCC_CCCC_CCCC_CCCC,
        2 => 0xF0F0_F0F0_F0F0_F0F0,
        3 => 0xFF00_FF00_FF00_FF00,
        4 => 0xFFFF_0000_FFFF_0000,
        _ => 0xFFFF_FFFF_0000_0000,
    }
}

/// The choices of a word in which the flag is true.
fn flag_word(flag: usize, word: usize) -> u64
    requires { flag < 16 }
    ensures { (b : ℕ) → b < 64 → bit_at result b ≡ bit_at (word * 64 + b) flag }
{
    if flag < 6 {
        return low_pattern(flag);
    }
    if (word >> (flag - 6)) & 1 == 1 {
        return 0xFFFF_FFFF_FFFF_FFFF;
    }
    0
}

/// Keeps the bits in whose numbers the bit of the flag is set.
fn keep_flag(words: &mut [u64], flag: usize)
    requires { flag < 16 }
    ensures len { length words.new ≡ length words.old }
    ensures both { (k : ℕ) → has_bit words.new k ≡ (has_bit words.old k && nat_eq (bit_at k flag) 1) }
{
    for i in 0..words.len() {
        words[i] &= flag_word(flag, i);
    }
}

/// Keeps the bits that the other words have too.
fn and_words(words: &mut [u64], others: &[u64])
    requires { length words.old ≡ length others.now }
    ensures len { length words.new ≡ length words.old }
    ensures both { (k : ℕ) → has_bit words.new k ≡ (has_bit words.old k && has_bit others.now k) }
{
    for i in 0..words.len() {
        words[i] &= others[i];
    }
}

/// Adds the bits that the other words have.
fn or_words(words: &mut [u64], others: &[u64])
    requires { length words.old ≡ length others.now }
    ensures len { length words.new ≡ length words.old }
    ensures either { (k : ℕ) → has_bit words.new k ≡ (has_bit words.old k || has_bit others.now k) }
{
    for i in 0..words.len() {
        words[i] |= others[i];
    }
}

/// Takes away the bits that the other words have.
fn without_words(words: &mut [u64], others: &[u64])
    requires { length words.old ≡ length others.now }
    ensures len { length words.new ≡ length words.old }
    ensures rest { (k : ℕ) → has_bit words.new k ≡ (has_bit words.old k && not (has_bit others.now k)) }
{
    for i in 0..words.len() {
        words[i] &= !others[i];
    }
}

/// Whether some bit is set in both.
fn words_meet(words: &[u64], others: &[u64]) -> bool
    requires { length words.now ≡ length others.now }
    ensures { IsTrue result ↔ ((k : ℕ) × (has_bit words.now k ≡ true) × (has_bit others.now k ≡ true)) }
{
    for i in 0..words.len() {
        if words[i] & others[i] != 0 {
            return true;
        }
    }
    false
}

impl Choices {
    /// All choices of these flags.
    ///
    /// # Errors
    /// Want of memory.
    pub fn all(alloc: Global, flags: usize) -> Result<Choices, AllocError>
        requires { flags ≤ 16 }
        ensures over { IfOk result (λ c. c.flags ≡ flags) }
        ensures all { IfOk result (λ c. (k : ℕ) → has c k ≡ nat_lt k (2 ^ flags)) }
    {
        let words = vec![in alloc; full_word(flags); word_count(flags)]?;
        Ok(Choices { flags, words })
    }

    /// No choice of these flags.
    ///
    /// # Errors
    /// Want of memory.
    pub fn none(alloc: Global, flags: usize) -> Result<Choices, AllocError>
        requires { flags ≤ 16 }
        ensures over { IfOk result (λ c. c.flags ≡ flags) }
        ensures none { IfOk result (λ c. (k : ℕ) → has c k ≡ false) }
    {
        let words = vec![in alloc; 0; word_count(flags)]?;
        Ok(Choices { flags, words })
    }

    /// The choices of these flags in which flag `flag` is true.
    ///
    /// # Errors
    /// Want of memory.
    pub fn of_flag(alloc: Global, flags: usize, flag: usize) -> Result<Choices, AllocError>
        requires few { flags ≤ 16 }
        requires one { flag < flags }
        ensures over { IfOk result (λ c. c.flags ≡ flags) }
        ensures of_flag { IfOk result (λ c. (k : ℕ) → has c k ≡ (nat_lt k (2 ^ flags) && nat_eq (k / 2 ^ flag % 2) 1)) }
    {
        let mut set = Choices::all(alloc, flags)?;
        keep_flag(&mut set.words, flag);
        Ok(set)
    }

    /// How many flags its choices are of.
    pub fn flags(&self) -> usize
        ensures few { result ≤ 16 }
        ensures over { result ≡ self.now.flags }
        ensures within { (k : ℕ) → IsTrue (has self.now k) → k < 2 ^ result }
    {
        self.flags
    }

    /// Keeps the choices that the other has too.
    pub fn and(&mut self, other: &Choices)
        requires { self.old.flags ≡ other.now.flags }
        ensures over { self.new.flags ≡ self.old.flags }
        ensures both { (k : ℕ) → has self.new k ≡ (has self.old k && has other.now k) }
    {
        and_words(&mut self.words, &other.words);
    }

    /// Adds the choices that the other has.
    pub fn or(&mut self, other: &Choices)
        requires { self.old.flags ≡ other.now.flags }
        ensures over { self.new.flags ≡ self.old.flags }
        ensures either { (k : ℕ) → has self.new k ≡ (has self.old k || has other.now k) }
    {
        or_words(&mut self.words, &other.words);
    }

    /// Takes away the choices that the other has.
    pub fn without(&mut self, other: &Choices)
        requires { self.old.flags ≡ other.now.flags }
        ensures over { self.new.flags ≡ self.old.flags }
        ensures rest { (k : ℕ) → has self.new k ≡ (has self.old k && not (has other.now k)) }
    {
        without_words(&mut self.words, &other.words);
    }

    /// Whether some choice is in both.
    #[tactic(auto, using(crate::proofs::Words::meet_of))]
    pub fn meets(&self, other: &Choices) -> bool
        requires { self.now.flags ≡ other.now.flags }
        ensures { IsTrue result ↔ Meet self.now other.now }
    {
        words_meet(&self.words, &other.words)
    }

    /// Whether it has no choice.
    pub fn is_empty(&self) -> bool
        ensures { IsTrue result ↔ IsEmpty self.now }
    {
        !words_meet(&self.words, &self.words)
    }

    /// The same set once more.
    ///
    /// # Errors
    /// Want of memory.
    pub fn try_clone(&self) -> Result<Choices, AllocError>
        ensures { IfOk result (λ c. c ≡ self.now) }
    {
        Ok(Choices {
            flags: self.flags,
            words: self.words.clone()?,
        })
    }
}
