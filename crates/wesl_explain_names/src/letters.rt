//! The letters of names, by which most names are known to be far from each other before they are compared letter by letter.

// How many letters of a kind are told apart, a bit for each. Letters are of one kind whose numbers end alike.
const BITS_OF_KIND: u32 = 4;

const KINDS: u32 = 16;

const KIND: u64 = 15;

/// The letters of a name, in whatever order.
#[derive(Clone, Copy)]
pub struct Letters {
    pub count: usize,
    /// of each kind as many bits as there are letters, up to four
    kinds: u64,
}

impl Letters {
    /// The letters of a name.
    pub fn of(text: &str) -> Letters {
        let mut letters = Letters { count: 0, kinds: 0 };
        for letter in text.chars() {
            let first = BITS_OF_KIND * (letter as u32 % KINDS);
            letters.count = letters.count.saturating_add(1);
            letters.kinds |= (letters.kinds << 1 | 1 << first) & (KIND << first);
        }
        letters
    }

    /// How many of these letters another name lacks at least.
    fn lacking_in(self, other: Letters) -> usize {
        (self.kinds & !other.kinds).count_ones() as usize
    }

    /// So many edits lead to another name at least: each takes one letter away at most, and adds one at most.
    pub fn edits_to(self, other: Letters) -> usize {
        self.lacking_in(other).max(other.lacking_in(self))
    }
}
