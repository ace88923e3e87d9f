//! Sets of choices by numbers.
ghost use Rattle.std.specs.Prelude.{◌≡◌, ◌⊎◌, ◌++◌, ◌∷◌, List, [], IfOk, OnOk, Some, option_copied, slice_get};
ghost use Rattle.wesl_cond_choices.specs.Choices.{Choices};

use indexmap::IndexSet;
use std::alloc::{AllocError, Global};
use wesl_cond_choices::choices::Choices;
use wesl_cond_choices::laws::law_of_equality;

/// The index of a set, which goes last unless it is there.
fn put(kept: &mut IndexSet<Choices>, set: Choices) -> Result<usize, AllocError>
    ensures stored { IfOk result (λ i. slice_get kept.new.keys i ≡ Some set) }
    ensures kept { OnOk result ((kept.new.keys ≡ kept.old.keys) ⊎ (kept.new.keys ≡ kept.old.keys ++ set ∷ [])) }
{
    law_of_equality();
    let (index, _) = kept.insert_full(set)?;
    Ok(index)
}

/// Sets of choices, each kept once, and of each of their numbers the place among those that are kept.
#[derive(Drop)]
pub struct SetNumbers {
    kept: IndexSet<Choices>,
    places: Vec<usize>,
}

impl SetNumbers {
    ghost use Rattle.wesl_cond_sets.specs.SetNumbers.{HasSets, place_in};

    /// No sets. It takes no memory.
    pub fn new(alloc: Global) -> SetNumbers
        ensures { HasSets result [] }
    {
        SetNumbers {
            kept: IndexSet::new(alloc),
            places: Vec::new(alloc),
        }
    }

    /// Adds the set of the next number.
    ///
    /// # Errors
    /// Want of memory.
    pub fn add(&mut self, set: Choices) -> Result<(), AllocError>
        ensures { OnOk result ((sets : List Choices) → HasSets self.old sets → HasSets self.new (sets ++ set ∷ [])) }
    {
        let place = put(&mut self.kept, set)?;
        self.places.push(place)?;
        Ok(())
    }

    /// The set of a number.
    pub fn get(&self, number: usize) -> Option<&Choices>
        ensures { (sets : List Choices) → HasSets self.now sets → option_copied result ≡ slice_get sets number }
    {
        self.kept.get_index(self.place(number))
    }

    /// The place of a number's set among those that are kept: behind them, where there is none.
    pub fn place(&self, number: usize) -> usize
        ensures { result ≡ place_in self.now number }
    {
        match self.places.get(number) {
            Some(place) => *place,
            None => self.kept.len(),
        }
    }

    /// The sets that are kept.
    ///
    /// # Errors
    /// Want of memory.
    pub fn into_kept(self, alloc: Global) -> Result<Vec<Choices>, AllocError>
        ensures { IfOk result (λ v. v.items ≡ self.kept.keys) }
    {
        let SetNumbers { kept, places: _ } = self;
        kept.into_iter().collect(alloc)
    }
}
