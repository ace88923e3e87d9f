//! Unions of the sets of as many places each, by which that many places are passed at once.
ghost use Rattle.std.specs.Prelude.{◌≡◌, ◌+◌, ◌<◌, option_copied, slice_get, IfOk, IfSome, IsTrue, Some};

use crate::unions::{add_unions, is_apart};
use std::alloc::{AllocError, Global};
use wesl_cond_choices::alive::Alive;
use wesl_cond_choices::choices::Choices;
use wesl_cond_choices::place::Place;

/// Of places in a row the unions of their sets, of as many places each, from the first place on; none where the choices that
/// keep a place are not known.
pub struct Level {
    pub(crate) span: usize,
    unions: Vec<Option<Choices>>,
    pub ghost some: { 0 < span },
}

// By hand, so that it is proved once: a derived one is proved in each crate that lets go of a value.
impl Drop for Level {
    fn drop(self) {
        let Level { span: _, unions: _ } = self;
    }
}

impl Level {
    ghost use Rattle.wesl_cond_covers.specs.LevelView.{IsLevelOf, LevelPasses};

    /// Of these places, of so many to a union.
    pub(crate) fn of(
        alloc: Global,
        alive: &Alive,
        places: &[Place],
        span: usize,
    ) -> Result<Level, AllocError>
        requires { 0 < span }
        ensures { IfOk result (λ l. IsLevelOf alive.now places.now l) }
    {
        let mut unions = Vec::new(alloc);
        add_unions(alloc, alive, &mut unions, places, span)?;
        Ok(Level { span, unions })
    }

    /// The union with a number.
    fn union(&self, number: usize) -> Option<&Choices>
        ensures { IfSome result (λ c. slice_get self.now.unions.items number ≡ Some (Some c.now)) }
    {
        match self.unions.get(number) {
            Some(union) => union.as_ref(),
            None => None,
        }
    }

    /// Whether a union begins with the place at this index, and none of its choices is in this set; where there is no set, it
    /// has none.
    pub(crate) fn passes(&self, set: Option<&Choices>, index: usize) -> bool
        ensures { IsTrue result → LevelPasses self.now (option_copied set.entry) index (index + self.now.span) }
    {
        if index % self.span != 0 {
            return false;
        }
        match self.union(index / self.span) {
            Some(union) => is_apart(set, union),
            None => false,
        }
    }
}
