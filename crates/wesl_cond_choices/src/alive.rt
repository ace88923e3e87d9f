//! Which places of a module some choice of flags keeps together.
ghost use Rattle.std.specs.Prelude.{◌≡◌, ◌↔◌, ◌^◌, ℕ, [], true, false, length, option_copied, IfSome, IsTrue, None, Some};
ghost use Rattle.wesl_cond_choices.specs.Alive.{AreOver, ShareChoice, AreChoicesOf, has_at, kept_lists, number_of, place_sets, set_has};
ghost use Rattle.wesl_cond_choices.specs.Places as places;
ghost use Rattle.wesl_cond_choices.specs.Places.{together};

use crate::choices::Choices;
use crate::place::Place;
use std::marker::Model;

/// Sets of choices, and of each place of a module the number of the set of the choices that keep it.
struct PlaceSets {
    flags: usize,
    sets: Vec<Choices>,
    imports: Vec<usize>,
    declarations: Vec<usize>,
    names: Vec<usize>,
}

// By hand, as that of `Alive`, so that both are proved once: derived ones are proved in each crate that lets go of a value.
impl Drop for PlaceSets {
    fn drop(self) {
        let PlaceSets {
            flags: _,
            sets: _,
            imports: _,
            declarations: _,
            names: _,
        } = self;
    }
}

impl Model for PlaceSets {
    ghost use Rattle.wesl_cond_choices.specs.Alive as alive;

    ghost Value = { alive.PlaceSets };

    ghost view = { λ s. alive.place_sets s.flags s.sets.items s.imports.items s.declarations.items s.names.items };

    ghost invariant = { λ s. alive.AreOver s.flags s.sets.items };
}

fn is_always(place: Place) -> bool
    ensures { result ≡ places.is_always place }
{
    match place {
        Place::Always => true,
        Place::Import(_) => false,
        Place::Declaration(_) => false,
        Place::Name(_) => false,
    }
}

impl PlaceSets {
    /// The number of a place's set.
    fn number_of(&self, place: Place) -> Option<usize>
        ensures { result ≡ number_of self.now place }
    {
        match place {
            Place::Always => None,
            Place::Import(index) => self.imports.get(index).copied(),
            Place::Declaration(index) => self.declarations.get(index).copied(),
            Place::Name(index) => self.names.get(index).copied(),
        }
    }

    /// The set of a place.
    fn choices_of(&self, place: Place) -> Option<&Choices>
        ensures over { IfSome result (λ c. c.now.flags ≡ self.now.flags) }
        ensures kept { (k : ℕ) → set_has k (option_copied result) ≡ has_at self.now.sets k (number_of self.now place) }
        ensures always { places.is_always place ≡ true → option_copied result ≡ None }
    {
        match self.number_of(place) {
            None => None,
            Some(number) => self.sets.get(number),
        }
    }

    /// Whether some choice is in the sets with both numbers.
    fn sets_meet(&self, first: usize, second: usize) -> bool
        ensures { IsTrue result ↔ ShareChoice self.now (Some first) (Some second) }
    {
        if first >= self.sets.len() {
            return false;
        }
        if second >= self.sets.len() {
            return false;
        }
        self.sets[first].meets(&self.sets[second])
    }

    /// Whether some choice is in the sets of both places.
    fn share_choice(&self, first: Place, second: Place) -> bool
        ensures { IsTrue result ↔ ShareChoice self.now (number_of self.now first) (number_of self.now second) }
    {
        match self.number_of(first) {
            None => false,
            Some(one) => match self.number_of(second) {
                None => false,
                Some(other) => self.sets_meet(one, other),
            },
        }
    }

    /// Whether some choice keeps both places.
    fn together(&self, first: Place, second: Place) -> bool
        ensures { result ≡ together (kept_lists self.now) first second }
    {
        if is_always(first) {
            if is_always(second) {
                return true;
            }
            return self.share_choice(second, second);
        }
        if is_always(second) {
            return self.share_choice(first, first);
        }
        self.share_choice(first, second)
    }
}

/// Which places of a module each choice of its flags keeps.
pub struct Alive {
    places: Option<PlaceSets>,
}

impl Drop for Alive {
    fn drop(self) {
        let Alive { places: _ } = self;
    }
}

impl Model for Alive {
    ghost use Rattle.std.specs.Prelude.{List};
    ghost use Rattle.wesl_cond_choices.specs.declared.place.Place.{Place};
    ghost use Rattle.wesl_cond_choices.specs.Alive.{lists_of};

    ghost Value = { List (List Place) };

    ghost view = { λ x. lists_of x.places };
}

impl Alive {
    /// Of no choice: no two places are together. It takes no memory.
    pub fn none() -> Alive
        ensures { result ≡ [] }
    {
        Alive { places: None }
    }

    /// Of sets of choices of so many flags, and of each import statement, global declaration and identifier the number of the
    /// set of the choices that keep it. A place whose number no set has is kept by none.
    pub fn new(
        flags: usize,
        sets: Vec<Choices>,
        imports: Vec<usize>,
        declarations: Vec<usize>,
        names: Vec<usize>,
    ) -> Alive
        requires { AreOver flags sets.items }
        ensures { result ≡ kept_lists (place_sets flags sets.items imports.items declarations.items names.items) }
    {
        Alive {
            places: Some(PlaceSets {
                flags,
                sets,
                imports,
                declarations,
                names,
            }),
        }
    }

    /// Whether some choice keeps both places. The module itself, at `Always`, is kept by every choice, and a place that is not
    /// there by none.
    pub fn together(&self, first: Place, second: Place) -> bool
        ensures { result ≡ together self.now first second }
    {
        match &self.places {
            None => false,
            Some(sets) => sets.together(first, second),
        }
    }

    /// The choices that keep a place, where it is there: the module itself, at `Always`, is kept by every choice, and has no set.
    pub fn choices_of(&self, place: Place) -> Option<&Choices>
        ensures over { IfSome result (λ c. length self.now ≡ 2 ^ c.now.flags) }
        ensures kept { places.is_always place ≡ false → AreChoicesOf self.now place (option_copied result) }
        ensures always { places.is_always place ≡ true → option_copied result ≡ None }
    {
        match &self.places {
            None => None,
            Some(sets) => sets.choices_of(place),
        }
    }
}
