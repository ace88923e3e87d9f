//! Binders of one meaning, each of which is there from some place on.
ghost use Rattle.std.specs.Prelude.{◌≡◌, ◌++◌, ◌∷◌, [], false, OnOk};
ghost use Rattle.wesl_scope_clashes.specs.Sightings.{differs, is_met, first_of};
ghost use Rattle.wesl_scope_clashes.specs.Finding.{FindAlike};

use crate::clash::Binder;
use std::alloc::AllocError;

/// A binder, and from which place on it is there.
#[derive(Clone, Copy)]
pub struct Sighting {
    /// the binder
    pub binder: Binder,
    /// the place
    pub from: usize,
}

/// Whether a number is another than the one that is excepted, if one is.
fn differs(except: Option<usize>, number: usize) -> bool
    ensures { result ≡ differs except number }
{
    match except {
        Some(excepted) => number != excepted,
        None => true,
    }
}

impl Sighting {
    /// Whether the binder is there at a place, and has no excepted number.
    fn is_met(&self, place: usize, except: Option<usize>) -> bool
        ensures { result ≡ is_met place except self.now }
    {
        self.from <= place && differs(except, self.binder.ident.0)
    }
}

/// The first binder that is there at a place and has no excepted number.
#[tactic(auto, using(crate::proofs::Steps::first_here, crate::proofs::Steps::first_later))]
pub fn first(sightings: &[Sighting], place: usize, except: Option<usize>) -> Option<Binder>
    ensures { result ≡ first_of place except sightings.now }
{
    for sighting in sightings {
        if sighting.is_met(place, except) {
            return Some(sighting.binder);
        }
    }
    None
}

/// Whether a binder is ever the first after these: not where one of them has its number, or two have different ones, and
/// they are there as soon as it is.
fn is_needed(before: &[Sighting], next: &Sighting) -> bool
    ensures { result ≡ false → FindAlike (before.now ++ next.now ∷ []) before.now }
{
    match first(before, next.from, None) {
        None => true,
        Some(binder) if binder.ident.0 == next.binder.ident.0 => false,
        Some(binder) => first(before, next.from, Some(binder.ident.0)).is_none(),
    }
}

/// Adds a binder as the last one, if it is ever the first. So of binders that come to be there one after the other at most
/// two are kept.
pub fn add(sightings: &mut Vec<Sighting>, next: Sighting) -> Result<(), AllocError>
    ensures { OnOk result (FindAlike sightings.new.items (sightings.old.items ++ next ∷ [])) }
{
    if !is_needed(sightings, &next) {
        return Ok(());
    }
    sightings.push(next)?;
    Ok(())
}
