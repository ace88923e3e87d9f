//! The declared names that are spelled as words of variables, by the blocks that they stand in.
ghost use Rattle.std.specs.Prelude.{◌≡◌, ◌&&◌, ◌∷◌, ◌++◌, ◌<◌, ℕ, [], length, map, nat_le, IfOk, OnOk};
ghost use Rattle.std.specs.List.{All};
ghost use Rattle.wesl_scope_occurrences.specs.Occurrences.{is_binder};
ghost use Rattle.wesl_scope_occurrences.specs.Views.{standing_view};
ghost use Rattle.wesl_scope_open.specs.Scopes.{is_visible};
ghost use Rattle.wesl_scope_words.specs.Finding.{FindAlike, first_of, is_read, is_rival};

use crate::clash::Binder;
use crate::words::is_word;
use std::alloc::{AllocError, Global};
use wesl_scope_occurrences::{Occurrence, Standing};
use wesl_tree::Names;

/// A declared name that is spelled as a word.
#[derive(Clone, Copy)]
pub struct Rival<'a> {
    /// the word
    pub word: &'a str,
    /// from which place on the name is visible
    pub from: usize,
    /// the name
    pub binder: Binder,
}

impl Rival<'_> {
    /// Whether a word may be read as it at a place.
    fn is_read(&self, word: &str, place: usize) -> bool
        ensures { result ≡ is_read word.now place self.now }
    {
        self.from <= place && self.word == word
    }
}

/// From which place on a name that stands so is visible, if it is declared.
fn visible_from(standing: &Standing<'_>) -> usize
    ensures { (p : ℕ) → is_visible p (standing_view standing.now) ≡ (is_binder (standing_view standing.now) && nat_le result p) }
{
    match standing {
        Standing::ModuleName => 0,
        Standing::Parameter => 0,
        Standing::Local { end } => *end,
        Standing::Reference(_) => 0,
        Standing::Word => 0,
    }
}

/// Whether an identifier declares a name that is spelled as a word.
fn is_rival(names: &Names, occurrence: &Occurrence<'_>) -> bool
    requires { occurrence.now.ident.0 < length names.now }
    ensures { result ≡ is_rival names.now occurrence.now }
{
    occurrence.standing.is_binder() && is_word(names.name(occurrence.ident))
}

/// The first of these that a word is read as at a place.
#[tactic(auto, using(crate::proofs::Reading::first_here, crate::proofs::Reading::first_later))]
fn first(rivals: &[Rival<'_>], word: &str, place: usize) -> Option<Binder>
    ensures { result ≡ first_of word.now place rivals.now }
{
    for rival in rivals {
        if rival.is_read(word, place) {
            return Some(rival.binder);
        }
    }
    None
}

/// Adds a declared name as the last one, unless one before it is spelled so and visible as soon as it is: then no word is
/// ever read as it. So of names that are declared again in their block the first alone is kept.
fn add<'a>(rivals: &mut Vec<Rival<'a>>, next: Rival<'a>) -> Result<(), AllocError>
    ensures { OnOk result (FindAlike rivals.new.items (rivals.old.items ++ next.entry ∷ [])) }
{
    if first(rivals, next.word, next.from).is_some() {
        return Ok(());
    }
    rivals.push(next)?;
    Ok(())
}

/// Of each block those of its declared names that words are read as.
#[derive(Drop)]
pub struct Rivals<'a> {
    /// those of each block, in document order
    pub of: Vec<Vec<Rival<'a>>>,
}

impl<'a> Rivals<'a> {
    ghost use Rattle.wesl_scope_occurrences.specs.Ways.{AreNested, way};
    ghost use Rattle.wesl_scope_words.specs.Finding.{FindsAs, look, of_name, of_names, of_rival, or_else_found, read_outwards};

    /// Adds blocks without such names until there is one of this number.
    fn grow(&mut self, alloc: Global, block: usize) -> Result<(), AllocError>
        ensures there { OnOk result (block < length self.new.of.items) }
        ensures same { OnOk result (FindsAs (look self.new) (look self.old)) }
    {
        while self.of.len() <= block {
            self.of.push(Vec::new(alloc))?;
        }
        Ok(())
    }

    /// One more name of a block.
    fn add(&mut self, alloc: Global, block: usize, next: Rival<'a>) -> Result<(), AllocError>
        ensures { OnOk result (FindsAs (look self.new) (or_else_found (look self.old) (of_rival block next.entry))) }
    {
        self.grow(alloc, block)?;
        add(&mut self.of[block], next)?;
        Ok(())
    }

    /// An identifier, if it declares a name that is spelled as a word.
    fn meet(
        &mut self,
        alloc: Global,
        names: &'a Names,
        occurrence: &Occurrence<'_>,
    ) -> Result<(), AllocError>
        requires { occurrence.now.ident.0 < length names.now }
        ensures { OnOk result (FindsAs (look self.new) (or_else_found (look self.old) (of_name names.now occurrence.now))) }
    {
        if is_rival(names, occurrence) {
            let next = Rival {
                word: names.name(occurrence.ident),
                from: visible_from(&occurrence.standing),
                binder: Binder {
                    ident: occurrence.ident,
                    place: occurrence.place,
                },
            };
            self.add(alloc, occurrence.block, next)?;
        }
        Ok(())
    }

    /// Those among the identifiers of a module.
    pub fn among(
        alloc: Global,
        names: &'a Names,
        all: &[Occurrence<'_>],
    ) -> Result<Rivals<'a>, AllocError>
        requires { All (λ o. o.ident.0 < length names.now) all.now }
        ensures { IfOk result (λ r. FindsAs (look r) (of_names names.now all.now)) }
    {
        let mut rivals = Rivals {
            of: Vec::new(alloc),
        };
        for occurrence in all {
            rivals.meet(alloc, names, occurrence)?;
        }
        Ok(rivals)
    }

    /// The first name of a block that a word is read as at a place.
    fn first(&self, block: usize, word: &str, place: usize) -> Option<Binder>
        ensures { result ≡ look self.now block word.now place }
    {
        if block < self.of.len() {
            first(&self.of[block], word, place)
        } else {
            None
        }
    }

    /// The name that a word is read as at a place of a block: the first of the first block, from that one outwards, that has
    /// one.
    pub fn read(&self, outer: &[usize], block: usize, word: &str, place: usize) -> Option<Binder>
        requires nested { AreNested outer.now }
        requires block { block < length outer.now }
        ensures { result ≡ read_outwards (look self.now) word.now place (way outer.now block) }
    {
        let mut here = block;
        while here > 0 {
            let found = self.first(here, word, place);
            if found.is_some() {
                return found;
            }
            here = outer[here];
        }
        self.first(0, word, place)
    }
}
