//! The identifiers that a walk collects.
ghost use Rattle.std.specs.Prelude.{◌≡◌, ◌++◌, length, map, false};
ghost use Rattle.wesl_scope_occurrences.specs.Occurrences.{Standing};
ghost use Rattle.wesl_scope_occurrences.specs.Collected.{nothing};
ghost use Rattle.wesl_scope_occurrences.specs.Views.{standing_view};

use crate::handler::Handler;
use crate::here::Here;
use crate::occurrence::{Occurrence, Standing};
use std::alloc::Global;
use wesl_tree::Ident;

/// The identifiers that a walk has met so far. Their paths are left out: the walk has them.
#[derive(Drop)]
pub struct Collector<'a> {
    /// the identifiers, in document order, each without its path
    pub found: Vec<Occurrence<'a>>,
    /// the places of those that have a path
    pub qualified: Vec<usize>,
    /// the places of the local names whose declarations have not ended, the last one last
    pub naming: Vec<usize>,
    /// of each global declaration how many identifiers come before it
    pub starts: Vec<usize>,
    /// whether memory was wanting, so that some of what there is was not taken down
    pub is_refused: bool,
}

impl<'a> Collector<'a> {
    ghost use Rattle.wesl_scope_occurrences.specs.Shown.{Shows, NotesPlace, NotesName, Ends};

    /// Nothing yet, with room for so many identifiers.
    pub fn new(alloc: Global, room: usize) -> Collector<'a>
        ensures { Shows result nothing }
    {
        let mut found = Vec::new(alloc);
        let is_refused = found.reserve_exact(room).is_err();
        Collector {
            found,
            qualified: Vec::new(alloc),
            naming: Vec::new(alloc),
            starts: Vec::new(alloc),
            is_refused,
        }
    }

    /// The identifier at this place stands so, perhaps with a path.
    fn note_path(&mut self, place: usize, standing: &Standing<'_>)
        ensures { NotesPlace self.old self.new place (standing_view standing.now) }
    {
        match standing {
            Standing::Reference(Some(_)) => {
                self.is_refused |= self.qualified.push(place).is_err();
            }
            _ => {}
        }
    }

    /// The identifier at this place stands so, perhaps as a local name.
    fn note_name(&mut self, place: usize, standing: &Standing<'_>)
        ensures { NotesName self.old self.new place (standing_view standing.now) }
    {
        match standing {
            Standing::Local { end: _ } => {
                self.is_refused |= self.naming.push(place).is_err();
            }
            _ => {}
        }
    }

    /// The declaration of the name at this place has ended.
    fn end_at(&mut self, place: usize)
        ensures { Ends self.old self.new place }
    {
        let end = self.found.len();
        if place < end {
            let standing = self.found[place].standing.ended(end);
            self.found[place].standing = standing;
        }
    }
}

impl<'a> Handler for Collector<'a> {
    ghost use Rattle.wesl_scope_occurrences.specs.Shown.{Collects, collects_none, collects_more};

    ghost after = { Collects };

    fn begin(&mut self) {
        self.is_refused |= self.starts.push(self.found.len()).is_err();
    }

    fn meet(&mut self, here: &Here, standing: Standing<'_>, ident: Ident) {
        let place = self.found.len();
        let occurrence = Occurrence {
            standing: standing.without_path(),
            ident,
            place,
            block: here.block,
            declaration: here.declaration,
            is_excused: here.excused,
        };
        self.is_refused |= self.found.push(occurrence).is_err();
        self.note_path(place, &standing);
        self.note_name(place, &standing);
    }

    fn open(&mut self) {}

    fn close(&mut self) {}

    fn end(&mut self, _here: &Here, _ident: Ident) {
        match self.naming.pop() {
            None => {}
            Some(place) => self.end_at(place),
        }
    }

    ghost none = { collects_none };

    ghost more = { collects_more };
}
