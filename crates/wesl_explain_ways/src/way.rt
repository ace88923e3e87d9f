//! Ways of look-ups: what is asked for on each, one name of a module after the other, and the rings to which they lead.
ghost use Rattle.std.specs.Prelude.{◌≡◌};
ghost use Rattle.wesl_link_reach.specs.Trodden.{symbol_of};
ghost use Rattle.wesl_link_flaws.specs.Searching.{IsReady};

use crate::cut::{Cut, END, is_cut};
use std::alloc::{AllocError, Global};
use std::collections::HashMap;
use wesl_link_flaws::given::Given;
use wesl_link_flaws::keys;
use wesl_link_symbols::ids::{NameId, PathId};
use wesl_link_symbols::keyed;
use wesl_link_symbols::symbols::{LookUp, Symbol};

/// What a look-up is led to.
#[derive(Drop)]
pub struct Way {
    /// What is asked for, the first first. The last was asked for before, where the way comes back.
    pub asked: Cut<Symbol<PathId, NameId>>,
    /// The part of it that comes back: from where its last question stood first.
    pub ring: Cut<Symbol<PathId, NameId>>,
    /// The number of this ring.
    pub number: Option<usize>,
}

/// In which ring a look-up stands, and where.
#[derive(Clone, Copy)]
struct RingPlace {
    ring: usize,
    place: usize,
}

/// How a walk ends.
#[derive(Clone, Copy)]
enum Back {
    /// It does not come back.
    No,
    /// What is asked last was asked before.
    Here,
    /// It comes to a ring that is known.
    Into(RingPlace),
}

/// The rings that ways led to, each walked once.
#[derive(Drop)]
pub struct Rings {
    rings: Vec<Vec<LookUp<PathId, NameId>>>,
    places: HashMap<LookUp<PathId, NameId>, RingPlace>,
}

/// A walk: look-ups, and behind them those of a ring, from a place of it on.
#[derive(Clone, Copy)]
struct Walk<'w> {
    met: &'w [LookUp<PathId, NameId>],
    ring: &'w [LookUp<PathId, NameId>],
    start: usize,
}

/// The symbol that a look-up asks for.
pub fn question(look_up: LookUp<PathId, NameId>) -> Symbol<PathId, NameId>
    ensures { result ≡ symbol_of look_up }
{
    Symbol {
        path: look_up.path,
        name: look_up.name,
    }
}

/// The same look-up, whichever other module asks: the one that is asked answers all others alike.
pub fn whoever_asks(look_up: LookUp<PathId, NameId>) -> LookUp<PathId, NameId> {
    let is_own = look_up.asker == Some(look_up.path);
    LookUp {
        asker: if is_own { look_up.asker } else { None },
        path: look_up.path,
        name: look_up.name,
        from: look_up.from,
    }
}

/// What the look-up at a place asks for.
fn question_at(
    look_ups: &[LookUp<PathId, NameId>],
    place: usize,
) -> Option<Symbol<PathId, NameId>> {
    match look_ups.get(place) {
        Some(look_up) => Some(question(*look_up)),
        None => None,
    }
}

/// What the last of these asks for.
fn last_question(look_ups: &[LookUp<PathId, NameId>]) -> Option<Symbol<PathId, NameId>> {
    match look_ups.last() {
        Some(look_up) => Some(question(*look_up)),
        None => None,
    }
}

/// Where a question is asked first.
fn place_in(look_ups: &[LookUp<PathId, NameId>], wanted: Symbol<PathId, NameId>) -> usize {
    for (place, look_up) in look_ups.iter().enumerate() {
        if question(*look_up) == wanted {
            return place;
        }
    }
    look_ups.len()
}

/// Whether the last of these leads to the first: under conditions a question that comes back may lead elsewhere.
fn goes_round(given: &Given<'_>, ring: &[LookUp<PathId, NameId>]) -> bool
    requires ready { IsReady given.now }
{
    match (ring.first(), ring.last()) {
        (Some(first), Some(last)) => match given.hop(*last) {
            Ok(next) => next == *first,
            Err(_) => false,
        },
        _ => false,
    }
}

impl Walk<'_> {
    /// What is asked at a place of the ring, counted from where the walk comes to it.
    fn asked_in_ring(&self, steps: usize) -> Option<Symbol<PathId, NameId>> {
        let place = self.start.saturating_add(steps);
        let count = self.ring.len();
        question_at(
            self.ring,
            if place < count {
                place
            } else {
                place.saturating_sub(count)
            },
        )
    }

    /// What is asked at a place.
    fn asked(&self, place: usize) -> Option<Symbol<PathId, NameId>> {
        match place.checked_sub(self.met.len()) {
            Some(steps) => self.asked_in_ring(steps),
            None => question_at(self.met, place),
        }
    }

    /// How many questions there are, up to the one that comes back.
    fn len(&self) -> usize {
        let count = self.ring.len();
        let all = self.met.len().saturating_add(count);
        if count > 0 && last_question(self.met) != self.asked_in_ring(count.saturating_sub(1)) {
            all.saturating_add(1)
        } else {
            all
        }
    }

    /// What is asked from one place on up to another.
    fn between(
        &self,
        alloc: Global,
        from: usize,
        to: usize,
    ) -> Result<Vec<Symbol<PathId, NameId>>, AllocError> {
        let mut asked = Vec::with_capacity(alloc, to.saturating_sub(from))?;
        for place in from..to {
            if let Some(symbol) = self.asked(place) {
                asked.push(symbol)?;
            }
        }
        Ok(asked)
    }

    /// The same, without its middle where it is long.
    fn cut(
        &self,
        alloc: Global,
        from: usize,
        to: usize,
    ) -> Result<Cut<Symbol<PathId, NameId>>, AllocError> {
        let count = to.saturating_sub(from);
        if !is_cut(count) {
            return Ok(Cut::whole(self.between(alloc, from, to)?));
        }
        let first = self.between(alloc, from, from.saturating_add(END))?;
        let last = self.between(alloc, to.saturating_sub(END), to)?;
        Cut::between(first, &last, count)
    }

    /// The way, with the number of its ring.
    fn way(&self, alloc: Global, number: Option<usize>) -> Result<Way, AllocError> {
        let count = self.len();
        let last = count.saturating_sub(1);
        Ok(Way {
            asked: self.cut(alloc, 0, count)?,
            ring: self.cut(alloc, last.saturating_sub(self.ring.len()), last)?,
            number,
        })
    }
}

impl Rings {
    /// No rings. They take no memory.
    pub fn new(alloc: Global) -> Rings {
        Rings {
            rings: Vec::new(alloc),
            places: HashMap::new(alloc),
        }
    }

    /// Walks from a look-up until it ends, asks what was asked before, or comes to a ring that is known. What it comes to is
    /// added, but for what is of that ring.
    fn walk(
        &self,
        alloc: Global,
        given: &Given<'_>,
        start: LookUp<PathId, NameId>,
        met: &mut Vec<LookUp<PathId, NameId>>,
    ) -> Result<Back, AllocError>
        requires ready { IsReady given.now }
    {
        let mut asked = keys::none(alloc);
        let mut current = start;
        'hops: loop {
            if let Some(place) = keyed::value_at(&self.places, current) {
                return Ok(Back::Into(place));
            }
            met.push(current)?;
            if keys::has(&asked, question(current)) {
                return Ok(Back::Here);
            }
            keys::put(&mut asked, question(current))?;
            match given.hop(current) {
                Ok(next) => current = next,
                Err(_) => return Ok(Back::No),
            }
        }
    }

    /// Puts down where the look-ups of a ring stand.
    fn place(&mut self, ring: &[LookUp<PathId, NameId>]) -> Result<(), AllocError> {
        let number = self.rings.len();
        for (place, look_up) in ring.iter().enumerate() {
            keyed::put(
                &mut self.places,
                *look_up,
                RingPlace {
                    ring: number,
                    place,
                },
            )?;
        }
        Ok(())
    }

    /// Puts the ring down with which these look-ups come back, and says which of them are before it.
    fn close(
        &mut self,
        alloc: Global,
        given: &Given<'_>,
        met: &[LookUp<PathId, NameId>],
    ) -> Result<usize, AllocError>
        requires ready { IsReady given.now }
    {
        let before = match last_question(met) {
            Some(wanted) => place_in(met, wanted).saturating_add(1),
            None => 0,
        };
        let ring = met.get(before..).unwrap_or(&[]);
        if goes_round(given, ring) {
            self.place(ring)?;
        }
        self.rings.push(Vec::from_slice(alloc, ring)?)?;
        Ok(before)
    }

    /// The way that goes over these look-ups into a ring.
    fn way_into(
        &self,
        alloc: Global,
        met: &[LookUp<PathId, NameId>],
        at: RingPlace,
    ) -> Result<Way, AllocError> {
        let ring = match self.rings.get(at.ring) {
            Some(ring) => ring.as_slice(),
            None => &[],
        };
        let walk = Walk {
            met,
            ring,
            start: at.place,
        };
        walk.way(alloc, Some(at.ring))
    }

    /// The way of a look-up.
    pub fn way_of(
        &mut self,
        alloc: Global,
        given: &Given<'_>,
        start: LookUp<PathId, NameId>,
    ) -> Result<Way, AllocError>
        requires ready { IsReady given.now }
    {
        let mut met = Vec::new(alloc);
        match self.walk(alloc, given, start, &mut met)? {
            Back::Into(place) => self.way_into(alloc, &met, place),
            Back::Here => {
                let ring = self.rings.len();
                let before = self.close(alloc, given, &met)?;
                let at = RingPlace { ring, place: 0 };
                self.way_into(alloc, met.get(..before).unwrap_or(&[]), at)
            }
            Back::No => {
                let walk = Walk {
                    met: &met,
                    ring: &[],
                    start: 0,
                };
                walk.way(alloc, None)
            }
        }
    }
}

/// A way on which nothing is asked.
pub fn no_way(alloc: Global) -> Way {
    Way {
        asked: Cut::new(alloc),
        ring: Cut::new(alloc),
        number: None,
    }
}
