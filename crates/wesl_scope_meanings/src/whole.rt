//! What the identifiers of a whole module mean.
ghost use Rattle.std.specs.Prelude.{◌≡◌, ◌<◌, IfOk, length, map};
ghost use Rattle.std.specs.List.{All};
ghost use Rattle.wesl_tree_syntax.specs.Unit.{spelled, trees_of};
ghost use Rattle.wesl_tree.specs.Translation.{unit_view};
ghost use Rattle.wesl_scope_occurrences.specs.Occurrences.{occurrences};
ghost use Rattle.wesl_scope_occurrences.specs.Identified.{identified};
ghost use Rattle.wesl_scope_occurrences.specs.Pieces.{starts};
ghost use Rattle.wesl_scope_occurrences.specs.Ways.{AreNested, way};
ghost use Rattle.wesl_scope_meanings.specs.Scopes.{keys};
ghost use Rattle.wesl_scope_meanings.specs.Keys.{key_view, IsKeyBelow};
ghost use Rattle.wesl_scope_meanings.specs.Spellings.{HasSpellings};
ghost use Rattle.wesl_scope_meanings.specs.Starts.{IsUnread};

use crate::alike::spellings;
use crate::keys::Key;
use crate::reader::Reader;
use std::alloc::{AllocError, Global};
use wesl_scope_occurrences::{
    Identifiers, law_of_events, law_of_occurrences, law_of_ways, occurrences_beside,
};
use wesl_scope_open::{OpenBinders, law_of_open_binders};
use wesl_tree::{Names, TranslationUnit};

/// The identifiers of a module, and what they mean.
#[derive(Drop)]
pub struct Meanings<'a> {
    /// the identifiers, in document order
    pub found: Identifiers<'a>,
    /// what each means, by the numbers of the blocks
    pub keys: Vec<Key<'a>>,
    /// of each name of the module's table the number of its spelling
    pub alike: Vec<usize>,
    /// how many spellings there are
    pub spellings: usize,
}

/// A reader of identifiers with these names, which has read none, with room for so many global declarations.
pub(crate) fn unread(alloc: Global, names: &Names, room: usize) -> Result<Reader, AllocError>
    ensures { IfOk result (IsUnread names.now) }
{
    let (alike, count) = spellings(alloc, names)?;
    Ok(Reader {
        alike,
        declared: vec![in alloc; false; count]?,
        binders: OpenBinders::new(alloc, count)?,
        senses: Vec::with_capacity(alloc, names.len().saturating_mul(6))?,
        paths: 0,
        starts: Vec::with_capacity(alloc, room)?,
        is_refused: false,
    })
}

/// What each identifier of a module means, in document order. Refused for want of memory alone.
pub fn meanings_of<'a>(alloc: Global, unit: &'a TranslationUnit) -> Result<Meanings<'a>, AllocError>
    ensures found { IfOk result (λ m. identified m.found ≡ occurrences (trees_of (unit_view unit.now))) }
    ensures keys { IfOk result (λ m. map (key_view (way m.found.outer.items)) m.keys.items ≡ keys (occurrences (spelled (unit_view unit.now)))) }
    ensures starts { IfOk result (λ m. m.found.starts.items ≡ starts (trees_of (unit_view unit.now))) }
    ensures names { IfOk result (λ m. All (λ o. o.ident.0 < length (unit_view unit.now).names) m.found.all.items) }
    ensures nested { IfOk result (λ m. AreNested m.found.outer.items) }
    ensures below { IfOk result (λ m. All (IsKeyBelow (length m.found.outer.items)) m.keys.items) }
    ensures spelled { IfOk result (λ m. HasSpellings (unit_view unit.now).names m.alike.items m.spellings) }
{
    law_of_ways();
    law_of_occurrences();
    law_of_events();
    law_of_open_binders();
    let reader = unread(alloc, unit.names(), 0)?;
    let read = occurrences_beside(alloc, unit, reader)?;
    let reader = read.handler;
    if reader.is_refused {
        return Err(AllocError);
    }
    if reader.binders.is_refused {
        return Err(AllocError);
    }
    let keys = reader.keys(alloc, unit.names(), &read.paths)?;
    let spellings = reader.declared.len();
    Ok(Meanings {
        found: read.found,
        keys,
        alike: reader.alike,
        spellings,
    })
}
