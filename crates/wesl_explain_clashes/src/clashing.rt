//! What clashes in a linked unit.
ghost use Rattle.std.specs.Prelude.{◌≡◌, IfOk, map};
ghost use Rattle.wesl_tree.specs.Translation.{unit_view};
ghost use Rattle.wesl_scope_clashes.specs.Clashes.{clash_view, clashes};
ghost use Rattle.wesl_scope_words.specs.Captured.{clash_view as word_clash_view, word_clashes};
ghost use Rattle.wesl_explain_clashes.specs.Told.{TellsNames, TellsWords, name, printed, word};

use crate::clash::{Clashes, Meaning, NameClash, Read};
use crate::cures::cures;
use crate::meanings::Meanings;
use std::alloc::{AllocError, Global};
use wesl_link_symbols::ids::PathId;
use wesl_program_bundle::Options;
use wesl_scope_clashes::{Clash, clashes};
use wesl_scope_occurrences::{Identifiers, occurrences};
use wesl_scope_words::{WordClash, word_clashes};
use wesl_tree::TranslationUnit;

/// A linked unit in which something clashes.
#[derive(Drop)]
struct Linked<'u> {
    all: Identifiers<'u>,
    meanings: Meanings,
    // the modules of its declarations
    homes: &'u [PathId],
    // the root's path
    root: Option<PathId>,
    options: Options,
}

impl Linked<'_> {
    /// The held declaration that an identifier stands in.
    fn home(&self, place: usize) -> Option<usize> {
        match self.all.all.get(place) {
            Some(occurrence) => occurrence.declaration,
            None => None,
        }
    }

    /// What is told of a name at a place.
    fn told(
        &self,
        alloc: Global,
        name: &str,
        place: usize,
        meant: Meaning,
        read: Read,
    ) -> Result<NameClash, AllocError>
        ensures { IfOk result (λ told. printed told ≡ name.now) }
    {
        Ok(NameClash {
            name: String::from_str(alloc, name)?,
            within: self.home(place),
            meant,
            read,
            cures: cures(alloc, meant, read, self.homes, self.root, self.options)?,
        })
    }

    /// What is told of the names that clash.
    fn names(&self, alloc: Global, found: &[Clash<'_>]) -> Result<Vec<NameClash>, AllocError>
        ensures { IfOk result (λ told. map printed told.items ≡ map name (map clash_view found.now)) }
    {
        let mut told = Vec::new(alloc);
        for clash in found {
            let meant = self.meanings.of(clash.ident);
            let read = self.meanings.read(clash.reading);
            told.push(self.told(alloc, clash.name, clash.place, meant, read)?)?;
        }
        Ok(told)
    }

    /// What is told of the words that are captured.
    fn words(&self, alloc: Global, found: &[WordClash<'_>]) -> Result<Vec<NameClash>, AllocError>
        ensures { IfOk result (λ told. map printed told.items ≡ map word (map word_clash_view found.now)) }
    {
        let mut told = Vec::new(alloc);
        for clash in found {
            let read = Read::As(self.meanings.of(clash.binder.ident));
            told.push(self.told(alloc, clash.word, clash.variable.place, Meaning::Word, read)?)?;
        }
        Ok(told)
    }
}

/// The names that clash.
fn clashing_names<'u>(
    alloc: Global,
    unit: &'u TranslationUnit,
) -> Result<Vec<Clash<'u>>, AllocError>
    ensures { IfOk result (λ found. map clash_view found.items ≡ clashes (unit_view unit.now)) }
{
    match clashes(alloc, unit) {
        Ok(found) => Ok(found),
        Err(_) => Err(AllocError),
    }
}

/// The words that are captured.
fn captured_words<'u>(
    alloc: Global,
    unit: &'u TranslationUnit,
) -> Result<Vec<WordClash<'u>>, AllocError>
    ensures { IfOk result (λ found. map word_clash_view found.items ≡ word_clashes (unit_view unit.now)) }
{
    match word_clashes(alloc, unit) {
        Ok(found) => Ok(found),
        Err(_) => Err(AllocError),
    }
}

/// What clashes in a linked unit. `homes` are the modules of its declarations, and `root` is the root's path.
pub fn clashes_in(
    alloc: Global,
    unit: &TranslationUnit,
    homes: &[PathId],
    root: Option<PathId>,
    options: Options,
) -> Result<Clashes, AllocError>
    ensures names { IfOk result (TellsNames (unit_view unit.now)) }
    ensures words { IfOk result (TellsWords (unit_view unit.now)) }
{
    let names = clashing_names(alloc, unit)?;
    let words = captured_words(alloc, unit)?;
    if names.is_empty() && words.is_empty() {
        return Ok(Clashes::none(alloc));
    }
    let all = occurrences(alloc, unit)?;
    let linked = Linked {
        meanings: Meanings::new(alloc, unit, &all)?,
        all,
        homes,
        root,
        options,
    };
    Ok(Clashes {
        names: linked.names(alloc, &names)?,
        words: linked.words(alloc, &words)?,
    })
}
