//! The words of a whole module that are captured.
ghost use Rattle.std.specs.Prelude.{◌≡◌, ◌↔◌, ◌<◌, ℕ, List, [], length, map, IfOk, IfErr, OnOk};
ghost use Rattle.std.specs.List.{All};
ghost use Rattle.std.specs.Option.{option_to_list};
ghost use Rattle.wesl_tree_names.specs.declared.errors.Error as error;
ghost use Rattle.wesl_tree.specs.Translation.{unit_view};
ghost use Rattle.wesl_scope_occurrences.specs.Ways.{AreNested};
ghost use Rattle.wesl_scope_words.specs.Said.{memory_words};
ghost use Rattle.wesl_scope_words.specs.Captured.{clash_view, word_clashes};
ghost use Rattle.wesl_scope_words.specs.Finding.{IsKnown, Look, Tells, all_told, look, seen, told, word_told, words_told};
ghost use Rattle.wesl_scope_words.specs.Free.{AreWordsFree};

use crate::binders::binders;
use crate::clash::{Binder, WordClash};
use crate::declarations::sayings;
use crate::laws::law_of_word_clashes;
use crate::rivals::Rivals;
use crate::sayings::Memory;
use crate::words::{access_word, space_word};
use std::alloc::{AllocError, Global};
use wesl_scope_occurrences::{Occurrence, occurrences};
use wesl_tree::{Error, Names, TranslationUnit};

/// What is told where a variable says a word that is read as a binder.
fn clash<'a>(
    names: &'a Names,
    variable: &Occurrence<'_>,
    word: &'a str,
    binder: Binder,
) -> WordClash<'a>
    requires { variable.now.ident.0 < length names.now }
    ensures { (outer : List ℕ) (f : Look) → clash_view result ≡ told names.now f (seen outer variable.now) word.now binder }
{
    WordClash {
        word,
        binder,
        name: names.name(variable.ident),
        variable: Binder {
            ident: variable.ident,
            place: variable.place,
        },
    }
}

/// Adds what is told of one word of a variable, if it is captured.
fn add_word<'a>(
    names: &'a Names,
    outer: &[usize],
    rivals: &Rivals<'_>,
    word: &'static str,
    variable: &Occurrence<'_>,
    clashes: &mut Vec<WordClash<'a>>,
) -> Result<(), AllocError>
    requires nested { AreNested outer.now }
    requires variable { IsKnown names.now outer.now variable.now }
    ensures { OnOk result (Tells clashes.old.items (option_to_list (word_told names.now (look rivals.now) (seen outer.now variable.now) word.now)) clashes.new.items) }
{
    match rivals.read(outer, variable.block, word, variable.place) {
        Some(binder) => {
            clashes.push(clash(names, variable, word, binder))?;
            Ok(())
        }
        None => Ok(()),
    }
}

/// Adds what is told of the words that are said of one name.
#[tactic(auto, using(crate::proofs::Reading::one_joined))]
fn add_words<'a>(
    names: &'a Names,
    outer: &[usize],
    rivals: &Rivals<'_>,
    memory: Memory,
    variable: &Occurrence<'_>,
    clashes: &mut Vec<WordClash<'a>>,
) -> Result<(), AllocError>
    requires nested { AreNested outer.now }
    requires variable { IsKnown names.now outer.now variable.now }
    ensures { OnOk result (Tells clashes.old.items (words_told names.now (look rivals.now) (memory_words memory, seen outer.now variable.now)) clashes.new.items) }
{
    match memory {
        None => Ok(()),
        Some((space, None)) => add_word(names, outer, rivals, space_word(space), variable, clashes),
        Some((space, Some(mode))) => {
            add_word(names, outer, rivals, space_word(space), variable, clashes)?;
            add_word(names, outer, rivals, access_word(mode), variable, clashes)
        }
    }
}

/// What is told of all names.
fn all_told<'a>(
    alloc: Global,
    names: &'a Names,
    outer: &[usize],
    rivals: &Rivals<'_>,
    said: &[Memory],
    variables: &[Occurrence<'_>],
) -> Result<Vec<WordClash<'a>>, AllocError>
    requires nested { AreNested outer.now }
    requires variables { All (IsKnown names.now outer.now) variables.now }
    requires same_length { length said.now ≡ length variables.now }
    ensures { IfOk result (λ r. map clash_view r.items ≡ all_told names.now (look rivals.now) outer.now said.now variables.now) }
{
    let mut clashes = Vec::new(alloc);
    for i in 0..variables.len() {
        add_words(names, outer, rivals, said[i], &variables[i], &mut clashes)?;
    }
    Ok(clashes)
}

/// Of each variable and each word that it says in its `<..>`, in this order, the declaration of the module that the word means
/// where the variable stands, read as a name by plain scoping (WGSL, "Declaration and Scope"), if it means one.
///
/// So a compiler reads the word, where it is to be predeclared. It is read as the first declaration of the innermost block
/// that has one in scope that is spelled so. The work and the memory are linear, but for the depth of blocks in blocks.
/// Refused for want of memory alone.
pub fn word_clashes<'a>(
    alloc: Global,
    unit: &'a TranslationUnit,
) -> Result<Vec<WordClash<'a>>, Error>
    ensures clashes { IfOk result (λ found. map clash_view found.items ≡ word_clashes (unit_view unit.now)) }
    ensures none { IfOk result (λ found. (found.items ≡ []) ↔ AreWordsFree (unit_view unit.now)) }
    ensures refused { IfErr result (λ e. e ≡ error.Memory) }
{
    law_of_word_clashes();
    let names = unit.names();
    let said = sayings(alloc, unit)?;
    let found = occurrences(alloc, unit)?;
    let variables = binders(alloc, &found.all)?;
    let rivals = Rivals::among(alloc, names, &found.all)?;
    let told = all_told(alloc, names, &found.outer, &rivals, &said, &variables)?;
    Ok(told)
}
