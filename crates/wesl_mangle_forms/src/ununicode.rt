//! Reading the Unicode form.
ghost use Rattle.std.specs.Prelude.{◌≡◌, ◌≤◌, IfOk, IfErr, IfSome, option_map, length};
ghost use Rattle.wesl_tree_names.specs.declared.errors.Error as error;
ghost use Rattle.wesl_mangle_forms.specs.Escape.{item_below};
ghost use Rattle.wesl_mangle_forms.specs.Items.{item_view};
ghost use Rattle.wesl_mangle_forms.specs.Unicode.{words_of, read_origin_words, item_of_words, from_unicode};
ghost use Rattle.wesl_tree_base.specs.Borrowed.{texts};
ghost use Rattle.wesl_tree_syntax.specs.View.{texts_of};
ghost use Rattle.wesl_mangle_forms.specs.Views.{origin_before, ReadsBelow};

use crate::numbered::told;
use crate::unescape::item_below;
use crate::unicode::SEPARATOR;
use std::alloc::{AllocError, Global};
use wesl_tree_base::leading_supers;
use wesl_tree_names::{Error, ModulePath, PathOrigin};

/// The texts between the separators.
fn words_of(alloc: Global, text: &str) -> Result<Vec<&str>, AllocError>
    ensures { IfOk result (λ words. texts words.items ≡ words_of text.now) }
{
    text.split(SEPARATOR).collect(alloc)
}

/// The origin that stands first, with the number of words that it took.
fn read_origin(alloc: Global, words: &[&str]) -> Result<Option<(PathOrigin, usize)>, AllocError>
    ensures read { IfOk result (λ found. option_map (origin_before (texts words.now)) found ≡ read_origin_words (texts words.now)) }
    ensures within { IfOk result (λ found. IfSome found (λ x. x.1 ≤ length words.now)) }
{
    let Some((first, _)) = words.split_first() else {
        return Ok(None);
    };
    if *first == "package" {
        return Ok(Some((PathOrigin::Absolute, 1)));
    }
    if *first == "self" {
        return Ok(Some((PathOrigin::Relative(0), 1)));
    }
    if *first == "super" {
        let up = leading_supers(words);
        return Ok(Some((PathOrigin::Relative(up), up)));
    }
    let name = String::from_str(alloc, first)?;
    Ok(Some((PathOrigin::Package(name), 1)))
}

/// Copies of the words.
fn copied(alloc: Global, words: &[&str]) -> Result<Vec<String>, AllocError>
    ensures { IfOk result (λ names. texts_of names ≡ texts words.now) }
{
    let mut names = Vec::new(alloc);
    for word in words {
        names.push(String::from_str(alloc, word)?)?;
    }
    Ok(names)
}

/// The item of these names, where there was memory for them.
fn item_of(
    origin: PathOrigin,
    names: Result<Vec<String>, AllocError>,
) -> Result<Option<(ModulePath, String)>, AllocError>
    ensures { ReadsBelow origin names result }
{
    match names {
        Ok(names) => Ok(item_below(origin, names)),
        Err(_) => Err(AllocError),
    }
}

/// The item that the words stand for.
fn item_of_words(alloc: Global, words: &[&str]) -> Result<Option<(ModulePath, String)>, AllocError>
    ensures { IfOk result (λ found. option_map item_view found ≡ item_of_words (texts words.now)) }
{
    match read_origin(alloc, words)? {
        Some((origin, taken)) => item_of(origin, copied(alloc, &words[taken..])),
        None => Ok(None),
    }
}

/// The item that the Unicode form stands for.
pub fn read_unicode(alloc: Global, text: &str) -> Result<Option<(ModulePath, String)>, Error>
    ensures read { IfOk result (λ found. option_map item_view found ≡ from_unicode text.now) }
    ensures refused { IfErr result (λ e. e ≡ error.Memory) }
{
    match words_of(alloc, text) {
        Ok(words) => told(item_of_words(alloc, words.as_slice())),
        Err(_) => Err(Error::Memory),
    }
}
