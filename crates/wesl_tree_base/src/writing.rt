//! Copies of texts, and texts made of pieces (WESL, "Imports").
ghost use Rattle.std.specs.Prelude.{◌≡◌, ◌++◌, IfOk, map, string_bytes, codes, Some};
ghost use Rattle.std.specs.Fmt.{DisplaysOnOk};
ghost use Rattle.wesl_tree_base.specs.Borrowed.{texts};
ghost use Rattle.wesl_tree_base.specs.Pieces.{joined, relative_pieces};

use std::alloc::{AllocError, Global};
use std::fmt;

/// Texts of their own that say what the pieces do. Refused for want of memory alone.
pub fn copied(alloc: Global, pieces: &[&str]) -> Result<Vec<String>, AllocError>
    ensures { IfOk result (λ names. map string_bytes names.items ≡ texts pieces.now) }
{
    let mut names = Vec::new(alloc);
    for piece in pieces {
        names.push(String::from_str(alloc, piece)?)?;
    }
    Ok(names)
}

/// Copies of the texts, those of `first` and then those of `more`. Refused for want of memory alone.
pub fn copied_texts(
    alloc: Global,
    first: &[String],
    more: &[String],
) -> Result<Vec<String>, AllocError>
    ensures { IfOk result (λ texts. map string_bytes texts.items ≡ map string_bytes first.now ++ map string_bytes more.now) }
{
    let mut texts = first.to_vec(alloc)?;
    for text in more {
        texts.push(text.clone()?)?;
    }
    Ok(texts)
}

/// The name that a package has for the module at `from`, whose package it is a dependency of. Refused for want
/// of memory alone.
pub fn dependency_name(alloc: Global, from: &str, dependency: &str) -> Result<String, AllocError>
    ensures { IfOk result (λ name. string_bytes name ≡ from.now ++ codes "/" ++ dependency.now) }
{
    let mut name = String::from_str(alloc, from)?;
    name.push('/')?;
    name.push_str(dependency)?;
    Ok(name)
}

/// `self`, or `super` so many times. Refused for want of memory alone.
pub fn relative_text(alloc: Global, up: usize) -> Result<String, AllocError>
    ensures { IfOk result (λ text. string_bytes text ≡ joined (relative_pieces up)) }
{
    if up == 0 {
        return String::from_str(alloc, "self");
    }
    let mut text = String::from_str(alloc, "super")?;
    for _done in 1..up {
        text.push_str("::super")?;
    }
    Ok(text)
}

/// Writes `self`, or `super` so many times.
///
/// It fails where the writer does.
pub fn write_relative<W: fmt::Write>(up: usize, f: &mut fmt::Formatter<W>) -> fmt::Result
    ensures { DisplaysOnOk W.write_str_gives f.old result (Some (joined (relative_pieces up))) f.new }
{
    if up == 0 {
        return f.write_str("self");
    }
    f.write_str("super")?;
    for _done in 1..up {
        f.write_str("::super")?;
    }
    Ok(())
}
