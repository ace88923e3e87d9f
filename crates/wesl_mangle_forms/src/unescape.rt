//! Reading the escape form. What is read from the front of some pieces is given with the number of
//! pieces that it took.
ghost use Rattle.std.specs.Prelude.{◌≡◌, ◌<◌, ◌≤◌, ◌^◌, ◌∷◌, ◌++◌, Some, None, IfErr, IfOk, IfSome, List, MatchOption, Option, true, length, string_bytes, option_and_then, option_map};
ghost use Rattle.std.specs.List.{prefix_len};
ghost use Rattle.std.specs.Char.{is_ascii_digit};
ghost use Rattle.std.specs.Str.Parse.{digits_value};
ghost use Rattle.wesl_tree_names.specs.Path.{Text, origin_view, from_package};
ghost use Rattle.wesl_tree_names.specs.declared.errors.Error as error;
ghost use Rattle.wesl_mangle_forms.specs.Escape.{from_pieces, pieces_of, counted, read_name, read_names, read_all_names, is_number, read_import, read_origin, item_below, unescape, unescaped};
ghost use Rattle.wesl_mangle_forms.specs.Items.{item_view};
ghost use Rattle.wesl_tree_base.specs.Borrowed.{texts};
ghost use Rattle.wesl_tree_syntax.specs.View.{texts_of};
ghost use Rattle.wesl_mangle_forms.specs.Views.{name_before, names_before, origin_before};

use crate::numbered::told;
use std::alloc::{AllocError, Global};
use wesl_tree_base::leading_supers;
use wesl_tree_names::{Error, ModulePath, PathOrigin};

/// How many digits the piece begins with.
fn leading_digits(piece: &str) -> usize
    ensures { result ≡ prefix_len is_ascii_digit piece.now }
{
    piece.bytes().take_while(u8::is_ascii_digit).count()
}

/// Appends an underscore and the piece.
fn push_piece(text: &mut String, piece: &str) -> Result<(), AllocError>
    ensures { IfOk result (λ _. string_bytes text.new ≡ string_bytes text.old ++ 95 ∷ piece.now) }
{
    text.push('_')?;
    text.push_str(piece)
}

/// The pieces with an underscore between each two.
fn joined(alloc: Global, first: &str, more: &[&str]) -> Result<String, AllocError>
    ensures { IfOk result (λ name. string_bytes name ≡ from_pieces (first.now ∷ texts more.now)) }
{
    let mut name = String::from_str(alloc, first)?;
    for piece in more {
        push_piece(&mut name, piece)?;
    }
    Ok(name)
}

/// The name that a piece begins, with the number of its further pieces, which stand first in the rest.
fn counted(alloc: Global, piece: &str, rest: &[&str]) -> Result<Option<(String, usize)>, AllocError>
    ensures read { IfOk result (λ found. option_map (name_before (texts rest.now)) found ≡ counted piece.now (texts rest.now)) }
    ensures within { IfOk result (λ found. IfSome found (λ x. x.1 ≤ length rest.now)) }
{
    let available = rest.len();
    let (digits, front) = piece.split_at(leading_digits(piece));
    let Ok(count) = digits.parse::<usize>() else {
        return Ok(None);
    };
    if count > available {
        return Ok(None);
    }
    let (more, _) = rest.split_at(count);
    let name = joined(alloc, front, more)?;
    Ok(Some((name, count)))
}

/// The name that stands first.
fn read_name(alloc: Global, pieces: &[&str]) -> Result<Option<(String, usize)>, AllocError>
    ensures read { IfOk result (λ found. option_map (name_before (texts pieces.now)) found ≡ read_name (texts pieces.now)) }
    ensures within { IfOk result (λ found. IfSome found (λ x. x.1 ≤ length pieces.now)) }
{
    let Some((first, rest)) = pieces.split_first() else {
        return Ok(None);
    };
    if !first.is_empty() {
        return Ok(Some((String::from_str(alloc, first)?, 1)));
    }
    let Some((piece, rest)) = rest.split_first() else {
        return Ok(None);
    };
    let Some((name, more)) = counted(alloc, piece, rest)? else {
        return Ok(None);
    };
    Ok(Some((name, more + 2)))
}

/// So many names.
fn read_names(
    alloc: Global,
    many: usize,
    pieces: &[&str],
) -> Result<Option<(Vec<String>, usize)>, AllocError>
    ensures read { IfOk result (λ found. option_map (names_before (texts pieces.now)) found ≡ read_names many (texts pieces.now)) }
    ensures within { IfOk result (λ found. IfSome found (λ x. x.1 ≤ length pieces.now)) }
{
    let mut names = Vec::new(alloc);
    let mut place = 0;
    for _done in 0..many {
        let Some((name, taken)) = read_name(alloc, &pieces[place..])? else {
            return Ok(None);
        };
        names.push(name)?;
        place += taken;
    }
    Ok(Some((names, place)))
}

/// The names that the pieces are.
fn read_all_names(alloc: Global, pieces: &[&str]) -> Result<Option<Vec<String>>, AllocError>
    ensures { IfOk result (λ found. option_map texts_of found ≡ read_all_names (length (texts pieces.now)) (texts pieces.now)) }
{
    let mut names = Vec::new(alloc);
    let mut place = 0;
    while place < pieces.len() {
        let Some((name, taken)) = read_name(alloc, &pieces[place..])? else {
            return Ok(None);
        };
        names.push(name)?;
        place += taken;
    }
    Ok(Some(names))
}

/// Whether the piece is a number.
fn is_number(piece: &str) -> bool
    ensures { result ≡ is_number piece.now }
{
    !piece.is_empty() && piece.bytes().all(|byte| byte.is_ascii_digit())
}

/// The number that the piece is, where it is at most `most`.
fn number_up_to(piece: &str, most: usize) -> Option<usize>
    ensures { MatchOption result (is_number piece.now ≡ true → most < digits_value 10 piece.now)
        (λ number. (is_number piece.now ≡ true) × (number ≡ digits_value 10 piece.now)) }
{
    if !is_number(piece) {
        return None;
    }
    match piece.parse::<usize>() {
        Ok(number) if number <= most => Some(number),
        _ => None,
    }
}

/// The package whose name has several parts: their number, and the parts.
fn read_import(alloc: Global, pieces: &[&str]) -> Result<Option<(PathOrigin, usize)>, AllocError>
    ensures read { IfOk result (λ found. option_map (origin_before (texts pieces.now)) found ≡ read_import (texts pieces.now)) }
    ensures within { IfOk result (λ found. IfSome found (λ x. x.1 ≤ length pieces.now)) }
{
    let Some((first, rest)) = pieces.split_first() else {
        return Ok(None);
    };
    let Some(many) = number_up_to(first, rest.len()) else {
        return Ok(None);
    };
    let Some((parts, taken)) = read_names(alloc, many, rest)? else {
        return Ok(None);
    };
    let name = parts.as_slice().join(alloc, "/")?;
    Ok(Some((PathOrigin::Package(name), taken + 1)))
}

/// The package whose name stands first.
fn read_package(alloc: Global, pieces: &[&str]) -> Result<Option<(PathOrigin, usize)>, AllocError>
    ensures read { IfOk result (λ found. option_map (origin_before (texts pieces.now)) found ≡ option_map (λ x. (from_package x.0, x.1)) (read_name (texts pieces.now))) }
    ensures within { IfOk result (λ found. IfSome found (λ x. x.1 ≤ length pieces.now)) }
{
    match read_name(alloc, pieces)? {
        Some((name, taken)) => Ok(Some((PathOrigin::Package(name), taken))),
        None => Ok(None),
    }
}

/// The origin that stands first.
fn read_origin(alloc: Global, pieces: &[&str]) -> Result<Option<(PathOrigin, usize)>, AllocError>
    ensures read { IfOk result (λ found. option_map (origin_before (texts pieces.now)) found ≡ read_origin (texts pieces.now)) }
    ensures within { IfOk result (λ found. IfSome found (λ x. x.1 ≤ length pieces.now)) }
{
    let Some((first, rest)) = pieces.split_first() else {
        return Ok(None);
    };
    if *first == "package" {
        return Ok(Some((PathOrigin::Absolute, 1)));
    }
    if *first == "self" {
        return Ok(Some((PathOrigin::Relative(0), 1)));
    }
    if *first == "super" {
        let up = leading_supers(pieces);
        return Ok(Some((PathOrigin::Relative(up), up)));
    }
    if *first == "import" {
        return match read_import(alloc, rest)? {
            Some((origin, taken)) => Ok(Some((origin, taken + 1))),
            None => Ok(None),
        };
    }
    read_package(alloc, pieces)
}

/// The item whose name is the last one, of the module whose components are those before it.
pub fn item_below(origin: PathOrigin, mut names: Vec<String>) -> Option<(ModulePath, String)>
    ensures { option_map item_view result ≡ item_below (origin_view origin) (texts_of names) }
{
    let item = names.pop()?;
    let path = ModulePath {
        origin,
        components: names,
    };
    Some((path, item))
}

/// The texts between the underscores.
fn pieces_of(alloc: Global, text: &str) -> Result<Vec<&str>, AllocError>
    ensures { IfOk result (λ pieces. texts pieces.items ≡ pieces_of text.now) }
{
    text.split('_').collect(alloc)
}

/// The item of these names, where they were read.
fn item_of(
    origin: PathOrigin,
    names: Result<Option<Vec<String>>, AllocError>,
) -> Result<Option<(ModulePath, String)>, AllocError>
    ensures { (ns : Option (List Text)) → IfOk names (λ found. option_map texts_of found ≡ ns)
        → IfOk result (λ found. option_map item_view found ≡ option_and_then (item_below (origin_view origin)) ns) }
{
    match names {
        Ok(Some(names)) => Ok(item_below(origin, names)),
        Ok(None) => Ok(None),
        Err(_) => Err(AllocError),
    }
}

/// The item that the pieces stand for.
fn unescaped(alloc: Global, pieces: &[&str]) -> Result<Option<(ModulePath, String)>, AllocError>
    ensures { IfOk result (λ found. option_map item_view found ≡ unescaped (texts pieces.now)) }
{
    match read_origin(alloc, pieces)? {
        Some((origin, taken)) => item_of(origin, read_all_names(alloc, &pieces[taken..])),
        None => Ok(None),
    }
}

/// The item that the escape form stands for.
pub fn read_escape(alloc: Global, text: &str) -> Result<Option<(ModulePath, String)>, Error>
    ensures read { IfOk result (λ found. option_map item_view found ≡ unescape text.now) }
    ensures refused { IfErr result (λ e. e ≡ error.Memory) }
{
    match pieces_of(alloc, text) {
        Ok(pieces) => told(unescaped(alloc, pieces.as_slice())),
        Err(_) => Err(Error::Memory),
    }
}
