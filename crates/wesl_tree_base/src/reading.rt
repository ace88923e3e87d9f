//! Texts read as pieces, and what the pieces are (WESL, "Imports").
ghost use Rattle.std.specs.Prelude.{◌≡◌, ◌≤◌, IfOk, length, codes, option_map};
ghost use Rattle.std.specs.List.{prefix_len};
ghost use Rattle.std.specs.Str.{bytes_eq};
ghost use Rattle.wesl_tree_base.specs.Borrowed.{texts};
ghost use Rattle.wesl_tree_base.specs.Pieces.{has, slash, is_keyword, cut, colon, pieces, is_package_name};

use std::alloc::{AllocError, Global};

/// The texts between the colons.
fn between_colons(alloc: Global, text: &str) -> Result<Vec<&str>, AllocError>
    ensures { IfOk result (λ parts. texts parts.items ≡ cut colon text.now) }
{
    text.split(':').collect(alloc)
}

/// The pieces between the double colons, where each is filled and has no colon. Refused for want of memory alone.
pub fn pieces_of(alloc: Global, text: &str) -> Result<Option<Vec<&str>>, AllocError>
    ensures { IfOk result (λ found. option_map (λ v. texts v.items) found ≡ pieces text.now) }
{
    let parts = between_colons(alloc, text)?;
    let mut pieces = Vec::new(alloc);
    let mut after_piece = false;
    for part in &parts {
        if part.is_empty() != after_piece {
            return Ok(None);
        }
        if !after_piece {
            pieces.push(*part)?;
        }
        after_piece = !after_piece;
    }
    Ok(after_piece.then_some(pieces))
}

/// How many pieces `super` come first.
pub fn leading_supers(pieces: &[&str]) -> usize
    ensures counted { result ≡ prefix_len (λ t. bytes_eq t (codes "super")) (texts pieces.now) }
    ensures within { result ≤ length pieces.now }
{
    pieces.iter().take_while(|piece| **piece == "super").count()
}

/// Whether a slash stands in the piece.
pub fn has_slash(piece: &str) -> bool
    ensures { result ≡ has slash piece.now }
{
    piece.contains('/')
}

/// Whether the piece is `package`, `self` or `super`.
pub fn is_keyword(piece: &str) -> bool
    ensures { result ≡ is_keyword piece.now }
{
    piece == "package" || piece == "self" || piece == "super"
}

/// Whether the piece is nonempty names joined by slashes.
pub fn is_package_name(piece: &str) -> bool
    ensures { result ≡ is_package_name piece.now }
{
    piece.split('/').all(|name| !name.is_empty())
}
