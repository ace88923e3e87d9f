//! The bytes of a bundle, read.
ghost use Rattle.std.specs.Prelude.{◌≡◌, false, IfOk, IfErr};
ghost use Rattle.wesl_tree_names.specs.Path.{path_view, is_relative};
ghost use Rattle.wesl_json_form.specs.View.{borrowed_view};
ghost use Rattle.wesl_program_bundle.specs.Views.{bundle_view};
ghost use Rattle.wesl_program.specs.Line.{IsBundleOf, IsJsonOf, IsUnread};

use bumpalo::Bump;
use json::Scratch;
use std::alloc::Global;
use std::str::from_utf8;
use wesl_json::borrowed_of_text;
use wesl_json_form::BorrowedValue;
use wesl_program_bundle::{Bundle, read_bundle};
use wesl_tree::Error;

/// The bundle that the bytes are. Its texts stand in the bytes, or, where they have escapes, in the scratch; the lists of its
/// units stand in the arena. Refused where the bytes are no UTF-8 or no JSON with `NotJson`, where they are no bundle with
/// `BadBundle`, and for want of memory alone otherwise.
pub fn bundle_of_bytes<'t>(
    alloc: Global,
    bytes: &'t [u8],
    scratch: &'t mut Scratch,
    arena: &'t Bump,
) -> Result<Bundle<'t>, Error>
    ensures bundle { IfOk result (λ b. IsBundleOf bytes.now (bundle_view b)) }
    ensures fixed { IfOk result (λ b. is_relative (path_view b.root) ≡ false) }
    ensures refused { IfErr result (IsUnread bytes.now) }
{
    let value = value_of_bytes(alloc, bytes, scratch, arena)?;
    Ok(read_bundle(alloc, &value)?)
}

// The value of bytes that are JSON in UTF-8.
fn value_of_bytes<'t>(
    alloc: Global,
    bytes: &'t [u8],
    scratch: &'t mut Scratch,
    arena: &'t Bump,
) -> Result<BorrowedValue<'t>, Error>
    ensures value { IfOk result (λ v. IsJsonOf bytes.now (borrowed_view v)) }
    ensures refused { IfErr result (IsUnread bytes.now) }
{
    match from_utf8(bytes) {
        Ok(text) => borrowed_of_text(alloc, text, scratch, arena),
        Err(_) => Err(Error::NotJson),
    }
}
