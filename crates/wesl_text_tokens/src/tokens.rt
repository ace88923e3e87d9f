//! The tokens of a text with their places.
ghost use Rattle.std.specs.Prelude.{◌≡◌, ◌^◌, ◌≤◌, length, IfOk, IfErr, Some, Err};
ghost use Rattle.wesl_text_tokens.specs.declared.fault.TokenFault.TheVariants as told;
ghost use Rattle.wesl_text_tokens.specs.Tokens.{placed_tokens};
ghost use Rattle.wesl_text_tokens.specs.Reading.{IsFaultOf};
ghost use Rattle.wesl_text_tokens.specs.Views.{all_placed_of};

use crate::fault::TokenFault;
use crate::joining::joined_tokens;
use crate::lists::lists_of;
use crate::reading::pieces;
use crate::token::PlacedToken;
use std::alloc::Global;

/// The tokens of a text with their places (WGSL, "Textual Structure"): blanks and comments are gone, and the brackets of
/// template lists are told from comparisons. The tokens borrow the text.
///
/// # Errors
///
/// The fault of the first part of the text that is no token, where it stands; [`TokenFault::TooLong`] for a text of 2^32
/// bytes or more; [`TokenFault::Memory`] for want of memory.
pub fn read_tokens<'a>(alloc: Global, text: &'a str) -> Result<Vec<PlacedToken<'a>>, TokenFault>
    ensures tokens { IfOk result (λ tokens. placed_tokens text.now ≡ Some (all_placed_of tokens.items)) }
    ensures fault { IfErr result (IsFaultOf text.now) }
    ensures too_long { 2 ^ 32 ≤ length text.now → result ≡ Err told.TooLong }
{
    if text.len() > u32::MAX as usize {
        return Err(TokenFault::TooLong);
    }
    let found = pieces(alloc, text)?;
    let lists = lists_of(alloc, found.as_slice())?;
    let tokens = joined_tokens(alloc, found.as_slice(), &lists)?;
    Ok(tokens)
}
