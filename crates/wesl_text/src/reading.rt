//! Reading units from shader text.
ghost use Rattle.std.specs.Prelude.{◌≡◌, ◌^◌, ◌≤◌, length, IfOk, IfErr, Err, false, true};
ghost use Rattle.wesl_text_form.specs.Says.{TextSays};
ghost use Rattle.wesl_text_read.specs.Leads.{is_memory};
ghost use Rattle.wesl_text.specs.Faults.{is_unexpected};
ghost use Rattle.wesl_text.specs.Said.{IsFaultOf};
ghost use Rattle.wesl_text.specs.declared.fault.TextFault.TheVariants as faults;
ghost use Rattle.wesl_tree.specs.Translation.{unit_view};
ghost use Rattle.wesl_tree_interner.specs.Different.{AreDifferent};
ghost use Rattle.wesl_tree_syntax.specs.Unit.{spelled};

use crate::fault::TextFault;
use std::alloc::Global;
use wesl_text_read::Fault;
use wesl_text_sound::{law_of_soundness, law_of_texts};
use wesl_text_tokens::{PlacedToken, Token, read_tokens};
use wesl_tree::TranslationUnit;

/// The unit that a text says, in the grammar of WGSL with WESL's imports and conditional attributes.
///
/// # Errors
///
/// Where the text says no unit of at most [`MOST_LEVELS`](crate::MOST_LEVELS) levels, the first token that should not stand where it does, or the first
/// part that is no token. A text of 2^32 bytes or more is refused with [`TextFault::TooLong`].
pub fn read_unit<'t>(alloc: Global, text: &'t str) -> Result<TranslationUnit, TextFault<'t>>
    ensures said { IfOk result (λ u. TextSays text.now (spelled (unit_view u))) }
    ensures distinct { IfOk result (λ u. AreDifferent (unit_view u).names) }
    ensures fault { IfErr result (IsFaultOf text.now) }
    ensures too_long { 2 ^ 32 ≤ length text.now → result ≡ Err faults.TooLong }
{
    law_of_soundness();
    law_of_texts();
    let end = text.len();
    let tokens = match read_tokens(alloc, text) {
        Ok(tokens) => tokens,
        Err(fault) => return Err(TextFault::from(fault)),
    };
    match wesl_text_read_unit::read_unit(alloc, tokens.as_slice(), end as u32) {
        Ok(unit) => Ok(unit),
        Err(fault) => Err(text_fault(fault, tokens.as_slice())),
    }
}

// What is wrong with a text, by what is wrong with its tokens.
fn text_fault<'t>(fault: Fault<'_>, tokens: &[PlacedToken<'t>]) -> TextFault<'t>
    ensures memory { is_memory fault.entry ≡ true → result ≡ faults.Memory }
    ensures unexpected { is_memory fault.entry ≡ false → is_unexpected result ≡ true }
{
    match fault {
        Fault::Memory => TextFault::Memory,
        Fault::Text {
            place,
            expected,
            ..
        } => TextFault::Unexpected {
            place,
            expected,
            found: token_at(tokens, place),
        },
    }
}

// The token that begins at a place, if one does.
fn token_at<'t>(tokens: &[PlacedToken<'t>], place: u32) -> Option<Token<'t>> {
    for token in tokens {
        if token.start == place {
            return Some(token.token);
        }
    }
    None
}
