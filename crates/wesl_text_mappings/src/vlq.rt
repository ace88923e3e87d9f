//! Numbers in base64 VLQ: digits of five bits, the lowest first, where each but the last says that another one follows.
ghost use Rattle.std.specs.Prelude.{◌≡◌, ◌+◌, ◌*◌, ◌<◌, OnOk, string_bytes};
ghost use Rattle.wesl_text_mappings.specs.Vlq.{AddsDigit, AddsMove, AddsNumber, digit};

use std::alloc::AllocError;

/// The character of a digit.
#[tactic(auto, unfolding(crate::specs::Vlq::digit))]
fn letter(value: u8) -> char
    requires { value < 64 }
    ensures digit { digit result ≡ value }
    ensures ascii { result < 128 }
{
    let code = match value {
        0..=25 => b'A' + value,
        26..=51 => b'a' + (value - 26),
        52..=61 => b'0' + (value - 52),
        62 => b'+',
        _ => b'/',
    };
    code as char
}

/// Adds the character of a digit.
fn push_digit(text: &mut String, value: u8) -> Result<(), AllocError>
    requires { value < 64 }
    ensures { OnOk result (AddsDigit value (string_bytes text.old) (string_bytes text.new)) }
{
    text.push(letter(value))
}

/// Adds the digits of a number: the lowest one, and those of `rest`, which stands for so many times 32.
fn push_digits(text: &mut String, lowest: u8, rest: usize) -> Result<(), AllocError>
    requires { lowest < 32 }
    ensures { OnOk result (AddsNumber (lowest + 32 * rest) (string_bytes text.old) (string_bytes text.new)) }
{
    if rest == 0 {
        return push_digit(text, lowest);
    }
    push_digit(text, lowest + 32)?;
    push_digits(text, (rest % 32) as u8, rest / 32)
}

/// Adds a number with its sign in the lowest bit.
fn push_signed(text: &mut String, size: usize, sign: u8) -> Result<(), AllocError>
    requires { sign < 2 }
    ensures { OnOk result (AddsNumber (2 * size + sign) (string_bytes text.old) (string_bytes text.new)) }
{
    push_digits(text, (size % 16 * 2) as u8 + sign, size / 16)
}

/// Adds how far it is from one number to another.
pub fn push_move(text: &mut String, from: usize, to: usize) -> Result<(), AllocError>
    ensures { OnOk result (AddsMove from to (string_bytes text.old) (string_bytes text.new)) }
{
    if from <= to {
        push_signed(text, to - from, 0)
    } else {
        push_signed(text, from - to, 1)
    }
}
