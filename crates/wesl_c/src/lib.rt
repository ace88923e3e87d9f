//! The linker as a C library: the bytes of a bundle in, its line out, in memory of the caller. `include/wesl.h` declares
//! the calls for C.
#![tactic(auto)]

ghost use Rattle.std.specs.Prelude.{◌≡◌, Ok, length};
ghost use Rattle.wesl.specs.Run.{status_of};
ghost use Rattle.wesl_program.specs.Made.{bytes_of};
ghost use Rattle.wesl_c.specs.Answers.{FillsBuffer, FillsWithText, IsTextOutcome, written_over};
ghost use Rattle.wesl_c.specs.Version.{version_of};

use std::alloc::Global;
use wesl::{Outcome, line_of_bytes};
use wesl_program::Line;
use wesl_text_program::line_of_texts;

/// Links the bundle of these bytes, and writes its line over the beginning of the caller's buffer, as far as there is
/// room.
///
/// The status is 0 where the line is the answer, with the linked unit, and 1 where it tells a fault. `needed` is then the
/// length of the whole line, with its line feed: where it is above the buffer's, a beginning of the line was written. What
/// lies in the buffer behind the line stays as it was. Want of memory is told by its line, for which none is taken.
///
/// C passes nothing for `alloc`, and a pointer and a length for each slice.
#[unsafe(no_mangle)]
pub extern "C" fn wesl_link_bundle(
    alloc: Global,
    bundle: &[u8],
    buffer: &mut [u8],
    needed: &mut usize,
) -> u32
    ensures answers { FillsBuffer bundle.now result needed.new buffer.old buffer.new }
{
    let (outcome, line) = line_of_bytes(alloc, bundle);
    hand_out(outcome, line.as_bytes(), buffer, needed)
}

/// Links the bundle of texts of these bytes, and writes its line over the beginning of the caller's buffer, as
/// [`wesl_link_bundle`] does: that of the answer, with the linked text, or that of a fault.
#[unsafe(no_mangle)]
pub extern "C" fn wesl_link_texts(
    alloc: Global,
    bundle: &[u8],
    buffer: &mut [u8],
    needed: &mut usize,
) -> u32
    ensures answers { FillsWithText bundle.now result needed.new buffer.old buffer.new }
{
    let (outcome, line) = text_line(alloc, bundle);
    hand_out(outcome, line.as_bytes(), buffer, needed)
}

// The line of the bytes of a bundle of texts.
fn text_line(alloc: Global, bytes: &[u8]) -> (Outcome, Line)
    ensures { IsTextOutcome result.0 bytes.now (bytes_of result.1) }
{
    match line_of_texts(alloc, bytes) {
        Ok(line) => (Outcome::Linked, Line::Made(line)),
        Err(line) => (Outcome::Refused, line),
    }
}

/// The number of the library's version.
#[unsafe(no_mangle)]
pub extern "C" fn wesl_version() -> u32
    ensures version { result ≡ version_of 0 1 0 }
{
    100
}

// Hands out a line, and answers what C is told of its outcome.
fn hand_out(outcome: Outcome, line: &[u8], buffer: &mut [u8], needed: &mut usize) -> u32
    ensures status { result ≡ status_of (Ok outcome) }
    ensures needed { needed.new ≡ length line.now }
    ensures written { buffer.new ≡ written_over line.now buffer.old }
{
    write_over(buffer, line);
    *needed = line.len();
    status(outcome)
}

// Writes the bytes over the beginning of the buffer, as far as there is room.
fn write_over(buffer: &mut [u8], bytes: &[u8])
    ensures { buffer.new ≡ written_over bytes.now buffer.old }
{
    let count = buffer.len().min(bytes.len());
    buffer[..count].copy_from_slice(&bytes[..count]);
}

// What C is told of an outcome.
fn status(outcome: Outcome) -> u32
    ensures { result ≡ status_of (Ok outcome) }
{
    match outcome {
        Outcome::Linked => 0,
        Outcome::Refused => 1,
    }
}
