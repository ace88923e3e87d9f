//! The program: the bytes of a bundle in, one line out.
ghost use Rattle.std.specs.Prelude.{◌≡◌, ◌||◌, Err, IfOk, IfErr, is_err};
ghost use Rattle.std.specs.Process.{exit_status};
ghost use Rattle.wesl_program.specs.Made.{bytes_of};
ghost use Rattle.wesl_program.specs.Streams.{IsSameLoan, has_failed, inner};
ghost use Rattle.wesl.specs.Run.{IsLine, IsLineFor, Wrote, WroteBeginning, ends_by_read, ends_by_write, status_of};

use std::alloc::Global;
use std::io::{Read, Write};
use std::process::ExitCode;
use thiserror::Error;
use wesl_program::{
    Line, NotedStream, ReadFault, answer_of_bytes, memory_line, read_whole, refusal_line,
    write_whole,
};

/// What a line says.
#[derive(Clone, Copy, Debug, PartialEq, Eq)]
pub enum Outcome {
    /// The linked unit, whether its names clash, and what they stand for.
    Linked,
    /// Why there is none.
    Refused,
}

/// Why there is no line.
#[derive(Clone, Copy, Debug, PartialEq, Eq, Error)]
pub enum RunError {
    /// A read failed.
    #[error("a read failed")]
    Input,
    /// A write failed or took no byte.
    #[error("a write failed")]
    Output,
}

/// The status of a program that ends with this run: 0 where a unit was linked, 1 where it was refused, and 2 where a read
/// or a write failed.
pub fn status(ended: Result<Outcome, RunError>) -> ExitCode
    ensures { exit_status result ≡ status_of ended }
{
    match ended {
        Ok(Outcome::Linked) => ExitCode::SUCCESS,
        Ok(Outcome::Refused) => ExitCode::from(1),
        Err(RunError::Input | RunError::Output) => ExitCode::from(2),
    }
}

/// Reads a bundle whole, links it, and writes its line.
///
/// The line is the answer (`Linked`), which has the linked unit as a tree, says whether its names clash, and maps each
/// mangled name to its module and item, or a fault (`Refused`). With `RunError::Input`, which comes only where a read
/// failed, nothing was written; with `RunError::Output`, which comes only where a write failed or took no byte, a beginning
/// of the line was.
pub fn run<R: Read, W: Write>(
    alloc: Global,
    reader: &mut R,
    writer: &mut W,
) -> Result<Outcome, RunError>
    ensures line { IfOk result (Wrote (R.remaining reader.old) (W.contents writer.old) (W.contents writer.new)) }
    ensures input { result ≡ Err RunError.Input → W.contents writer.new ≡ W.contents writer.old }
    ensures output { result ≡ Err RunError.Output → WroteBeginning (R.remaining reader.old) (W.contents writer.old) (W.contents writer.new) }
{
    let mut reader = NotedStream::new(reader);
    let mut writer = NotedStream::new(writer);
    run_noting(alloc, &mut reader, &mut writer)
}

/// The same as `run`, of a reader and a writer that note which of their calls failed.
///
/// Where nothing was noted before, the reader notes a failed read exactly with `RunError::Input`, and the writer a write that
/// failed or took no byte exactly with `RunError::Output`.
pub fn run_noting<R: Read, W: Write>(
    alloc: Global,
    reader: &mut NotedStream<'_, R>,
    writer: &mut NotedStream<'_, W>,
) -> Result<Outcome, RunError>
    ensures line { IfOk result (Wrote (R.remaining (inner reader.old)) (W.contents (inner writer.old)) (W.contents (inner writer.new))) }
    ensures input { result ≡ Err RunError.Input → W.contents (inner writer.new) ≡ W.contents (inner writer.old) }
    ensures output { result ≡ Err RunError.Output → WroteBeginning (R.remaining (inner reader.old)) (W.contents (inner writer.old)) (W.contents (inner writer.new)) }
    ensures read_failed { has_failed reader.new ≡ (has_failed reader.old || ends_by_read result) }
    ensures write_failed { has_failed writer.new ≡ (has_failed writer.old || ends_by_write result) }
    ensures same_reader { IsSameLoan reader.old reader.new }
    ensures same_writer { IsSameLoan writer.old writer.new }
{
    let (outcome, line) = line_for(alloc, reader)?;
    if write_whole(writer, line.as_bytes()) {
        Ok(outcome)
    } else {
        Err(RunError::Output)
    }
}

/// The line of these bytes: the answer (`Linked`), or a fault (`Refused`), with its line feed.
///
/// It is the line that `run` writes where a reader has these bytes. Want of memory is a fault too, and its line takes none.
pub fn line_of_bytes(alloc: Global, bytes: &[u8]) -> (Outcome, Line)
    ensures line { IsLine result.0 bytes.now (bytes_of result.1) }
{
    match answer_of_bytes(alloc, bytes) {
        Ok(line) => (Outcome::Linked, Line::Made(line)),
        Err(refusal) => (Outcome::Refused, refusal_line(alloc, refusal)),
    }
}

// The line of what the reader has.
fn line_for<R: Read>(
    alloc: Global,
    reader: &mut NotedStream<'_, R>,
) -> Result<(Outcome, Line), RunError>
    ensures line { IfOk result (λ made. IsLineFor (R.remaining (inner reader.old)) made.0 (bytes_of made.1)) }
    ensures error { IfErr result (λ e. e ≡ RunError.Input) }
    ensures failed { has_failed reader.new ≡ (has_failed reader.old || is_err result) }
    ensures same { IsSameLoan reader.old reader.new }
{
    match read_whole(alloc, reader) {
        Ok(bytes) => Ok(line_of_bytes(alloc, &bytes)),
        Err(ReadFault::Input) => Err(RunError::Input),
        Err(ReadFault::Memory) => Ok((Outcome::Refused, memory_line())),
    }
}
