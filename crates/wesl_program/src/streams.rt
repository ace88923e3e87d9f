//! Reading and writing whole. A call that was interrupted counts as one that failed.
ghost use Rattle.std.specs.Prelude.{◌≡◌, ◌||◌, IfOk, OnOk, true, false, not, is_err};
ghost use Rattle.std.specs.Io.KnownBytes.{Appends, Consumes, IsAtEnd, ReadConsumes, WriteAppends};
ghost use Rattle.std.specs.Io.{ReadsAtMost, WritesAtMost};
ghost use Rattle.wesl_program.specs.Streams.{AppendsBeginning, IsLoanOf, IsSameLoan, has_failed, inner, is_input, took_none};

use std::alloc::Global;
use std::io::{self, Read, Write};

/// A reader or a writer, lent, with a note whether a read of it failed, or a write failed or took no byte.
///
/// It is read and written by `read_whole` and `write_whole` alone, and only their calls set the note: whoever has a
/// `NotedStream` can neither pass it by nor set or forget what it noted.
#[derive(Drop)]
pub struct NotedStream<'a, S> {
    inner: &'a mut S,
    has_failed: bool,
}

impl<'a, S> NotedStream<'a, S> {
    /// The reader or writer, of which nothing is noted yet.
    pub fn new(stream: &'a mut S) -> NotedStream<'a, S>
        ensures same { IsLoanOf stream.entry result }
        ensures inner { inner result ≡ stream.old }
        ensures unset { has_failed result ≡ false }
    {
        NotedStream {
            inner: stream,
            has_failed: false,
        }
    }

    /// Ends the loan, and tells whether a read failed, or a write failed or took no byte.
    pub fn finish(self) -> bool
        ensures failed { result ≡ has_failed self.entry }
        ensures left { self.exit.0.now ≡ inner self.entry }
    {
        self.has_failed
    }
}

impl<R: Read> NotedStream<'_, R> {
    // One read, which is noted where it fails.
    fn read(&mut self, chunk: &mut [u8]) -> io::Result<usize>
        ensures bound { ReadsAtMost result chunk.new }
        ensures bytes { ReadConsumes (R.remaining (inner self.old)) (R.remaining (inner self.new)) result chunk.new }
        ensures noted { has_failed self.new ≡ (has_failed self.old || is_err result) }
        ensures same { IsSameLoan self.old self.new }
    {
        let result = self.inner.read(chunk);
        self.has_failed |= result.is_err();
        result
    }
}

impl<W: Write> NotedStream<'_, W> {
    // One write, which is noted where it fails or takes no byte.
    fn write(&mut self, bytes: &[u8]) -> io::Result<usize>
        ensures bound { WritesAtMost result bytes.now }
        ensures bytes { WriteAppends (W.contents (inner self.old)) (W.contents (inner self.new)) result bytes.now }
        ensures noted { has_failed self.new ≡ (has_failed self.old || took_none result) }
        ensures same { IsSameLoan self.old self.new }
    {
        let result = self.inner.write(bytes);
        self.has_failed |= matches!(&result, Err(_) | Ok(0));
        result
    }
}

/// Why the reader was not read whole: a read failed, or memory was wanting.
#[derive(Clone, Copy)]
pub enum ReadFault {
    Input,
    Memory,
}

const CHUNK: usize = 16384;

/// All that the reader has left. `ReadFault::Input` comes exactly where a read failed.
pub fn read_whole<R: Read>(
    alloc: Global,
    reader: &mut NotedStream<'_, R>,
) -> Result<Vec<u8>, ReadFault>
    ensures bytes { IfOk result (λ v. Consumes (R.remaining (inner reader.old)) (R.remaining (inner reader.new)) v.items) }
    ensures end { OnOk result (IsAtEnd (R.remaining (inner reader.new))) }
    ensures failed { has_failed reader.new ≡ (has_failed reader.old || is_input result) }
    ensures same { IsSameLoan reader.old reader.new }
{
    let mut bytes = Vec::new(alloc);
    let mut chunk = [0u8; CHUNK];
    for _ in 0..u64::MAX {
        match reader.read(&mut chunk) {
            Ok(0) => return Ok(bytes),
            Ok(count) => if bytes.extend_from_slice(&chunk[..count]).is_err() {
                return Err(ReadFault::Memory);
            },
            Err(_) => return Err(ReadFault::Input),
        }
    }
    Err(ReadFault::Memory)
}

/// Writes the line whole, and is false exactly where a write failed or took no byte.
pub fn write_whole<W: Write>(writer: &mut NotedStream<'_, W>, line: &[u8]) -> bool
    ensures whole { result ≡ true → Appends (W.contents (inner writer.old)) (W.contents (inner writer.new)) line.now }
    ensures beginning { result ≡ false → AppendsBeginning (W.contents (inner writer.old)) (W.contents (inner writer.new)) line.now }
    ensures failed { has_failed writer.new ≡ (has_failed writer.old || not result) }
    ensures same { IsSameLoan writer.old writer.new }
{
    let mut done = 0;
    while done < line.len() {
        match writer.write(&line[done..]) {
            Ok(0) | Err(_) => return false,
            Ok(count) => done += count,
        }
    }
    true
}
