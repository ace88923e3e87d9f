//! Readers and writers that fail, and bytes that are no text.
use serde_json::Value;
use std::alloc::Global;
use std::io::{self, Read, Write};
use wesl::{Outcome, RunError, run};
use wesl_rows_base::Row;

const BUNDLE: &[u8] = b"{\"root\":\"package::m\"}";

const LINE: &[u8] =
    b"{\"args\":[\"package::m\",\"virtual module\"],\"fault\":\"ModuleNotFound\"}\n";

// Gives one byte a call, and fails at the call of this number.
#[derive(Drop)]
struct SlowReader {
    given: usize,
    fails_at: usize,
}

impl Read for SlowReader {
    fn read(&mut self, buf: &mut [u8]) -> io::Result<usize> {
        if self.given == self.fails_at {
            return Err(io::Error::other("no more"));
        }
        if self.given < BUNDLE.len() && !buf.is_empty() {
            buf[0] = BUNDLE[self.given];
            self.given += 1;
            return Ok(1);
        }
        Ok(0)
    }
}

// Takes one byte a call, and at the call of this number fails, or takes none.
#[derive(Drop)]
struct SlowWriter {
    taken: Vec<u8>,
    stops_at: usize,
    fails: bool,
}

impl Write for SlowWriter {
    fn write(&mut self, buf: &[u8]) -> io::Result<usize> {
        if self.taken.len() < self.stops_at && !buf.is_empty() {
            self.taken.push(buf[0])?;
            return Ok(1);
        }
        if self.fails {
            Err(io::Error::other("no room"))
        } else {
            Ok(0)
        }
    }

    fn flush(&mut self) -> io::Result<()> {
        Ok(())
    }
}

/// Whether a run whose reader fails at each call in turn ends so, with nothing written.
pub fn unread(row: Row<'_>) -> Value {
    let alloc = row.alloc;
    let mut is_silent = true;
    for fails_at in 0..BUNDLE.len() {
        let mut reader = SlowReader { given: 0, fails_at };
        let mut writer = Vec::new(alloc);
        let ended = run(alloc, &mut reader, &mut writer);
        is_silent &= ended == Err(RunError::Input) && writer.is_empty();
    }
    Value::Bool(is_silent)
}

/// Whether a run that reads and writes a byte at a time writes the line.
pub fn slow(row: Row<'_>) -> Value {
    let alloc = row.alloc;
    let mut reader = SlowReader {
        given: 0,
        fails_at: usize::MAX,
    };
    let mut writer = SlowWriter {
        taken: Vec::new(alloc),
        stops_at: usize::MAX,
        fails: true,
    };
    let ended = run(alloc, &mut reader, &mut writer);
    Value::Bool(ended == Ok(Outcome::Refused) && writer.taken.as_slice() == LINE)
}

/// Whether a run whose writer stops at this byte ends so, with the beginning of the line written.
fn leaves_a_beginning(alloc: Global, stops_at: usize, fails: bool) -> bool {
    let mut reader = BUNDLE;
    let mut writer = SlowWriter {
        taken: Vec::new(alloc),
        stops_at,
        fails,
    };
    let ended = run(alloc, &mut reader, &mut writer);
    ended == Err(RunError::Output) && LINE.get(..stops_at) == Some(writer.taken.as_slice())
}

/// Whether a run whose writer fails, or takes nothing, at each byte in turn leaves the beginning of the line.
pub fn unwritten(row: Row<'_>) -> Value {
    let alloc = row.alloc;
    let mut is_beginning = true;
    for stops_at in 0..LINE.len() {
        is_beginning &= leaves_a_beginning(alloc, stops_at, false);
        is_beginning &= leaves_a_beginning(alloc, stops_at, true);
    }
    Value::Bool(is_beginning)
}

/// The line of bytes that are no text, as a text.
pub fn no_text(row: Row<'_>) -> Value {
    let alloc = row.alloc;
    let mut reader: &[u8] = &[34, 255, 34];
    let mut writer = Vec::new(alloc);
    let ended = run(alloc, &mut reader, &mut writer);
    let is_line = writer.as_slice() == b"{\"args\":[],\"fault\":\"NotJson\"}\n".as_slice();
    Value::Bool(ended == Ok(Outcome::Refused) && is_line)
}
