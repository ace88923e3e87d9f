//! The program `wesl-text-rows`: shader text on standard input, read and told, for rows and comparisons.
//!
//! `--tree` tells the unit that the text says as JSON in the form with places, or the fault as `{"fault":..,"start":..}`; `--print` as
//! shader text; `--check` tells nothing but a fault. `--trees` reads a JSON array of texts, and tells of each what `--tree` tells, on a
//! line of its own.
#![tactic(auto)]

mod telling;
mod words;

use crate::telling::{Told, checked, no_text, printed, tree, trees};
use crate::words::{Wish, wish_of};
use std::alloc::{AllocError, Global};
use std::io::{Read, Write};
use std::process::ExitCode;

/// Ends with 0 where the text is read, with 1 where it has a fault, and with 2 for wrong words, want of memory, and where a read or a
/// write failed.
fn main(rt: HostRuntime) -> ExitCode {
    let alloc = rt.alloc();
    let Some(wish) = words_of(&rt) else {
        let _ = eprintln!(rt; "wesl-text-rows: expected --tree, --trees, --print or --check");
        return ExitCode::from(2);
    };
    let mut bytes = Vec::new(alloc);
    if rt.stdin().read_to_end(&mut bytes).is_err() {
        let _ = eprintln!(rt; "wesl-text-rows: the text cannot be read");
        return ExitCode::from(2);
    }
    match told_of_bytes(alloc, wish, bytes.as_slice()) {
        Ok(told) => write(&told, &mut rt.stdout()),
        Err(_) => ExitCode::from(2),
    }
}

// What is told of bytes, which may be no text.
fn told_of_bytes(alloc: Global, wish: Wish, bytes: &[u8]) -> Result<Told, AllocError> {
    match std::str::from_utf8(bytes) {
        Ok(text) => told(alloc, wish, text),
        Err(_) => no_text(alloc),
    }
}

// What is wished by the first word behind the program's name.
fn words_of(rt: &HostRuntime) -> Option<Wish> {
    let words: Vec<String> = match std::env::args(rt) {
        Ok(given) => match given.collect(rt.alloc()) {
            Ok(words) => words,
            Err(_) => return None,
        },
        Err(_) => return None,
    };
    match words.as_slice() {
        [_program, word] => wish_of(word.as_str()),
        _ => None,
    }
}

// What is told of a text.
fn told(alloc: Global, wish: Wish, text: &str) -> Result<Told, AllocError> {
    match wish {
        Wish::Tree => tree(alloc, text),
        Wish::Trees => trees(alloc, text),
        Wish::Print => printed(alloc, text),
        Wish::Check => checked(alloc, text),
    }
}

// Writes what is told.
fn write<W: Write>(told: &Told, out: &mut W) -> ExitCode {
    if out.write_all(told.text.as_bytes()).is_err() {
        return ExitCode::from(2);
    }
    if told.is_read {
        ExitCode::SUCCESS
    } else {
        ExitCode::from(1)
    }
}
