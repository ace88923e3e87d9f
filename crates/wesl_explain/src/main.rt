//! The program `wesl-explain`: a bundle in, and why its link is as it is, told to a person, as JSON or as a graph.
#![tactic(auto)]

mod as_json;
mod faults_json;
mod telling;
mod words;

use crate::telling::{bytes_of, told_of, write_told};
use crate::words::{command, wish_of};
use std::fs::File;
use std::process::ExitCode;

/// Ends with 0 where the bundle links, with 1 where it is refused, and with 2 for wrong words and where a read or a write
/// failed.
fn main(rt: HostRuntime) -> ExitCode {
    let alloc = rt.alloc();
    let words: Vec<String> = match std::env::args(&rt) {
        Ok(given) => match given.collect(alloc) {
            Ok(words) => words,
            Err(_) => return ExitCode::from(2),
        },
        Err(_) => return ExitCode::from(2),
    };
    let command = match command(alloc) {
        Ok(command) => command,
        Err(_) => return ExitCode::from(2),
    };
    let matches = match command.try_get_matches_from(words.as_slice()) {
        Ok(matches) => matches,
        Err(error) => {
            let is_mistake = error.use_stderr();
            return match error.print(&rt) {
                Ok(()) if !is_mistake => ExitCode::SUCCESS,
                _ => ExitCode::from(2),
            };
        }
    };
    let wish = wish_of(&matches);
    let bytes = match wish.file {
        None => bytes_of(alloc, &mut rt.stdin()),
        Some(path) => match File::open(&rt, path) {
            Ok(mut file) => bytes_of(alloc, &mut file),
            Err(_) => None,
        },
    };
    let Some(bytes) = bytes else {
        let name = wish.file.unwrap_or("on standard input");
        let _ = eprintln!(rt; "wesl-explain: the bundle {name} cannot be read");
        return ExitCode::from(2);
    };
    let told = match told_of(alloc, &bytes, wish.form) {
        Ok(told) => told,
        Err(_) => {
            let _ = eprintln!(rt; "wesl-explain: out of memory");
            return ExitCode::from(2);
        }
    };
    write_told(&told, &mut rt.stdout()).status()
}
