//! The program `wesl-text`: links a folder of WESL files and prints the linked unit as WGSL.
#![tactic(auto)]

mod colors;
mod depfile;
mod finishing;
mod libraries;
mod running;
mod wishes;
mod words;

use crate::colors::{colored, is_colored};
use crate::running::{Outcome, outcome_of};
use crate::wishes::Stop;
use crate::words::command;
use clap::ArgMatches;
use std::io::Write;
use std::process::ExitCode;
use std::{fs, io};
use wesl_text_project::{Progress, ProjectFault};

/// Ends with 0 where the project is linked, with 1 for a fault, with 2 for wrong use, and with 3 where a text was written that is not
/// what the modules mean.
fn main(rt: HostRuntime) -> ExitCode {
    let alloc = rt.alloc();
    let words: Vec<String> = match std::env::args(&rt) {
        Ok(given) => match given.collect(alloc) {
            Ok(words) => words,
            Err(_) => return ExitCode::from(1),
        },
        Err(_) => return ExitCode::from(1),
    };
    let command = match command(alloc) {
        Ok(command) => command,
        Err(_) => return ExitCode::from(1),
    };
    match command.try_get_matches_from(words.as_slice()) {
        Ok(matches) => run(&rt, &matches),
        Err(error) => {
            let is_mistake = error.use_stderr();
            match error.print(&rt) {
                Ok(()) if !is_mistake => ExitCode::SUCCESS,
                _ => ExitCode::from(2),
            }
        }
    }
}

// Links, and writes what came of it.
fn run(rt: &HostRuntime, matches: &ArgMatches<'_>) -> ExitCode {
    let progress = if matches.get_flag("progress") {
        Some(Progress::new(*rt))
    } else {
        None
    };
    match outcome_of(rt, matches, progress) {
        Ok(outcome) => write(rt, matches, &outcome),
        Err(Stop::Use(text)) => {
            let _ = eprintln!(rt; "wesl-text: {text}");
            ExitCode::from(2)
        }
        Err(Stop::Fault(fault)) => {
            tell(rt, matches, &fault);
            ExitCode::from(1)
        }
    }
}

// Tells a fault.
fn tell(rt: &HostRuntime, matches: &ArgMatches<'_>, fault: &ProjectFault) {
    let _ = match fault {
        ProjectFault::Project(text) => eprintln!(rt; "wesl-text: {text}"),
        ProjectFault::Module(lines) => tell_lines(rt, matches, lines.as_str()),
        ProjectFault::Memory => eprintln!(rt; "wesl-text: there was no memory"),
    };
}

// Tells lines with places.
fn tell_lines(rt: &HostRuntime, matches: &ArgMatches<'_>, lines: &str) -> io::Result<()> {
    if is_colored(rt, matches) {
        let lines = colored(rt.alloc(), lines)?;
        eprintln!(rt; "{lines}")
    } else {
        eprintln!(rt; "{lines}")
    }
}

// Writes what came of a link, and tells what is told beside it.
fn write(rt: &HostRuntime, matches: &ArgMatches<'_>, outcome: &Outcome) -> ExitCode {
    if !is_written(rt, matches, outcome) {
        let _ = eprintln!(rt;
            "wesl-text: the text, its bundle, its depfile or its map cannot be written"
        );
        return ExitCode::from(1);
    }
    for warning in &outcome.warnings {
        let _ = tell_lines(rt, matches, warning.as_str());
    }
    if let Some(fault) = &outcome.fault {
        tell(rt, matches, fault);
        return ExitCode::from(1);
    }
    if outcome.is_as_meant {
        ExitCode::SUCCESS
    } else {
        ExitCode::from(3)
    }
}

// Writes the text, the bundle, the rule and the map, so far as there are files for them.
fn is_written(rt: &HostRuntime, matches: &ArgMatches<'_>, outcome: &Outcome) -> bool {
    let is_shown = match (matches.get_str("output"), &outcome.text) {
        (None, Some(text)) => rt.stdout().write_all(text.as_bytes()).is_ok(),
        (file, text) => is_filed(rt, file, text.as_ref()),
    };
    is_shown
        && is_filed(rt, matches.get_str("bundle"), outcome.bundle.as_ref())
        && is_filed(rt, matches.get_str("depfile"), outcome.rule.as_ref())
        && is_filed(rt, matches.get_str("map"), outcome.map.as_ref())
}

// Writes a text to a file, where there are both.
fn is_filed(rt: &HostRuntime, file: Option<&str>, text: Option<&String>) -> bool {
    match (file, text) {
        (Some(file), Some(text)) => fs::write(rt, file, text.as_str()).is_ok(),
        _ => true,
    }
}
