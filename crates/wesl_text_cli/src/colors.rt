//! Colors of what is told on a terminal.
use clap::ArgMatches;
use std::alloc::{AllocError, Global};
use std::env;
use std::io::IsTerminal;

/// Whether what is told is colored: as `--color` says, or where it says nothing else on a terminal without NO_COLOR.
pub fn is_colored(rt: &HostRuntime, matches: &ArgMatches<'_>) -> bool {
    match matches.get_str("color") {
        Some("always") => true,
        Some("never") => false,
        _ => rt.stderr().is_terminal() && !has_no_color(rt),
    }
}

// Whether the variable NO_COLOR has a value.
fn has_no_color(rt: &HostRuntime) -> bool {
    match env::var(rt, "NO_COLOR") {
        Ok(value) => !value.is_empty(),
        Err(_) => false,
    }
}

/// Lines with the words `error` and `note` behind places in colors.
pub fn colored(alloc: Global, lines: &str) -> Result<String, AllocError> {
    let mut text = String::new(alloc);
    for line in lines.lines() {
        if !text.is_empty() {
            text.push('\n')?;
        }
        add_line(&mut text, line)?;
    }
    Ok(text)
}

// Adds a line, in colors where it tells an error or a note.
fn add_line(text: &mut String, line: &str) -> Result<(), AllocError> {
    if let Some((place, words)) = line.split_once(": error: ") {
        return add_told(text, place, "\u{1b}[1;31merror:", words);
    }
    if let Some((place, words)) = line.split_once(": note: ") {
        return add_told(text, place, "\u{1b}[1;36mnote:", words);
    }
    text.push_str(line)
}

// Adds a place, a kind in its color, and words.
fn add_told(text: &mut String, place: &str, kind: &str, words: &str) -> Result<(), AllocError> {
    text.push_str("\u{1b}[1m")?;
    text.push_str(place)?;
    text.push_str(":\u{1b}[0m ")?;
    text.push_str(kind)?;
    text.push_str("\u{1b}[0m ")?;
    text.push_str(words)
}
