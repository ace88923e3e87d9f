//! The rule of the files on which a text depends, for make and ninja.
use clap::ArgMatches;
use std::alloc::{AllocError, Global};
use wesl_text_project::Description;

/// A Makefile rule for the output, or else for the depfile without its ending, and an empty one for each file, so that one that is
/// gone is no error.
pub fn rule_of(
    alloc: Global,
    matches: &ArgMatches<'_>,
    files: &[&str],
    description: &Description,
) -> Result<String, AllocError> {
    let mut shown = Vec::new(alloc);
    for file in files.iter() {
        shown.push(escaped(alloc, file)?)?;
    }
    if let Some(file) = &description.file {
        shown.push(escaped(alloc, file.as_str())?)?;
    }
    let target = escaped(alloc, target_of(matches))?;
    let mut rule = target;
    rule.push(':')?;
    for file in &shown {
        rule.push(' ')?;
        rule.push_str(file.as_str())?;
    }
    rule.push('\n')?;
    for file in &shown {
        rule.push_str(file.as_str())?;
        rule.push_str(":\n")?;
    }
    Ok(rule)
}

// For which file the rule is.
fn target_of<'a>(matches: &ArgMatches<'a>) -> &'a str {
    if let Some(output) = matches.get_str("output") {
        return output;
    }
    let depfile = matches.get_str("depfile").unwrap_or("");
    match depfile.rsplit_once('.') {
        Some((name, ending)) if !ending.contains('/') && !name.is_empty() => name,
        _ => depfile,
    }
}

// The name of a file as a Makefile has it.
fn escaped(alloc: Global, file: &str) -> Result<String, AllocError> {
    let mut name = String::new(alloc);
    for character in file.chars() {
        match character {
            '$' => name.push_str("$$")?,
            '#' => name.push_str("\\#")?,
            ' ' => name.push_str("\\ ")?,
            other => name.push(other)?,
        }
    }
    Ok(name)
}
