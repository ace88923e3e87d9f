//! What is told of a text.
use serde_json::Value;
use std::alloc::{AllocError, Global};
use wesl_text::{PrintFault, TextFault, print_unit, read_unit};
use wesl_tree::TranslationUnit;

/// What is told, and whether the text is read.
#[derive(Drop)]
pub struct Told {
    pub is_read: bool,
    pub text: String,
}

/// The unit of a text as a line of JSON, or its fault.
pub fn tree(alloc: Global, text: &str) -> Result<Told, AllocError> {
    match read_unit(alloc, text) {
        Ok(unit) => read(tree_line(alloc, &unit)?),
        Err(fault) => faulty(alloc, fault),
    }
}

/// The unit of a text as shader text again, or its fault.
pub fn printed(alloc: Global, text: &str) -> Result<Told, AllocError> {
    match read_unit(alloc, text) {
        Ok(unit) => match print_unit(alloc, &unit) {
            Ok(text) => read(text),
            Err(PrintFault::Memory) => Err(AllocError),
            Err(fault) => not_read(format!(in alloc; "{fault}\n")?),
        },
        Err(fault) => faulty(alloc, fault),
    }
}

/// Nothing, or the fault of a text.
pub fn checked(alloc: Global, text: &str) -> Result<Told, AllocError> {
    match read_unit(alloc, text) {
        Ok(_) => read(String::new(alloc)),
        Err(fault) => faulty(alloc, fault),
    }
}

/// Of each text of a JSON array what [`tree`] tells. It is read where the array is one of texts.
pub fn trees(alloc: Global, array: &str) -> Result<Told, AllocError> {
    let mut lines = String::new(alloc);
    let value = match Value::from_str(alloc, array) {
        Ok(value) => value,
        Err(fault) if fault.is_memory() => return Err(AllocError),
        Err(_) => return not_read(lines),
    };
    let Some(texts) = value.as_array() else {
        return not_read(lines);
    };
    for text in texts {
        match text.as_str() {
            Some(text) => lines.push_str(tree(alloc, text)?.text.as_str())?,
            None => return not_read(lines),
        }
    }
    read(lines)
}

/// What is told of bytes that are no text.
pub fn no_text(alloc: Global) -> Result<Told, AllocError> {
    not_read(String::from_str(alloc, "{\"fault\":\"no UTF-8\"}\n")?)
}

// What is told of a text that is read.
fn read(text: String) -> Result<Told, AllocError> {
    Ok(Told {
        is_read: true,
        text,
    })
}

// What is told of one that is not.
fn not_read(text: String) -> Result<Told, AllocError> {
    Ok(Told {
        is_read: false,
        text,
    })
}

// A unit as a line of JSON, in the form with places.
fn tree_line(alloc: Global, unit: &TranslationUnit) -> Result<String, AllocError> {
    let Ok(value) = wesl_json::value_of_unit_2(alloc, unit) else {
        return Err(AllocError);
    };
    let mut line = value.to_string(alloc)?;
    line.push_str("\n")?;
    Ok(line)
}

// A fault as a line of JSON. Want of memory is answered as such.
fn faulty(alloc: Global, fault: TextFault<'_>) -> Result<Told, AllocError> {
    if let TextFault::Memory = fault {
        return Err(AllocError);
    }
    let words = format!(in alloc; "{fault}")?;
    let told = Value::try_from_str(alloc, words.as_str())?.to_string(alloc)?;
    let line = match fault.place() {
        Some(place) => format!(in alloc; "{{\"fault\":{told},\"start\":{place}}}\n")?,
        None => format!(in alloc; "{{\"fault\":{told}}}\n")?,
    };
    not_read(line)
}
