//! The program as one call: bundles and their lines.
use serde_json::Value;
use wesl::{Outcome, line_of_bytes, run};
use wesl_rows_base::Row;

/// What comes of a run over these bytes, which adds to what is `written`.
fn outcome(row: Row<'_>, bundle: &[u8], written: &mut Vec<u8>) -> Outcome {
    let mut reader = bundle;
    match run(row.alloc, &mut reader, written) {
        Ok(outcome) => outcome,
        Err(_) => {
            // bytes are read without a fault, and a list takes no byte for want of memory alone
            row.refused_if(true);
            Outcome::Refused
        }
    }
}

/// The line that these bytes are, null where they are no compact line of the kind that an outcome tells.
fn compact_line(row: Row<'_>, outcome: Outcome, bytes: &[u8]) -> Value {
    match bytes.split_last() {
        Some((b'\n', text)) => {
            let line = row.or(Value::from_slice(row.alloc, text), Value::Null);
            let compact = row.or(line.to_string(row.alloc), String::new(row.alloc));
            let is_of_kind = (outcome == Outcome::Linked) == line.get("unit").is_some();
            if is_of_kind && compact.as_bytes() == text {
                line
            } else {
                Value::Null
            }
        }
        _ => Value::Null,
    }
}

/// The line that a run over these bytes writes.
fn line_of(row: Row<'_>, bundle: &[u8]) -> Value {
    let mut written = Vec::new(row.alloc);
    let outcome = outcome(row, bundle, &mut written);
    compact_line(row, outcome, written.as_slice())
}

/// The line of the bundle of a row, or of its text.
pub fn ran(row: Row<'_>) -> Value {
    if row.has("bundle") {
        let bundle = row.part("bundle").value.to_string(row.alloc);
        line_of(row, row.or(bundle, String::new(row.alloc)).as_bytes())
    } else {
        line_of(row, row.text("text").as_bytes())
    }
}

/// The line that is made of the bytes of the text of a row.
pub fn line_of_text(row: Row<'_>) -> Value {
    let (outcome, line) = line_of_bytes(row.alloc, row.text("text").as_bytes());
    compact_line(row, outcome, line.as_bytes())
}

/// How many beginnings of the text of a row, the whole not among them, are told to be no JSON.
pub fn refused_beginnings(row: Row<'_>) -> Value {
    let text = row.text("text").as_bytes();
    let mut refused: usize = 0;
    for length in 0..text.len() {
        let mut line = Vec::new(row.alloc);
        outcome(row, &text[..length], &mut line);
        if line.as_slice() == b"{\"args\":[],\"fault\":\"NotJson\"}\n".as_slice() {
            refused = refused.wrapping_add(1);
        }
    }
    Value::from(refused)
}
