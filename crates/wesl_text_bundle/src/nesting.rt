//! Values that lie in one another.
use serde_json::{Map, Value, push, put};
use std::alloc::{AllocError, Global};

// What stands between the parts of a key. It is no character of a file's name.
const BETWEEN: char = '\u{0}';

/// The key of names: keys have the order of their names, with each before those that begin with its names.
pub(crate) fn key_of(alloc: Global, names: &[String]) -> Result<String, AllocError> {
    let mut key = String::new(alloc);
    for (index, name) in names.iter().enumerate() {
        if index > 0 {
            key.push(BETWEEN)?;
        }
        key.push_str(name.as_str())?;
    }
    Ok(key)
}

/// How many names a key has.
pub(crate) fn depth_of(key: &str) -> usize {
    key.split(BETWEEN).count()
}

/// The last name of a key.
pub(crate) fn last_of(key: &str) -> &str {
    match key.rsplit_once(BETWEEN) {
        Some((_, last)) => last,
        None => key,
    }
}

/// An object, and in how many others it lies.
#[derive(Drop)]
pub(crate) struct Entry {
    /// in how many others it lies
    pub(crate) depth: usize,
    /// its members
    pub(crate) members: Map<String, Value>,
}

/// The objects that lie in no other, each with those that lie in it at a key. Each stands before those that lie in it.
pub(crate) fn nested(
    alloc: Global,
    entries: Vec<Entry>,
    key: &str,
) -> Result<Vec<Value>, AllocError> {
    let mut left = entries;
    let mut waiting = Vec::new(alloc);
    for _entry in 0..left.len() {
        if let Some(entry) = left.pop() {
            let Entry { depth, mut members } = entry;
            let count = deeper(&waiting, depth);
            let inner = taken(alloc, &mut waiting, count)?;
            if !inner.is_empty() {
                put(&mut members, alloc, key, Value::Array(inner))?;
            }
            waiting.push((depth, Value::Object(members)))?;
        }
    }
    let count = waiting.len();
    taken(alloc, &mut waiting, count)
}

// How many values at the end of a list lie deeper.
fn deeper(waiting: &[(usize, Value)], depth: usize) -> usize {
    let mut count: usize = 0;
    for index in (0..waiting.len()).rev() {
        let is_deeper = match waiting.get(index) {
            Some((inner, _)) => *inner > depth,
            None => false,
        };
        if !is_deeper {
            return count;
        }
        count = count.saturating_add(1);
    }
    count
}

// Takes so many values from the end of a list, the last first.
fn taken(
    alloc: Global,
    waiting: &mut Vec<(usize, Value)>,
    count: usize,
) -> Result<Vec<Value>, AllocError> {
    let mut values = Vec::new(alloc);
    for _value in 0..count {
        if let Some((_, value)) = waiting.pop() {
            push(&mut values, value)?;
        }
    }
    Ok(values)
}
