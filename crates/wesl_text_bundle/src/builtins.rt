//! The names that are built in.
use serde_json::{Map, Value, push, put};
use std::alloc::{AllocError, Global};
use wesl_text_project::ProjectFault;
use wesl_validate_builtins::Builtins;
use wesl_validate_wgsl::{CONSTRUCTORS, FUNCTIONS, OTHERS, wgsl_builtins};

/// The names that are built in: those of a text of JSON, or without one those of WGSL.
pub fn read_builtins(
    alloc: Global,
    file: &str,
    text: Option<&str>,
) -> Result<Builtins, ProjectFault> {
    let Some(text) = text else {
        return Ok(wgsl_builtins(alloc)?);
    };
    match Value::from_str(alloc, text) {
        Ok(value) => Ok(Builtins::new(
            listed(alloc, file, &value, "names")?,
            listed(alloc, file, &value, "functions")?,
            listed(alloc, file, &value, "constructors")?,
        )),
        Err(fault) => Err(ProjectFault::Project(format!(in alloc; "{file}: {fault}")?)),
    }
}

// The texts at a key.
fn listed(
    alloc: Global,
    file: &str,
    value: &Value,
    key: &str,
) -> Result<Vec<String>, ProjectFault> {
    let Some(items) = value.get(key).and_then(Value::as_array) else {
        return Err(ProjectFault::Project(format!(in alloc; "{file}: `{key}` is no list")?));
    };
    let mut texts = Vec::new(alloc);
    for item in items {
        let Some(text) = item.as_str() else {
            return Err(ProjectFault::Project(format!(in alloc;
                "{file}: `{key}` is no list of names"
            )?));
        };
        texts.push(String::from_str(alloc, text)?)?;
    }
    Ok(texts)
}

// A list of texts that are lent.
fn names_value(alloc: Global, names: &[&str]) -> Result<Value, AllocError> {
    let mut values = Vec::new(alloc);
    for name in names.iter() {
        push(&mut values, Value::try_from_str(alloc, name)?)?;
    }
    Ok(Value::Array(values))
}

/// The names that WGSL declares, as the key `builtins` has them. Refused for want of memory alone.
pub fn wgsl_value(alloc: Global) -> Result<Value, AllocError> {
    let mut names = Vec::from_slice(alloc, FUNCTIONS.as_slice())?;
    names.extend_from_slice(CONSTRUCTORS.as_slice())?;
    names.extend_from_slice(OTHERS.as_slice())?;
    names.sort()?;
    let mut members = Map::new(alloc);
    put(&mut members, alloc, "names", names_value(alloc, &names)?)?;
    put(
        &mut members,
        alloc,
        "functions",
        names_value(alloc, FUNCTIONS.as_slice())?,
    )?;
    put(
        &mut members,
        alloc,
        "constructors",
        names_value(alloc, CONSTRUCTORS.as_slice())?,
    )?;
    Ok(Value::Object(members))
}

/// The names of a text of JSON as the key `builtins` has them; none where the text has none. Refused for want of memory alone.
pub fn builtins_value(alloc: Global, text: &str) -> Result<Value, AllocError> {
    let mut members = Map::new(alloc);
    if let Ok(value) = Value::from_str(alloc, text) {
        for key in ["names", "functions", "constructors"] {
            if let Some(listed) = value.get(key) {
                put(&mut members, alloc, key, listed.clone()?)?;
            }
        }
    }
    Ok(Value::Object(members))
}
