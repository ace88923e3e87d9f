//! What a link is asked for, as a bundle has it.
use serde_json::{Map, Value, push, put};
use std::alloc::{AllocError, Global};
use wesl_cond_features::{Feature, Features};
use wesl_text_link::Naming;

/// The word of a mangler.
pub(crate) fn mangler_word(naming: Naming) -> &'static str {
    match naming {
        Naming::Escape => "escape",
        Naming::Unicode => "unicode",
        Naming::Own => "none",
    }
}

/// A list of texts.
pub(crate) fn texts_value(alloc: Global, texts: &[String]) -> Result<Value, AllocError> {
    let mut values = Vec::new(alloc);
    for text in texts {
        push(&mut values, Value::try_from_str(alloc, text.as_str())?)?;
    }
    Ok(Value::Array(values))
}

/// The answers to flags.
pub(crate) fn features_value(alloc: Global, features: &Features) -> Result<Value, AllocError> {
    let mut members = Map::new(alloc);
    let default = Value::try_from_str(alloc, answer_word(features.default))?;
    put(&mut members, alloc, "default", default)?;
    let mut flags = Map::new(alloc);
    for (name, answer) in features.flags.iter() {
        let word = Value::try_from_str(alloc, answer_word(*answer))?;
        put(&mut flags, alloc, name.as_str(), word)?;
    }
    if !flags.is_empty() {
        put(&mut members, alloc, "flags", Value::Object(flags))?;
    }
    Ok(Value::Object(members))
}

// The word of an answer to a flag.
fn answer_word(answer: Feature) -> &'static str {
    match answer {
        Feature::Enable => "enable",
        Feature::Disable => "disable",
        Feature::Keep => "keep",
        Feature::Error => "error",
    }
}
