//! Features: answers by the names of flags.
use serde_json::Value;
use wesl::{Feature, Features};
use wesl_rows_base::{List, Row, is_refused, text_of};

/// The answer that a word names.
fn feature(word: &Value) -> Feature {
    match text_of(word) {
        "enable" => Feature::Enable,
        "disable" => Feature::Disable,
        "keep" => Feature::Keep,
        _ => Feature::Error,
    }
}

/// The word of an answer.
pub fn word(feature: Feature) -> &'static str {
    match feature {
        Feature::Enable => "enable",
        Feature::Disable => "disable",
        Feature::Keep => "keep",
        Feature::Error => "error",
    }
}

/// Lists the answer of a flag.
pub fn listed(row: Row<'_>, features: &mut Features, name: &str, answer: Feature) {
    row.refused_if(is_refused(features.flags.insert(row.copy_of(name), answer)));
}

/// The features at a key: answers by the names of flags, and the default answer if `default` is among the keys.
pub fn features(row: Row<'_>, key: &str) -> Features {
    let mut features = Features::new(row.alloc);
    if let Value::Object(words) = row.part(key).value {
        for (name, word) in words.iter() {
            if name.as_str() == "default" {
                features.default = feature(word);
            } else {
                listed(row, &mut features, name.as_str(), feature(word));
            }
        }
    }
    features
}

/// Two sets of features, one after the other, in one.
pub fn both(row: Row<'_>, first: &Features, second: &Features) -> Features {
    row.or(first.then(row.alloc, second), Features::new(row.alloc))
}

/// The `features`, and then `next` if they are there, in one set.
pub fn composed(row: Row<'_>) -> Features {
    let first = features(row, "features");
    if row.has("next") {
        both(row, &first, &features(row, "next"))
    } else {
        first
    }
}

/// What the `features` and then `next` answer for the flags of these `names`.
pub fn answers_then(row: Row<'_>) -> Value {
    let both = composed(row);
    let mut answers = List::new(row.alloc);
    for name in row.list("names") {
        answers.text(word(both.answer(text_of(name))));
    }
    answers.end(row)
}
