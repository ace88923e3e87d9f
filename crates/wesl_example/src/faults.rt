//! All faults of a unit, as lines.
use std::alloc::Global;
use wesl_cond::Features;
use wesl_cond_faults::faults;
use wesl_scope::Builtins;
use wesl_tree::{Error, TranslationUnit};
use wesl_validate_faults::faults_wesl;

/// A line for each fault of the conditions of a unit, with the bytes of the source that it stands at, where they are known.
pub fn condition_faults(
    alloc: Global,
    unit: &TranslationUnit,
    features: &Features,
) -> Result<String, Error> {
    let mut text = String::new(alloc);
    for told in &faults(alloc, unit, features)? {
        let line = match told.span {
            Some(span) => format!(in alloc; "{}..{}: {told}\n", span.start, span.end)?,
            None => format!(in alloc; "{told}\n")?,
        };
        text.push_str(line.as_str())?;
    }
    Ok(text)
}

/// A line for each fault of a unit, which names the declaration that holds it.
pub fn unit_faults(
    alloc: Global,
    unit: &TranslationUnit,
    builtins: &Builtins,
) -> Result<String, Error> {
    let mut text = String::new(alloc);
    for told in &faults_wesl(alloc, unit, builtins)? {
        text.push_str(format!(in alloc; "{told}\n")?.as_str())?;
    }
    Ok(text)
}
