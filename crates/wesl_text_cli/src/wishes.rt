//! What the words wish, in the terms of projects and links.
use crate::words::{flag_of, package_of};
use clap::ArgMatches;
use std::alloc::{AllocError, Global};
use wesl_cond_features::{Feature, Features};
use wesl_text_project::{Description, FeatureSet, ProjectFault, feature_of};

/// Why the program does not go on.
#[derive(Drop)]
pub enum Stop {
    /// Wrong use. It carries what is wrong.
    Use(String),
    /// A fault of the project or of a module.
    Fault(ProjectFault),
}

impl From<ProjectFault> for Stop {
    fn from(fault: ProjectFault) -> Stop {
        Stop::Fault(fault)
    }
}

impl From<AllocError> for Stop {
    fn from(_: AllocError) -> Stop {
        Stop::Fault(ProjectFault::Memory)
    }
}

/// The answers to flags that are given, if any are.
pub fn flags_of<'a>(
    alloc: Global,
    words: Option<&[&'a str]>,
) -> Result<Vec<(&'a str, Feature)>, Stop> {
    let Some(words) = words else {
        return Ok(Vec::new(alloc));
    };
    let mut flags = Vec::new(alloc);
    for word in words.iter() {
        let Some(answer) = flag_of(word) else {
            return Err(Stop::Use(format!(in alloc;
                "`{word}` is not NAME=WORD, with one of the words enable, disable, keep, error"
            )?));
        };
        push(&mut flags, answer)?;
    }
    Ok(flags)
}

/// The packages that are given, if any are, with their folders.
pub fn packages_of<'a>(
    alloc: Global,
    words: Option<&[&'a str]>,
) -> Result<Vec<(&'a str, &'a str)>, Stop> {
    let Some(words) = words else {
        return Ok(Vec::new(alloc));
    };
    let mut packages = Vec::new(alloc);
    for word in words.iter() {
        let Some(package) = package_of(word) else {
            return Err(Stop::Use(format!(in alloc; "`{word}` is not NAME=FOLDER")?));
        };
        push(&mut packages, package)?;
    }
    Ok(packages)
}

// Adds an item to a list.
fn push<T: Drop>(list: &mut Vec<T>, item: T) -> Result<(), AllocError> {
    list.push(item)?;
    Ok(())
}

/// The features that a set and further answers make; none where no condition is judged.
pub fn features_of(
    alloc: Global,
    matches: &ArgMatches<'_>,
    description: &Description,
    given: &[(&str, Feature)],
) -> Result<Option<Features>, Stop> {
    let set = wanted_set(alloc, matches, description)?;
    let is_judged = match set {
        Some(set) => set.is_judged,
        None => true,
    };
    if matches.get_flag("no-features") || !is_judged {
        return Ok(None);
    }
    let mut features = Features::new(alloc);
    if let Some(set) = set {
        add_set(alloc, &mut features, set)?;
    }
    for (name, answer) in given.iter() {
        add_flag(&mut features, String::from_str(alloc, name)?, *answer)?;
    }
    if let Some(word) = matches.get_str("other-features") {
        features.default = feature_of(word).unwrap_or(features.default);
    }
    Ok(Some(features))
}

// The set that is wanted, if one is.
fn wanted_set<'d>(
    alloc: Global,
    matches: &ArgMatches<'_>,
    description: &'d Description,
) -> Result<Option<&'d FeatureSet>, Stop> {
    let Some(name) = matches.get_str("set") else {
        return Ok(None);
    };
    match description.set(name) {
        Some(set) => Ok(Some(set)),
        None => Err(Stop::Fault(unknown_set(alloc, description, name)?)),
    }
}

// The fault of a set that is not there.
fn unknown_set(
    alloc: Global,
    description: &Description,
    name: &str,
) -> Result<ProjectFault, AllocError> {
    let mut sets = String::new(alloc);
    for set in &description.sets {
        if !sets.is_empty() {
            sets.push_str(", ")?;
        }
        sets.push_str(set.name.as_str())?;
    }
    if sets.is_empty() {
        sets.push_str("none")?;
    }
    let file = match &description.file {
        Some(file) => file.as_str(),
        None => "the project",
    };
    Ok(ProjectFault::Project(format!(in alloc;
        "{file} has no set of features `{name}`; it has: {sets}"
    )?))
}

// Adds the answers of a set.
fn add_set(alloc: Global, features: &mut Features, set: &FeatureSet) -> Result<(), AllocError> {
    if let Some(default) = set.default {
        features.default = default;
    }
    for (name, answer) in set.flags.iter() {
        add_flag(features, String::from_str(alloc, name.as_str())?, *answer)?;
    }
    Ok(())
}

// Adds the answer to a flag.
fn add_flag(features: &mut Features, name: String, answer: Feature) -> Result<(), AllocError> {
    features.flags.insert(name, answer)?;
    Ok(())
}
