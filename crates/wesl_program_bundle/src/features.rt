//! The answers for feature flags (WESL, "ConditionalTranslation").
ghost use Rattle.std.specs.Prelude.{◌≡◌, [], Some, IfOk, IfErr, option_and_then, option_map};
ghost use Rattle.serde_json.specs.Find.{get};
ghost use Rattle.serde_json.specs.View.{view};
ghost use Rattle.wesl_json_form.specs.View.{borrowed_view};
ghost use Rattle.wesl_program_bundle.specs.Broken.{Locates, LocatesMember};
ghost use Rattle.wesl_program_bundle.specs.Features.{answer_for, feature_in, feature_of as named_feature, features_in, flags_in};
ghost use Rattle.wesl_program_bundle.specs.Forms.{a_feature, an_object_of, optional, some_features};
ghost use Rattle.wesl_program_bundle.specs.Reading.{optional_in, or_default};
ghost use Rattle.wesl_program_bundle.specs.Views.{features_view, flags_view};
ghost use Rattle.wesl_cond_features.specs.Features.{answer_to};
ghost use Rattle.wesl_program_bundle.specs.Parts.{IsFlagFault, IsGrown, IsWithFlag};
ghost use Rattle.wesl_program_bundle.specs.declared.members.BundleError.TheVariants.{Memory};
ghost use Rattle.wesl_cond_features.specs.declared.features.Feature.TheVariants.{Disable};
ghost use Rattle.wesl_tree_names.specs.Path.{Text};

use crate::joined::{both, inside, only, stated};
use crate::members::{BundleError, wrong};
use serde_json::Value;
use std::alloc::Global;
use std::collections::BTreeMap;
use wesl_cond_features::{Feature, Features};
use wesl_json_form::BorrowedValue;
use wesl_json_light::value_of_borrowed;

/// What features answer for a flag is what a bundle says for it.
pub fn law_of_answers(features: &Features)
    ensures { (name : Text) → answer_to features.now name ≡ answer_for (features_view features.now) name }
{}

// The features at the key, none where it is not there.
pub(crate) fn features_member(
    alloc: Global,
    value: &BorrowedValue<'_>,
    key: &str,
) -> Result<Option<Features>, BundleError>
    ensures ok { IfOk result (λ f. optional_in features_in (get key.now (borrowed_view value.now)) ≡ Some (option_map features_view f)) }
    ensures place { IfErr result (LocatesMember (optional key.now some_features) (borrowed_view value.now)) }
{
    match value.get(key) {
        Some(found) => inside(alloc, key, features_of(alloc, found)),
        None => Ok(None),
    }
}

fn features_of(alloc: Global, value: &BorrowedValue<'_>) -> Result<Option<Features>, BundleError>
    ensures ok { IfOk result (λ f. optional_in features_in (Some (borrowed_view value.now)) ≡ Some (option_map features_view f)) }
    ensures place { IfErr result (Locates some_features (borrowed_view value.now)) }
{
    let default = feature_member(alloc, value, "default");
    let flags = flags_member(alloc, value, "flags");
    match only(alloc, value, &["default", "flags"], both(default, flags)) {
        Ok((default, flags)) => Ok(Some(Features { default, flags })),
        Err(error) => Err(error),
    }
}

// The answer at the key; where it is not there, flags are disabled.
fn feature_member(
    alloc: Global,
    value: &BorrowedValue<'_>,
    key: &str,
) -> Result<Feature, BundleError>
    ensures ok { IfOk result (λ f. or_default Disable feature_in (get key.now (borrowed_view value.now)) ≡ Some f) }
    ensures place { IfErr result (LocatesMember (optional key.now a_feature) (borrowed_view value.now)) }
{
    match value.get(key) {
        Some(word) => stated(alloc, key, feature_of(word.as_str())),
        None => Ok(Feature::Disable),
    }
}

// The answer that a word names.
fn feature_of(word: Option<&str>) -> Option<Feature>
    ensures { result ≡ option_and_then named_feature (option_map (λ s. s.now) word.entry) }
{
    match word {
        Some("enable") => Some(Feature::Enable),
        Some("disable") => Some(Feature::Disable),
        Some("keep") => Some(Feature::Keep),
        Some("error") => Some(Feature::Error),
        _ => None,
    }
}

// The flags at the key, none where it is not there.
fn flags_member(
    alloc: Global,
    value: &BorrowedValue<'_>,
    key: &str,
) -> Result<BTreeMap<String, Feature>, BundleError>
    ensures ok { IfOk result (λ f. or_default [] flags_in (get key.now (borrowed_view value.now)) ≡ Some (flags_view f)) }
    ensures place { IfErr result (LocatesMember (optional key.now (an_object_of a_feature)) (borrowed_view value.now)) }
{
    match value.get(key) {
        Some(found) => inside(alloc, key, sorted_flags(alloc, found)),
        None => Ok(BTreeMap::new(alloc)),
    }
}

// Flags stand in the order of their names, and so do the members of a value with texts of its own.
fn sorted_flags(
    alloc: Global,
    value: &BorrowedValue<'_>,
) -> Result<BTreeMap<String, Feature>, BundleError>
    ensures ok { IfOk result (λ f. flags_in (borrowed_view value.now) ≡ Some (flags_view f)) }
    ensures place { IfErr result (Locates (an_object_of a_feature) (borrowed_view value.now)) }
{
    match value_of_borrowed(alloc, value) {
        Ok(sorted) => flags_of(alloc, &sorted),
        Err(_) => Err(BundleError::Memory),
    }
}

fn flags_of(alloc: Global, value: &Value) -> Result<BTreeMap<String, Feature>, BundleError>
    ensures ok { IfOk result (λ f. flags_in (view value.now) ≡ Some (flags_view f)) }
    ensures place { IfErr result (Locates (an_object_of a_feature) (view value.now)) }
{
    let Some(members) = value.as_object() else {
        return Err(wrong(alloc));
    };
    let mut flags = Ok(BTreeMap::new(alloc));
    for (name, word) in members.iter() {
        let answer = stated(alloc, name.as_str(), feature_of(word.as_str()));
        flags = with_flag(flags, name, answer);
    }
    flags
}

// The flags, with one more, or the first fault.
fn with_flag(
    flags: Result<BTreeMap<String, Feature>, BundleError>,
    name: &String,
    answer: Result<Feature, BundleError>,
) -> Result<BTreeMap<String, Feature>, BundleError>
    ensures ok { IfOk result (IsWithFlag flags name.now answer) }
    ensures place { IfErr result (IsFlagFault flags answer) }
{
    match both(flags, answer) {
        Ok((flags, feature)) => put_flag(flags, name, feature),
        Err(error) => Err(error),
    }
}

fn put_flag(
    mut flags: BTreeMap<String, Feature>,
    name: &String,
    feature: Feature,
) -> Result<BTreeMap<String, Feature>, BundleError>
    ensures ok { IfOk result (IsGrown flags name.now feature) }
    ensures refused { IfErr result (λ e. e ≡ Memory) }
{
    match name.clone() {
        Ok(name) => match flags.insert(name, feature) {
            Ok(_) => Ok(flags),
            Err(_) => Err(BundleError::Memory),
        },
        Err(_) => Err(BundleError::Memory),
    }
}
