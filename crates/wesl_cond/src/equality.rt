//! Equality of answers and of sets of them.
ghost use Rattle.std.specs.Prelude.{◌≡◌, ◌↔◌, IsTrue};
ghost use Rattle.std.specs.BTreeMap.{IsOrdered};
ghost use Rattle.std.specs.String.{string_cmp};
ghost use Rattle.wesl_cond_features.specs.Features.{SameAnswers};

use std::collections::BTreeMap;
use wesl_cond_features::{Feature, Features};

/// Whether two answers are the same.
#[tactic(auto, using(crate::proofs::OfFeatures::answers_decided))]
pub fn equal_feature(feature: &Feature, other: &Feature) -> bool
    ensures { IsTrue result ↔ (feature.now ≡ other.now) }
{
    feature == other
}

/// Whether two sets of features are the same: their defaults are, and they list the same flags with the same answers.
pub fn equal_features(features: &Features, other: &Features) -> bool
    ensures { IsTrue result ↔ SameAnswers features.now other.now }
{
    law_of_order(&features.flags);
    law_of_order(&other.flags);
    features == other
}

/// Flags are listed in the order of their names.
fn law_of_order(flags: &BTreeMap<String, Feature>)
    ensures { IsOrdered string_cmp flags.now }
{
    let _ = flags.len();
}
