//! The faults of the conditions among the attributes of a node.
ghost use Rattle.std.specs.Prelude.{◌≡◌};
ghost use Rattle.wesl_cond_chains.specs.Nodes.{attributes_forest, condition_of_attribute, is_any};
ghost use Rattle.wesl_cond_chains.specs.Places.{condition_places, all_condition_places};
ghost use Rattle.wesl_cond_faults.specs.Places.{condition_spans, second_or_only, span_or};
ghost use Rattle.wesl_cond_faults.specs.Telling.{AddsFound, AddsMisplaced};

use crate::formula::tell_formula;
use crate::told::Told;
use wesl_cond_chains::{Condition, condition_of, has_several, is_orphan};
use wesl_cond_features::Features;
use wesl_tree_names::{CondCompError, Names, Span};
use wesl_tree_syntax::{Attribute, AttributeNode};

/// Whether an attribute is a condition.
fn is_condition(attribute: &Attribute) -> bool
    ensures { result ≡ is_any (condition_of_attribute attribute.now) }
{
    condition_of(attribute).is_some()
}

/// The span of the condition that is at fault among the attributes: of the second, or of the only one.
#[tactic(auto, using(crate::proofs::Spans::spans_steps))]
fn condition_span(attributes: &[AttributeNode]) -> Span
    ensures { result ≡ second_or_only (condition_spans (attributes_forest attributes.now)) }
{
    let mut only = Span { start: 0, end: 0 };
    let mut seen = false;
    for attribute in attributes {
        if is_condition(&attribute.node) {
            if seen {
                return attribute.span;
            }
            seen = true;
            only = attribute.span;
        }
    }
    only
}

/// The span that is told of a node for where its conditions stand: its own, or where that is empty that of the condition at
/// fault.
pub fn place_of(own: Span, attributes: &[AttributeNode]) -> Span
    ensures { result ≡ span_or own (second_or_only (condition_spans (attributes_forest attributes.now))) }
{
    if own.start == 0 && own.end == 0 {
        condition_span(attributes)
    } else {
        own
    }
}

/// Tells what is wrong with where the conditions among the attributes stand: there is one at most, and an `@elif` or an
/// `@else` goes on with a chain that is open. `span` is the place that is told.
#[tactic(auto, using(wesl_cond_chains::proofs::Places::place_is))]
pub fn tell_place(told: &mut Told, attributes: &[AttributeNode], opened: bool, span: Span)
    ensures { AddsMisplaced span opened attributes.now told.old told.new }
{
    if has_several(attributes) {
        told.tell(CondCompError::DuplicateIf, span);
    } else if is_orphan(attributes, opened) {
        told.tell(CondCompError::NoPrecedingIf, span);
    }
}

/// Tells the faults of the formula of an attribute, if it has one that is a condition's.
fn tell_attribute(told: &mut Told, attribute: &Attribute, names: &Names, features: &Features)
    ensures { AddsFound names.now features.now (λ r. condition_places r (condition_of_attribute attribute.now)) told.old told.new }
{
    match condition_of(attribute) {
        Some(Condition::If(formula) | Condition::Elif(formula)) => {
            tell_formula(told, formula, names, features);
        }
        Some(Condition::Else) | None => {}
    }
}

/// Tells the faults of the formulas of all conditions among the attributes.
pub fn tell_formulas(
    told: &mut Told,
    attributes: &[AttributeNode],
    names: &Names,
    features: &Features,
)
    ensures { AddsFound names.now features.now (λ r. all_condition_places r (attributes_forest attributes.now)) told.old told.new }
{
    for attribute in attributes {
        tell_attribute(told, &attribute.node, names, features);
    }
}
