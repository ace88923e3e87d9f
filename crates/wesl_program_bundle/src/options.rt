//! How the modules of a bundle are linked.
ghost use Rattle.std.specs.Prelude.{◌≡◌, Some, IfOk, IfErr, false, option_and_then, option_map};
ghost use Rattle.serde_json.specs.Find.{get, as_bool};
ghost use Rattle.wesl_json_form.specs.View.{borrowed_view};
ghost use Rattle.wesl_program_bundle.specs.Bundle.{below_limit, form_in, naming_in, naming_of as word_naming, limit_in, options_in, spans_in_form};
ghost use Rattle.wesl_program_bundle.specs.Forms.{optional, a_form, a_mangler, a_truth, a_limit, a_bundle};
ghost use Rattle.wesl_program_bundle.specs.Reading.{or_default};
ghost use Rattle.wesl_program_bundle.specs.Broken.{Locates, LocatesMember};
ghost use Rattle.wesl_program_bundle.specs.Views.{options_view};
ghost use Rattle.wesl_program_bundle.specs.declared.options.Naming.TheVariants.{Escape};

use crate::joined::{both, stated};
use crate::members::BundleError;
use std::alloc::Global;
use wesl_json_form::BorrowedValue;

/// Which mangler names the items of modules.
#[derive(Clone, Copy, Drop)]
pub enum Naming {
    /// The escape form.
    Escape,
    /// The Unicode form.
    Unicode,
    /// None: each item keeps its own name.
    Own,
}

/// How the modules of a bundle are linked.
#[derive(Clone, Copy, Drop)]
pub struct Options {
    /// Which mangler names the items of modules.
    pub mangler: Naming,
    /// Whether the root's items are named so too.
    pub mangle_root: bool,
    /// Whether every import is followed and every declaration is held.
    pub eager: bool,
    /// How many modules may be loaded, the root counted.
    pub max_modules: usize,
    /// Whether the answer's unit is written with spans: in form 2 of trees, and else in form 1.
    pub spans: bool,
}

/// The options of a bundle.
pub(crate) fn read_options(alloc: Global, value: &BorrowedValue<'_>) -> Result<Options, BundleError>
    ensures ok { IfOk result (λ o. options_in (borrowed_view value.now) ≡ Some (options_view o)) }
    ensures place { IfErr result (Locates a_bundle (borrowed_view value.now)) }
{
    let mangler = naming_member(alloc, value, "mangler");
    let mangle_root = truth_member(alloc, value, "mangle_root");
    let eager = truth_member(alloc, value, "eager");
    let max_modules = limit_member(alloc, value, "max_modules");
    let spans = form_member(alloc, value, "form");
    let naming = both(mangler, mangle_root);
    let extent = both(eager, max_modules);
    match both(naming, both(extent, spans)) {
        Ok((naming, others)) => {
            let (mangler, mangle_root) = naming;
            let (extent, spans) = others;
            let (eager, max_modules) = extent;
            Ok(Options {
                mangler,
                mangle_root,
                eager,
                max_modules,
                spans,
            })
        }
        Err(error) => Err(error),
    }
}

// The mangler at the key, the escape form where it is not there.
fn naming_member(alloc: Global, value: &BorrowedValue<'_>, key: &str) -> Result<Naming, BundleError>
    ensures ok { IfOk result (λ n. or_default Escape naming_in (get key.now (borrowed_view value.now)) ≡ Some n) }
    ensures place { IfErr result (LocatesMember (optional key.now a_mangler) (borrowed_view value.now)) }
{
    match value.get(key) {
        Some(word) => stated(alloc, key, naming_of(word.as_str())),
        None => Ok(Naming::Escape),
    }
}

// The mangler that a word names.
fn naming_of(word: Option<&str>) -> Option<Naming>
    ensures { result ≡ option_and_then word_naming (option_map (λ s. s.now) word.entry) }
{
    match word {
        Some("escape") => Some(Naming::Escape),
        Some("unicode") => Some(Naming::Unicode),
        Some("none") => Some(Naming::Own),
        _ => None,
    }
}

// The truth value at the key, false where it is not there.
fn truth_member(alloc: Global, value: &BorrowedValue<'_>, key: &str) -> Result<bool, BundleError>
    ensures ok { IfOk result (λ b. or_default false as_bool (get key.now (borrowed_view value.now)) ≡ Some b) }
    ensures place { IfErr result (LocatesMember (optional key.now a_truth) (borrowed_view value.now)) }
{
    match value.get(key) {
        Some(found) => stated(alloc, key, found.as_bool()),
        None => Ok(false),
    }
}

// The number at the key, a thousand where it is not there.
fn limit_member(alloc: Global, value: &BorrowedValue<'_>, key: &str) -> Result<usize, BundleError>
    ensures ok { IfOk result (λ n. or_default 1000 limit_in (get key.now (borrowed_view value.now)) ≡ Some n) }
    ensures place { IfErr result (LocatesMember (optional key.now a_limit) (borrowed_view value.now)) }
{
    match value.get(key) {
        Some(found) => stated(alloc, key, limit_of(found.as_u64())),
        None => Ok(1000),
    }
}

// A whole number of at most 32 bits.
fn limit_of(number: Option<u64>) -> Option<usize>
    ensures { result ≡ option_and_then below_limit number }
{
    match number {
        Some(limit) if limit < 4294967296 => Some(limit as usize),
        _ => None,
    }
}

// Whether the form whose number is at the key has spans: form 1, which has none, where it is not there.
fn form_member(alloc: Global, value: &BorrowedValue<'_>, key: &str) -> Result<bool, BundleError>
    ensures ok { IfOk result (λ spans. or_default false form_in (get key.now (borrowed_view value.now)) ≡ Some spans) }
    ensures place { IfErr result (LocatesMember (optional key.now a_form) (borrowed_view value.now)) }
{
    match value.get(key) {
        Some(found) => stated(alloc, key, spans_of(found.as_u64())),
        None => Ok(false),
    }
}

// Whether the form of this number has spans, if there is one.
fn spans_of(number: Option<u64>) -> Option<bool>
    ensures { result ≡ option_and_then spans_in_form number }
{
    match number {
        Some(1) => Some(false),
        Some(2) => Some(true),
        _ => None,
    }
}
