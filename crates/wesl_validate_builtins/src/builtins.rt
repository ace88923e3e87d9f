//! Names that are built in.
ghost use Rattle.std.specs.Prelude.{◌≡◌, ◌++◌, List, map, string_bytes, IfOk, OnOk};
ghost use Rattle.std.specs.Option.{option_map};
ghost use Rattle.wesl_tree_names.specs.Path.{Text};
ghost use Rattle.wesl_validate_builtins.specs.Builtins.{AreKept, is_among, is_callable, stored, builtins_view};

use std::alloc::{AllocError, Global};
use std::collections::HashSet;

/// The names that are built in, which the caller hands in: `names` are defined, and of these a call may name
/// `functions` and `constructors`.
#[derive(Drop)]
pub struct Builtins {
    /// the names that are defined
    pub(crate) names: Vec<String>,
    /// functions
    pub(crate) functions: Vec<String>,
    /// types and other names that construct a value
    pub(crate) constructors: Vec<String>,
}

impl Builtins {
    /// These names.
    pub fn new(names: Vec<String>, functions: Vec<String>, constructors: Vec<String>) -> Builtins
        ensures names { (builtins_view result).names ≡ map string_bytes names.items }
        ensures functions { (builtins_view result).functions ≡ map string_bytes functions.items }
        ensures constructors { (builtins_view result).constructors ≡ map string_bytes constructors.items }
    {
        Builtins {
            names,
            functions,
            constructors,
        }
    }

    /// The stored name, where it is among `names`.
    #[tactic(auto, using(crate::proofs::Strings::find_map, crate::proofs::Strings::find_map_next))]
    pub fn builtin_ident(&self, name: &str) -> Option<&str>
        ensures { option_map (λ s. s.now) result ≡ stored (builtins_view self.now) name.now }
    {
        for stored in &self.names {
            if stored.as_str() == name {
                return Some(stored.as_str());
            }
        }
        None
    }

    /// Whether it is defined: it is among `names`.
    pub fn is_defined(&self, name: &str) -> bool
        ensures { result ≡ is_among name.now (builtins_view self.now).names }
    {
        is_among(&self.names, name)
    }

    /// The names that are defined, as a set: of which many are asked, each costs one look-up. Refused for want of memory
    /// alone.
    pub fn defined_names(&self, alloc: Global) -> Result<HashSet<&str>, AllocError>
        ensures { IfOk result (AreKept (builtins_view self.now).names) }
    {
        let mut kept: HashSet<&str> = HashSet::new(alloc);
        keep_all(&mut kept, &self.names)?;
        Ok(kept)
    }

    /// The names that a call may name, as a set, in the same way: functions and constructors. Refused for want of memory
    /// alone.
    pub fn callable_names(&self, alloc: Global) -> Result<HashSet<&str>, AllocError>
        ensures { IfOk result (AreKept ((builtins_view self.now).functions ++ (builtins_view self.now).constructors)) }
    {
        let mut kept: HashSet<&str> = HashSet::new(alloc);
        keep_all(&mut kept, &self.functions)?;
        keep_all(&mut kept, &self.constructors)?;
        Ok(kept)
    }

    /// Whether a call may name it: it is among `functions` or `constructors`.
    pub fn is_callable(&self, name: &str) -> bool
        ensures { result ≡ is_callable (builtins_view self.now) name.now }
    {
        is_among(&self.functions, name) || is_among(&self.constructors, name)
    }
}

/// Puts these names into the set.
fn keep_all<'n>(kept: &mut HashSet<&'n str>, names: &'n Vec<String>) -> Result<(), AllocError>
    ensures { OnOk result ((before : List Text) → AreKept before kept.old → AreKept (before ++ map string_bytes names.now.items) kept.new) }
{
    for name in names {
        kept.insert(name.as_str())?;
    }
    Ok(())
}

/// Whether one of these is the name.
#[tactic(auto, using(crate::proofs::Strings::any_map, crate::proofs::Strings::any_map_next))]
fn is_among(names: &Vec<String>, name: &str) -> bool
    ensures { result ≡ is_among name.now (map string_bytes names.now.items) }
{
    for stored in names {
        if stored.as_str() == name {
            return true;
        }
    }
    false
}
