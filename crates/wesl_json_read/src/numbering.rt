//! Numbers for names: each distinct spelling gets one, by first occurrence.
ghost use Rattle.std.specs.Prelude.{◌≡◌, ℕ, List, [], IfOk, IfErr};
ghost use Rattle.wesl_tree_names.specs.declared.errors.Error as error;
ghost use Rattle.wesl_json_form.specs.Units.{AreDistinct};
ghost use Rattle.wesl_json_read.specs.Numbers.{IsNumbered};

use std::alloc::Global;
use std::collections::HashMap;
use std::marker::Model;
use wesl_tree_names::{Error, Ident, Names};

/// The spellings met so far, in the order of their numbers.
pub struct Numbering {
    names: Names,
    // The number of each name. A map of std: a library carries all that is stated of a private field's type, but for std's.
    numbers: HashMap<String, usize>,
}

// By hand, so that it is proved once: a derived one is proved in each crate that lets go of a value.
impl Drop for Numbering {
    fn drop(self) {
        let Numbering {
            names: _,
            numbers: _,
        } = self;
    }
}

impl Model for Numbering {
    ghost use Rattle.std.specs.Prelude.{ℕ, List};
    ghost use Rattle.std.specs.HashMap.{get_by_text};
    ghost use Rattle.wesl_json_read.specs.Numbered.{AreNumbers};

    ghost Value = { List (List ℕ) };

    ghost view = { λ n. n.names };

    ghost invariant = { λ n. AreNumbers n.names (get_by_text n.numbers) };
}

impl Numbering {
    /// Nothing is numbered yet.
    pub fn new(alloc: Global) -> Numbering
        ensures { result ≡ [] }
    {
        Numbering {
            names: Names::new(alloc),
            numbers: HashMap::new(alloc),
        }
    }

    /// The number of a name: its own, or where it has none yet the next one.
    pub fn number(&mut self, alloc: Global, name: &str) -> Result<Ident, Error>
        ensures number { IfOk result (λ i. IsNumbered self.old name.now i.0 self.new) }
        ensures refused { IfErr result (λ e. e ≡ error.Memory) }
    {
        if let Some(number) = self.numbers.get(name) {
            return Ok(Ident(*number));
        }
        let number = self.names.len();
        self.numbers.insert(String::from_str(alloc, name)?, number)?;
        match self.names.add(name) {
            Ok(ident) => Ok(ident),
            Err(refused) => {
                self.numbers.remove(name);
                Err(refused)
            }
        }
    }

    /// The table of the names, each at its number.
    pub fn into_names(self, _alloc: Global) -> Result<Names, Error>
        ensures names { IfOk result (λ names. names ≡ self) }
        ensures distinct { IfOk result AreDistinct }
        ensures refused { IfErr result (λ e. e ≡ error.Memory) }
    {
        let Numbering { names, numbers: _ } = self;
        Ok(names)
    }
}
