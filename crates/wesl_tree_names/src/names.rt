//! Identifiers are numbers, and a table has their names.
ghost use Rattle.std.specs.Prelude.{◌≡◌, ◌+◌, ◌<◌, List, [], ◌∷◌, ◌++◌, length, ℕ, map, string_bytes, get_or, IfOk, IfErr};
ghost use Rattle.wesl_tree_names.specs.declared.errors.Error as error;

use crate::errors::Error;
use std::alloc::Global;
use std::marker::Model;
use wesl_tree_base::copied_texts;

/// An identifier of a module: its place in the module's table of names.
///
/// Two identifiers of one name are one only where they have one number.
#[derive(Clone, Copy, Debug, PartialEq, Eq, Hash)]
pub struct Ident(pub usize);

/// A table of names. Contracts see the list of the names' bytes, which may hold one name twice.
#[derive(Debug)]
pub struct Names {
    names: Vec<String>,
}

impl Drop for Names {
    fn drop(self) {
        let Names { names: _ } = self;
    }
}

impl Model for Names {
    ghost Value = { List (List ℕ) };

    ghost view = { λ n. map string_bytes n.names.items };
}

impl Names {
    /// A table without names. It takes no memory.
    pub fn new(alloc: Global) -> Names
        ensures { result ≡ [] }
    {
        Names {
            names: Vec::new(alloc),
        }
    }

    /// How many names there are, which is the number of the next one.
    pub fn len(&self) -> usize
        ensures { result ≡ length self.now }
    {
        self.names.len()
    }

    /// A new identifier of the name `name`, also where another has it.
    ///
    /// Refused for want of memory alone; the table is then as before.
    pub fn add(&mut self, name: &str) -> Result<Ident, Error>
        ensures number { IfOk result (λ i. i.0 ≡ length self.old) }
        ensures added { IfOk result (λ _. self.new ≡ self.old ++ name.now ∷ []) }
        ensures refused { IfErr result (λ e. e ≡ error.Memory) }
        ensures unchanged { IfErr result (λ _. self.new ≡ self.old) }
    {
        let ident = Ident(self.names.len());
        let alloc = *self.names.allocator();
        self.names.push(String::from_str(alloc, name)?)?;
        Ok(ident)
    }

    /// The name of `ident`, an identifier of this table.
    pub fn name(&self, ident: Ident) -> &str
        requires { ident.0 < length self.now }
        ensures { result.now ≡ get_or self.now ident.0 [] }
    {
        self.names[ident.0].as_str()
    }

    /// A table of the same names in the same order. Refused for want of memory alone.
    pub fn try_clone(&self, alloc: Global) -> Result<Names, Error>
        ensures equal { IfOk result (λ n. n ≡ self.now) }
        ensures refused { IfErr result (λ e. e ≡ error.Memory) }
    {
        let names = copied_texts(alloc, &self.names, &[])?;
        Ok(Names { names })
    }
}
