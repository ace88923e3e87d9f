//! What identifiers mean.
ghost use Rattle.std.specs.Prelude.{◌≡◌, ◌<◌, length, map, IfOk};
ghost use Rattle.std.specs.List.{All};
ghost use Rattle.wesl_tree_names.specs.Path.{path_view};
ghost use Rattle.wesl_scope_meanings.specs.Keys.{flat, key_name};
ghost use Rattle.wesl_scope_meanings.specs.Sensed.{number_in};
ghost use Rattle.wesl_scope_meanings.specs.Senses.{sense_view, key_in, keys_in};
ghost use Rattle.wesl_scope_meanings.specs.Known.{is_known};

use crate::reader::Reader;
use crate::sense::Sense;
use std::alloc::{AllocError, Global};
use wesl_tree_names::{Ident, ModulePath, Names};

/// What an identifier means.
#[derive(Clone, Copy, PartialEq, Eq, Hash)]
pub enum Key<'a> {
    /// a name of a block, which is told by its number
    Bound(usize, &'a str),
    /// a name that nothing binds
    Free(&'a str),
    /// a name with its path
    Qualified(&'a ModulePath, &'a str),
}

impl<'a> Key<'a> {
    /// The name of the identifiers that mean it.
    pub fn name(self) -> &'a str
        ensures { result.now ≡ key_name (flat self.entry) }
    {
        match self {
            Key::Bound(_, name) => name,
            Key::Free(name) => name,
            Key::Qualified(_, name) => name,
        }
    }
}

impl Reader {
    /// Whether an import or a global declaration declares the name of an identifier.
    fn is_known(&self, ident: Ident) -> bool
        ensures { result ≡ is_known self.now ident.0 }
    {
        let name = self.name(ident);
        if name < self.declared.len() {
            self.declared[name]
        } else {
            false
        }
    }

    /// What an identifier means that is read so, where these are the paths of those that have one.
    fn key<'a>(&self, names: &'a Names, sense: &Sense, paths: &[&'a ModulePath]) -> Key<'a>
        requires { number_in (sense_view sense.now) < length names.now }
        ensures { flat result ≡ key_in (is_known self.now) names.now (map (λ p. path_view p.now) paths.now) (sense_view sense.now) }
    {
        match *sense {
            Sense::Declares(ident, block) => Key::Bound(block, names.name(ident)),
            Sense::OfBlock(ident, block) => Key::Bound(block, names.name(ident)),
            Sense::OfModule(ident) => {
                if self.is_known(ident) {
                    Key::Bound(0, names.name(ident))
                } else {
                    Key::Free(names.name(ident))
                }
            }
            Sense::OfNone(ident) => Key::Free(names.name(ident)),
            Sense::ByPath(ident, number) => {
                if number < paths.len() {
                    Key::Qualified(paths[number], names.name(ident))
                } else {
                    Key::Free(names.name(ident))
                }
            }
        }
    }

    /// What the identifiers mean, where these are the paths of those that have one. Refused for want of memory alone.
    pub fn keys<'a>(
        &self,
        alloc: Global,
        names: &'a Names,
        paths: &[&'a ModulePath],
    ) -> Result<Vec<Key<'a>>, AllocError>
        requires { All (λ s. number_in (sense_view s) < length names.now) self.now.senses.items }
        ensures { IfOk result (λ keys. map flat keys.items ≡ keys_in (is_known self.now) names.now (map (λ p. path_view p.now) paths.now) (map sense_view self.now.senses.items)) }
    {
        let mut keys = Vec::with_capacity(alloc, self.senses.len())?;
        for sense in &self.senses {
            keys.push(self.key(names, sense, paths))?;
        }
        Ok(keys)
    }
}
