//! Copies of nodes, with their numbers or with others.
ghost use Rattle.std.specs.Prelude.{◌≡◌, ◌++◌, ◌∷◌, [], false, true, IfErr, IfNone, IfOk, IfSome, Ok, OnOk, OnSome};
ghost use Rattle.wesl_tree_names.specs.declared.errors.Error as error;
ghost use Rattle.wesl_tree_syntax.specs.Tree.{Role};
ghost use Rattle.wesl_tree_syntax.specs.View.{boxed_path, ident_tree, literal_tree, names_tree, optional, path_tree, text_tree};

use std::alloc::Global;
use wesl_tree_names::{Error, Ident, ModulePath};
use wesl_tree_syntax::Literal;

/// Copies nodes. Their identifiers take the numbers of a list, in document order, and keep their own where none is left.
///
/// A copy is the same as its original but for these numbers, spans too. Want of memory is noted: what is answered from
/// then on is no copy, and the end tells it.
#[derive(Drop)]
pub struct Copying<'a> {
    /// where the copies are made
    pub alloc: Global,
    /// the numbers that are not given yet
    pub rest: &'a [usize],
    /// whether memory was wanting
    pub is_refused: bool,
}

impl<'a> Copying<'a> {
    ghost use Rattle.wesl_tree_copies.specs.Copied.{Copies};

    /// Makes equal copies: each identifier keeps its number.
    pub fn of(alloc: Global) -> Copying<'a>
        ensures keeps { result.rest.now ≡ [] }
    {
        Copying {
            alloc,
            rest: &[],
            is_refused: false,
        }
    }

    /// The copy that was made, unless memory was wanting for it.
    pub fn end<T: Drop>(self, copy: T) -> Result<T, Error>
        ensures given { IfOk result (λ given. given ≡ copy) }
        ensures noted { OnOk result (self.entry.is_refused ≡ false) }
        ensures refused { IfErr result (λ e. e ≡ error.Memory) }
    {
        if self.is_refused {
            Err(Error::Memory)
        } else {
            Ok(copy)
        }
    }

    /// What was made. Where memory was wanting for it, that is noted.
    pub(crate) fn made<T: Drop, E: Drop>(&mut self, made: Result<T, E>) -> Option<T>
        ensures given { IfSome result (λ thing. made ≡ Ok thing) }
        ensures same { OnSome result (self.new ≡ self.old) }
        ensures noted { IfNone result (self.new.is_refused ≡ true) }
    {
        match made {
            Ok(thing) => Some(thing),
            Err(_) => {
                self.is_refused = true;
                None
            }
        }
    }

    /// An empty list with room for so many items.
    pub fn list<T>(&mut self, room: usize) -> Vec<T>
        ensures empty { result.items ≡ [] }
        ensures noted { self.new.is_refused ≡ false → self.new ≡ self.old }
    {
        match Vec::with_capacity(self.alloc, room) {
            Ok(list) => list,
            Err(_) => {
                self.is_refused = true;
                Vec::new(self.alloc)
            }
        }
    }

    /// Adds an item to a list.
    pub fn push<T: Drop>(&mut self, list: &mut Vec<T>, item: T)
        ensures pushed { self.new.is_refused ≡ false → list.new.items ≡ list.old.items ++ item ∷ [] }
        ensures noted { self.new.is_refused ≡ false → self.new ≡ self.old }
    {
        if list.push(item).is_err() {
            self.is_refused = true;
        }
    }

    /// The next number, and the identifier's own where none is left.
    pub(crate) fn number(&mut self, ident: Ident) -> Ident
        ensures { (role : Role) → Copies self.old self.new (ident_tree role) ident result }
    {
        match self.rest.split_first() {
            None => ident,
            Some((first, others)) => {
                self.rest = others;
                Ident(*first)
            }
        }
    }

    /// A copy of a text.
    pub(crate) fn text(&mut self, text: &String) -> String
        ensures { Copies self.old self.new text_tree text.now result }
    {
        match String::from_str(self.alloc, text) {
            Ok(copy) => copy,
            Err(_) => {
                self.is_refused = true;
                String::new(self.alloc)
            }
        }
    }

    /// A copy of texts.
    pub(crate) fn texts(&mut self, texts: &Vec<String>) -> Vec<String>
        ensures { Copies self.old self.new names_tree texts.now result }
    {
        let mut copies = self.list(texts.len());
        for text in texts {
            let copy = self.text(text);
            self.push(&mut copies, copy);
        }
        copies
    }

    /// A copy of the path before a name, if one stands there.
    pub(crate) fn path(&mut self, path: &Option<ModulePath>) -> Option<ModulePath>
        ensures { Copies self.old self.new (optional path_tree) path.now result }
    {
        match path {
            None => None,
            Some(path) => self.made(path.try_clone(self.alloc)),
        }
    }

    /// A copy of the path before the name of a type, if one stands there.
    pub(crate) fn boxed_path(&mut self, path: &Option<Box<ModulePath>>) -> Option<Box<ModulePath>>
        ensures { Copies self.old self.new (optional boxed_path) path.now result }
    {
        match path {
            None => None,
            Some(path) => match self.made(path.try_clone(self.alloc)) {
                None => None,
                Some(copy) => self.made(Box::new(self.alloc, copy)),
            },
        }
    }

    /// A copy of a literal.
    pub fn literal(&mut self, literal: &Literal) -> Literal
        ensures { Copies self.old self.new literal_tree literal.now result }
    {
        match literal {
            Literal::Bool(value) => Literal::Bool(*value),
            Literal::Text(text) => Literal::Text(self.text(text)),
        }
    }
}
