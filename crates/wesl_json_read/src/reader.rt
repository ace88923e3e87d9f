//! What reading notes: the names met, and the first fault.
ghost use Rattle.std.specs.Prelude.{◌≡◌, ◌⊎◌, ◌++◌, ◌∷◌, [], map, Ok, None, IfErr, IfNone, IfOk, IfSome, IsSomeAnd, is_some};
ghost use Rattle.std.specs.Box.{box_value};
ghost use Rattle.serde_json.specs.Find.{get};
ghost use Rattle.wesl_tree_names.specs.declared.errors.Error as error;
ghost use Rattle.wesl_json_form.specs.View.{borrowed_view, items_view};
ghost use Rattle.wesl_json_form.specs.Pointer.{key as key_part, index as index_part};
ghost use Rattle.wesl_json_form.specs.Units.{AreDistinct};
ghost use Rattle.wesl_json_read.specs.Faults.{IsAtRoot};
ghost use Rattle.wesl_json_read.specs.Parts.{IsMemoryOr};
ghost use Rattle.wesl_json_read.specs.Noted.{IsList, IsThere, IsTold, IsToldOrRefused, Lacks, Never, Notes, NotesKeys, NotesNoList, as_error};

use crate::numbering::Numbering;
use std::alloc::Global;
use wesl_json_form::BorrowedValue;
use wesl_tree_names::{Error, Names};

/// What is wrong with what is read.
#[derive(Drop)]
pub enum Fault {
    /// Memory was refused.
    Memory,
    /// The value at this JSON Pointer breaks its form.
    Place(String),
}

/// Reads the parts of a tree.
///
/// The first fault is noted: what is read from then on stands for nothing, and the end tells the fault.
#[derive(Drop)]
pub struct Reader {
    /// where the parts are made
    pub alloc: Global,
    /// whether spans are read
    pub spans: bool,
    /// the names met so far
    pub numbering: Numbering,
    /// the first fault, told of the value that is being read
    pub fault: Option<Fault>,
}

impl Reader {
    /// Nothing is read yet.
    pub fn new(alloc: Global, spans: bool) -> Reader
        ensures names { result.numbering ≡ [] }
        ensures fault { result.fault ≡ None }
        ensures spans { result.spans ≡ spans }
    {
        Reader {
            alloc,
            spans,
            numbering: Numbering::new(alloc),
            fault: None,
        }
    }

    /// The table of the names met, or the first fault.
    pub fn end(self) -> Result<Names, Error>
        ensures names { IfOk result (λ names. names ≡ self.numbering) }
        ensures noted { IfOk result (λ _. self.fault ≡ None) }
        ensures distinct { IfOk result AreDistinct }
        ensures fault { IfErr result (λ e. (e ≡ error.Memory) ⊎ IsSomeAnd self.fault (λ f. e ≡ as_error f)) }
    {
        let Reader {
            alloc,
            spans: _,
            numbering,
            fault,
        } = self;
        match fault {
            None => numbering.into_names(alloc),
            Some(Fault::Memory) => Err(Error::Memory),
            Some(Fault::Place(place)) => Err(Error::BadTree(place)),
        }
    }

    /// Whether a fault was noted.
    pub fn is_stopped(&self) -> bool
        ensures { result ≡ is_some self.now.fault }
    {
        self.fault.is_some()
    }

    /// Notes a fault, where none was noted before.
    pub(crate) fn note(&mut self, fault: Fault)
        ensures { Notes Never (λ _ e. e ≡ as_error fault) self.old self.new }
    {
        if self.fault.is_none() {
            self.fault = Some(fault);
        }
    }

    /// Notes that the value itself is wrong.
    pub fn wrong(&mut self)
        ensures { Notes Never (λ _. IsAtRoot) self.old self.new }
    {
        self.note(Fault::Place(String::new(self.alloc)));
    }

    /// What was read, unless that is a fault, which is noted.
    pub fn noted<T: Drop>(&mut self, read: Result<T, Error>) -> Option<T>
        ensures read { IfSome result (λ part. read ≡ Ok part) }
        ensures same { IfSome result (λ _. self.new ≡ self.old) }
        ensures noted { IfNone result (Notes Never (λ _. IsMemoryOr read) self.old self.new) }
    {
        match read {
            Ok(part) => Some(part),
            Err(Error::BadTree(place)) => {
                self.note(Fault::Place(place));
                None
            }
            Err(_) => {
                self.note(Fault::Memory);
                None
            }
        }
    }

    /// Tells a fault that was noted of the member `key` as one of the object.
    pub fn within(&mut self, key: &str)
        ensures { IsTold (key_part key.now) self.old self.new }
    {
        if let Some(Fault::Place(place)) = &self.fault {
            let outer = match wesl_json_form::under_key(self.alloc, key, place.as_str()) {
                Ok(place) => Fault::Place(place),
                Err(_) => Fault::Memory,
            };
            self.fault = Some(outer);
        }
    }

    /// Tells a fault that was noted of the item at `index` as one of the list.
    fn within_index(&mut self, index: usize)
        ensures { IsTold (index_part index) self.old self.new }
    {
        if let Some(Fault::Place(place)) = &self.fault {
            let outer = match wesl_json_form::under_index(self.alloc, index, place.as_str()) {
                Ok(place) => Fault::Place(place),
                Err(_) => Fault::Memory,
            };
            self.fault = Some(outer);
        }
    }

    /// The member `key`, which must be there; none where a fault is noted.
    pub fn required<'s, 'a>(
        &mut self,
        value: &'s BorrowedValue<'a>,
        key: &str,
    ) -> Option<&'s BorrowedValue<'a>>
        ensures there { IfSome result (λ v. IsThere self.old key.now (borrowed_view value.now) (borrowed_view v.now)) }
        ensures same { IfSome result (λ _. self.new ≡ self.old) }
        ensures lacks { IfNone result (Notes Never (λ _. Lacks key.now (borrowed_view value.now)) self.old self.new) }
    {
        if self.is_stopped() {
            return None;
        }
        let member = value.get(key);
        if member.is_none() {
            self.wrong();
        }
        member
    }

    /// The member `key`, if it is there; none where a fault is noted.
    pub fn optional<'s, 'a>(
        &self,
        value: &'s BorrowedValue<'a>,
        key: &str,
    ) -> Option<&'s BorrowedValue<'a>>
        ensures there { IfSome result (λ v. IsThere self.now key.now (borrowed_view value.now) (borrowed_view v.now)) }
        ensures lacks { IfNone result (self.now.fault ≡ None → get key.now (borrowed_view value.now) ≡ None) }
    {
        if self.is_stopped() {
            return None;
        }
        value.get(key)
    }

    /// Notes a fault of the value, unless it is an object with no keys but these, and a span where it takes one.
    pub fn keys(&mut self, value: &BorrowedValue<'_>, takes_span: bool, known: &[&str])
        ensures { NotesKeys takes_span (map (λ k. k.now) known.now) (borrowed_view value.now) self.old self.new }
    {
        if !wesl_json_form::has_only_beside(value, takes_span, "span", known) {
            self.wrong();
        }
    }

    /// The items of the list at `key`, if it is there; none where a fault is noted.
    pub fn list<'s, 'a>(
        &mut self,
        value: &'s BorrowedValue<'a>,
        key: &str,
    ) -> Option<&'s [BorrowedValue<'a>]>
        ensures there { IfSome result (λ items. IsList self.old key.now (borrowed_view value.now) (items_view items.now)) }
        ensures same { IfSome result (λ _. self.new ≡ self.old) }
        ensures lacks { IfNone result (NotesNoList key.now (borrowed_view value.now) self.old self.new) }
    {
        if self.is_stopped() {
            return None;
        }
        let member = value.get(key)?;
        match member.as_array() {
            Some(items) => Some(items),
            None => {
                self.wrong();
                self.within(key);
                None
            }
        }
    }

    /// An empty list with room for so many items.
    pub fn room<T: Drop>(&mut self, count: usize) -> Vec<T>
        ensures empty { result.items ≡ [] }
        ensures noted { Notes (λ _ old new. new ≡ old) (λ _ e. e ≡ error.Memory) self.old self.new }
    {
        match Vec::with_capacity(self.alloc, count) {
            Ok(list) => list,
            Err(_) => {
                self.note(Fault::Memory);
                Vec::new(self.alloc)
            }
        }
    }

    /// A part in a box; none where memory is refused, which is noted.
    pub fn boxed<T: Drop>(&mut self, part: T) -> Option<Box<T>>
        ensures same { IfSome result (λ b. (box_value b ≡ part) × (self.new ≡ self.old)) }
        ensures refused { IfNone result (Notes Never (λ _ e. e ≡ error.Memory) self.old self.new) }
    {
        match Box::new(self.alloc, part) {
            Ok(held) => Some(held),
            Err(_) => {
                self.note(Fault::Memory);
                None
            }
        }
    }

    /// Adds the item at `index` to a list, unless a fault is noted, which is told of the list.
    pub fn put<T: Drop>(&mut self, list: &mut Vec<T>, index: usize, item: T)
        ensures put { self.new.fault ≡ None → list.new.items ≡ list.old.items ++ item ∷ [] }
        ensures noted { IsToldOrRefused (index_part index) self.old self.new }
    {
        if self.is_stopped() {
            self.within_index(index);
        } else if list.push(item).is_err() {
            self.note(Fault::Memory);
        }
    }
}
