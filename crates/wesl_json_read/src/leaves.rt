//! Reading texts, names, paths and spans.
ghost use Rattle.std.specs.Prelude.{◌≡◌, codes, option_map, string_bytes};
ghost use Rattle.wesl_tree_names.specs.declared.errors.Error as error;
ghost use Rattle.wesl_tree_syntax.specs.Tree.{Role};
ghost use Rattle.wesl_tree_syntax.specs.View.{boxed_path, names_tree, optional as option_view, path_tree, text_tree};
ghost use Rattle.wesl_json_form.specs.View.{borrowed_view};
ghost use Rattle.wesl_json_form.specs.Schema.{a_path, leaf, some_names};
ghost use Rattle.wesl_json_read.specs.Noted.{Notes, NotesIdent, NotesMany, NotesMay, NotesName, NotesNeeded, NotesSpan};
ghost use Rattle.wesl_json_read.specs.Texts.{NotesText, text_leaf, text_read};

use crate::fields::{number_of, optional_path, read_span};
use crate::reader::{Fault, Reader};
use wesl_json_form::BorrowedValue;
use wesl_tree_names::{Ident, ModulePath, Span};

/// The kinds of texts that stand in a tree.
#[derive(Clone, Copy)]
pub enum TextKind {
    /// A name, which is not empty.
    Name,
    /// The text of a literal, which is not empty and no truth value.
    Literal,
    /// Any text.
    Any,
}

// The text that a value is, if it is one of this kind.
fn text_in<'a>(value: &BorrowedValue<'a>, kind: TextKind) -> Option<&'a str>
    ensures { option_map (λ s. s.now) result ≡ text_read kind (borrowed_view value.now) }
{
    match value.as_str() {
        Some(text) => match kind {
            TextKind::Name if text.is_empty() => None,
            TextKind::Literal if text.is_empty() || text == "true" || text == "false" => None,
            _ => Some(text),
        },
        None => None,
    }
}

impl Reader {
    /// The text at `key`, of a kind.
    pub fn text(&mut self, value: &BorrowedValue<'_>, key: &str, kind: TextKind) -> String
        ensures { NotesNeeded key.now (leaf (text_leaf kind)) (borrowed_view value.now) (text_tree result) self.old self.new }
    {
        let Some(member) = self.required(value, key) else {
            return String::new(self.alloc);
        };
        let text = self.text_of(member, kind);
        self.within(key);
        text
    }

    // The text that a value is, of a kind.
    fn text_of(&mut self, value: &BorrowedValue<'_>, kind: TextKind) -> String
        ensures { NotesText kind (borrowed_view value.now) result self.old self.new }
    {
        match text_in(value, kind) {
            Some(text) => self.own(text),
            None => {
                self.wrong();
                String::new(self.alloc)
            }
        }
    }

    // A text of its own.
    fn own(&mut self, text: &str) -> String
        ensures { Notes (λ _ old new. (new ≡ old) × (string_bytes result ≡ text.now)) (λ _ e. e ≡ error.Memory) self.old self.new }
    {
        match String::from_str(self.alloc, text) {
            Ok(own) => own,
            Err(_) => {
                self.note(Fault::Memory);
                String::new(self.alloc)
            }
        }
    }

    /// The name at `key`, by its number, in any role.
    pub fn ident_at(&mut self, value: &BorrowedValue<'_>, key: &str) -> Ident
        ensures { (role : Role) → NotesIdent role key.now (borrowed_view value.now) result self.old self.new }
    {
        let Some(member) = self.required(value, key) else {
            return Ident(0);
        };
        let ident = self.ident(member);
        self.within(key);
        ident
    }

    /// The number of the name that a value is.
    pub(crate) fn ident(&mut self, value: &BorrowedValue<'_>) -> Ident
        ensures { NotesName (borrowed_view value.now) result self.old self.new }
    {
        let read = number_of(self.alloc, &mut self.numbering, value);
        match self.noted(read) {
            Some(ident) => ident,
            None => Ident(0),
        }
    }

    /// The names at `key`, a list.
    pub fn names(&mut self, value: &BorrowedValue<'_>, key: &str) -> Vec<String>
        ensures { NotesMany key.now (leaf some_names) (borrowed_view value.now) (names_tree result) self.old self.new }
    {
        let Some(items) = self.list(value, key) else {
            return Vec::new(self.alloc);
        };
        let mut names = self.room(items.len());
        for (index, item) in items.iter().enumerate() {
            if !self.is_stopped() {
                let name = self.text_of(item, TextKind::Name);
                self.put(&mut names, index, name);
            }
        }
        self.within(key);
        names
    }

    /// The path at `path`, an option.
    pub fn path(&mut self, value: &BorrowedValue<'_>) -> Option<ModulePath>
        ensures { NotesMay (codes "path") (leaf a_path) (borrowed_view value.now) (option_view path_tree result) self.old self.new }
    {
        let read = optional_path(self.alloc, value);
        match self.noted(read) {
            Some(path) => path,
            None => None,
        }
    }

    /// The path at `path`, an option, in its box.
    pub(crate) fn boxed_path(&mut self, value: &BorrowedValue<'_>) -> Option<Box<ModulePath>>
        ensures { NotesMay (codes "path") (leaf a_path) (borrowed_view value.now) (option_view boxed_path result) self.old self.new }
    {
        match self.path(value) {
            Some(path) => self.boxed(path),
            None => None,
        }
    }

    /// The span at `span`.
    pub fn span(&mut self, value: &BorrowedValue<'_>) -> Span
        ensures { NotesSpan (borrowed_view value.now) result.start result.end self.old self.new }
    {
        let read = read_span(self.alloc, self.spans, value);
        match self.noted(read) {
            Some(span) => span,
            None => Span { start: 0, end: 0 },
        }
    }
}
