//! What is told of a name that clashes.

ghost use Rattle.std.specs.Prelude.{◌≡◌, []};

use std::alloc::Global;

/// What an identifier stands for.
#[derive(Clone, Copy)]
pub enum Meaning {
    /// The held declaration of this number.
    Held(usize),
    /// A parameter, or a name that is declared in a function.
    Local,
    /// A name that the linked unit does not declare.
    Outer,
    /// An address space or an access mode, which is no name in a tree.
    Word,
}

/// What is read where a name clashes.
#[derive(Clone, Copy)]
pub enum Read {
    /// The name reads as this.
    As(Meaning),
    /// The name reads as nothing.
    Nothing,
    /// Two declarations have the name, the other is this.
    Twice(Meaning),
}

/// What helps where a name clashes.
#[derive(Clone, Copy)]
pub enum Cure {
    /// The bundle's `mangle_root`, which gives the root's names, entry points too, a form of their own.
    MangleRoot,
    /// The bundle's `mangler`, `escape` or `unicode` in place of `none`.
    AnotherMangler,
    /// Both: it is a name of the root that is read, and one of no module that is meant, or the other way round.
    ManglerAndRoot,
    /// Another name in the source for one of the two.
    AnotherName,
    /// Another name in the source for what is read, since a word has no other.
    Rename,
}

/// A place at which a printed name reads otherwise than it should.
#[derive(Drop)]
pub struct NameClash {
    /// the printed name
    pub name: String,
    /// the held declaration that it stands in
    pub within: Option<usize>,
    /// what it stands for
    pub meant: Meaning,
    /// what is read
    pub read: Read,
    /// what helps
    pub cures: Vec<Cure>,
}

/// What clashes in a linked unit.
#[derive(Drop)]
pub struct Clashes {
    /// Where printed names read otherwise than they should.
    pub names: Vec<NameClash>,
    /// The words of variables that declarations capture.
    pub words: Vec<NameClash>,
}

impl Clashes {
    /// Nothing clashes. It takes no memory.
    pub fn none(alloc: Global) -> Clashes
        ensures names { result.names.items ≡ [] }
        ensures words { result.words.items ≡ [] }
    {
        Clashes {
            names: Vec::new(alloc),
            words: Vec::new(alloc),
        }
    }
}
