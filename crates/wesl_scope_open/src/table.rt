//! The table of open binders, and what to take back when a block closes.
ghost use Rattle.std.specs.Prelude.{◌≡◌, ◌<◌, length, get_or, None, IfOk};

use std::alloc::{AllocError, Global};

/// What to take back of a table.
#[derive(Clone, Copy)]
pub enum Change<T> {
    /// a block opened
    Opened,
    /// a name is read otherwise
    Read {
        /// the name
        name: usize,
        /// how it was read before
        before: Option<T>,
    },
}

/// What references read, by the numbers of names: what a `T` says of the declaration of the name in a function that is
/// visible, as the number of its block.
#[derive(Drop)]
pub struct OpenBinders<T> {
    /// of each name, by its number, what is said of the declaration that a reference reads
    pub reads: Vec<Option<T>>,
    /// what to take back, the last change last
    pub changes: Vec<Change<T>>,
    /// whether memory was wanting, so that some change cannot be taken back
    pub is_refused: bool,
}

impl<T: Copy + Drop> OpenBinders<T> {
    ghost use Rattle.wesl_scope_open.specs.Table.{IsEmpty, Opens, Declares, Closes};

    /// Nothing is open, and of so many names none is declared in a function. Refused for want of memory alone.
    pub fn new(alloc: Global, names: usize) -> Result<OpenBinders<T>, AllocError>
        ensures { IfOk result (IsEmpty names) }
    {
        Ok(OpenBinders {
            reads: vec![in alloc; None; names]?,
            changes: Vec::new(alloc),
            is_refused: false,
        })
    }

    /// A block opens.
    pub fn open(&mut self)
        ensures { Opens self.old self.new }
    {
        self.is_refused |= self.changes.push(Change::Opened).is_err();
    }

    /// A declaration of a name is visible from now on, of which this is said.
    pub fn declare(&mut self, name: usize, read: T)
        requires { name < length self.old.reads.items }
        ensures { Declares self.old self.new name read }
    {
        let before = self.reads[name];
        let change = Change::Read { name, before };
        self.is_refused |= self.changes.push(change).is_err();
        self.reads[name] = Some(read);
    }

    /// What is said of the declaration of a name that a reference reads, if there is one in a function.
    pub fn read(&self, name: usize) -> Option<T>
        requires { name < length self.now.reads.items }
        ensures { result ≡ get_or self.now.reads.items name None }
    {
        self.reads[name]
    }

    /// The innermost open block closes: names are read as they were when it opened.
    pub fn close(&mut self)
        ensures { Closes self.old self.new }
    {
        while let Some(change) = self.changes.pop() {
            match change {
                Change::Opened => return,
                Change::Read { name, before } => {
                    if name < self.reads.len() {
                        self.reads[name] = before;
                    }
                }
            }
        }
    }
}
