//! A walk that reads identifiers by the table of open binders.
ghost use Rattle.std.specs.Prelude.{◌≡◌, None, get_or};
ghost use Rattle.wesl_scope_occurrences.specs.Views.{here_view, standing_view};
ghost use Rattle.wesl_scope_open.specs.Table.{row};

use crate::sense::Sense;
use std::alloc::Global;
use wesl_scope_occurrences::{Handler, Here, Standing};
use wesl_scope_open::OpenBinders;
use wesl_tree_names::Ident;

/// How the identifiers that a walk has met so far are read.
#[derive(Drop)]
pub struct Reader {
    /// of each identifier the number of its name, by the identifier's number: those that are spelled alike have one
    pub alike: Vec<usize>,
    /// of each name, by its number, whether an import or a global declaration that was met declares it
    pub declared: Vec<bool>,
    /// what references read now
    pub binders: OpenBinders<usize>,
    /// how each identifier is read, in document order
    pub senses: Vec<Sense>,
    /// how many of them are read by their paths
    pub paths: usize,
    /// of each global declaration how many identifiers come before it
    pub starts: Vec<usize>,
    /// whether memory was wanting, so that some of what there is was not taken down
    pub is_refused: bool,
}

impl Reader {
    ghost use Rattle.wesl_scope_meanings.specs.Reads.{MakesVisible, MakesKnown, NotesName};

    /// The number of the name of an identifier.
    pub fn name(&self, ident: Ident) -> usize
        ensures { result ≡ get_or self.now.alike.items ident.0 0 }
    {
        if ident.0 < self.alike.len() {
            self.alike[ident.0]
        } else {
            0
        }
    }

    /// The block in functions whose declaration of a name is visible, if there is one.
    fn read(&self, name: usize) -> Option<usize>
        ensures { result ≡ get_or (row self.now.binders) name None }
    {
        if name < self.binders.reads.len() {
            self.binders.read(name)
        } else {
            None
        }
    }

    /// A declaration of a name in a block is visible from now on.
    fn make_visible(&mut self, name: usize, block: usize)
        ensures { MakesVisible self.old self.new name block }
    {
        if name < self.binders.reads.len() {
            self.binders.declare(name, block);
        }
    }

    /// The module declares a name.
    fn make_known(&mut self, name: usize)
        ensures { MakesKnown self.old self.new name }
    {
        if name < self.declared.len() {
            self.declared[name] = true;
        }
    }

    /// Notes what a name declares that stands so.
    fn note(&mut self, here: &Here, standing: &Standing<'_>, name: usize)
        ensures { NotesName self.old self.new (here_view here.now) (standing_view standing.now) name }
    {
        match standing {
            Standing::ModuleName => self.make_known(name),
            Standing::Parameter => self.make_visible(name, here.block),
            Standing::Local { end: _ } => {}
            Standing::Reference(_) => {}
            Standing::Word => {}
        }
    }
}

impl Handler for Reader {
    ghost use Rattle.wesl_scope_meanings.specs.Reads.{Reads, reads_none, reads_more};

    ghost after = { Reads };

    fn begin(&mut self) {
        self.is_refused |= self.starts.push(self.senses.len()).is_err();
    }

    fn meet(&mut self, here: &Here, standing: Standing<'_>, ident: Ident) {
        let name = self.name(ident);
        let sense = Sense::new(self.paths, self.read(name), here, &standing, ident);
        self.is_refused |= self.senses.push(sense).is_err();
        self.paths = sense.paths_with(self.paths);
        self.note(here, &standing, name);
    }

    fn open(&mut self) {
        self.binders.open();
    }

    fn close(&mut self) {
        self.binders.close();
    }

    fn end(&mut self, here: &Here, ident: Ident) {
        let name = self.name(ident);
        self.make_visible(name, here.block);
    }

    ghost none = { reads_none };

    ghost more = { reads_more };
}
