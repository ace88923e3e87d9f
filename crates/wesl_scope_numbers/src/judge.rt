//! A walk that judges how names read, by the table of open binders.
ghost use Rattle.std.specs.Prelude.{◌≡◌, ◌&&◌, None, get_or, set, true, false, length, IfOk};
ghost use Rattle.wesl_scope_occurrences.specs.Occurrences.{module_name, reference};
ghost use Rattle.wesl_scope_occurrences.specs.Views.{here_view};
ghost use Rattle.wesl_scope_open.specs.Table.{row};

use crate::agreed::{Agreed, Visible};
use std::alloc::{AllocError, Global};
use wesl_scope_occurrences::{Handler, Here, Standing};
use wesl_scope_open::OpenBinders;
use wesl_tree::Ident;

/// Judges how names read by plain scoping, as far as a walk has come (WGSL, "Declaration and Scope"): each reference by the
/// table of open binders where one in a function is visible, and the others at the end, by their numbers.
#[derive(Drop)]
pub struct Judge {
    /// of each identifier the number of its name, by the identifier's number: those that are spelled alike have one
    pub alike: Vec<usize>,
    /// of each name the binders that a reference reads in a function
    pub visible: OpenBinders<Visible>,
    /// of each name on which number the imports and global declarations agree
    pub globals: Vec<Option<Agreed>>,
    /// of each number whether an import or a global declaration has it
    pub declares: Vec<bool>,
    /// of each number whether a binder has it
    pub bound: Vec<bool>,
    /// of each number whether a reference without a path has it that reads no binder in a function
    pub outside: Vec<bool>,
    /// whether those that read binders in a function have their number
    pub is_right: bool,
}

/// Sets a mark. A place past the end has none.
fn mark(marks: &mut Vec<bool>, place: usize)
    ensures { marks.new.items ≡ set marks.old.items place true }
{
    if place < marks.len() {
        marks[place] = true;
    }
}

/// Whether a mark is set. A place past the end has none.
fn is_marked(marks: &[bool], place: usize) -> bool
    ensures { result ≡ get_or marks.now place false }
{
    place < marks.len() && marks[place]
}

/// What stands at a place, if there is one.
fn at(agreed: &[Option<Agreed>], place: usize) -> Option<Agreed>
    ensures { result ≡ get_or agreed.now place None }
{
    if place < agreed.len() {
        agreed[place]
    } else {
        None
    }
}

impl Judge {
    ghost use Rattle.wesl_scope_numbers.specs.Judging.{name_at, begun, agree_or, apart_at, outside_at};
    ghost use Rattle.wesl_scope_numbers.specs.Judges.{Becomes, known, read_here, after_meeting, after_end, says_apart, says_outside};

    /// Nothing met yet, where identifiers have these numbers of names, of which there are so many. Refused for want of memory
    /// alone.
    pub fn new(alloc: Global, alike: Vec<usize>, wide: usize) -> Result<Judge, AllocError>
        ensures known { IfOk result (λ judge. known judge ≡ begun wide (length alike.items)) }
        ensures alike { IfOk result (λ judge. judge.alike ≡ alike) }
    {
        let count = alike.len();
        Ok(Judge {
            alike,
            visible: OpenBinders::new(alloc, wide)?,
            globals: vec![in alloc; None; wide]?,
            declares: vec![in alloc; false; count]?,
            bound: vec![in alloc; false; count]?,
            outside: vec![in alloc; false; count]?,
            is_right: true,
        })
    }

    /// The number of the name of an identifier.
    fn name(&self, number: usize) -> usize
        ensures { result ≡ name_at self.now.alike.items number }
    {
        if number < self.alike.len() {
            self.alike[number]
        } else {
            0
        }
    }

    /// The binders of a name that are visible in a function, if there are some.
    fn read(&self, name: usize) -> Option<Visible>
        ensures { result ≡ get_or (row self.now.visible) name None }
    {
        if name < self.visible.reads.len() {
            self.visible.read(name)
        } else {
            None
        }
    }

    /// A binder in a function is visible from now on in its block.
    fn declare(&mut self, here: &Here, number: usize)
        ensures { Becomes self.old self.new (after_end self.old (here_view here.now) number) }
    {
        let name = self.name(number);
        let visible = Visible::with(self.read(name), here.block, number);
        if name < self.visible.reads.len() {
            self.visible.declare(name, visible);
        }
    }

    /// The binders in a function that a reference here reads, if there are some.
    fn seen(&self, here: &Here, number: usize) -> Option<Visible>
        ensures { result ≡ read_here self.now (here_view here.now) number }
    {
        if here.is_local {
            self.read(self.name(number))
        } else {
            None
        }
    }

    /// An import or a global declaration.
    fn meet_global(&mut self, here: &Here, number: usize)
        ensures { Becomes self.old self.new (after_meeting self.old module_name (here_view here.now) number) }
    {
        let name = self.name(number);
        let agreed = Agreed::with(at(&self.globals, name), number);
        if name < self.globals.len() {
            self.globals[name] = Some(agreed);
        }
        mark(&mut self.declares, number);
        mark(&mut self.bound, number);
    }

    /// A reference without a path.
    fn meet_reference(&mut self, here: &Here, number: usize)
        ensures { Becomes self.old self.new (after_meeting self.old (reference None) (here_view here.now) number) }
    {
        match self.seen(here, number) {
            Some(visible) => {
                self.is_right = self.is_right && visible.agreed.is_on(number);
            }
            None => mark(&mut self.outside, number),
        }
    }

    /// Whether the imports and global declarations of a name agree on a number, or this where there are none.
    fn is_agreed(&self, or: bool, number: usize) -> bool
        ensures { result ≡ agree_or (get_or self.now.globals.items (name_at self.now.alike.items number) None) or number }
    {
        match at(&self.globals, self.name(number)) {
            Some(agreed) => agreed.is_on(number),
            None => or,
        }
    }

    /// Whether an import or a global declaration with a number has the number of each that is spelled alike.
    fn is_apart(&self, number: usize) -> bool
        ensures { result ≡ apart_at self.now.alike.items (known self.now) number }
    {
        if is_marked(&self.declares, number) {
            self.is_agreed(true, number)
        } else {
            true
        }
    }

    /// Whether a reference with a number reads right that reads no binder in a function.
    fn is_outside_right(&self, number: usize) -> bool
        ensures { result ≡ outside_at self.now.alike.items (known self.now) number }
    {
        if is_marked(&self.outside, number) {
            self.is_agreed(!is_marked(&self.bound, number), number)
        } else {
            true
        }
    }

    /// Whether binders of the module's block that are spelled alike have one number.
    pub fn are_names_apart(&self) -> bool
        ensures { result ≡ says_apart self.now }
    {
        let mut are_apart = true;
        for number in 0..self.alike.len() {
            are_apart &= self.is_apart(number);
        }
        are_apart
    }

    /// Whether each reference that reads no binder in a function reads right.
    fn are_outside_right(&self) -> bool
        ensures { result ≡ says_outside self.now }
    {
        let mut are_right = true;
        for number in 0..self.alike.len() {
            are_right &= self.is_outside_right(number);
        }
        are_right
    }

    /// Whether each reference without a path reads right.
    pub fn are_references_right(&self) -> bool
        ensures { result ≡ (self.now.is_right && says_outside self.now) }
    {
        self.is_right && self.are_outside_right()
    }
}

impl Handler for Judge {
    ghost use Rattle.wesl_scope_numbers.specs.Judges.{Follows, follows_none, follows_more};

    ghost after = { Follows };

    fn begin(&mut self) {}

    fn meet(&mut self, here: &Here, standing: Standing<'_>, ident: Ident) {
        match standing {
            Standing::ModuleName => self.meet_global(here, ident.0),
            Standing::Parameter => {
                self.declare(here, ident.0);
                mark(&mut self.bound, ident.0);
            }
            Standing::Local { end: _ } => mark(&mut self.bound, ident.0),
            Standing::Reference(None) => self.meet_reference(here, ident.0),
            Standing::Reference(Some(_)) => {}
            Standing::Word => {}
        }
    }

    fn open(&mut self) {
        self.visible.open();
    }

    fn close(&mut self) {
        self.visible.close();
    }

    fn end(&mut self, here: &Here, ident: Ident) {
        self.declare(here, ident.0);
    }

    ghost none = { follows_none };

    ghost more = { follows_more };
}
