//! One walk over a module, which tells a handler what it meets.
ghost use Rattle.std.specs.Prelude.{◌≡◌, ◌∷◌, [], length, false};
ghost use Rattle.wesl_scope_occurrences.specs.Occurrences.{declared, a_value};
ghost use Rattle.wesl_scope_occurrences.specs.Events.{begins, meets, opens, closes, ending, path_met};
ghost use Rattle.wesl_scope_occurrences.specs.Views.{here_view, standing_view};
ghost use Rattle.wesl_scope_occurrences.specs.Noted.{Steps, Notes, IfKept};

use crate::handler::Handler;
use crate::here::Here;
use crate::occurrence::Standing;
use std::alloc::Global;
use wesl_tree::{Ident, ModulePath};

/// A walk over a module, as far as it has come.
#[derive(Drop)]
pub struct Walk<'a, H> {
    /// what is told what the walk meets
    pub handler: H,
    /// the paths of the identifiers that have one, in document order
    pub paths: Vec<&'a ModulePath>,
    /// of each block, by its number, the one round it
    pub outer: Vec<usize>,
    /// whether memory was wanting, so that some of what there is was not taken down
    pub is_refused: bool,
}

impl<'a, H: Handler> Walk<'a, H> {
    /// Nothing met yet, and the module's block alone.
    pub fn new(alloc: Global, handler: H) -> Walk<'a, H>
        ensures handler { result.handler ≡ handler }
        ensures outer { IfKept result (result.outer.items ≡ 0 ∷ []) }
        ensures paths { result.paths.items ≡ [] }
    {
        let mut outer = Vec::new(alloc);
        let is_refused = outer.push(0).is_err();
        Walk {
            handler,
            paths: Vec::new(alloc),
            outer,
            is_refused,
        }
    }

    /// A global declaration of the module begins.
    pub fn begin(&mut self)
        ensures { Steps H.after self.old self.new (begins ∷ []) [] }
    {
        self.handler.begin();
    }

    /// The path of an identifier that stands so, if it has one.
    fn note_path(&mut self, standing: &Standing<'a>)
        ensures { Notes self.old self.new (path_met (standing_view standing.now)) }
    {
        match standing {
            Standing::Reference(Some(path)) => {
                self.is_refused |= self.paths.push(path).is_err();
            }
            _ => {}
        }
    }

    /// An identifier that stands here.
    pub fn meet(&mut self, here: &Here, standing: Standing<'a>, ident: Ident)
        ensures { Steps H.after self.old self.new (meets (here_view here.now) (standing_view standing.entry) ident.0 ∷ []) [] }
    {
        self.note_path(&standing);
        self.handler.meet(here, standing, ident);
    }

    /// The same place, with the number of one more block that the node there opens.
    pub fn number(&mut self, here: &Here) -> Here
        ensures here { here_view result ≡ record (here_view here.now) { held_block = length self.old.outer.items } }
        ensures numbered { Steps H.after self.old self.new [] (here.now.block ∷ []) }
    {
        let held_block = self.outer.len();
        self.is_refused |= self.outer.push(here.block).is_err();
        Here {
            held_block,
            ..*here
        }
    }

    /// A block opens.
    pub fn enter(&mut self)
        ensures { Steps H.after self.old self.new (opens ∷ []) [] }
    {
        self.handler.open();
    }

    /// The same place, with a new block that the node there opens.
    pub fn open(&mut self, here: &Here) -> Here
        ensures here { here_view result ≡ record (here_view here.now) { held_block = length self.old.outer.items } }
        ensures opened { Steps H.after self.old self.new (opens ∷ []) (here.now.block ∷ []) }
    {
        let here = self.number(here);
        self.enter();
        here
    }

    /// The innermost open block closes.
    pub fn close(&mut self)
        ensures { Steps H.after self.old self.new (closes ∷ []) [] }
    {
        self.handler.close();
    }

    /// The declaration of a value's name has ended.
    pub fn end(&mut self, here: &Here, ident: Ident)
        ensures { Steps H.after self.old self.new (ending (here_view here.now) (declared a_value (here_view here.now) 0) ident.0) [] }
    {
        if here.is_local {
            self.handler.end(here, ident);
        }
    }
}
