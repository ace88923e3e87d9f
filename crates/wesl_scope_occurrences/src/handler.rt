//! What a walk over a module tells what it meets.
ghost use Rattle.std.specs.Prelude.{List, [], ◌∷◌, ◌++◌};
ghost use Rattle.wesl_scope_occurrences.specs.Events.{Event, begins, meets, opens, closes, ends};
ghost use Rattle.wesl_scope_occurrences.specs.Views.{here_view, standing_view};

use crate::here::Here;
use crate::occurrence::Standing;
use wesl_tree::Ident;

/// What is told what a walk over a module meets, in document order (WGSL, "Declaration and Scope").
pub trait Handler {
    // these events lead from the first handler to the second
    ghost after: { List Event → Self → Self → Type 0 };

    /// A global declaration of the module begins.
    fn begin(&mut self)
        ensures { after (begins ∷ []) self.old self.new };

    /// An identifier, with its surroundings and how it stands. A local name has no end yet.
    fn meet(&mut self, here: &Here, standing: Standing<'_>, ident: Ident)
        ensures { after (meets (here_view here.now) (standing_view standing.entry) ident.0 ∷ []) self.old self.new };

    /// A block opens.
    fn open(&mut self)
        ensures { after (opens ∷ []) self.old self.new };

    /// The innermost open block closes.
    fn close(&mut self)
        ensures { after (closes ∷ []) self.old self.new };

    /// The declaration statement of a local name has ended, from where on the name is visible.
    fn end(&mut self, here: &Here, ident: Ident)
        ensures { after (ends (here_view here.now) ident.0 ∷ []) self.old self.new };

    ghost none: { (h : Self) → after [] h h };

    ghost more: { (es fs : List Event) (a b c : Self) → after es a b → after fs b c → after (es ++ fs) a c };
}
