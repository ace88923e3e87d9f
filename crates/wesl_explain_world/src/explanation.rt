//! What is told of the link of a bundle: texts, and lists of what they are the paths and names of.
ghost use Rattle.std.specs.Prelude.{IfOk};
ghost use Rattle.wesl_explain_world.specs.Why.{TellsWhyIn, node_of};
ghost use Rattle.wesl_explain_world.specs.Explained.{TellsNothing};

use crate::world::{Steps, node_at, reason_of};
use serde_json::Value;
use std::alloc::{AllocError, Global};
use wesl_explain_clashes::Clashes;
use wesl_explain_faults::{Chain, Cut, HeldUntil, LinkFault};
use wesl_explain_ways::Depths;
use wesl_json::value_of_text;
use wesl_link_reach::link::Linked;
use wesl_link_reasons::Reasons;
use wesl_link_symbols::ids::{NameId, PathId};
use wesl_link_symbols::table::Table;

/// What is told of the link of a bundle.
#[derive(Drop)]
pub struct Explanation {
    /// The texts of the paths, by their numbers.
    pub paths: Vec<String>,
    /// The names, by their numbers.
    pub names: Vec<String>,
    /// Who asked first for each thing that is held in a link.
    pub reasons: Option<Reasons>,
    /// How long the chain to each of these is.
    pub depths: Depths,
    /// The modules that were loaded for a link, the root first and the others in path order.
    pub modules: Vec<PathId>,
    /// The declarations that are held, in the order of the linked unit.
    pub held: Vec<HeldDeclaration>,
    /// Where printed names read otherwise than they should, and the words that declarations capture.
    pub clashes: Clashes,
    /// The names that nothing declares and that are not built in.
    pub free: Vec<FreeName>,
    /// The imports of loaded modules that nothing held uses.
    pub unused: Vec<UnusedImport>,
    /// Why the bundle is refused: nothing where it links.
    pub faults: Vec<Fault>,
    /// What was loaded and held until a link was refused.
    pub until: Option<HeldUntil>,
    /// The modules and symbols of a link.
    pub linked: Option<Linked>,
    /// The symbol tables of the modules that were loaded until a link was refused.
    pub tables: Vec<Table>,
    /// The names of the root that are kept.
    pub kept: Vec<NameId>,
    /// Whether all that is declared is held.
    pub is_eager: bool,
}

impl Explanation {
    /// Nothing is told. It takes no memory.
    pub fn nothing(alloc: Global) -> Explanation
        ensures { TellsNothing result }
    {
        Explanation {
            paths: Vec::new(alloc),
            names: Vec::new(alloc),
            reasons: None,
            depths: Depths::new(alloc),
            modules: Vec::new(alloc),
            held: Vec::new(alloc),
            clashes: Clashes::none(alloc),
            free: Vec::new(alloc),
            unused: Vec::new(alloc),
            faults: Vec::new(alloc),
            until: None,
            linked: None,
            tables: Vec::new(alloc),
            kept: Vec::new(alloc),
            is_eager: false,
        }
    }

    /// Why the declarations of a name in a module are held in the link, or without a name why the module is loaded. The first is
    /// there without being asked for, and each next one is asked for by the one before. It has no steps where that is not held.
    pub fn chain(
        &self,
        alloc: Global,
        path: PathId,
        name: Option<NameId>,
    ) -> Result<Steps, AllocError>
        ensures { IfOk result (λ chain. TellsWhyIn self.now.reasons (node_of path name) chain.items) }
    {
        match &self.reasons {
            Some(reasons) => reason_of(alloc, reasons, path, name),
            None => Ok(Vec::new(alloc)),
        }
    }

    /// The same without its middle where it is long.
    pub fn steps(
        &self,
        alloc: Global,
        path: PathId,
        name: Option<NameId>,
    ) -> Result<Chain, AllocError> {
        if let Some(reasons) = &self.reasons {
            if let Some(place) = reasons.place_of(node_at(path, name)) {
                if self.depths.is_cut(place) {
                    return self.depths.chain(alloc, reasons.nodes(), place);
                }
            }
        }
        Ok(Cut::whole(self.chain(alloc, path, name)?))
    }

    /// The text of a path.
    pub fn path(&self, id: PathId) -> &str {
        match self.paths.get(id.0) {
            Some(text) => text.as_str(),
            None => "",
        }
    }

    /// A name.
    pub fn name(&self, id: NameId) -> &str {
        match self.names.get(id.0) {
            Some(text) => text.as_str(),
            None => "",
        }
    }
}

/// A declaration that is held.
#[derive(Drop)]
pub struct HeldDeclaration {
    /// its module
    pub path: PathId,
    /// its name there; a const_assert has none
    pub name: Option<NameId>,
    /// the name that it prints as
    pub printed: String,
}

/// A name that stays free.
#[derive(Drop)]
pub struct FreeName {
    pub name: String,
    /// the declared name that is nearest to it, if one is near
    pub near: Option<(PathId, NameId)>,
}

/// An import that nothing held uses.
#[derive(Clone, Copy)]
pub struct UnusedImport {
    /// the module that imports
    pub path: PathId,
    /// the name that is bound there
    pub bound: NameId,
    /// the module that is imported from
    pub from: PathId,
    /// the name there
    pub item: NameId,
    /// whether a declaration of the importing module uses it that is not held
    pub is_used_unheld: bool,
}

/// A fault as its line has it.
#[derive(Drop)]
pub struct FaultLine {
    /// The line.
    pub line: String,
    /// The declaration that the fault is in, where that is told.
    pub declaration: Option<String>,
    /// The same for a person.
    pub text: String,
}

impl FaultLine {
    /// The value of the line.
    pub fn value(&self, alloc: Global) -> Result<Value, AllocError> {
        value_of_text(alloc, self.line.as_str())
            .ok()
            .ok_or(AllocError)
    }
}

/// Why the bundle is refused.
#[derive(Drop)]
pub struct Fault {
    pub line: FaultLine,
    /// Who asks, and what else is told of a fault of a link.
    pub link: Option<LinkFault>,
    /// All faults of the conditions of a module that is refused.
    pub conditions: Vec<FaultLine>,
    /// A path of the bundle that is near to one where no module is.
    pub near_path: Option<String>,
    /// The path of a module of the bundle for which an item was asked.
    pub named_module: Option<String>,
}
