//! How the identifiers of a whole module are read, without a list of them.
ghost use Rattle.std.specs.Prelude.{IfOk};
ghost use Rattle.wesl_tree.specs.Translation.{unit_view};
ghost use Rattle.wesl_scope_meanings.specs.Read.{AreRead};

use crate::sense::Sense;
use crate::whole::unread;
use std::alloc::{AllocError, Global};
use wesl_scope_occurrences::walk_unit;
use wesl_scope_open::law_of_open_binders;
use wesl_tree::TranslationUnit;
use wesl_tree_names::ModulePath;

/// How the identifiers of a module are read.
#[derive(Drop)]
pub struct Senses<'a> {
    /// how each identifier is read, in document order
    pub all: Vec<Sense>,
    /// the paths of those that have one, in document order
    pub paths: Vec<&'a ModulePath>,
    /// of each block, by its number, the number of the one round it; the module's block is 0
    pub outer: Vec<usize>,
    /// of each global declaration how many identifiers come before it
    pub starts: Vec<usize>,
}

/// How each identifier of a module is read, in document order: what it is, and what it means by plain scoping. Refused for
/// want of memory alone.
pub fn senses_of<'a>(alloc: Global, unit: &'a TranslationUnit) -> Result<Senses<'a>, AllocError>
    ensures { IfOk result (AreRead (unit_view unit.now)) }
{
    law_of_open_binders();
    let room = unit.global_declarations().len();
    let reader = unread(alloc, unit.names(), room)?;
    let walked = walk_unit(alloc, unit, reader)?;
    let reader = walked.handler;
    if reader.is_refused {
        return Err(AllocError);
    }
    if reader.binders.is_refused {
        return Err(AllocError);
    }
    Ok(Senses {
        all: reader.senses,
        paths: walked.paths,
        outer: walked.outer,
        starts: reader.starts,
    })
}
