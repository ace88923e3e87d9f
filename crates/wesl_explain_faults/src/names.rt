//! What is told of a name that is missing: a name that is near.
ghost use Rattle.std.specs.Prelude.{◌≡◌};
ghost use Rattle.wesl_link_flaws.specs.Searching.{IsReady};

use std::alloc::{AllocError, Global};
use wesl_explain_names::{NearNames, Texts, only_declared};
use wesl_link_flaws::given::Given;
use wesl_link_symbols::ids::{NameId, PathId};
use wesl_link_symbols::symbols::Symbol;

/// The name of the module at a path that is nearest to one that it lacks, or the one module that declares the name.
pub fn near_missing(
    alloc: Global,
    given: &Given<'_>,
    texts: &Texts,
    near: &mut NearNames,
    path: PathId,
    name: NameId,
) -> Result<Option<Symbol<PathId, NameId>>, AllocError>
    requires ready { IsReady given.now }
{
    let Some(wanted) = near.wanted(texts.name(name)) else {
        return Ok(None);
    };
    let nearest = match given.table(path) {
        Some(table) => near.nearest_seen(alloc, texts, wanted, table)?,
        None => None,
    };
    match nearest {
        Some(found) => Ok(Some(found.symbol)),
        None => Ok(only_declared(given.tables, name)),
    }
}
