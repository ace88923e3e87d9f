//! The names that a module declares.
ghost use Rattle.std.specs.Prelude.{◌≡◌, IfOk};
ghost use Rattle.std.specs.List.{filter};
ghost use Rattle.wesl_scope_words.specs.Finding.{declares};

use std::alloc::{AllocError, Global};
use wesl_scope_occurrences::Occurrence;

/// Whether an identifier declares a name.
fn declares(occurrence: &Occurrence<'_>) -> bool
    ensures { result ≡ declares occurrence.now }
{
    occurrence.standing.is_binder()
}

/// Those of the identifiers that declare a name.
pub fn binders<'a>(alloc: Global, all: &[Occurrence<'a>]) -> Result<Vec<Occurrence<'a>>, AllocError>
    ensures { IfOk result (λ found. found.items ≡ filter declares all.now) }
{
    let mut found = Vec::new(alloc);
    for occurrence in all {
        if declares(occurrence) {
            found.push(*occurrence)?;
        }
    }
    Ok(found)
}
