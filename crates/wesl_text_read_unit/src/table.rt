//! Names as a table.
ghost use Rattle.std.specs.Prelude.{◌≡◌, IfOk};
ghost use Rattle.wesl_tree_interner.specs.Interned.{texts_of};

use std::alloc::Global;
use wesl_tree_interner::Interner;
use wesl_tree_names::{Error, Names};

/// The names that have numbers, each at its number. Refused for want of memory alone.
pub fn table(alloc: Global, names: Interner) -> Result<Names, Error>
    ensures { IfOk result (λ table. table ≡ texts_of names) }
{
    let texts = names.into_texts(alloc)?;
    let mut table = Names::new(alloc);
    for text in &texts {
        table.add(text.as_str())?;
    }
    Ok(table)
}
