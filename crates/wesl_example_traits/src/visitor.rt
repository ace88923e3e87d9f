//! A visitor of one's own: it counts the types and names that it meets.
ghost use Rattle.std.specs.Prelude.{◌≡◌, ◌+◌};
ghost use Rattle.std.proofs.Common.{refl};

use std::alloc::Global;
use wesl_tree::{Error, TranslationUnit, TypeExpression};
use wesl_visit::{Visit, Visitor};

/// How many nodes were met.
#[derive(Drop)]
struct Counter {
    count: u32,
}

impl Visitor<TypeExpression> for Counter {
    ghost meets = { λ old node new. new.count ≡ old.count + 1 };

    ghost unchanged = { λ old new. new.count ≡ old.count };

    fn meet(&mut self, _: &TypeExpression) -> Result<(), Error> {
        match self.count.checked_add(1) {
            Some(count) => {
                self.count = count;
                Ok(())
            }
            None => Err(Error::Memory),
        }
    }

    ghost stays = { λ visitor. refl };
}

/// How many types and names a unit uses, those of its conditions left out. Refused for want of memory, and where there
/// are 2^32.
pub fn count_uses(alloc: Global, unit: &TranslationUnit) -> Result<u32, Error> {
    let mut counter = Counter { count: 0 };
    unit.visit_rec(alloc, &mut counter)?;
    Ok(counter.count)
}
