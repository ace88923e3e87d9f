//! Numbers of items of one's own, for a `HashMangler`.
ghost use Rattle.std.specs.Prelude.{◌≡◌};
ghost use Rattle.wesl_example_traits.specs.Hash.{hash_text, hash_texts};

use wesl_mangle::PathHash;
use wesl_tree::ModulePath;

/// Goes on with a number by the bytes of a name.
#[tactic(auto, using(crate::proofs::Hashing::hash_text_next, crate::proofs::Hashing::hash_text_all))]
fn hash_name(start: u64, name: &str) -> u64
    ensures { result ≡ hash_text start name.now }
{
    let mut number = start;
    for byte in name.as_bytes() {
        number = number.wrapping_mul(31).wrapping_add(u64::from(*byte));
    }
    number
}

/// Numbers an item by the bytes of its module's components and its own.
#[derive(Clone, Copy)]
pub struct ByBytes;

impl PathHash for ByBytes {
    ghost hash_of = { λ _ p i. hash_text (hash_texts 7 p.components) i };

    #[tactic(auto, using(crate::proofs::Hashing::hash_texts_next, crate::proofs::Hashing::hash_texts_all))]
    fn hash(&self, path: &ModulePath, item: &str) -> u64 {
        let mut number = 7;
        for name in &path.components {
            number = hash_name(number, name.as_str());
        }
        hash_name(number, item)
    }
}
