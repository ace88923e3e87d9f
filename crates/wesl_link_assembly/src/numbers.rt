//! Numbers for what identifiers stand for.
ghost use Rattle.std.specs.Prelude.{◌≡◌, ◌<◌, ◌↔◌, ℕ, [], Contains, length, map, slice_index_or, IfOk, IfErr};
ghost use Rattle.std.specs.List.{All};
ghost use Rattle.wesl_tree_names.specs.declared.errors.Error as error;
ghost use Rattle.wesl_tree_syntax.specs.Numbers.{AreNumbers};
ghost use Rattle.wesl_link_assembly.specs.Denotations.{free_name, printed_as};
ghost use Rattle.wesl_link_assembly.specs.Views.{denotation_view};

use crate::denotation::{Denotation, Printing};
use indexmap::IndexSet;
use std::alloc::Global;
use wesl_tree_names::{Error, Names};

/// The number of each, equal ones having one, 0, 1, 2, .. by first occurrence; and what has each number.
pub fn numbers<'a>(
    alloc: Global,
    denotations: &[Denotation<'a>],
) -> Result<(Vec<usize>, IndexSet<Denotation<'a>>), Error>
    ensures numbers { IfOk result (λ r. AreNumbers (map denotation_view denotations.now) r.0.items) }
    ensures leads { IfOk result (λ r. map (λ n. slice_index_or (map denotation_view r.1.keys) n (free_name [])) r.0.items ≡ map denotation_view denotations.now) }
    ensures below { IfOk result (λ r. All (λ n. n < length (map denotation_view r.1.keys)) r.0.items) }
    ensures used { IfOk result (λ r. (m : ℕ) → (m < length (map denotation_view r.1.keys)) ↔ Contains r.0.items m) }
    ensures refused { IfErr result (λ e. e ≡ error.Memory) }
{
    let mut different = IndexSet::new(alloc);
    let mut numbers = Vec::with_capacity(alloc, denotations.len())?;
    for denotation in denotations {
        let (number, _) = different.insert_full(*denotation)?;
        numbers.push(number)?;
    }
    Ok((numbers, different))
}

/// The name that it is printed as.
fn name_of<'a, P: Printing>(denotation: Denotation<'a>, printing: &'a P) -> &'a str
    ensures { result.now ≡ printed_as (P.printed printing.now) (denotation_view denotation.entry) }
{
    match denotation {
        Denotation::Symbol(symbol) => printing.name_of(symbol),
        Denotation::Local(_, _, name) => name,
        Denotation::Free(name) => name,
    }
}

/// A table of the names that these are printed as.
pub fn names<'a, P: Printing>(
    alloc: Global,
    denotations: &[Denotation<'a>],
    printing: &'a P,
) -> Result<Names, Error>
    ensures names { IfOk result (λ names. names ≡ map (printed_as (P.printed printing.now)) (map denotation_view denotations.now)) }
    ensures refused { IfErr result (λ e. e ≡ error.Memory) }
{
    let mut names = Names::new(alloc);
    for denotation in denotations {
        names.add(name_of(*denotation, printing))?;
    }
    Ok(names)
}
