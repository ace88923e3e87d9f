//! In which order types are replaced.
use crate::memory::memory;
use std::alloc::{AllocError, Global};
use wesl_tree::TranslationUnit;
use wesl_tree_syntax::TypeExpression;
use wesl_visit_collect::{Collected, in_declarations, in_type};

// A type with types in it.
#[derive(Clone, Copy)]
struct Holder {
    // the number of the first type behind it that is none of those
    end: usize,
}

/// Of each type of a unit, in the order of the document, how many are replaced before it: those in its template arguments, and those
/// before it that it does not stand in. Refused for want of memory alone.
pub(crate) fn turns_before(
    alloc: Global,
    unit: &TranslationUnit,
) -> Result<Vec<usize>, AllocError> {
    let types = all_types(alloc, unit)?;
    let mut holders: Vec<Holder> = Vec::new(alloc);
    let mut turns = Vec::new(alloc);
    for (number, ty) in types.iter().enumerate() {
        holders.retain(|holder| holder.end > number);
        let inner = inner_types(alloc, ty)?;
        let before = number.saturating_sub(holders.len()).saturating_add(inner);
        turns.push(before)?;
        let end = number.saturating_add(inner).saturating_add(1);
        holders.push(Holder { end })?;
    }
    Ok(turns)
}

// The types of a unit, in the order of the document.
fn all_types(alloc: Global, unit: &TranslationUnit) -> Result<Vec<&TypeExpression>, AllocError> {
    let mut found = Collected::new(alloc, true);
    in_declarations(unit.global_declarations(), &mut found);
    memory(found.end())
}

// How many types stand in the template arguments of one.
fn inner_types(alloc: Global, ty: &TypeExpression) -> Result<usize, AllocError> {
    if ty.template_args.is_none() {
        return Ok(0);
    }
    let mut found = Collected::<TypeExpression>::new(alloc, true);
    in_type(ty, &mut found);
    let inner = memory(found.end())?;
    Ok(inner.len())
}
