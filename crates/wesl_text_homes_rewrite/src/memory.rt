//! What is refused for want of memory alone.
use std::alloc::{AllocError, Global};

/// The answer of a call that is refused for want of memory alone.
pub(crate) fn memory<T, E: Drop>(answer: Result<T, E>) -> Result<T, AllocError> {
    match answer {
        Ok(value) => Ok(value),
        Err(fault) => {
            drop(fault);
            Err(AllocError)
        }
    }
}

/// A list of one item.
pub(crate) fn one<T: Drop>(alloc: Global, item: T) -> Result<Vec<T>, AllocError> {
    let mut items = Vec::new(alloc);
    items.push(item)?;
    Ok(items)
}
