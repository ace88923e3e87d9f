//! Whether two declarations are ever there together.
use std::alloc::Global;
use wesl_cond::{alive_together, flag_count};
use wesl_tree::{Error, TranslationUnit};

/// Whether some choice of the flags keeps both of two global declarations, where there are few enough flags to tell.
pub fn are_together(
    alloc: Global,
    unit: &TranslationUnit,
    first: usize,
    second: usize,
) -> Result<Option<bool>, Error> {
    if flag_count(alloc, unit)? > 16 {
        return Ok(None);
    }
    Ok(Some(alive_together(alloc, unit, &[2, first], &[2, second])?))
}
