//! What a call answers that was refused, as it is noted: want of memory, or another fault.
use std::alloc::{AllocError, AllocFailed};
use wesl_tree::{Diagnostic, Error, ResolveError};

/// What is noted of a call that was refused for want of memory.
pub const MEMORY: &str = "want of memory";
/// What is noted of a call that was refused for another reason.
const FAULT: &str = "another fault";

/// What a call answers that was refused.
pub trait Refusal: Drop {
    /// What is noted of it.
    fn noted(&self) -> &'static str;
}

impl Refusal for AllocError {
    fn noted(&self) -> &'static str {
        MEMORY
    }
}

impl<T: Drop> Refusal for AllocFailed<T> {
    fn noted(&self) -> &'static str {
        MEMORY
    }
}

impl Refusal for Error {
    fn noted(&self) -> &'static str {
        match self {
            Error::Memory => MEMORY,
            _ => FAULT,
        }
    }
}

impl Refusal for ResolveError {
    fn noted(&self) -> &'static str {
        match self {
            ResolveError::Memory => MEMORY,
            _ => FAULT,
        }
    }
}

impl Refusal for Diagnostic {
    fn noted(&self) -> &'static str {
        self.error.noted()
    }
}

impl Refusal for serde_json::Error {
    fn noted(&self) -> &'static str {
        if self.is_memory() { MEMORY } else { FAULT }
    }
}

impl Refusal for anyhow::Error {
    fn noted(&self) -> &'static str {
        FAULT
    }
}
