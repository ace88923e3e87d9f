//! Why there is no text of a project.
ghost use Rattle.std.specs.Prelude.{◌≡◌, Ok, Err, MatchResult};
ghost use Rattle.wesl_text_project.specs.declared.fault.ProjectFault.TheVariants as fault;

use std::alloc::{AllocError, AllocFailed};

/// Why there is no text of a project.
#[derive(Drop)]
pub enum ProjectFault {
    /// Something is wrong with the folder, with what describes it, or with what is asked of it. It carries what.
    Project(String),
    /// Something is wrong in a module. It carries the lines that tell where and what.
    Module(String),
    /// Want of memory.
    Memory,
}

impl From<AllocError> for ProjectFault {
    fn from(_: AllocError) -> ProjectFault {
        ProjectFault::Memory
    }
}

impl<T: Drop> From<AllocFailed<T>> for ProjectFault {
    fn from(_: AllocFailed<T>) -> ProjectFault {
        ProjectFault::Memory
    }
}

/// The answer of a call that is refused for want of memory alone.
pub fn or_memory<T, E: Drop>(answer: Result<T, E>) -> Result<T, ProjectFault>
    ensures { MatchResult answer (λ value. result ≡ Ok value) (λ _. result ≡ Err fault.Memory) }
{
    match answer {
        Ok(value) => Ok(value),
        Err(fault) => {
            drop(fault);
            Err(ProjectFault::Memory)
        }
    }
}
