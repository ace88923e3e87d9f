//! What is wrong with a call.

/// Why a call fits nothing of what its aliases end in.
#[derive(Clone, Copy)]
pub enum Misfit {
    /// they end at a function or a structure that takes another count of arguments
    ParamCount {
        /// the number of its name
        number: usize,
        /// how many parameters or members it has
        expected: usize,
        /// how many arguments the call has
        got: usize,
    },
    /// they end at nothing that can be called
    NotCallable {
        /// the number of a name where they end
        number: usize,
    },
}
