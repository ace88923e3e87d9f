//! The program `wesl-link`: the bundle on standard input, its line to standard output.
#![tactic(auto)]

use std::process::ExitCode;
use wesl::{run, status};

/// Ends with 0 where a unit was linked, with 1 where it was refused, and with 2 where a read or a write failed.
fn main(rt: HostRuntime) -> ExitCode {
    status(run(rt.alloc(), &mut rt.stdin(), &mut rt.stdout()))
}
