//! The directory in a program's own threads: over the line 0 - 1 - 2 - 3 one thread moves a
//! subscriber between the ends, and three threads find it (docs/LIBRARY.md).
#![tactic(auto)]

mod crew;
mod finder;
mod mover;
mod network;
mod perform;
mod round;
mod stop;
mod tally;

use crate::perform::perform;
use crate::stop::Stop;
use std::process::ExitCode;

fn main(rt: HostRuntime) -> ExitCode {
    match perform(&rt, rt.alloc()) {
        Ok(()) => ExitCode::from(0),
        Err(Stop::OutOfMemory) => ExitCode::from(3),
        Err(Stop::NotWritten) => ExitCode::from(5),
        Err(_) => ExitCode::from(1),
    }
}
