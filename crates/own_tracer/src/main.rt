//! A tracer of one's own: a controller that makes every second `write` of process 1 fail with EINTR, until two have
//! failed, and leaves. It runs beside the programs of a scenario, which it reads on standard input, and writes the
//! history. docs/LIBRARY.md goes through it.
#![tactic(auto)]

mod attaching;
mod calls;
mod faults;
mod injecting;
mod leaving;
mod orders;
mod programs;
mod running;
mod statuses;
mod telling;

use crate::statuses::number;
use crate::telling::serve;
use pr_io::{StdSink, StdSource};
use std::process::ExitCode;

fn main(rt: HostRuntime) -> ExitCode {
    let mut source = StdSource::new(rt.stdin());
    let mut sink = StdSink::new(rt.stdout());
    ExitCode::from(number(serve(rt.alloc(), &mut source, &mut sink)))
}
