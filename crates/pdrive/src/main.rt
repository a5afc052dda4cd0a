//! The program `pdrive`: a kernel with the controllers of a scenario, driven by calls on standard input, each answered
//! on standard output before the next one is read.
#![tactic(auto)]

ghost use Rattle.std.specs.Prelude.{◌≡◌, ◌≢◌, drop, map, string_bytes, IfOk, IfErr, IfSome, None, Some};
ghost use Rattle.std.specs.IoError.{error_kind};
ghost use Rattle.std.specs.Vec.Iter.{into_iter_items};
ghost use Rattle.std.specs.declared.io.ErrorKind.TheVariants.{OutOfMemory};
ghost use Rattle.pr_drive.specs.Commands.{work_of};

use pr_drive::{Status, Work, number, serve, work_of};
use pr_ends::words_after_name;
use pr_io::{StdSink, StdSource};
use std::alloc::Global;
use std::env::Args;
use std::io::ErrorKind;
use std::process::ExitCode;
use std::{env, io};

// What a program is asked for that was given these arguments, or was not for this error; `None` where memory ran out.
// An argument that is no text asks for nothing.
fn work_for(alloc: Global, given: io::Result<Args>) -> Option<Work>
    ensures words { IfOk given (λ arguments.
        IfSome result (λ work. work ≡ work_of (map string_bytes (drop 1 (into_iter_items arguments))))) }
    ensures no_text { IfErr given (λ error. error_kind error ≢ OutOfMemory → result ≡ Some Work.Explains) }
    ensures ran_out { IfErr given (λ error. error_kind error ≡ OutOfMemory → result ≡ None) }
{
    match given {
        Ok(arguments) => {
            let words = words_after_name(alloc, arguments).ok()?;
            Some(work_of(&words))
        }
        Err(error) if error.kind() == ErrorKind::OutOfMemory => None,
        Err(_) => Some(Work::Explains),
    }
}

fn main(rt: HostRuntime) -> ExitCode {
    let Some(work) = work_for(rt.alloc(), env::args(&rt)) else {
        return ExitCode::from(number(Status::OutOfMemory));
    };
    let mut source = StdSource::new(rt.stdin());
    let mut sink = StdSink::new(rt.stdout());
    ExitCode::from(number(serve(rt.alloc(), work, &mut source, &mut sink)))
}
