//! The program `proclab`: it hands its words and the standard streams to `serve`, and ends with the status of that.
#![tactic(auto)]

ghost use Rattle.std.specs.Prelude.{◌≡◌, ◌≢◌, [], drop, IfOk, IfErr, IsErr};
ghost use Rattle.std.specs.IoError.{error_kind};
ghost use Rattle.std.specs.Vec.Iter.{into_iter_items};
ghost use Rattle.std.specs.declared.io.ErrorKind.TheVariants.{OutOfMemory};

use pr_ends::words_after_name;
use pr_io::{OpenGate, StdSink, StdSource};
use pr_serve::{Status, number, serve};
use std::alloc::Global;
use std::env::Args;
use std::io::ErrorKind;
use std::process::ExitCode;
use std::{env, io};

// The words of a program that was given these arguments, or was not for this error; none where an argument is no text,
// since words of no shape have such a word.
fn words_of(alloc: Global, given: io::Result<Args>) -> io::Result<Vec<String>>
    ensures words { IfOk given (λ arguments. IfOk result (λ words. words.items ≡ drop 1 (into_iter_items arguments))) }
    ensures no_text { IfErr given (λ error. error_kind error ≢ OutOfMemory → IfOk result (λ words. words.items ≡ [])) }
    ensures ran_out { IfErr given (λ error. error_kind error ≡ OutOfMemory → IsErr result) }
    ensures memory { IfErr result (λ error. error_kind error ≡ OutOfMemory) }
{
    match given {
        Ok(arguments) => Ok(words_after_name(alloc, arguments)?),
        Err(error) if error.kind() == ErrorKind::OutOfMemory => Err(error),
        Err(_) => Ok(Vec::new(alloc)),
    }
}

fn main(rt: HostRuntime) -> ExitCode {
    let Ok(words) = words_of(rt.alloc(), env::args(&rt)) else {
        return ExitCode::from(number(Status::OutOfMemory));
    };
    let mut source = StdSource::new(rt.stdin());
    let mut sink = StdSink::new(rt.stdout());
    let outcome = serve(&rt, rt.alloc(), &words, &mut source, &mut sink, &OpenGate);
    ExitCode::from(outcome.status)
}
