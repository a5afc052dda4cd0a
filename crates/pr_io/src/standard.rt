ghost use Rattle.std.specs.Prelude.{◌≡◌, ℕ, ◌<◌, ◌≤◌, length, OnOk, IfOk, OnErr};
ghost use Rattle.std.specs.Io.KnownBytes.{ReadConsumes, WriteAppends};
ghost use Rattle.pr_io.specs.Faults.{raised};

use crate::failures::raised;
use crate::{Failed, Sink, Source};
use std::io::{Read, Write};

/// Standard input as a source, or any other reader of std. It tells no content, and counts each
/// error as a fault. It holds no bytes back: each read is one of the reader, and what the reader
/// tells of its bytes stays true.
#[derive(Drop)]
pub struct StdSource<R> {
    /// What is read.
    pub input: R,
    /// The errors so far, up to 2^64 - 1.
    pub faults: u64,
}

impl<R: Read> StdSource<R> {
    /// A source without faults, in a program that of `rt.stdin()`.
    pub fn new(input: R) -> StdSource<R>
        ensures { result ≡ record { input = input; faults = 0 } }
    {
        StdSource { input, faults: 0 }
    }
}

#[tactic(auto, using(crate::proofs::Counts::counts))]
impl<R: Read> Source for StdSource<R> {
    ghost use Rattle.std.specs.Prelude.{None};

    ghost left = { λ _. None };

    ghost faults = { λ s. s.faults };

    fn read(&mut self, buf: &mut [u8]) -> Result<usize, Failed>
        requires { 0 < length buf.old }
        ensures bytes { ReadConsumes (R.remaining self.old.input) (R.remaining self.new.input)
            result buf.new }
        ensures ok { OnOk result (self.new.faults ≡ self.old.faults) }
        ensures err { OnErr result (self.new.faults ≡ raised self.old.faults) }
        ensures fits { IfOk result (λ n. n ≤ length buf.new) }
    {
        match self.input.read(buf) {
            Ok(n) => Ok(n),
            Err(_) => {
                self.faults = raised(self.faults);
                Err(Failed)
            }
        }
    }
}

/// Standard output as a sink, or any other writer of std. It tells no content, and counts each
/// error, and each write that takes nothing, as a fault. It holds no bytes back: each write is
/// one of the writer, and what the writer tells of its bytes stays true.
#[derive(Drop)]
pub struct StdSink<W> {
    /// What is written.
    pub output: W,
    /// The errors and empty writes so far, up to 2^64 - 1.
    pub faults: u64,
}

impl<W: Write> StdSink<W> {
    /// A sink without faults, in a program that of `rt.stdout()`.
    pub fn new(output: W) -> StdSink<W>
        ensures { result ≡ record { output = output; faults = 0 } }
    {
        StdSink { output, faults: 0 }
    }
}

#[tactic(auto, using(crate::proofs::Counts::counts))]
impl<W: Write> Sink for StdSink<W> {
    ghost use Rattle.std.specs.Prelude.{None};

    ghost written = { λ _. None };

    ghost faults = { λ s. s.faults };

    fn write(&mut self, part: &[u8]) -> Result<usize, Failed>
        requires { 0 < length part.now }
        ensures bytes { WriteAppends (W.contents self.old.output) (W.contents self.new.output)
            result part.now }
        ensures ok { OnOk result (self.new.faults ≡ self.old.faults) }
        ensures err { OnErr result (self.new.faults ≡ raised self.old.faults) }
        ensures some { IfOk result (λ n. (1 ≤ n) × (n ≤ length part.now)) }
    {
        match self.output.write(part) {
            Ok(n) if n > 0 => Ok(n),
            _ => {
                self.faults = raised(self.faults);
                Err(Failed)
            }
        }
    }
}
