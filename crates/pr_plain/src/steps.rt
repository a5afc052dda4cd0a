//! Steps of the untraced machine and of traces, as text.
ghost use Rattle.std.specs.Prelude.{◌≡◌, ◌++◌, [], ◌∷◌, OnOk, OnErr};
ghost use Rattle.pr_plain.specs.Buffers.{StartsWith};
ghost use Rattle.pr_text.specs.LwpWords.{lwp_text};
ghost use Rattle.pr_text.specs.SpacedWords.{spaced, joined};
ghost use Rattle.pr_plain.specs.HistoryText.{result_words};
ghost use Rattle.pr_num.specs.Syscalls.{syscall_name};
ghost use Rattle.pr_plain.specs.PlainText.{step_words, step_text, plain_heading, trace_heading};

use crate::lines::{whole_or_nothing, write_pair};
use crate::turns::write_result;
use crate::words::{append, write_lwp, write_number, write_word};
use pr_model::{Res, Step};
use pr_num::{NoMemory, Sysno};
use std::alloc::AllocError;

/// Writes an lwp, what it did, and of what.
#[tactic(auto, using(crate::proofs::BufferLemmas::kept), unfolding(pr_text::specs::SpacedWords::behind_blank))]
fn write_named(
    out: &mut Vec<u8>,
    pid: u32,
    lwp: u32,
    word: &[u8],
    name: &[u8],
) -> Result<(), AllocError>
    ensures all { OnOk result (out.new.items ≡ out.old.items ++ (lwp_text pid lwp ++ spaced (word.now ∷ name.now ∷ []))) }
    ensures kept { StartsWith out.new.items out.old.items }
{
    write_lwp(out, pid, lwp)?;
    write_word(out, word)?;
    write_word(out, name)
}

/// Writes an lwp, what became of a call that it made, the call, and what it gave.
#[tactic(auto, using(crate::proofs::BufferLemmas::kept))]
fn write_gave(
    out: &mut Vec<u8>,
    pid: u32,
    lwp: u32,
    word: &[u8],
    call: Sysno,
    res: Res,
) -> Result<(), AllocError>
    ensures all { OnOk result
        (out.new.items
        ≡ out.old.items ++ (lwp_text pid lwp ++ spaced (word.now ∷ syscall_name call ∷ result_words res))) }
    ensures kept { StartsWith out.new.items out.old.items }
{
    write_named(out, pid, lwp, word, call.name().as_bytes())?;
    write_result(out, res)
}

/// Writes what a step is.
#[tactic(auto, using(crate::proofs::BufferLemmas::kept), unfolding(crate::specs::PlainText::step_words, pr_text::specs::SpacedWords::joined, pr_text::specs::SpacedWords::behind_blank))]
fn write_step_words(out: &mut Vec<u8>, step: Step) -> Result<(), AllocError>
    ensures all { OnOk result (out.new.items ≡ out.old.items ++ joined (step_words step)) }
    ensures kept { StartsWith out.new.items out.old.items }
{
    match step {
        Step::Exec(pid, lwp) => {
            write_lwp(out, pid, lwp)?;
            write_word(out, b"exec")
        }
        Step::Call(pid, lwp, call, res) => write_gave(out, pid, lwp, b"call", call, res),
        Step::Sleep(pid, lwp, call) => {
            write_named(out, pid, lwp, b"sleep", call.name().as_bytes())
        }
        Step::Finish(pid, lwp, call, res) => write_gave(out, pid, lwp, b"finish", call, res),
        Step::Fault(pid, lwp, fault) => {
            write_named(out, pid, lwp, b"fault", fault.name().as_bytes())
        }
        Step::Take(pid, lwp, sig) => write_named(out, pid, lwp, b"take", sig.name().as_bytes()),
        Step::Act(pid, lwp, sig) => write_named(out, pid, lwp, b"act", sig.name().as_bytes()),
        Step::Spawn(program) => {
            append(out, b"spawn")?;
            write_word(out, program.as_slice())
        }
        Step::Kill(pid, sig) => {
            append(out, b"kill")?;
            write_number(out, pid as u64)?;
            write_number(out, sig)
        }
        Step::Tick => append(out, b"tick"),
    }
}

// The line of a step, or a part of it.
#[tactic(auto, using(crate::proofs::BufferLemmas::kept), unfolding(crate::specs::PlainText::step_text))]
fn append_step(out: &mut Vec<u8>, step: Step) -> Result<(), AllocError>
    ensures all { OnOk result (out.new.items ≡ out.old.items ++ step_text step) }
    ensures kept { StartsWith out.new.items out.old.items }
{
    write_step_words(out, step)?;
    append(out, b"\n")
}

/// Writes the line of a step, with the newline that ends it. Where memory runs out the buffer is as it was.
#[tactic(auto, using(crate::proofs::BufferLemmas::cut))]
pub fn write_step(out: &mut Vec<u8>, step: Step) -> Result<(), NoMemory>
    ensures written { OnOk result (out.new.items ≡ out.old.items ++ step_text step) }
    ensures unchanged { OnErr result (out.new.items ≡ out.old.items) }
{
    let before = out.len();
    let written = append_step(out, step);
    whole_or_nothing(out, before, written)
}

/// Writes the line above the steps of a run, of which there are so many. Where memory runs out the buffer is as it was.
#[tactic(auto, unfolding(crate::specs::PlainText::plain_heading))]
pub fn write_plain_heading(out: &mut Vec<u8>, steps: usize) -> Result<(), NoMemory>
    ensures written { OnOk result (out.new.items ≡ out.old.items ++ plain_heading steps) }
    ensures unchanged { OnErr result (out.new.items ≡ out.old.items) }
{
    write_pair(out, b"plain", steps as u64)
}

/// Writes the line above a trace, which has so many steps. Where memory runs out the buffer is as it was.
#[tactic(auto, unfolding(crate::specs::PlainText::trace_heading))]
pub fn write_trace_heading(out: &mut Vec<u8>, steps: usize) -> Result<(), NoMemory>
    ensures written { OnOk result (out.new.items ≡ out.old.items ++ trace_heading steps) }
    ensures unchanged { OnErr result (out.new.items ≡ out.old.items) }
{
    write_pair(out, b"trace", steps as u64)
}
