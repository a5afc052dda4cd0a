//! Calls of controllers, and what the kernel answers.
ghost use Rattle.std.specs.Prelude.{◌≡◌, ◌++◌, [], ◌∷◌, decimal, OnOk};
ghost use Rattle.pr_plain.specs.Buffers.{StartsWith};
ghost use Rattle.pr_text.specs.SpacedWords.{spaced};
ghost use Rattle.pr_plain.specs.HistoryText.{held_words, call_words, reply_words};

use crate::words::{write_hex, write_number, write_numbers, write_target, write_word};
use pr_model::{Call, Reply, file_name, mode_name};
use pr_num::Name;
use std::alloc::AllocError;

/// Writes a word and a number.
#[tactic(auto, using(crate::proofs::BufferLemmas::kept))]
fn write_numbered(out: &mut Vec<u8>, word: &[u8], n: u64) -> Result<(), AllocError>
    ensures all { OnOk result (out.new.items ≡ out.old.items ++ spaced (word.now ∷ decimal n ∷ [])) }
    ensures kept { StartsWith out.new.items out.old.items }
{
    write_word(out, word)?;
    write_number(out, n)
}

/// Writes a word and two numbers.
#[tactic(auto, using(crate::proofs::BufferLemmas::kept))]
fn write_twice_numbered(out: &mut Vec<u8>, word: &[u8], n: u64, m: u64) -> Result<(), AllocError>
    ensures all { OnOk result (out.new.items ≡ out.old.items ++ spaced (word.now ∷ decimal n ∷ decimal m ∷ [])) }
    ensures kept { StartsWith out.new.items out.old.items }
{
    write_numbered(out, word, n)?;
    write_number(out, m)
}

/// Writes the program of a process that is made, and `held` where it is directed to stop.
#[tactic(auto, using(crate::proofs::BufferLemmas::kept), unfolding(crate::specs::HistoryText::held_words))]
fn write_spawn(out: &mut Vec<u8>, program: Name, held: bool) -> Result<(), AllocError>
    ensures all { OnOk result (out.new.items ≡ out.old.items ++ spaced (program ∷ held_words held)) }
    ensures kept { StartsWith out.new.items out.old.items }
{
    write_word(out, program.as_slice())?;
    if held {
        write_word(out, b"held")?;
    }
    Ok(())
}

/// Writes a call.
#[tactic(auto, using(crate::proofs::BufferLemmas::kept), unfolding(crate::specs::HistoryText::call_words))]
pub fn write_call(out: &mut Vec<u8>, call: &Call) -> Result<(), AllocError>
    ensures all { OnOk result (out.new.items ≡ out.old.items ++ spaced (call_words call.now)) }
    ensures kept { StartsWith out.new.items out.old.items }
{
    match call {
        Call::Open {
            pid,
            lwp,
            file,
            mode,
        } => {
            write_word(out, b"open")?;
            write_target(out, *pid, *lwp)?;
            write_word(out, file_name(*file).as_bytes())?;
            write_word(out, mode_name(*mode).as_bytes())
        }
        Call::Close { handle } => write_numbered(out, b"close", *handle as u64),
        Call::Ctl { handle, bytes } => {
            write_numbered(out, b"ctl", *handle as u64)?;
            write_hex(out, bytes.as_slice())
        }
        Call::CtlWait {
            handle,
            until,
            bytes,
        } => {
            write_twice_numbered(out, b"ctlwait", *handle as u64, *until)?;
            write_hex(out, bytes.as_slice())
        }
        Call::Read { handle, at, len } => {
            write_twice_numbered(out, b"read", *handle as u64, *at)?;
            write_number(out, *len)
        }
        Call::Poll { handles } => {
            write_word(out, b"poll")?;
            write_numbers(out, handles.as_slice())
        }
        Call::Interrupt { controller } => write_numbered(out, b"interrupt", *controller as u64),
        Call::Spawn { program, held } => {
            write_word(out, b"spawn")?;
            write_spawn(out, *program, *held)
        }
        Call::Kill { pid, sig } => {
            write_numbered(out, b"kill", *pid as u64)?;
            write_number(out, *sig)
        }
        Call::Until { moment } => write_numbered(out, b"until", *moment),
        Call::List => write_word(out, b"list"),
    }
}

/// Writes what the kernel answered to a call.
#[tactic(auto, using(crate::proofs::BufferLemmas::kept), unfolding(crate::specs::HistoryText::reply_words))]
pub fn write_reply(out: &mut Vec<u8>, reply: &Reply) -> Result<(), AllocError>
    ensures all { OnOk result (out.new.items ≡ out.old.items ++ spaced (reply_words reply.now)) }
    ensures kept { StartsWith out.new.items out.old.items }
{
    match reply {
        Reply::Handle(handle) => write_numbered(out, b"handle", *handle as u64),
        Reply::Done => write_word(out, b"done"),
        Reply::Used(n) => write_numbered(out, b"used", *n),
        Reply::Half(until) => write_numbered(out, b"half", *until),
        Reply::Bytes(bytes) => {
            write_word(out, b"bytes")?;
            write_hex(out, bytes.as_slice())
        }
        Reply::Pid(pid) => write_numbered(out, b"pid", *pid as u64),
        Reply::Ready(handle) => write_numbered(out, b"ready", *handle as u64),
        Reply::Fail(errno) => {
            write_word(out, b"fail")?;
            write_word(out, errno.name().as_bytes())
        }
    }
}
