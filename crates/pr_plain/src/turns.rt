//! Turns of lwps.
ghost use Rattle.std.specs.Prelude.{◌≡◌, ◌++◌, [], ◌∷◌, OnOk};
ghost use Rattle.pr_plain.specs.Buffers.{StartsWith};
ghost use Rattle.pr_text.specs.SpacedWords.{spaced};
ghost use Rattle.pr_plain.specs.HistoryText.{result_words, did_words, turn_words};

use crate::names::how_name;
use crate::words::{write_number, write_word};
use pr_model::{Did, Res, Turned};
use std::alloc::AllocError;

/// Writes what a system call gave.
#[tactic(auto, using(crate::proofs::BufferLemmas::kept), unfolding(crate::specs::HistoryText::result_words))]
pub fn write_result(out: &mut Vec<u8>, res: Res) -> Result<(), AllocError>
    ensures all { OnOk result (out.new.items ≡ out.old.items ++ spaced (result_words res)) }
    ensures kept { StartsWith out.new.items out.old.items }
{
    match res {
        Res::Value(n) => {
            write_word(out, b"=")?;
            write_number(out, n)
        }
        Res::Error(e) => write_word(out, e.name().as_bytes()),
        Res::Ended => Ok(()),
    }
}

/// Writes two words.
#[tactic(auto, using(crate::proofs::BufferLemmas::kept))]
fn write_two(out: &mut Vec<u8>, first: &[u8], second: &[u8]) -> Result<(), AllocError>
    ensures all { OnOk result (out.new.items ≡ out.old.items ++ spaced (first.now ∷ second.now ∷ [])) }
    ensures kept { StartsWith out.new.items out.old.items }
{
    write_word(out, first)?;
    write_word(out, second)
}

/// Writes what an lwp did.
#[tactic(auto, using(crate::proofs::BufferLemmas::kept), unfolding(crate::specs::HistoryText::did_words))]
fn write_did(out: &mut Vec<u8>, did: Did) -> Result<(), AllocError>
    ensures all { OnOk result (out.new.items ≡ out.old.items ++ spaced (did_words did)) }
    ensures kept { StartsWith out.new.items out.old.items }
{
    match did {
        Did::Stopped => write_two(out, b"stopped", b"requested"),
        Did::Ran => write_word(out, b"ran"),
        Did::Entered(call) => write_two(out, b"entered", call.name().as_bytes()),
        Did::Made(call, res) => {
            write_two(out, b"made", call.name().as_bytes())?;
            write_result(out, res)
        }
        Did::Slept(call) => write_two(out, b"slept", call.name().as_bytes()),
        Did::Woke(call, res) => {
            write_two(out, b"woke", call.name().as_bytes())?;
            write_result(out, res)
        }
        Did::Returned(call) => write_two(out, b"returned", call.name().as_bytes()),
        Did::Faulted(fault) => write_two(out, b"faulted", fault.name().as_bytes()),
        Did::Posted(fault) => {
            write_two(out, b"posted", fault.name().as_bytes())?;
            write_word(out, fault.signal().name().as_bytes())
        }
        Did::Took(sig) => write_two(out, b"took", sig.name().as_bytes()),
        Did::Acted(sig, how) => {
            write_two(out, b"acted", sig.name().as_bytes())?;
            write_word(out, how_name(how).as_bytes())
        }
    }
}

/// Writes a turn, and `stop` behind it where the lwp stopped on what it met.
#[tactic(auto, using(crate::proofs::BufferLemmas::kept), unfolding(crate::specs::HistoryText::turn_words, crate::specs::HistoryText::stop_words))]
pub fn write_turn(out: &mut Vec<u8>, turned: Turned) -> Result<(), AllocError>
    ensures all { OnOk result (out.new.items ≡ out.old.items ++ spaced (turn_words turned)) }
    ensures kept { StartsWith out.new.items out.old.items }
{
    write_did(out, turned.did)?;
    if turned.stop {
        write_word(out, b"stop")?;
    }
    Ok(())
}
