//! Lines that are calls, and words that name an actor, as a history writes them.
ghost use Rattle.std.specs.Prelude.{◌≡◌, ◌+◌, ◌<◌, ◌^◌, length, IfOk, Ok};
ghost use Rattle.pr_asks.specs.Asks.{Gives};
ghost use Rattle.pr_asks.specs.Calls.{actor_of, call_of, entries_or, first_actor, first_call, framed};
ghost use Rattle.pr_plain.specs.EntryReading.{history_of};

use crate::asks::{AskKind, Unasked};
use pr_model::{Act, Actor, Call, History};
use pr_num::NoMemory;
use pr_plain::{HistRefusal, read_history};
use std::alloc::Global;

/// A text between two others.
fn framed(alloc: Global, above: &[u8], text: &[u8], below: &[u8]) -> Result<Vec<u8>, NoMemory>
    ensures { IfOk result (λ all. all.items ≡ framed above.now text.now below.now) }
{
    let mut all = Vec::new(alloc);
    all.extend_from_slice(above)?;
    all.extend_from_slice(text)?;
    all.extend_from_slice(below)?;
    Ok(all)
}

/// The call of the first entry.
fn first_call(alloc: Global, history: &History) -> Result<Call, Unasked>
    ensures { Gives result (first_call history.now.entries) }
{
    let entry = history.get(0).ok_or(Unasked::Refused(AskKind::NoCall))?;
    match &entry.act {
        Act::Call(call, _) => Ok(call.copy(alloc)?),
        Act::Turn(_) | Act::Tick(_) => Err(Unasked::Refused(AskKind::NoCall)),
    }
}

/// The actor of the first entry.
fn first_actor(history: &History) -> Result<Actor, Unasked>
    ensures { Gives result (first_actor history.now.entries) }
{
    match history.get(0) {
        Some(entry) => Ok(entry.actor),
        None => Err(Unasked::Refused(AskKind::NoCall)),
    }
}

/// The call that a line is: what stands before the arrow in the line of an entry.
#[tactic(auto, unfolding(crate::specs::Calls::call_of))]
pub fn call_of(alloc: Global, line: &[u8]) -> Result<Call, Unasked>
    requires { length line.now + 64 < 2 ^ 32 }
    ensures { Gives result (call_of line.now) }
{
    let text = framed(alloc, b"history 1\n0 c0 ", line, b" -> done\n")?;
    match read_history(alloc, &text, 0) {
        Ok(history) => first_call(alloc, &history),
        Err(HistRefusal::Line(_)) => Err(Unasked::Refused(AskKind::NoCall)),
        Err(HistRefusal::NoMemory) => Err(Unasked::NoMemory),
    }
}

/// The actor that a word names: what stands behind the number in the line of an entry.
#[tactic(auto, unfolding(crate::specs::Calls::actor_of))]
pub fn actor_of(alloc: Global, word: &[u8]) -> Result<Actor, Unasked>
    requires { length word.now + 64 < 2 ^ 32 }
    ensures { Gives result (actor_of word.now) }
{
    let text = framed(alloc, b"history 1\n0 ", word, b" ran\n")?;
    match read_history(alloc, &text, 0) {
        Ok(history) => first_actor(&history),
        Err(HistRefusal::Line(_)) => Err(Unasked::Refused(AskKind::NoCall)),
        Err(HistRefusal::NoMemory) => Err(Unasked::NoMemory),
    }
}
