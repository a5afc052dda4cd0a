//! Entries, read from the words of a line.
ghost use Rattle.std.specs.Prelude.{◌≡◌};
ghost use Rattle.pr_plain.specs.EntryReading.{actor_of, exchange_of, tick_of, act_of, entry_of, heading_of, entry_in, heading_in};
ghost use Rattle.pr_plain.specs.Readings.{Gives};

use crate::call_readers::{begins_call, call_at, lwp_of};
use crate::numerals::{decimal_id_of, decimal_of};
use crate::pieces::Pieces;
use crate::refusals::Refused;
use crate::reply_readers::reply_at;
use crate::turn_readers::turn_of;
use crate::word_readers::{number_at, pass};
use pr_model::{Act, Actor, Entry};
use std::alloc::Global;

/// Who acted.
#[tactic(auto, unfolding(crate::specs::EntryReading::actor_of))]
fn actor_of(word: &[u8]) -> Option<Actor>
    ensures { result ≡ actor_of word.now }
{
    if word == b"clock".as_slice() {
        return Some(Actor::Clock);
    }
    let (first, rest) = word.split_first()?;
    if *first == b'c' {
        Some(Actor::Controller(decimal_id_of(rest)?))
    } else {
        let (pid, lwp) = lwp_of(word)?;
        Some(Actor::Lwp(pid, lwp))
    }
}

/// The call and the reply that all these words tell.
#[tactic(auto, unfolding(crate::specs::EntryReading::exchange_of))]
fn exchange_of(alloc: Global, words: &mut Pieces<'_>) -> Result<Act, Refused>
    ensures { Gives (λ a. a) result (exchange_of words.old) }
{
    let call = call_at(alloc, words)?;
    pass(words, b"->").ok_or(Refused::Malformed)?;
    let reply = reply_at(alloc, words)?;
    if words.is_done() {
        Ok(Act::Call(call, reply))
    } else {
        Err(Refused::Malformed)
    }
}

/// A time with nothing behind it.
#[tactic(auto, unfolding(crate::specs::EntryReading::tick_of))]
fn tick_of(now: u64, rest: &Pieces<'_>) -> Result<Act, Refused>
    ensures { Gives (λ a. a) result (tick_of now rest.now) }
{
    if rest.is_done() {
        Ok(Act::Tick(now))
    } else {
        Err(Refused::Malformed)
    }
}

/// What all these words tell: a time, a call with its reply, or a turn.
#[tactic(auto, unfolding(crate::specs::EntryReading::act_of))]
fn act_of(alloc: Global, words: &mut Pieces<'_>) -> Result<Act, Refused>
    ensures { Gives (λ a. a) result (act_of words.old) }
{
    let (word, rest) = words.split_first().ok_or(Refused::Malformed)?;
    if let Some(now) = decimal_of(word) {
        return tick_of(now, &rest);
    }
    if begins_call(word) {
        return exchange_of(alloc, words);
    }
    let turned = turn_of(words).ok_or(Refused::Malformed)?;
    Ok(Act::Turn(turned))
}

/// The entry of a number that all these words tell.
#[tactic(auto, unfolding(crate::specs::EntryReading::entry_of))]
fn entry_of(alloc: Global, number: u64, words: &mut Pieces<'_>) -> Result<Entry, Refused>
    ensures { Gives (λ e. e) result (entry_of number words.old) }
{
    let told = number_at(words).ok_or(Refused::Malformed)?;
    let word = words.next().ok_or(Refused::Malformed)?;
    let actor = actor_of(word).ok_or(Refused::Malformed)?;
    let act = act_of(alloc, words)?;
    if told == number {
        Ok(Entry { actor, act })
    } else {
        Err(Refused::Malformed)
    }
}

/// How many entries all these words tell, as a heading.
#[tactic(auto, unfolding(crate::specs::EntryReading::heading_of))]
fn heading_of(words: &mut Pieces<'_>) -> Option<u64>
    ensures { result ≡ heading_of words.old }
{
    pass(words, b"history")?;
    let entries = number_at(words)?;
    if words.is_done() { Some(entries) } else { None }
}

/// The entry of a number that a line is.
pub fn entry_in(alloc: Global, number: u64, line: &[u8]) -> Result<Entry, Refused>
    ensures { Gives (λ e. e) result (entry_in number line.now) }
{
    entry_of(alloc, number, &mut Pieces::of(line, b' '))
}

/// How many entries a line tells, as a heading.
pub fn heading_in(line: &[u8]) -> Option<u64>
    ensures { result ≡ heading_in line.now }
{
    heading_of(&mut Pieces::of(line, b' '))
}
