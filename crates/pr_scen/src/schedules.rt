//! The actors of a schedule.
ghost use Rattle.std.specs.Prelude.{◌≡◌, [], map, IfOk};
ghost use Rattle.pr_text.specs.Reads.{Gives};
ghost use Rattle.pr_scen.specs.Schedules.{lwp_from, numbered_actor, actor_of, turns_at, turns_from, turns_of, with_turns_of};

use crate::ScenKind;
use pr_model::Actor;
use pr_num::{NoMemory, Table};
use pr_text::{Refused, Tokens, id_of, number_of, pieces_of};
use std::alloc::Global;

/// So many turns of an actor.
#[derive(Clone, Copy)]
pub struct Turns {
    pub actor: Actor,
    pub times: u64,
}

/// An lwp of a process, by its two ids.
fn lwp_from(ids: &[&[u8]]) -> Option<Actor>
    ensures { result ≡ lwp_from (map (λ id. id.now) ids.now) }
{
    match ids {
        [pid, lwp] => Some(Actor::Lwp(id_of(pid)?, id_of(lwp)?)),
        _ => None,
    }
}

/// `cK`, or `P/L`.
#[tactic(auto, unfolding(crate::specs::Schedules::numbered_actor))]
fn numbered_actor(alloc: Global, word: &[u8]) -> Result<Option<Actor>, NoMemory>
    ensures { IfOk result (λ actor. actor ≡ numbered_actor word.now) }
{
    let Some((first, rest)) = word.split_first() else {
        return Ok(None);
    };
    if *first == b'c' {
        return Ok(id_of(rest).map(|k| Actor::Controller(k)));
    }
    let ids = pieces_of(alloc, word, b'/')?;
    Ok(lwp_from(&ids))
}

/// The actor that a word names: a controller, an lwp or the clock.
#[tactic(auto, unfolding(crate::specs::Schedules::actor_of))]
fn actor_of(alloc: Global, word: &[u8]) -> Result<Option<Actor>, NoMemory>
    ensures { IfOk result (λ actor. actor ≡ actor_of word.now) }
{
    if word == b"clock".as_slice() {
        return Ok(Some(Actor::Clock));
    }
    numbered_actor(alloc, word)
}

/// An actor, and how many turns it gets.
fn turns_at(actor: Option<Actor>, times: Option<u64>) -> Option<Turns>
    ensures { result ≡ turns_at actor times }
{
    Some(Turns {
        actor: actor?,
        times: times?,
    })
}

/// The turns of a word that was split at its `*`.
fn turns_from(alloc: Global, parts: &[&[u8]]) -> Result<Option<Turns>, NoMemory>
    ensures { IfOk result (λ turns. turns ≡ turns_from (map (λ part. part.now) parts.now)) }
{
    match parts {
        [actor] => Ok(turns_at(actor_of(alloc, actor)?, Some(1))),
        [actor, times] => Ok(turns_at(actor_of(alloc, actor)?, number_of(times))),
        _ => Ok(None),
    }
}

/// The turns that a word gives to an actor: one, or as many as `*n` says.
#[tactic(auto, unfolding(crate::specs::Schedules::turns_of))]
fn turns_of(alloc: Global, word: &[u8]) -> Result<Option<Turns>, NoMemory>
    ensures { IfOk result (λ turns. turns ≡ turns_of word.now) }
{
    let parts = pieces_of(alloc, word, b'*')?;
    turns_from(alloc, &parts)
}

/// The turns that words give to actors.
#[tactic(auto, unfolding(crate::specs::Schedules::with_turns_of))]
pub fn all_turns_of(alloc: Global, words: Tokens) -> Result<Table<Turns>, Refused<ScenKind>>
    ensures { Gives (λ turns. turns) result (with_turns_of [] words.entry) }
{
    let mut words = words;
    let mut turns = Table::new(alloc);
    while let Some(word) = words.next() {
        let more = turns_of(alloc, word)?.ok_or(ScenKind::BadOperand)?;
        turns.push(more)?;
    }
    Ok(turns)
}
