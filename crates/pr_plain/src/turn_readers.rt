//! Turns of lwps, read from the words of a line.
ghost use Rattle.std.specs.Prelude.{◌≡◌};
ghost use Rattle.pr_plain.specs.Readings.{Says};
ghost use Rattle.pr_plain.specs.TurnReading.{result_at, how_of, how_at, stopped_at, entered_at, made_at, slept_at, woke_at, returned_at, faulted_at, posted_at, took_at, acted_at, did_behind, did_at, stop_of, turn_of};

use crate::pieces::Pieces;
use crate::word_readers::{fault_at, number_at, pass, signal_at, syscall_at};
use pr_model::{Did, How, Res, Turned};
use pr_num::Errno;

/// Takes what a system call gave.
#[tactic(auto, unfolding(crate::specs::TurnReading::result_at))]
fn result_at(words: &mut Pieces<'_>) -> Option<Res>
    ensures { Says (λ r. (r, words.new)) result (result_at words.old) }
{
    let Some((word, rest)) = words.split_first() else {
        return Some(Res::Ended);
    };
    if word == b"=".as_slice() {
        *words = rest;
        return Some(Res::Value(number_at(words)?));
    }
    let Some(errno) = Errno::from_name(word) else {
        return Some(Res::Ended);
    };
    *words = rest;
    Some(Res::Error(errno))
}

/// How a signal was acted on.
#[tactic(auto, unfolding(crate::specs::TurnReading::how_of))]
fn how_of(word: &[u8]) -> Option<How>
    ensures { result ≡ how_of word.now }
{
    if word == b"caught".as_slice() {
        Some(How::Caught)
    } else if word == b"ignored".as_slice() {
        Some(How::Ignored)
    } else if word == b"stopped".as_slice() {
        Some(How::JobStop)
    } else if word == b"died".as_slice() {
        Some(How::Died)
    } else {
        None
    }
}

/// Takes how a signal was acted on.
#[tactic(auto, unfolding(crate::specs::TurnReading::how_at))]
fn how_at(words: &mut Pieces<'_>) -> Option<How>
    ensures { Says (λ h. (h, words.new)) result (how_at words.old) }
{
    how_of(words.next()?)
}

#[tactic(auto, unfolding(crate::specs::TurnReading::stopped_at))]
fn stopped_at(words: &mut Pieces<'_>) -> Option<Did>
    ensures { Says (λ d. (d, words.new)) result (stopped_at words.old) }
{
    pass(words, b"requested")?;
    Some(Did::Stopped)
}

#[tactic(auto, unfolding(crate::specs::TurnReading::entered_at))]
fn entered_at(words: &mut Pieces<'_>) -> Option<Did>
    ensures { Says (λ d. (d, words.new)) result (entered_at words.old) }
{
    Some(Did::Entered(syscall_at(words)?))
}

#[tactic(auto, unfolding(crate::specs::TurnReading::made_at))]
fn made_at(words: &mut Pieces<'_>) -> Option<Did>
    ensures { Says (λ d. (d, words.new)) result (made_at words.old) }
{
    Some(Did::Made(syscall_at(words)?, result_at(words)?))
}

#[tactic(auto, unfolding(crate::specs::TurnReading::slept_at))]
fn slept_at(words: &mut Pieces<'_>) -> Option<Did>
    ensures { Says (λ d. (d, words.new)) result (slept_at words.old) }
{
    Some(Did::Slept(syscall_at(words)?))
}

#[tactic(auto, unfolding(crate::specs::TurnReading::woke_at))]
fn woke_at(words: &mut Pieces<'_>) -> Option<Did>
    ensures { Says (λ d. (d, words.new)) result (woke_at words.old) }
{
    Some(Did::Woke(syscall_at(words)?, result_at(words)?))
}

#[tactic(auto, unfolding(crate::specs::TurnReading::returned_at))]
fn returned_at(words: &mut Pieces<'_>) -> Option<Did>
    ensures { Says (λ d. (d, words.new)) result (returned_at words.old) }
{
    Some(Did::Returned(syscall_at(words)?))
}

#[tactic(auto, unfolding(crate::specs::TurnReading::faulted_at))]
fn faulted_at(words: &mut Pieces<'_>) -> Option<Did>
    ensures { Says (λ d. (d, words.new)) result (faulted_at words.old) }
{
    Some(Did::Faulted(fault_at(words)?))
}

#[tactic(auto, unfolding(crate::specs::TurnReading::posted_at))]
fn posted_at(words: &mut Pieces<'_>) -> Option<Did>
    ensures { Says (λ d. (d, words.new)) result (posted_at words.old) }
{
    let fault = fault_at(words)?;
    pass(words, fault.signal().name().as_bytes())?;
    Some(Did::Posted(fault))
}

#[tactic(auto, unfolding(crate::specs::TurnReading::took_at))]
fn took_at(words: &mut Pieces<'_>) -> Option<Did>
    ensures { Says (λ d. (d, words.new)) result (took_at words.old) }
{
    Some(Did::Took(signal_at(words)?))
}

#[tactic(auto, unfolding(crate::specs::TurnReading::acted_at))]
fn acted_at(words: &mut Pieces<'_>) -> Option<Did>
    ensures { Says (λ d. (d, words.new)) result (acted_at words.old) }
{
    let signal = signal_at(words)?;
    let how = how_at(words)?;
    Some(Did::Acted(signal, how))
}

/// The form that a first word begins.
#[tactic(auto, unfolding(crate::specs::TurnReading::did_behind))]
fn did_behind(word: &[u8], words: &mut Pieces<'_>) -> Option<Did>
    ensures { Says (λ d. (d, words.new)) result (did_behind word.now words.old) }
{
    if word == b"stopped".as_slice() {
        stopped_at(words)
    } else if word == b"ran".as_slice() {
        Some(Did::Ran)
    } else if word == b"entered".as_slice() {
        entered_at(words)
    } else if word == b"made".as_slice() {
        made_at(words)
    } else if word == b"slept".as_slice() {
        slept_at(words)
    } else if word == b"woke".as_slice() {
        woke_at(words)
    } else if word == b"returned".as_slice() {
        returned_at(words)
    } else if word == b"faulted".as_slice() {
        faulted_at(words)
    } else if word == b"posted".as_slice() {
        posted_at(words)
    } else if word == b"took".as_slice() {
        took_at(words)
    } else if word == b"acted".as_slice() {
        acted_at(words)
    } else {
        None
    }
}

/// Takes what an lwp did.
#[tactic(auto, unfolding(crate::specs::TurnReading::did_at))]
fn did_at(words: &mut Pieces<'_>) -> Option<Did>
    ensures { Says (λ d. (d, words.new)) result (did_at words.old) }
{
    let word = words.next()?;
    did_behind(word, words)
}

/// Whether the lwp stopped, by the words behind its turn.
#[tactic(auto, unfolding(crate::specs::TurnReading::stop_of))]
fn stop_of(words: &mut Pieces<'_>) -> Option<bool>
    ensures { result ≡ stop_of words.old }
{
    let Some(word) = words.next() else {
        return Some(false);
    };
    if word == b"stop".as_slice() && words.is_done() {
        Some(true)
    } else {
        None
    }
}

/// The turn that all these words tell.
#[tactic(auto, unfolding(crate::specs::TurnReading::turn_of))]
pub fn turn_of(words: &mut Pieces<'_>) -> Option<Turned>
    ensures { result ≡ turn_of words.old }
{
    let did = did_at(words)?;
    let stop = stop_of(words)?;
    Some(Turned { did, stop })
}
