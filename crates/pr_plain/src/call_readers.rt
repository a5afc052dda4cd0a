//! Calls of controllers and what the kernel answered, read from the words of a line.
ghost use Rattle.std.specs.Prelude.{◌≡◌};
ghost use Rattle.pr_plain.specs.CallReading.{lwp_of, target_of, target_at, held_at, handles_at, open_at, close_at, ctl_at, ctl_wait_at, read_at, poll_at, interrupt_at, spawn_at, kill_at, until_at, begins_call, call_behind, call_at};
ghost use Rattle.pr_plain.specs.Readings.{Says, Gives};

use crate::numerals::decimal_id_of;
use crate::pieces::Pieces;
use crate::refusals::Refused;
use crate::word_readers::{bytes_at, file_at, id_at, mode_at, number_at, program_at, put};
use pr_model::Call;
use pr_num::Handles;
use std::alloc::Global;

/// The process and the lwp that a word says.
#[tactic(auto, unfolding(crate::specs::CallReading::lwp_of))]
pub fn lwp_of(word: &[u8]) -> Option<(u32, u32)>
    ensures { result ≡ lwp_of word.now }
{
    let mut ids = Pieces::of(word, b'/');
    let pid = id_at(&mut ids)?;
    let lwp = id_at(&mut ids)?;
    if ids.is_done() {
        Some((pid, lwp))
    } else {
        None
    }
}

/// The process and the lwp whose file is opened; the lwp is 0 where the file is the process's.
#[tactic(auto, unfolding(crate::specs::CallReading::target_of))]
fn target_of(word: &[u8]) -> Option<(u32, u32)>
    ensures { result ≡ target_of word.now }
{
    let mut ids = Pieces::of(word, b'/');
    let pid = id_at(&mut ids)?;
    if ids.is_done() {
        return Some((pid, 0));
    }
    let lwp = id_at(&mut ids)?;
    if ids.is_done() && lwp != 0 {
        Some((pid, lwp))
    } else {
        None
    }
}

/// Takes the process and the lwp whose file is opened.
#[tactic(auto, unfolding(crate::specs::CallReading::target_at))]
fn target_at(words: &mut Pieces<'_>) -> Option<(u32, u32)>
    ensures { Says (λ t. (t, words.new)) result (target_at words.old) }
{
    target_of(words.next()?)
}

/// Takes `held`, if it is the next word.
#[tactic(auto, unfolding(crate::specs::CallReading::held_at))]
fn held_at(words: &mut Pieces<'_>) -> bool
    ensures { held_at words.old ≡ (result, words.new) }
{
    let Some((word, rest)) = words.split_first() else {
        return false;
    };
    if word != b"held".as_slice() {
        return false;
    }
    *words = rest;
    true
}

#[tactic(auto, unfolding(crate::specs::CallReading::open_at))]
fn open_at(words: &mut Pieces<'_>) -> Option<Call>
    ensures { Says (λ c. (c, words.new)) result (open_at words.old) }
{
    let (pid, lwp) = target_at(words)?;
    let file = file_at(words)?;
    let mode = mode_at(words)?;
    Some(Call::Open {
        pid,
        lwp,
        file,
        mode,
    })
}

#[tactic(auto, unfolding(crate::specs::CallReading::close_at))]
fn close_at(words: &mut Pieces<'_>) -> Option<Call>
    ensures { Says (λ c. (c, words.new)) result (close_at words.old) }
{
    let handle = id_at(words)?;
    Some(Call::Close { handle })
}

#[tactic(auto, unfolding(crate::specs::CallReading::ctl_at))]
fn ctl_at(alloc: Global, words: &mut Pieces<'_>) -> Result<Call, Refused>
    ensures { Gives (λ c. (c, words.new)) result (ctl_at words.old) }
{
    let handle = id_at(words).ok_or(Refused::Malformed)?;
    let bytes = bytes_at(alloc, words)?;
    Ok(Call::Ctl { handle, bytes })
}

#[tactic(auto, unfolding(crate::specs::CallReading::ctl_wait_at))]
fn ctl_wait_at(alloc: Global, words: &mut Pieces<'_>) -> Result<Call, Refused>
    ensures { Gives (λ c. (c, words.new)) result (ctl_wait_at words.old) }
{
    let handle = id_at(words).ok_or(Refused::Malformed)?;
    let until = number_at(words).ok_or(Refused::Malformed)?;
    let bytes = bytes_at(alloc, words)?;
    Ok(Call::CtlWait {
        handle,
        until,
        bytes,
    })
}

#[tactic(auto, unfolding(crate::specs::CallReading::read_at))]
fn read_at(words: &mut Pieces<'_>) -> Option<Call>
    ensures { Says (λ c. (c, words.new)) result (read_at words.old) }
{
    let handle = id_at(words)?;
    let at = number_at(words)?;
    let len = number_at(words)?;
    Some(Call::Read { handle, at, len })
}

/// Takes handles, up to the arrow.
#[tactic(auto, using(crate::proofs::FrontLemmas::handles_read))]
fn handles_at(alloc: Global, words: &mut Pieces<'_>) -> Result<Handles, Refused>
    ensures { Gives (λ hs. (hs, words.new)) result (handles_at words.old) }
{
    let mut handles = Vec::new(alloc);
    while let Some((word, rest)) = words.split_first() {
        if word == b"->".as_slice() {
            return Ok(Handles::from_vec(handles));
        }
        let handle = decimal_id_of(word).ok_or(Refused::Malformed)?;
        put(&mut handles, handle)?;
        *words = rest;
    }
    Err(Refused::Malformed)
}

#[tactic(auto, unfolding(crate::specs::CallReading::poll_at))]
fn poll_at(alloc: Global, words: &mut Pieces<'_>) -> Result<Call, Refused>
    ensures { Gives (λ c. (c, words.new)) result (poll_at words.old) }
{
    let handles = handles_at(alloc, words)?;
    Ok(Call::Poll { handles })
}

#[tactic(auto, unfolding(crate::specs::CallReading::interrupt_at))]
fn interrupt_at(words: &mut Pieces<'_>) -> Option<Call>
    ensures { Says (λ c. (c, words.new)) result (interrupt_at words.old) }
{
    let controller = id_at(words)?;
    Some(Call::Interrupt { controller })
}

#[tactic(auto, unfolding(crate::specs::CallReading::spawn_at))]
fn spawn_at(words: &mut Pieces<'_>) -> Option<Call>
    ensures { Says (λ c. (c, words.new)) result (spawn_at words.old) }
{
    let program = program_at(words)?;
    let held = held_at(words);
    Some(Call::Spawn { program, held })
}

#[tactic(auto, unfolding(crate::specs::CallReading::kill_at))]
fn kill_at(words: &mut Pieces<'_>) -> Option<Call>
    ensures { Says (λ c. (c, words.new)) result (kill_at words.old) }
{
    let pid = id_at(words)?;
    let sig = number_at(words)?;
    Some(Call::Kill { pid, sig })
}

#[tactic(auto, unfolding(crate::specs::CallReading::until_at))]
fn until_at(words: &mut Pieces<'_>) -> Option<Call>
    ensures { Says (λ c. (c, words.new)) result (until_at words.old) }
{
    let moment = number_at(words)?;
    Some(Call::Until { moment })
}

/// Whether a word is the first of a call.
#[tactic(auto, unfolding(crate::specs::CallReading::begins_call))]
pub fn begins_call(word: &[u8]) -> bool
    ensures { result ≡ begins_call word.now }
{
    word == b"open".as_slice()
        || word == b"close".as_slice()
        || word == b"ctl".as_slice()
        || word == b"ctlwait".as_slice()
        || word == b"read".as_slice()
        || word == b"poll".as_slice()
        || word == b"interrupt".as_slice()
        || word == b"spawn".as_slice()
        || word == b"kill".as_slice()
        || word == b"until".as_slice()
        || word == b"list".as_slice()
}

/// The form of call that a first word begins.
#[tactic(auto, unfolding(crate::specs::CallReading::call_behind))]
fn call_behind(alloc: Global, word: &[u8], words: &mut Pieces<'_>) -> Result<Call, Refused>
    ensures { Gives (λ c. (c, words.new)) result (call_behind word.now words.old) }
{
    if word == b"open".as_slice() {
        open_at(words).ok_or(Refused::Malformed)
    } else if word == b"close".as_slice() {
        close_at(words).ok_or(Refused::Malformed)
    } else if word == b"ctl".as_slice() {
        ctl_at(alloc, words)
    } else if word == b"ctlwait".as_slice() {
        ctl_wait_at(alloc, words)
    } else if word == b"read".as_slice() {
        read_at(words).ok_or(Refused::Malformed)
    } else if word == b"poll".as_slice() {
        poll_at(alloc, words)
    } else if word == b"interrupt".as_slice() {
        interrupt_at(words).ok_or(Refused::Malformed)
    } else if word == b"spawn".as_slice() {
        spawn_at(words).ok_or(Refused::Malformed)
    } else if word == b"kill".as_slice() {
        kill_at(words).ok_or(Refused::Malformed)
    } else if word == b"until".as_slice() {
        until_at(words).ok_or(Refused::Malformed)
    } else if word == b"list".as_slice() {
        Ok(Call::List)
    } else {
        Err(Refused::Malformed)
    }
}

/// Takes a call.
#[tactic(auto, unfolding(crate::specs::CallReading::call_at))]
pub fn call_at(alloc: Global, words: &mut Pieces<'_>) -> Result<Call, Refused>
    ensures { Gives (λ c. (c, words.new)) result (call_at words.old) }
{
    let word = words.next().ok_or(Refused::Malformed)?;
    call_behind(alloc, word, words)
}
