//! Replies, and the entries that came, as lines.
ghost use Rattle.std.specs.Prelude.{◌≡◌, ◌++◌, drop, IfOk, OnOk};
ghost use Rattle.pr_asks.specs.Replies.{count_line, reply_line};
ghost use Rattle.pr_plain.specs.HistoryText.{entries_text};

use pr_model::{Act, Actor, Call, Entry, History, Reply};
use pr_num::NoMemory;
use pr_plain::write_entry;
use std::alloc::Global;

/// The same reply again.
fn copy_of(alloc: Global, reply: &Reply) -> Result<Reply, NoMemory>
    ensures { IfOk result (λ copy. copy ≡ reply.now) }
{
    Ok(match reply {
        Reply::Handle(handle) => Reply::Handle(*handle),
        Reply::Done => Reply::Done,
        Reply::Used(n) => Reply::Used(*n),
        Reply::Half(until) => Reply::Half(*until),
        Reply::Bytes(bytes) => Reply::Bytes(bytes.copy(alloc)?),
        Reply::Pid(pid) => Reply::Pid(*pid),
        Reply::Ready(handle) => Reply::Ready(*handle),
        Reply::Fail(errno) => Reply::Fail(*errno),
    })
}

/// How many bytes stand before the reply in the line of the entry `0 c0 list -> REPLY`.
const FRONT: usize = 13;

/// What a line of that entry has behind them.
fn behind_front(line: &[u8]) -> &[u8]
    ensures { result.now ≡ drop 13 line.now }
{
    if FRONT < line.len() {
        &line[FRONT..]
    } else {
        &[]
    }
}

/// Writes the line of a reply: what stands behind the arrow in the line of an entry.
pub fn write_reply(alloc: Global, out: &mut Vec<u8>, reply: &Reply) -> Result<(), NoMemory>
    ensures { OnOk result (out.new.items ≡ out.old.items ++ reply_line reply.now) }
{
    let entry = Entry {
        actor: Actor::Controller(0),
        act: Act::Call(Call::List, copy_of(alloc, reply)?),
    };
    let mut line = Vec::new(alloc);
    write_entry(&mut line, 0, &entry)?;
    Ok(out.extend_from_slice(behind_front(&line))?)
}

/// Writes the lines of the entries from a place on; past the last one there are none.
pub fn write_entries(out: &mut Vec<u8>, history: &History, from: usize) -> Result<(), NoMemory>
    ensures { OnOk result (out.new.items ≡ out.old.items ++ entries_text from (drop from history.now.entries)) }
{
    for at in from..history.len() {
        write_entry(out, at, history.get(at).unwrap())?;
    }
    Ok(())
}

/// Writes how many entries there are: `at N`.
#[tactic(auto, unfolding(crate::specs::Replies::count_line))]
pub fn write_count(out: &mut Vec<u8>, entries: u32) -> Result<(), NoMemory>
    ensures { OnOk result (out.new.items ≡ out.old.items ++ count_line entries) }
{
    out.extend_from_slice(b"at ")?;
    out.extend_from_slice(itoa::Buffer::new().format(entries).as_bytes())?;
    Ok(out.extend_from_slice(b"\n")?)
}
