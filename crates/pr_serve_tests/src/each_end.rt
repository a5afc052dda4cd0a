//! What no clause says: each read and each write of a run in turn, where just this one fails.
use crate::calls::{ALONE, call, source, text_of};
use pr_io::{MemSink, OpenGate};
use pr_num::NoMemory;
use std::alloc::Global;
use std::sync::Wait;
use std::test::Fail;
use std::thread::Threads;

/// A process that a script stops, looks at and runs: `cases/program/stopped-once.in`.
const STOPPED: &str = "turns 100
program p
sys getpid
set r1, 0
sys exit
end
spawn p
script
open a 1 ctl w
write a dstop
write a wstop
open s 1 status r
read s 104 32
write a run
close a
end
";

/// A process that makes more moves than a block of lines has room for.
const LONG: &str = "turns 5500\nprogram p\nagain:\njmp again\nend\nspawn p\n";

/// A scenario that is refused.
const REFUSED: &str = "turns 5\nprogram p\nsys getpit\nend\n";

/// A line that says nothing.
const REMARK: &str = "# A process that ends at once.\n";

/// Room for the text of each of them.
const ROOM: usize = 131_072;

/// A run whose ends are sound: what it writes, in how many writes, and the text of its history; and how many reads it
/// makes.
#[derive(Drop)]
struct Whole {
    text: Vec<u8>,
    writes: u64,
    history: Vec<u8>,
    reads: u64,
}

fn whole_run<R: Threads + Wait + Sync>(
    rt: &R,
    alloc: Global,
    input: &[u8],
) -> Result<Whole, NoMemory> {
    let mut source = source(alloc, input, &[])?;
    let mut sink = MemSink::new(alloc, ROOM, Vec::new(alloc))?;
    let outcome = call(rt, alloc, &["run"], &mut source, &mut sink, &OpenGate)?;
    Ok(Whole {
        text: sink.bytes().to_vec(alloc)?,
        writes: sink.calls(),
        history: text_of(alloc, &outcome.history)?,
        reads: source.calls(),
    })
}

/// Whether bytes are the front of a text, and not all of it.
fn is_cut_short(bytes: &[u8], text: &[u8]) -> bool {
    bytes.len() < text.len() && text.starts_with(bytes)
}

/// Whether a run whose write of this number fails ends with 6 and writes no more, what it has written is the front of
/// the whole text, and the history is whole.
fn ends_at_write<R: Threads + Wait + Sync>(
    rt: &R,
    alloc: Global,
    input: &[u8],
    failing: u64,
    whole: &Whole,
) -> Result<bool, NoMemory> {
    let mut source = source(alloc, input, &[])?;
    let mut sink = MemSink::new(alloc, ROOM, [failing].to_vec(alloc)?)?;
    let outcome = call(rt, alloc, &["run"], &mut source, &mut sink, &OpenGate)?;
    let history = text_of(alloc, &outcome.history)?;
    Ok(
        outcome.status == 6
            && sink.calls() == failing.saturating_add(1)
            && is_cut_short(sink.bytes(), whole.text.as_slice())
            && history.as_slice() == whole.history.as_slice(),
    )
}

/// Whether a run whose read of this number fails ends with 5, has written nothing, and keeps no history.
fn ends_at_read<R: Threads + Wait + Sync>(
    rt: &R,
    alloc: Global,
    input: &[u8],
    failing: u64,
) -> Result<bool, NoMemory> {
    let mut source = source(alloc, input, &[failing])?;
    let mut sink = MemSink::new(alloc, ROOM, Vec::new(alloc))?;
    let outcome = call(rt, alloc, &["run"], &mut source, &mut sink, &OpenGate)?;
    Ok(
        outcome.status == 5
            && source.calls() == failing.saturating_add(1)
            && sink.calls() == 0
            && outcome.history.len() == 0,
    )
}

/// How many writes of a run end it as they should where they fail, one after another from the first on; and how many
/// there are.
fn sound_writes<R: Threads + Wait + Sync>(
    rt: &R,
    alloc: Global,
    input: &[u8],
) -> Result<(u64, u64), NoMemory> {
    let whole = whole_run(rt, alloc, input)?;
    for failing in 0..whole.writes {
        if !ends_at_write(rt, alloc, input, failing, &whole)? {
            return Ok((failing, whole.writes));
        }
    }
    Ok((whole.writes, whole.writes))
}

/// The same of its reads.
fn sound_reads<R: Threads + Wait + Sync>(
    rt: &R,
    alloc: Global,
    input: &[u8],
) -> Result<(u64, u64), NoMemory> {
    let reads = whole_run(rt, alloc, input)?.reads;
    for failing in 0..reads {
        if !ends_at_read(rt, alloc, input, failing)? {
            return Ok((failing, reads));
        }
    }
    Ok((reads, reads))
}

// A heading, the block of the lines and the status; the line of a refusal; and two blocks.
#[test]
fn each_write_may_fail(rt: HostRuntime) -> Result<(), Fail> {
    let alloc = rt.alloc();
    for (input, least) in [(ALONE, 3), (STOPPED, 3), (REFUSED, 1), (LONG, 4)] {
        let (sound, writes) = sound_writes(&rt, alloc, input.as_bytes())?;
        assert_eq!(rt; sound, writes, "{input}");
        assert!(rt; least <= writes, "{input}");
    }
    Ok(())
}

// Inputs of one piece and of three, and the end of each.
#[test]
fn each_read_may_fail(rt: HostRuntime) -> Result<(), Fail> {
    let alloc = rt.alloc();
    for (input, remarks, pieces) in [(STOPPED, 0, 1u64), (STOPPED, 5_000, 3), (ALONE, 5_000, 3)] {
        let mut text = input.as_bytes().to_vec(alloc)?;
        for _ in 0..remarks {
            text.extend_from_slice(REMARK.as_bytes())?;
        }
        let (sound, reads) = sound_reads(&rt, alloc, text.as_slice())?;
        assert_eq!(rt; sound, reads, "{input}");
        assert_eq!(rt; reads, pieces.saturating_add(1), "{input}");
    }
    Ok(())
}
