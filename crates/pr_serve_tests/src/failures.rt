//! What no clause says: what is left, and what was written, where an end in memory fails.
use crate::calls::{ALONE, ALONE_HISTORY, CUT, CUT_HISTORY, MUCH, call, source, text_of};
use pr_io::{MemSink, OpenGate};
use std::alloc::Global;
use std::process::Abort;
use std::sync::Wait;
use std::test::Fail;
use std::thread::Threads;

/// Sees that nothing is written and there is no history where the read of this number fails.
fn sees_failed_read<R: Threads + Wait + Sync + Abort>(
    rt: &R,
    alloc: Global,
    words: &[&str],
    failing: u64,
) -> Result<(), Fail> {
    let mut source = source(alloc, ALONE.as_bytes(), &[failing])?;
    let mut sink = MemSink::new(alloc, MUCH, Vec::new(alloc))?;
    let outcome = call(rt, alloc, words, &mut source, &mut sink, &OpenGate)?;
    assert_eq!(rt; outcome.status, 5);
    assert_eq!(rt; outcome.history.len(), 0);
    assert_eq!(rt; sink.calls(), 0);
    Ok(())
}

// Whether the first read fails or the one after the last byte.
#[test]
fn a_failed_read_leaves_nothing(rt: HostRuntime) -> Result<(), Fail> {
    for words in [
        ["run"].as_slice(),
        ["run", "-j", "2"].as_slice(),
        ["plain"].as_slice(),
        ["check"].as_slice(),
    ] {
        sees_failed_read(&rt, rt.alloc(), words, 0)?;
        sees_failed_read(&rt, rt.alloc(), words, 1)?;
    }
    Ok(())
}

/// Sees that as many bytes are written as there is room for, and that the history is that of the whole run.
fn sees_failed_write<R: Threads + Wait + Sync + Abort>(
    rt: &R,
    alloc: Global,
    words: &[&str],
    input: &str,
    room: usize,
    history: &str,
) -> Result<(), Fail> {
    let mut source = source(alloc, input.as_bytes(), &[])?;
    let mut sink = MemSink::new(alloc, room, Vec::new(alloc))?;
    let outcome = call(rt, alloc, words, &mut source, &mut sink, &OpenGate)?;
    assert_eq!(rt; outcome.status, 6);
    assert_eq!(rt; sink.bytes().len(), room);
    assert!(rt; history.as_bytes().starts_with(sink.bytes()));
    let kept = text_of(alloc, &outcome.history)?;
    assert_eq!(rt; kept.as_slice(), history.as_bytes());
    Ok(())
}

#[test]
fn a_failed_write_leaves_the_whole_history(rt: HostRuntime) -> Result<(), Fail> {
    for (words, input, history) in [
        (["run"].as_slice(), ALONE, ALONE_HISTORY),
        (["run", "-j", "2"].as_slice(), CUT, CUT_HISTORY),
    ] {
        for room in [0, 1, 20, history.len()] {
            sees_failed_write(&rt, rt.alloc(), words, input, room, history)?;
        }
    }
    Ok(())
}
