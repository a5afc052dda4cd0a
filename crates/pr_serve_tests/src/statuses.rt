//! What no clause says: that a call whose ends are sound has the status, the text and the history of its input.
use crate::calls::{
    ALONE, ALONE_HISTORY, CUT, CUT_HISTORY, MUCH, STUCK, call, is_legal, is_made_of, source,
    text_of,
};
use pr_io::{MemSink, OpenGate};
use std::alloc::Global;
use std::process::Abort;
use std::sync::Wait;
use std::test::Fail;
use std::thread::Threads;

const STUCK_HISTORY: &str = "history 4
0 c0 open 1 ctl w -> handle 0
1 1/1 entered pause
2 c0 ctl 0 0300000000000000 -> half 0
3 1/1 slept pause
";

const JUDGED: &str =
    "program p\nsys pause\nend\nspawn p\n%history\nhistory 1\n0 1/1 entered pause\n";

const MISJUDGED: &str = "%history\nhistory 2\n0 clock 1\n1 clock 3\n";

const USAGE: &str = "usage: proclab run [-q] [-j N] | check | plain | gen N | core TOOL\n";

/// Sees that a call with these words on this input has this status, and this text in two parts, and keeps this history.
fn sees<R: Threads + Wait + Sync + Abort>(
    rt: &R,
    alloc: Global,
    words: &[&str],
    input: &str,
    status: u8,
    text: (&str, &str),
    history: &str,
) -> Result<(), Fail> {
    let mut source = source(alloc, input.as_bytes(), &[])?;
    let mut sink = MemSink::new(alloc, MUCH, Vec::new(alloc))?;
    let outcome = call(rt, alloc, words, &mut source, &mut sink, &OpenGate)?;
    assert_eq!(rt; outcome.status, status, "{input}");
    assert!(rt; is_made_of(sink.bytes(), text.0, text.1), "{input}");
    let kept = text_of(alloc, &outcome.history)?;
    assert_eq!(rt; kept.as_slice(), history.as_bytes(), "{input}");
    Ok(())
}

// A run keeps its history, whether that is written or not; other calls have none.
#[test]
fn each_status_comes_with_its_text_and_its_history(rt: HostRuntime) -> Result<(), Fail> {
    let alloc = rt.alloc();
    for (words, input, status, first, second, history) in [
        (
            ["run"].as_slice(),
            ALONE,
            0,
            ALONE_HISTORY,
            "status 0\n",
            ALONE_HISTORY,
        ),
        (
            ["run", "-q"].as_slice(),
            CUT,
            3,
            "",
            "status 3\n",
            CUT_HISTORY,
        ),
        (
            ["run"].as_slice(),
            STUCK,
            4,
            STUCK_HISTORY,
            "status 4\n",
            STUCK_HISTORY,
        ),
        (
            ["plain"].as_slice(),
            STUCK,
            4,
            "plain 1\n1/1 sleep pause\n",
            "trace 0\nstatus 4\n",
            STUCK_HISTORY,
        ),
        (
            ["run"].as_slice(),
            "turns 5\nfrob\n",
            2,
            "line 2: ",
            "UnknownWord\n",
            "",
        ),
        (["check"].as_slice(), JUDGED, 0, "legal 1", "\n", ""),
        (
            ["check"].as_slice(),
            MISJUDGED,
            8,
            "entry 1: ",
            "not legal\n",
            "",
        ),
        (
            ["core", "pmap"].as_slice(),
            "%core\n",
            2,
            "line 2: ",
            "BadCore\n",
            "",
        ),
        (["core", "ptree"].as_slice(), "%core\n", 1, USAGE, "", ""),
        (["frob"].as_slice(), ALONE, 1, USAGE, "", ""),
    ] {
        sees(&rt, alloc, words, input, status, (first, second), history)?;
    }
    Ok(())
}

// In which order two threads make the moves is not known: there are as many, and the history is legal.
#[test]
fn a_run_on_threads_has_its_status_and_its_history(rt: HostRuntime) -> Result<(), Fail> {
    let alloc = rt.alloc();
    let words = ["run", "-q", "-j", "2"];
    for (input, status, text, entries) in [
        (CUT, 3, "status 3\n", 3usize),
        (STUCK, 4, "status 4\n", 4),
    ] {
        let mut source = source(alloc, input.as_bytes(), &[])?;
        let mut sink = MemSink::new(alloc, MUCH, Vec::new(alloc))?;
        let outcome = call(&rt, alloc, &words, &mut source, &mut sink, &OpenGate)?;
        assert_eq!(rt; outcome.status, status, "{input}");
        assert_eq!(rt; sink.bytes(), text.as_bytes(), "{input}");
        assert_eq!(rt; outcome.history.len(), entries, "{input}");
        assert!(rt; is_legal(&rt, alloc, input, &outcome.history)?, "{input}");
        // Of another scenario it is not, so this does not say so of each.
        assert!(rt; !is_legal(&rt, alloc, ALONE, &outcome.history)?, "{input}");
    }
    Ok(())
}
