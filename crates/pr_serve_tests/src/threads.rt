//! What no clause says: that several workers make a run with `-j`, each at the gate that `serve` was given.
use crate::calls::{MUCH, call, is_legal, is_made_of, source};
use pr_io::{Gate, MemSink};
use pr_model::{Actor, Entry, History};
use pr_num::NoMemory;
use std::alloc::Global;
use std::process::Abort;
use std::sync::Wait;
use std::sync::atomic::{AtomicU64, Ordering};
use std::test::Fail;
use std::thread;
use std::thread::Threads;

/// Two shells like that of `examples/truss-on-several-threads.in`, each with a truss that counts the calls, and a
/// script. What the trusses print is the same in any order of moves.
const BUSY: &str = "turns 4000
program shell
space ends 16
text writer \"greet\"
text reader \"count\"
set r1, ends
sys pipe
sys fork
jz r0, first
sys fork
jz r0, second
set r1, 0
sys close
set r1, 1
sys close
set r1, 0
sys wait
sys wait
set r1, 0
sys exit
first:
set r1, writer
sys exec
second:
set r1, reader
sys exec
end
program greet
text words \"hi\\n\"
set r1, 1
set r2, words
set r3, 3
sys write
set r1, 0
sys exit
end
program count
space bytes 16
set r1, 1
sys close
set r1, 0
set r2, bytes
set r3, 16
sys read
mov r1, r0
sys exit
end
truss -f -c -s !CLD shell
truss -f -c -s !CLD shell
script
list
until 3
list
end
";

const FIRST_COUNTS: &str = "controller 0 truss
syscall calls errors
exit 3 0
fork 2 0
read 1 0
write 1 0
close 3 0
wait 2 0
exec 2 0
pipe 1 0
total 15 0
";

const SECOND_COUNTS: &str = "controller 1 truss
syscall calls errors
exit 3 0
fork 2 0
read 1 0
write 1 0
close 3 0
wait 2 0
exec 2 0
pipe 1 0
total 15 0
status 0
";

/// How many controllers it has.
const CONTROLLERS: u32 = 3;

// How often a worker looks whether the others have come, before its first turn and before its second one.
const LOOKS: u32 = 10_000_000;

const LOOKS_AGAIN: u32 = 1_000_000;

/// In how many runs at most the workers are to meet before their second turns. A run whose threads begin late goes on
/// with one of them, so that one run may tell nothing.
const TRIES: u32 = 5;

/// A gate at which all workers of a run wait for one another before their first turns, and before their second ones
/// until one of them has given up. It counts how often each of them passes, and how many have met all others then; and
/// the passes that are no worker's, or that have another number than the next one of their worker.
#[derive(Drop)]
struct Meeting {
    passes: Vec<AtomicU64>,
    misnumbered: AtomicU64,
    met: AtomicU64,
    met_again: AtomicU64,
    given_up: AtomicU64,
}

impl Meeting {
    fn new(alloc: Global, workers: u32) -> Result<Meeting, NoMemory> {
        let mut passes = Vec::new(alloc);
        for _ in 0..workers {
            passes.push(AtomicU64::new(0))?;
        }
        Ok(Meeting {
            passes,
            misnumbered: AtomicU64::new(0),
            met: AtomicU64::new(0),
            met_again: AtomicU64::new(0),
            given_up: AtomicU64::new(0),
        })
    }

    /// Whether all workers have come to a turn.
    fn have_all_come(&self, turn: u64) -> bool {
        self.passes
            .iter()
            .all(|passes| turn < passes.load(Ordering::SeqCst))
    }

    /// Whether all workers come to a turn before a worker has looked so often.
    fn sees_all_come(&self, turn: u64, looks: u32) -> bool {
        for _ in 0..looks {
            if self.have_all_come(turn) {
                return true;
            }
            thread::yield_now();
        }
        false
    }

    fn meet(&self) {
        if self.sees_all_come(0, LOOKS) {
            self.met.fetch_add(1, Ordering::SeqCst);
        }
    }

    fn meet_again(&self) {
        if self.given_up.load(Ordering::SeqCst) != 0 {
            return;
        }
        if self.sees_all_come(1, LOOKS_AGAIN) {
            self.met_again.fetch_add(1, Ordering::SeqCst);
        } else {
            self.given_up.fetch_add(1, Ordering::SeqCst);
        }
    }

    /// Counts a pass of a worker before a turn.
    fn count(&self, worker: u32, turn: u64) {
        let next = self
            .passes
            .get(worker as usize)
            .map(|passes| passes.fetch_add(1, Ordering::SeqCst));
        if next != Some(turn) {
            self.misnumbered.fetch_add(1, Ordering::SeqCst);
        }
    }

    /// How often a worker has passed.
    fn passes_of(&self, worker: u32) -> u64 {
        match self.passes.get(worker as usize) {
            Some(passes) => passes.load(Ordering::SeqCst),
            None => 0,
        }
    }

    /// How often the first workers have passed, so many of them.
    fn passes_of_first(&self, workers: u32) -> u64 {
        let mut count = 0u64;
        for worker in 0..workers {
            count = count.saturating_add(self.passes_of(worker));
        }
        count
    }
}

impl Gate for Meeting {
    fn pass(&self, worker: u32, turn: u64) {
        self.count(worker, turn);
        match turn {
            0 => self.meet(),
            1 => self.meet_again(),
            _ => {}
        }
    }
}

/// The controller whose entry it is, if it is one's.
fn controller_of(entry: &Entry) -> Option<u32> {
    match entry.actor {
        Actor::Controller(number) => Some(number),
        _ => None,
    }
}

/// How many entries are of a controller, or of all else where there is no number.
fn entries_of(history: &History, controller: Option<u32>) -> u64 {
    let mut count = 0u64;
    for place in 0..history.len() {
        if let Some(entry) = history.get(place) {
            if controller_of(entry) == controller {
                count = count.saturating_add(1);
            }
        }
    }
    count
}

/// Sees that each move was made after a pass of the worker to which it falls.
fn sees_passes(rt: &impl Abort, gate: &Meeting, history: &History, processors: u32) {
    for controller in 0..CONTROLLERS {
        let entries = entries_of(history, Some(controller));
        let passes = gate.passes_of(processors.saturating_add(controller));
        assert!(rt; 0 < entries && entries <= passes);
    }
    let entries = entries_of(history, None);
    let passes = gate.passes_of_first(processors);
    assert!(rt; 0 < entries && entries <= passes);
}

/// Sees that all workers of a run on so many processors meet before their first turns, and that the run is a legal one.
/// Whether they meet before their second turns too.
fn sees_meeting<R: Threads + Wait + Sync + Abort>(
    rt: &R,
    alloc: Global,
    number: &str,
    processors: u32,
) -> Result<bool, Fail> {
    let workers = processors.saturating_add(CONTROLLERS);
    let gate = Meeting::new(alloc, workers)?;
    let mut source = source(alloc, BUSY.as_bytes(), &[])?;
    let mut sink = MemSink::new(alloc, MUCH, Vec::new(alloc))?;
    let words = ["run", "-q", "-j", number];
    let outcome = call(rt, alloc, &words, &mut source, &mut sink, &gate)?;
    assert_eq!(rt; outcome.status, 0);
    assert!(rt; is_made_of(sink.bytes(), FIRST_COUNTS, SECOND_COUNTS));
    assert_eq!(rt; gate.misnumbered.load(Ordering::SeqCst), 0);
    assert_eq!(rt; gate.met.load(Ordering::SeqCst), workers as u64);
    sees_passes(rt, &gate, &outcome.history, processors);
    assert!(rt; is_legal(rt, alloc, BUSY, &outcome.history)?);
    Ok(gate.met_again.load(Ordering::SeqCst) == workers as u64)
}

/// Whether the workers of one of some runs meet before their second turns.
fn is_seen_to_go_on<R: Threads + Wait + Sync + Abort>(
    rt: &R,
    alloc: Global,
    number: &str,
    processors: u32,
) -> Result<bool, Fail> {
    for _ in 0..TRIES {
        if sees_meeting(rt, alloc, number, processors)? {
            return Ok(true);
        }
    }
    Ok(false)
}

// All workers are at the gate at one time, and again once each has had a turn, so as many threads make the run.
#[test]
fn all_workers_meet_at_the_gate(rt: HostRuntime) -> Result<(), Fail> {
    for (number, processors) in [("1", 1u32), ("2", 2), ("16", 16)] {
        assert!(rt;
            is_seen_to_go_on(&rt, rt.alloc(), number, processors)?,
            "{number}"
        );
    }
    Ok(())
}
