//! What no clause says: a history that was worked out by hand, and memory that runs out.
use pr_model::{Act, Actor, Call, Did, Entry, File, History, Mode, Reply, Res, Step, Turned};
use pr_num::{Bytes, Flt, NoMemory, Sysno};
use pr_strip::*;
use std::alloc::Global;
use std::test::Fail;

// A turn of the lwp 1 of process 1.
fn turn(did: Did) -> Entry {
    Entry {
        actor: Actor::Lwp(1, 1),
        act: Act::Turn(Turned { did, stop: false }),
    }
}

// A history of these entries.
fn history_of(alloc: Global, dids: &[Did]) -> Result<History, NoMemory> {
    let mut history = History::new(alloc);
    for did in dids {
        history.reserve(1)?;
        history.push(turn(*did));
    }
    Ok(history)
}

#[test]
fn a_step_on_the_way_out_of_a_call_runs_no_instruction(rt: HostRuntime) -> Result<(), Fail> {
    let dids = [
        Did::Faulted(Flt::Trace),
        Did::Entered(Sysno::Getpid),
        Did::Made(Sysno::Getpid, Res::Value(1)),
        Did::Faulted(Flt::Trace),
    ];
    let history = history_of(rt.alloc(), dids.as_slice())?;
    let steps = strip(rt.alloc(), &history)?;
    assert_eq!(rt;
        steps.as_slice(),
        [
            Step::Exec(1, 1),
            Step::Fault(1, 1, Flt::Trace),
            Step::Call(1, 1, Sysno::Getpid, Res::Value(1)),
            Step::Fault(1, 1, Flt::Trace),
        ]
        .as_slice()
    );
    let calls = trace(rt.alloc(), &history)?;
    assert_eq!(rt;
        calls.as_slice(),
        [
            Step::Fault(1, 1, Flt::Trace),
            Step::Call(1, 1, Sysno::Getpid, Res::Value(1)),
            Step::Fault(1, 1, Flt::Trace),
        ]
        .as_slice()
    );
    Ok(())
}

// PCAGENT with registers of zeros.
fn agent_bytes(alloc: Global) -> Result<Bytes, NoMemory> {
    let mut bytes = [0u8; 96].to_vec(alloc)?;
    bytes[0] = 21;
    Ok(Bytes::from_vec(bytes))
}

// An agent of process 2 leaves a call and ends, and another is made.
fn agents(alloc: Global) -> Result<History, NoMemory> {
    let mut history = History::new(alloc);
    history.reserve(4)?;
    history.push(Entry {
        actor: Actor::Controller(0),
        act: Act::Call(
            Call::Open {
                pid: 2,
                lwp: 0,
                file: File::Ctl,
                mode: Mode::Write,
            },
            Reply::Handle(7),
        ),
    });
    history.push(Entry {
        actor: Actor::Lwp(2, 65_535),
        act: Act::Turn(Turned {
            did: Did::Made(Sysno::LwpExit, Res::Ended),
            stop: false,
        }),
    });
    history.push(Entry {
        actor: Actor::Controller(0),
        act: Act::Call(
            Call::Ctl {
                handle: 7,
                bytes: agent_bytes(alloc)?,
            },
            Reply::Used(96),
        ),
    });
    history.push(Entry {
        actor: Actor::Lwp(2, 65_535),
        act: Act::Turn(Turned {
            did: Did::Faulted(Flt::Trace),
            stop: false,
        }),
    });
    Ok(history)
}

#[test]
fn a_new_agent_begins_in_its_program(rt: HostRuntime) -> Result<(), Fail> {
    let steps = strip(rt.alloc(), &agents(rt.alloc())?)?;
    assert_eq!(rt;
        steps.as_slice(),
        [
            Step::Call(2, 65_535, Sysno::LwpExit, Res::Ended),
            Step::Exec(2, 65_535),
            Step::Fault(2, 65_535, Flt::Trace),
        ]
        .as_slice()
    );
    Ok(())
}
