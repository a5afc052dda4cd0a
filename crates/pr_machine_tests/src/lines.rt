//! What no clause says: that lines are written where there is memory, in the forms that no case has.
use pr_model::{Act, Actor, Call, Did, Entry, File, Mode, Reply, Res, Turned};
use pr_num::{Bytes, Errno, NoMemory, Sysno};
use pr_plain::write_entry;
use std::alloc::Global;
use std::process::Abort;
use std::test::Fail;

/// The line of an entry.
fn line_of(alloc: Global, number: usize, entry: Entry) -> Result<Vec<u8>, NoMemory> {
    let mut out = Vec::new(alloc);
    write_entry(&mut out, number, &entry)?;
    Ok(out)
}

/// Sees that an entry has this line.
fn sees(
    rt: &impl Abort,
    alloc: Global,
    number: usize,
    entry: Entry,
    line: &str,
) -> Result<(), NoMemory> {
    assert_eq!(rt; line_of(alloc, number, entry)?.as_slice(), line.as_bytes());
    Ok(())
}

/// A call of a controller.
fn call(controller: u32, call: Call, reply: Reply) -> Entry {
    Entry {
        actor: Actor::Controller(controller),
        act: Act::Call(call, reply),
    }
}

#[test]
fn calls_have_their_lines(rt: HostRuntime) -> Result<(), Fail> {
    let alloc = rt.alloc();
    let open = Call::Open {
        pid: 1,
        lwp: 0,
        file: File::Mem,
        mode: Mode::WriteExcl,
    };
    let line = "1 c20 open 1 as wx -> fail EBUSY\n";
    sees(
        &rt,
        alloc,
        1,
        call(20, open, Reply::Fail(Errno::Busy)),
        line,
    )?;
    let wait = Call::CtlWait {
        handle: 0,
        until: 5_000,
        bytes: Bytes::from_vec(Vec::from_slice(alloc, b"\xab\xcd\xef")?),
    };
    let line = "3 c0 ctlwait 0 5000 abcdef -> half 5000\n";
    sees(&rt, alloc, 3, call(0, wait, Reply::Half(5_000)), line)?;
    Ok(())
}

// An act that does not fit its actor is written all the same.
#[test]
fn other_entries_have_their_lines(rt: HostRuntime) -> Result<(), Fail> {
    let alloc = rt.alloc();
    let woke = Entry {
        actor: Actor::Lwp(4096, 65_535),
        act: Act::Turn(Turned {
            did: Did::Woke(Sysno::Sleep, Res::Ended),
            stop: false,
        }),
    };
    sees(&rt, alloc, 11, woke, "11 4096/65535 woke sleep\n")?;
    let tick = Entry {
        actor: Actor::Controller(63),
        act: Act::Tick(0),
    };
    sees(&rt, alloc, 0, tick, "0 c63 0\n")?;
    Ok(())
}
