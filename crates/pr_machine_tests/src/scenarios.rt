use pr_model::{Call, Reply};
use pr_num::{Bytes, Errno};
use pr_scen::*;
use std::alloc::Global;
use std::process::Abort;
use std::test::Fail;

fn read(rt: &(impl Abort + Alloc<A = Global>), text: &[u8]) -> Result<Scenario, ScenRefusal> {
    assert!(rt; text.len() < 1_048_577);
    read_scenario(rt.alloc(), text)
}

fn scenario(rt: &(impl Abort + Alloc<A = Global>), text: &[u8]) -> Scenario {
    match read(rt, text) {
        Ok(scenario) => scenario,
        Err(refusal) => panic!(rt; "refused: {refusal:?}"),
    }
}

// The line that is refused, and why.
fn fault(rt: &(impl Abort + Alloc<A = Global>), text: &[u8]) -> ScenFault {
    match read(rt, text) {
        Err(ScenRefusal::Fault(fault)) => fault,
        Err(ScenRefusal::NoMemory) => panic!(rt; "out of memory"),
        Ok(_) => panic!(rt; "read"),
    }
}

// So many lines between others.
fn repeated(
    rt: &(impl Abort + Alloc<A = Global>),
    above: &[u8],
    line: &[u8],
    count: usize,
    below: &[u8],
) -> Result<Vec<u8>, Fail> {
    let mut text = Vec::from_slice(rt.alloc(), above)?;
    for _ in 0..count {
        text.extend_from_slice(line)?;
    }
    text.extend_from_slice(below)?;
    Ok(text)
}

// 64 controllers and lines of 4,096 bytes are read, and one more of each is not.
#[test]
fn keeps_its_limits(rt: HostRuntime) -> Result<(), Fail> {
    let scripts = repeated(&rt, b"", b"script\nend\n", 64, b"")?;
    assert_eq!(rt; scenario(&rt, &scripts).controllers.len(), 64);
    let scripts = repeated(&rt, b"", b"script\nend\n", 64, b"script")?;
    assert_eq!(rt; fault(&rt, &scripts).kind, ScenKind::TooMany);
    let comment = repeated(&rt, b"#", b"x", 4095, b"\n")?;
    assert_eq!(rt; scenario(&rt, &comment).turns, 10_000);
    let comment = repeated(&rt, b"\n#", b"x", 4096, b"\n")?;
    assert_eq!(rt; fault(&rt, &comment).line, 2);
    Ok(())
}

// What a call says, as numbers: its kind (1 open, 2 close, 3 Ctl, 4 CtlWait, 5 read, 0 none), the handle or the
// process, the end of a wait or where a read begins, how many bytes, and the first of those that are written.
fn told(call: &Option<Call>) -> [u64; 5] {
    match call {
        Some(Call::Open { pid, .. }) => [1, *pid as u64, 0, 0, 0],
        Some(Call::Close { handle }) => [2, *handle as u64, 0, 0, 0],
        Some(Call::Ctl { handle, bytes }) => [
            3,
            *handle as u64,
            0,
            bytes.as_slice().len() as u64,
            first_of(bytes),
        ],
        Some(
            Call::CtlWait {
                handle,
                until,
                bytes,
            },
        ) => [
            4,
            *handle as u64,
            *until,
            bytes.as_slice().len() as u64,
            first_of(bytes),
        ],
        Some(Call::Read { handle, at, len }) => [5, *handle as u64, *at, *len, 0],
        _ => [0; 5],
    }
}

fn first_of(bytes: &Bytes) -> u64 {
    match bytes.as_slice().first() {
        Some(b) => *b as u64,
        None => 0,
    }
}

// A reply, by its kind as above: a handle, done, so many bytes used, a wait until, a refusal.
fn reply_of(kind: u8, n: u32) -> Reply {
    match kind {
        1 => Reply::Handle(n),
        2 => Reply::Done,
        3 => Reply::Used(n as u64),
        4 => Reply::Half(n as u64),
        _ => Reply::Fail(Errno::Busy),
    }
}

// Runs the script of a text: each row is what it calls next, and the kind and the number of the reply.
fn follow(
    rt: &(impl Abort + Alloc<A = Global>),
    text: &[u8],
    rows: &[([u64; 5], u8, u32)],
) -> Result<(), Fail> {
    let mut controllers = scenario(rt, text).controllers;
    let Some(Plan::Script(mut script)) = controllers.pop() else {
        panic!(rt; "no script");
    };
    for (want, kind, n) in rows {
        script.prepare()?;
        let call = script.next_call(rt.alloc())?;
        assert_eq!(rt; told(&call), *want);
        script.feed(&reply_of(*kind, *n));
    }
    assert_eq!(rt; script.print(rt.alloc(), &[])?.as_slice().len(), 0);
    Ok(())
}

// A write of three messages of 8, 8 and 16 bytes goes on with its rest, and a refusal drops it; a name that is bound to
// nothing, or whose open failed, stands for 4294967295, and one bound again for the new handle.
#[test]
fn goes_on_with_the_rest(rt: HostRuntime) -> Result<(), Fail> {
    let text =
        b"script\nclose v\nopen v 1 ctl w\nwrite v dstop wstop run\nwrite v run wstop\nopen v 1 ctl w\nclose v\nopen v 1 ctl w\nread v 0 1\nend";
    let rows = [
        ([2, 4_294_967_295, 0, 0, 0], 5, 0),
        ([1, 1, 0, 0, 0], 1, 5),
        ([3, 5, 0, 32, 2], 3, 8),
        ([3, 5, 0, 24, 3], 4, 0),
        ([4, 5, 0, 24, 3], 3, 8),
        ([3, 5, 0, 16, 5], 3, 16),
        ([3, 5, 0, 24, 5], 5, 0),
        ([1, 1, 0, 0, 0], 1, 6),
        ([2, 6, 0, 0, 0], 2, 0),
        ([1, 1, 0, 0, 0], 5, 0),
        ([5, 4_294_967_295, 0, 1, 0], 5, 0),
        ([0; 5], 2, 0),
    ];
    follow(&rt, text, &rows)
}

#[test]
fn shows_refusals(rt: HostRuntime) -> Result<(), Fail> {
    let refusal = ScenRefusal::Fault(ScenFault {
        line: 3,
        kind: ScenKind::NoEnd,
    });
    assert_eq!(rt;
        format!(in rt.alloc(); "{refusal}")?.as_str(),
        "line 3: NoEnd"
    );
    let refusal = ScenRefusal::NoMemory;
    assert_eq!(rt;
        format!(in rt.alloc(); "{refusal}")?.as_str(),
        "out of memory"
    );
    Ok(())
}
