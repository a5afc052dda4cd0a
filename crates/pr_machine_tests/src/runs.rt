//! What no clause says: that a kernel, a world and a run come about where there is memory.
ghost use Rattle.std.specs.Prelude.{◌<◌};

use pr_api::{Kernel, TableKernel};
use pr_model::{Actor, Call, File, Mode, Reply};
use pr_num::Errno;
use pr_run::*;
use pr_world::{End, World};
use std::alloc::Global;
use std::test::Fail;

fn kernel(alloc: Global, places: u32) -> Option<TableKernel> {
    let mut replies = Vec::new(alloc);
    replies.push(Reply::Handle(7)).ok()?;
    replies.push(Reply::Pid(1)).ok()?;
    TableKernel::new(alloc, replies, places).ok()
}

/// Makes a call of controller 0, where a place is left.
fn made(kernel: &mut TableKernel, call: Call) -> bool {
    kernel.entries() < kernel.places() && kernel.call(0, call).is_ok()
}

fn open() -> Call {
    Call::Open {
        pid: 1,
        lwp: 0,
        file: File::Ctl,
        mode: Mode::Write,
    }
}

// An open takes the handle; a close and a list do not take the process id, which stays.
#[test]
fn a_kernel_answers_from_its_list(rt: HostRuntime) -> Result<(), Fail> {
    let mut kernel = kernel(rt.alloc(), 3).ok_or("a kernel")?;
    assert!(rt; kernel.last_reply().is_none());
    assert!(rt; made(&mut kernel, open()));
    assert!(rt; matches!(kernel.last_reply(), Some(Reply::Handle(7))));
    assert!(rt; made(&mut kernel, Call::Close { handle: 7 }));
    assert!(rt; matches!(kernel.last_reply(), Some(Reply::Fail(Errno::Io))));
    assert!(rt; made(&mut kernel, Call::List));
    match kernel.last_reply() {
        Some(Reply::Bytes(bytes)) => assert!(rt; bytes.as_slice().is_empty()),
        _ => panic!(rt; "no bytes"),
    }
    assert!(rt; !made(&mut kernel, open()));
    Ok(())
}

// Where there is no controller and no lwp, nobody can move, whoever the schedule names.
#[test]
fn a_world_without_actors_is_quiet(rt: HostRuntime) -> Result<(), Fail> {
    let alloc = rt.alloc();
    let kernel = kernel(alloc, 3).ok_or("a kernel")?;
    let mut schedule = Vec::new(alloc);
    schedule.push(Actor::Lwp(1, 1))?;
    schedule.push(Actor::Clock)?;
    let mut world = World::new(alloc, kernel, Vec::new(alloc), schedule)
        .ok()
        .ok_or("a world")?;
    assert!(rt; matches!(run_one(&mut world), Ok(End::Quiet)));
    assert!(rt; world.kernel().entries() == 0);
    Ok(())
}
