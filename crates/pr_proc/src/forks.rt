//! How a process is forked, and how it lends its memory to a child (fork(2), vfork(2)).
ghost use Rattle.std.specs.Prelude.{◌≡◌, ◌+◌, ◌<◌, ◌≤◌, ◌^◌, ℕ, List, [], ◌∷◌, None, Err, IfOk, IfSome, IsSome, OnOk, OnErr, length};
ghost use Rattle.std.specs.Option.{ForSome};
ghost use Rattle.pr_num.specs.Limits.{descriptor_limit};
ghost use Rattle.pr_num.specs.ById.{under};
ghost use Rattle.pr_parts.specs.FileCalls.{with_all_shared};
ghost use Rattle.pr_parts.specs.FileTables.{HasRoom};
ghost use Rattle.pr_model.specs.Changes.{with_fds};
ghost use Rattle.pr_model.specs.Lives.{Birth, by_fork, by_vfork, call_of, forked_lwp, lent_to, with_child, with_made};
ghost use Rattle.pr_model.specs.Machines.{birth_marks, birth_stop, child_control, traced};
ghost use Rattle.pr_model.specs.Registers.{with_result};
ghost use Rattle.pr_model.specs.State.{TracedLwp, live_process, lwp_of, process_of, with_process};
ghost use Rattle.pr_model.specs.Statuses.{arguments_in};
ghost use Rattle.pr_model.specs.declared.events.Res.TheVariants.{Value};
ghost use Rattle.pr_proc.specs.Forks.{bare_child, with_loan};
ghost use Rattle.pr_proc.specs.Refusals.{Says, fork_refusal, lend_refusal};

use crate::lwps::no_marks;
use crate::spawns::{add_process, nothing_set, one_lwp};
use crate::{Lwp, Proc, ProcNo, Sys, arguments_in, live, size_of, total_has_room};
use pr_file::Fds;
use pr_mem::Space;
use pr_model::{Control, Frame, Frames, LwpControl, LwpOf, Phase, ProcessOf, Res, Stop};
use pr_num::limits::PROCESS_LIMIT;
use pr_num::{Modes, NoMemory, Sysno};
use pr_sig::Pendings;
use pr_watch::Areas;
use std::alloc::Global;
use std::mem;

fn same(frame: &Frame) -> Frame
    ensures { result ≡ frame.now }
{
    let regs = frame.regs;
    Frame {
        regs,
        held: frame.held,
    }
}

/// Puts the frames where there are none yet, too. Each is taken off and put back; takes no memory.
#[tactic(auto, using(crate::proofs::ForkLemmas::frame_laws))]
fn frames_again(frames: &mut Frames, again: &mut Frames)
    requires { again.old ≡ [] }
    ensures same { frames.new ≡ frames.old }
    ensures again { again.new ≡ frames.old }
{
    prove!(frames.len() <= Frames::MAX);
    let Some(frame) = frames.pop() else {
        return;
    };
    frames_again(frames, again);
    frames.push(same(&frame));
    again.push(same(&frame));
}

/// Puts the frames of an lwp of a process where there are none yet, too.
#[tactic(auto, using(pr_num::proofs::ByIdLaws::by_id_laws))]
fn copy_frames(process: &mut Proc, lwp: u32, again: &mut Frames)
    requires stands { IsSome (lwp_of process.old lwp) }
    requires none { again.old ≡ [] }
    ensures same { process.new ≡ process.old }
    ensures frames { ForSome (lwp_of process.old lwp) (λ l. again.new ≡ l.frames) }
{
    frames_again(&mut process.lwps.get_mut(lwp).frames, again);
}

/// The stop of a child at its birth, on its exit from the call that made it, where that is traced (proc(4), "PR_FORK").
#[tactic(auto, unfolding(pr_model::specs::Machines::birth_stop))]
fn birth_stop(call: Sysno, control: &Control<Areas>) -> Option<Stop>
    ensures { result ≡ birth_stop call control.now }
{
    if control.modes.has(Modes::FORK) && control.traced_exits.has(call) {
        Some(Stop::SysExit(call))
    } else {
        None
    }
}

#[tactic(auto, unfolding(pr_model::specs::Machines::birth_marks))]
fn birth_marks(call: Sysno, control: &Control<Areas>) -> LwpControl
    ensures { result ≡ birth_marks call control.now }
{
    LwpControl {
        stop: birth_stop(call, control),
        ..no_marks(false)
    }
}

/// What a child takes over of what is set on its parent: under PR_FORK the traced sets and that mode, and else nothing.
#[tactic(auto, unfolding(pr_model::specs::Machines::child_control, pr_model::specs::Machines::nothing_set))]
fn child_control(control: &Control<Areas>) -> Control<Areas>
    ensures { result ≡ child_control control.now }
{
    let mut taken = nothing_set();
    if control.modes.has(Modes::FORK) {
        taken.traced_signals = control.traced_signals;
        taken.traced_faults = control.traced_faults;
        taken.traced_entries = control.traced_entries;
        taken.traced_exits = control.traced_exits;
        taken.modes = Modes::FORK;
    }
    taken
}

/// Registers in which 0 stands as the value of a call.
#[tactic(auto, unfolding(pr_model::specs::Registers::with_result))]
fn with_zero(regs: [u64; 11]) -> [u64; 11]
    ensures { result ≡ with_result (Value 0) regs }
{
    let mut regs = regs;
    regs[0] = 0;
    regs[7] = 0;
    regs
}

/// The lwp of a child, on its way out of the call that made it with 0 as its result: it has the registers, the held set
/// and the frames of the lwp that made the call, and nothing pending.
#[tactic(auto, unfolding(pr_model::specs::Lives::forked_lwp, pr_model::specs::Machines::traced))]
fn forked_lwp(call: Sysno, lwp: &Lwp, frames: Frames, control: &Control<Areas>) -> Lwp
    requires { frames ≡ lwp.now.frames }
    ensures { (birth : Birth) → call ≡ call_of birth
        → result ≡ forked_lwp traced birth (arguments_in lwp.now.regs lwp.now.phase) control.now lwp.now }
{
    let regs = lwp.regs;
    let args = arguments_in(lwp);
    LwpOf {
        regs: with_zero(regs),
        held: lwp.held,
        pending: Pendings::new(),
        current: None,
        frames,
        suspended: false,
        phase: Phase::Exiting {
            call,
            args,
            result: Res::Value(0),
        },
        control: birth_marks(call, control),
    }
}

/// A copy of a process with this lwp alone, with nothing pending and no job stop, and no memory and no descriptor yet.
#[tactic(auto, unfolding(crate::specs::Forks::bare_child, pr_model::specs::Lives::forked, pr_model::specs::Machines::traced))]
fn bare_child(
    alloc: Global,
    pid: u32,
    process: &Proc,
    lwp: Lwp,
    clock: u64,
) -> Result<Proc, NoMemory>
    ensures { IfOk result
        (λ child. (birth : Birth) → (args : List ℕ) → (l : TracedLwp)
        → lwp ≡ forked_lwp traced birth args process.now.control l
        → child ≡ bare_child birth pid process.now l args clock) }
{
    let lwps = one_lwp(alloc, 1, lwp)?;
    let dispositions = process.dispositions;
    Ok(ProcessOf {
        parent: pid,
        program: process.program,
        made_at: clock,
        ended: None,
        space: Space::new(alloc),
        lender: None,
        borrower: None,
        fds: Fds::new(),
        dispositions,
        pending: Pendings::new(),
        job_stop: None,
        next_lwp: 2,
        lwps,
        control: child_control(&process.control),
    })
}

/// A child of the live process of an id, made by this call of an lwp of it, before it stands in the system: it has no
/// memory and no descriptor yet.
#[tactic(auto, using(pr_num::proofs::ByIdLaws::by_id_laws, crate::proofs::LifeLemmas::life_laws))]
fn made_child(
    alloc: Global,
    sys: &mut Sys,
    pid: u32,
    lwp: u32,
    call: Sysno,
) -> Result<Proc, NoMemory>
    requires live { IsSome (live_process sys.old pid) }
    requires lwp { IfSome (live_process sys.old pid) (λ p. IsSome (lwp_of p lwp)) }
    ensures same { sys.new ≡ sys.old }
    ensures child { IfOk result
        (λ child. (birth : Birth) → call ≡ call_of birth
        → ForSome (live_process sys.old pid)
        (λ p. ForSome (lwp_of p lwp)
        (λ l. child ≡ bare_child birth pid p l (arguments_in l.regs l.phase) sys.old.clock))) }
{
    let mut frames = Frames::new();
    copy_frames(sys.processes.get_mut(pid), lwp, &mut frames);
    let process = live(sys, pid).unwrap();
    let caller = process.lwps.get(lwp).unwrap();
    let first = forked_lwp(call, caller, frames, &process.control);
    bare_child(alloc, pid, process, first, sys.clock)
}

#[tactic(auto, unfolding(pr_model::specs::Changes::with_fds))]
fn give_fds(process: &mut Proc, fds: Fds)
    ensures { process.new ≡ with_fds fds process.old }
{
    process.fds = fds;
}

/// Descriptors for the open files of the process of an id. Takes no memory.
#[tactic(auto, using(pr_num::proofs::ByIdLaws::by_id_laws))]
fn share_fds(sys: &mut Sys, pid: u32) -> Fds
    requires stands { IsSome (under pid sys.old.processes) }
    requires users { HasRoom sys.old.files descriptor_limit }
    ensures system { ForSome (under pid sys.old.processes)
        (λ p. sys.new ≡ record sys.old { files = with_all_shared sys.old.files p.fds }) }
    ensures processes { sys.new.processes ≡ sys.old.processes }
    ensures fds { ForSome (under pid sys.old.processes) (λ p. result ≡ p.fds) }
{
    let parent = sys.processes.get(pid).unwrap();
    sys.files.share(&parent.fds)
}

/// Gives the process of an id these descriptors.
#[tactic(auto, using(pr_num::proofs::ByIdLaws::by_id_laws), unfolding(pr_model::specs::State::with_process))]
fn give_fds_to(sys: &mut Sys, pid: u32, fds: Fds)
    requires { IsSome (under pid sys.old.processes) }
    ensures { sys.new ≡ with_process pid (with_fds fds) sys.old }
{
    give_fds(sys.processes.get_mut(pid), fds);
}

/// Puts a child under the next id and gives it descriptors for its parent's open files. Where memory runs out, the
/// system stays as it is.
#[tactic(auto, using(crate::proofs::ForkLemmas::fork_laws, crate::proofs::LifeLemmas::life_laws))]
fn add_child(sys: &mut Sys, pid: u32, child: Proc) -> Result<(), NoMemory>
    requires live { IsSome (live_process sys.old pid) }
    requires room { sys.old.made + 1 < 2 ^ 32 }
    requires free { process_of sys.old sys.old.made ≡ None }
    requires users { HasRoom sys.old.files descriptor_limit }
    ensures ok { OnOk result
        (ForSome (live_process sys.old pid)
        (λ p. sys.new
        ≡ with_made (with_fds p.fds child) (record sys.old { files = with_all_shared sys.old.files p.fds }))) }
    ensures err { OnErr result (sys.new ≡ sys.old) }
{
    let id = sys.made;
    add_process(sys, child)?;
    let fds = share_fds(sys, pid);
    give_fds_to(sys, id, fds);
    Ok(())
}

/// Forks a live process by an lwp of it, with the arguments of the call in which that is, and answers the child's id.
/// `Again` comes exactly where 4,096 processes were made, then `NoSpace` exactly where all processes together would map
/// more than 64 MiB, and memory runs out only where neither is so. After an error the system is as it was.
#[tactic(auto, unfolding(crate::specs::Refusals::fork_refusal))]
pub fn fork(alloc: Global, sys: &mut Sys, pid: u32, lwp: u32) -> Result<u32, ProcNo>
    requires live { IsSome (live_process sys.old pid) }
    requires lwp { IfSome (live_process sys.old pid) (λ p. IsSome (lwp_of p lwp)) }
    // no process has the next id
    requires free { process_of sys.old sys.old.made ≡ None }
    // open files can count a child's descriptors too
    requires users { HasRoom sys.old.files descriptor_limit }
    ensures ok { OnOk result
        (ForSome (live_process sys.old pid)
        (λ p. ForSome (lwp_of p lwp)
        (λ l. sys.new ≡ with_child traced by_fork pid p l (arguments_in l.regs l.phase) sys.old))) }
    ensures child { IfOk result (λ child. child ≡ sys.old.made) }
    ensures refused { ForSome (live_process sys.old pid) (λ p. Says result (fork_refusal sys.old p)) }
    ensures memory { result ≡ Err ProcNo.NoMemory → ForSome (live_process sys.old pid) (λ p. fork_refusal sys.old p ≡ None) }
    ensures err { OnErr result (sys.new ≡ sys.old) }
{
    let id = sys.made;
    if id >= PROCESS_LIMIT as u32 {
        return Err(ProcNo::Again);
    }
    let size = size_of(live(sys, pid).unwrap());
    if !total_has_room(sys, size, 0) {
        return Err(ProcNo::NoSpace);
    }
    let mut child = made_child(alloc, sys, pid, lwp, Sysno::Fork)?;
    child.space = live(sys, pid).unwrap().space.copy(alloc)?;
    add_child(sys, pid, child)?;
    Ok(id)
}

/// Takes a process's memory, which it lends to a child.
#[tactic(auto, unfolding(pr_model::specs::Lives::lent_to))]
fn lend_space(alloc: Global, process: &mut Proc, child: u32) -> Space
    ensures process { process.new ≡ lent_to child process.old }
    ensures space { result ≡ process.old.space }
{
    process.borrower = Some(child);
    mem::replace(&mut process.space, Space::new(alloc))
}

/// Gives a child the memory of its parent, which is its lender.
#[tactic(auto, unfolding(crate::specs::Forks::with_loan))]
fn borrow(child: &mut Proc, lender: u32, space: Space)
    ensures { child.new ≡ with_loan lender space child.old }
{
    child.space = space;
    child.lender = Some(lender);
}

/// Moves the memory of the process of an id to a child of it, as a loan. Copies and takes no memory.
#[tactic(auto, using(pr_num::proofs::ByIdLaws::by_id_laws), unfolding(pr_model::specs::State::with_process, pr_model::specs::Lives::lent_to, crate::specs::Forks::with_loan))]
fn lend_memory(alloc: Global, sys: &mut Sys, pid: u32, child: u32)
    requires lender { IsSome (under pid sys.old.processes) }
    requires borrower { IsSome (under child sys.old.processes) }
    ensures { ForSome (under pid sys.old.processes)
        (λ p. sys.new ≡ with_process child (with_loan pid p.space) (with_process pid (lent_to child) sys.old)) }
{
    let space = lend_space(alloc, sys.processes.get_mut(pid), child);
    borrow(sys.processes.get_mut(child), pid, space);
}

/// Makes a child of a live process by an lwp of it, with the arguments of the call in which that is, lends it the
/// process's memory, which is not copied, and answers the child's id (vfork(2)). `Again` comes exactly where 4,096
/// processes were made, and memory runs out only where that is not so. After an error the system is as it was.
#[tactic(auto, unfolding(crate::specs::Refusals::lend_refusal))]
pub fn lend(alloc: Global, sys: &mut Sys, pid: u32, lwp: u32) -> Result<u32, ProcNo>
    requires live { IsSome (live_process sys.old pid) }
    requires lwp { IfSome (live_process sys.old pid) (λ p. IsSome (lwp_of p lwp)) }
    // no process has the next id
    requires free { process_of sys.old sys.old.made ≡ None }
    // open files can count a child's descriptors too
    requires users { HasRoom sys.old.files descriptor_limit }
    ensures ok { OnOk result
        (ForSome (live_process sys.old pid)
        (λ p. ForSome (lwp_of p lwp)
        (λ l. sys.new ≡ with_child traced by_vfork pid p l (arguments_in l.regs l.phase) sys.old))) }
    ensures child { IfOk result (λ child. child ≡ sys.old.made) }
    ensures refused { Says result (lend_refusal sys.old) }
    ensures memory { result ≡ Err ProcNo.NoMemory → lend_refusal sys.old ≡ None }
    ensures err { OnErr result (sys.new ≡ sys.old) }
{
    let id = sys.made;
    if id >= PROCESS_LIMIT as u32 {
        return Err(ProcNo::Again);
    }
    let child = made_child(alloc, sys, pid, lwp, Sysno::Vfork)?;
    add_child(sys, pid, child)?;
    lend_memory(alloc, sys, pid, id);
    Ok(id)
}
