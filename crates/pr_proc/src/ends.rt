//! How processes end.
ghost use Rattle.std.specs.Prelude.{◌≡◌, [], IsSome, None};
ghost use Rattle.std.specs.Option.{ForSome};
ghost use Rattle.pr_num.specs.ById.{change_under, map_each, under};
ghost use Rattle.pr_num.specs.Files.{with_all_closed};
ghost use Rattle.pr_num.specs.Infos.{of_child};
ghost use Rattle.pr_num.specs.declared.signals.Sig.TheVariants.{Cld};
ghost use Rattle.pr_model.specs.Generation.{signalled};
ghost use Rattle.pr_model.specs.Lives.{orphaned, with_ended, with_parent_signalled, zombie};
ghost use Rattle.pr_model.specs.Machines.{traced, zombie_control};
ghost use Rattle.pr_model.specs.State.{live_process, with_process};

use crate::loans::{give_back, leave_lender};
use crate::{Proc, Processes, Sys, live};
use pr_file::Files;
use pr_mem::Space;
use pr_model::Control;
use pr_num::limits::SIGNAL_COUNT;
use pr_num::{ById, FltSet, Info, Modes, Sig, SigSet, SysSet};
use pr_post::post;
use pr_watch::Areas;
use std::alloc::Global;
use std::mem;

/// Watches nothing any more. Areas are put in place of others only where there are any.
fn watch_nothing(areas: &mut Areas)
    ensures { areas.new ≡ [] }
{
    if !areas.is_empty() {
        *areas = Areas::new();
    }
}

/// Leaves of what controllers set on a process what a zombie keeps, its usage.
#[tactic(auto, unfolding(pr_model::specs::Machines::zombie_control, pr_model::specs::Machines::nothing_set))]
fn clear_control(control: &mut Control<Areas>)
    ensures { control.new ≡ zombie_control control.old }
{
    control.traced_signals = SigSet::empty();
    control.traced_faults = FltSet::empty();
    control.traced_entries = SysSet::empty();
    control.traced_exits = SysSet::empty();
    control.modes = Modes::empty();
    watch_nothing(&mut control.areas);
}

/// Leaves of a process what a zombie keeps: its parent, program name, moment and usage, and this wait status. Closes
/// its descriptors, and answers the memory that it had; that of its lwps is freed. It is changed in place. Takes no
/// memory.
#[tactic(auto, unfolding(pr_model::specs::Lives::zombie, pr_model::specs::Lives::bare_process, pr_model::specs::Machines::traced))]
fn become_zombie(alloc: Global, files: &mut Files, process: &mut Proc, status: u64) -> Space
    ensures files { files.new ≡ with_all_closed files.old process.old.fds }
    ensures process { process.new ≡ zombie traced status process.old }
    ensures space { result ≡ process.old.space }
{
    files.close_all(&mut process.fds);
    process.ended = Some(status);
    process.lender = None;
    process.borrower = None;
    process.dispositions = [0; SIGNAL_COUNT];
    process.pending.clear();
    process.job_stop = None;
    process.next_lwp = 1;
    process.lwps = ById::new(alloc);
    clear_control(&mut process.control);
    mem::replace(&mut process.space, Space::new(alloc))
}

/// Gives a child of a process that ended process 0 as its parent.
#[tactic(auto, unfolding(pr_model::specs::Lives::orphaned))]
fn orphan(process: &mut Proc, parent: u32)
    ensures { process.new ≡ orphaned parent process.old }
{
    if process.parent == parent {
        process.parent = 0;
    }
}

/// The same of the process of an id.
#[tactic(auto, using(pr_num::proofs::ByIdLaws::by_id_laws))]
fn orphan_under(processes: &mut Processes, id: u32, parent: u32)
    requires { IsSome (under id processes.old) }
    ensures { processes.new ≡ change_under id (orphaned parent) processes.old }
{
    orphan(processes.get_mut(id), parent);
}

/// The same of every process. Looks at none but those in the blocks of ids in which its children stand.
fn orphan_each(processes: &mut Processes, parent: u32)
    ensures { processes.new ≡ map_each (orphaned parent) processes.old }
{
    let mut low = 0;
    while let Some((id, _)) = processes.next_child(parent, low) {
        orphan_under(processes, id, parent);
        low = id as u64 + 1;
    }
    processes.ids_rise();
}

/// Tells a process that a child of it ended.
#[tactic(auto, using(pr_post::proofs::RoomLemmas::rooms))]
fn tell_of_child(process: &mut Proc, pid: u32, status: u64)
    ensures { process.new ≡ signalled None Cld (of_child pid status) process.old }
{
    post(process, None, Sig::Cld, Info::of_child(pid, status));
}

/// Tells the parent of a process that ended, unless that is process 0 or there is none.
#[tactic(auto, using(pr_num::proofs::ByIdLaws::by_id_laws), unfolding(pr_model::specs::Lives::with_parent_signalled, pr_model::specs::State::with_process))]
fn tell_parent(sys: &mut Sys, parent: u32, pid: u32, status: u64)
    ensures { sys.new ≡ with_parent_signalled parent pid status sys.old }
{
    if parent == 0 {
        return;
    }
    if let Some(process) = sys.processes.find_mut(parent) {
        tell_of_child(process, pid, status);
    }
}

/// Makes a zombie of the process of an id, whose descriptors are closed. Answers the memory that it had.
#[tactic(auto, using(pr_num::proofs::ByIdLaws::by_id_laws, std::proofs::lemmas::Option::same_Some), unfolding(pr_model::specs::State::with_process))]
fn bury(sys: &mut Sys, pid: u32, status: u64) -> Space
    requires { IsSome (under pid sys.old.processes) }
    ensures system { ForSome (under pid sys.old.processes)
        (λ p. sys.new
        ≡ with_process pid (zombie traced status) (record sys.old { files = with_all_closed sys.old.files p.fds })) }
    ensures space { ForSome (under pid sys.old.processes) (λ p. result ≡ p.space) }
{
    let alloc = sys.programs.alloc();
    let process = sys.processes.get_mut(pid);
    become_zombie(alloc, &mut sys.files, process, status)
}

/// Ends a live process with a wait status: it becomes a zombie, its descriptors are closed, its children get process
/// 0 as their parent, memory that it borrowed goes back to its lender, its borrower gets that lender, and its own
/// parent gets SIGCLD. Copies and takes no memory.
#[tactic(auto, using(crate::proofs::LifeLemmas::life_laws), unfolding(pr_model::specs::State::with_process))]
pub fn end(sys: &mut Sys, pid: u32, status: u64)
    requires { IsSome (live_process sys.old pid) }
    ensures { sys.new ≡ with_ended traced pid status sys.old }
{
    let process = live(sys, pid).unwrap();
    let parent = process.parent;
    let (lender, borrower) = (process.lender, process.borrower);
    let space = bury(sys, pid, status);
    orphan_each(&mut sys.processes, pid);
    leave_lender(sys, pid, borrower, lender);
    give_back(sys, pid, lender, space, borrower);
    tell_parent(sys, parent, pid, status);
}
