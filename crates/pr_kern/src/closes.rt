//! Closing the files of a process, and what the last close for writing does (proc(4), "PR_KLC", "PR_RLC").
ghost use Rattle.std.specs.Prelude.{◌≡◌, None};
ghost use Rattle.pr_model.specs.Calls.{Answer, close_answer};
ghost use Rattle.pr_model.specs.Handles.{after_last_close, released, was_last_writer};
ghost use Rattle.pr_model.specs.State.{live_process, with_process};

use crate::Machine;
use pr_model::{Held, Reply};
use pr_num::{Errno, Modes, Sig};
use pr_open::Opens;
use pr_proc::{Sys, end, live, release};

/// Lets the process of an id go, if there is one.
#[tactic(auto, using(pr_num::proofs::ByIdLaws::by_id_laws), unfolding(pr_model::specs::State::with_process))]
fn release_process(sys: &mut Sys, pid: u32)
    ensures { sys.new ≡ with_process pid released sys.old }
{
    if let Some(process) = sys.processes.find_mut(pid) {
        release(process);
    }
}

/// What the last close for writing does to a process, if it is live: under PR_KLC it ends as by SIGKILL; else under
/// PR_RLC it is let go.
#[tactic(auto, using(pr_ctl::proofs::CloseLemmas::close_laws), unfolding(pr_model::specs::Handles::with_last_close))]
fn end_tracing(sys: &mut Sys, pid: u32)
    ensures { sys.new ≡ after_last_close pid (live_process sys.old pid) sys.old }
{
    let Some(process) = live(sys, pid) else {
        return;
    };
    let modes = process.control.modes;
    if modes.has(Modes::KLC) {
        end(sys, pid, Sig::Kill.number());
    } else if modes.has(Modes::RLC) {
        release_process(sys, pid);
    }
}

/// Whether a handle that is closed was the last one for writing on its process.
fn was_last_writer(held: Held, others: &Opens) -> bool
    ensures { result ≡ was_last_writer held others.now }
{
    held.mode.is_writable() && !others.writable(held.pid)
}

/// Closes a handle of a controller, or refuses it with EBADF; where no other handle for writing is left on its process,
/// what the process's modes say follows. Takes no memory.
#[tactic(auto, unfolding(pr_model::specs::Calls::close_answer, pr_model::specs::Handles::with_closed))]
pub fn close(state: &mut Machine, by: u32, handle: u32) -> Reply
    ensures { (record { state = state.new; reply = result }) ≡ close_answer state.old by handle }
{
    let Ok(held) = state.opens.close(by, handle) else {
        return Reply::Fail(Errno::Badf);
    };
    if was_last_writer(held, &state.opens) {
        end_tracing(&mut state.system, held.pid);
    }
    Reply::Done
}
