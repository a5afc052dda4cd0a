//! Where a fault stood.
ghost use Rattle.std.specs.Prelude.{◌≡◌};
ghost use Rattle.std.specs.Option.{option_copied};
ghost use Rattle.pr_kern.specs.Faults.{fault_pc, pc_at_fault, pc_at_fault_in};

use pr_model::{PC, Phase};
use pr_proc::{Lwp, Proc, Sys, live};

/// The pc of an lwp, if there is one, that incurred a fault whose signal is not posted yet.
fn pc_at_fault(lwp: Option<&Lwp>) -> Option<u64>
    ensures { result ≡ pc_at_fault (option_copied lwp.entry) }
{
    let lwp = lwp?;
    match lwp.phase {
        Phase::Faulted { .. } => Some(lwp.regs[PC]),
        _ => None,
    }
}

/// The same of the lwp of an id, in a process, if there is one.
fn pc_at_fault_in(process: Option<&Proc>, lwp: u32) -> Option<u64>
    ensures { result ≡ pc_at_fault_in (option_copied process.entry) lwp }
{
    let process = process?;
    pc_at_fault(process.lwps.get(lwp))
}

/// The pc of a live lwp that incurred a fault whose signal is not posted yet; `None` exactly for any other. Takes no
/// memory.
#[tactic(auto, unfolding(crate::specs::Faults::fault_pc))]
pub fn fault_pc(sys: &Sys, pid: u32, lwp: u32) -> Option<u64>
    ensures { result ≡ fault_pc sys.now pid lwp }
{
    pc_at_fault_in(live(sys, pid), lwp)
}
