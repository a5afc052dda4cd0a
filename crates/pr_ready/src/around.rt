//! The processes around one, noted before a step that may touch them.
ghost use Rattle.std.specs.Prelude.{◌≡◌};
ghost use Rattle.std.specs.Option.{option_copied, option_map};
ghost use Rattle.pr_ready.specs.Around.{around_of, kin, target_kin};
ghost use Rattle.pr_ready.specs.Following.{around_lwp, target_in_process};
ghost use Rattle.pr_ready_laws.specs.Touched.{target_in, target_of_call};

use pr_model::Phase;
use pr_num::Sysno;
use pr_proc::{Lwp, Proc, Sys, arguments_of, live};

/// The parent of a process, its lender and its borrower (vfork(2)), by their ids.
#[derive(Clone, Copy, Debug, PartialEq, Eq)]
pub struct Kin {
    pub parent: u32,
    pub lender: Option<u32>,
    pub borrower: Option<u32>,
}

/// The processes around one, by their ids.
#[derive(Clone, Copy, Debug, PartialEq, Eq)]
pub struct Around {
    /// One that is made.
    pub made: Option<u32>,
    /// Those around the process itself.
    pub kin: Option<Kin>,
    /// One that a signal is sent to, as a program names it, or that a controller acts on.
    pub target: Option<u64>,
    /// Those around that.
    pub target_kin: Option<Kin>,
}

fn noted_kin(process: &Proc) -> Kin
    ensures { result ≡ kin process.now }
{
    Kin {
        parent: process.parent,
        lender: process.lender,
        borrower: process.borrower,
    }
}

fn kin_of(process: Option<&Proc>) -> Option<Kin>
    ensures { result ≡ option_map kin (option_copied process.entry) }
{
    match process {
        None => None,
        Some(process) => Some(noted_kin(process)),
    }
}

fn target_kin(sys: &Sys, target: Option<u64>) -> Option<Kin>
    ensures { result ≡ target_kin sys.now target }
{
    match target {
        None => None,
        Some(target) => match sys.processes.id_of(target) {
            None => None,
            Some(id) => kin_of(sys.processes.get(id)),
        },
    }
}

/// What is around a process, with one that is made and a target.
#[tactic(auto, unfolding(crate::specs::Around::around_of))]
pub fn note_around(
    sys: &Sys,
    made: Option<u32>,
    process: Option<&Proc>,
    target: Option<u64>,
) -> Around
    ensures { result ≡ around_of sys.now made (option_copied process.entry) target }
{
    Around {
        made,
        kin: kin_of(process),
        target,
        target_kin: target_kin(sys, target),
    }
}

/// The process that a call with these arguments sends a signal to.
fn target_of_call(call: Sysno, args: [u64; 6]) -> Option<u64>
    ensures { result ≡ target_of_call call args }
{
    match call {
        Sysno::Kill | Sysno::Sigqueue => Some(args[0]),
        _ => None,
    }
}

/// The process that an lwp sends a signal to, where it is at a call that does.
fn target_in(lwp: &Lwp) -> Option<u64>
    ensures { result ≡ target_in lwp.now.phase lwp.now.regs }
{
    match lwp.phase {
        Phase::Entered(call) => target_of_call(call, arguments_of(&lwp.regs)),
        Phase::Asleep { call, args, .. } => target_of_call(call, args),
        _ => None,
    }
}

fn target_in_process(process: Option<&Proc>, lwp: u32) -> Option<u64>
    ensures { result ≡ target_in_process (option_copied process.entry) lwp }
{
    match process {
        None => None,
        Some(process) => match process.lwps.get(lwp) {
            None => None,
            Some(found) => target_in(found),
        },
    }
}

/// Notes what is around the process of an lwp, before its turn.
#[tactic(auto, unfolding(crate::specs::Following::around_lwp))]
pub fn around_lwp(sys: &Sys, pid: u32, lwp: u32) -> Around
    ensures { result ≡ around_lwp sys.now pid lwp }
{
    let process = live(sys, pid);
    let target = target_in_process(process, lwp);
    note_around(sys, Some(sys.made), process, target)
}
