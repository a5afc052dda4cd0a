//! What programs see of an entry.
ghost use Rattle.std.specs.Prelude.{◌≡◌, ◌++◌, OnOk};
ghost use Rattle.std.specs.Option.{option_copied};
ghost use Rattle.pr_hidden.specs.HiddenSteps.{hidden_steps_of, is_leaving, steps_of_own, turn_seen};
ghost use Rattle.pr_hide.specs.CoverTables.{covers_of};
ghost use Rattle.pr_hide.specs.Hidings.{hiders_of};
ghost use Rattle.pr_strip.specs.Pasts.{past_of};

use crate::cover_tables::CoverTable;
use crate::hiders::Hider;
use crate::own_faults::{is_own, lwp_at};
use pr_kern::Machine;
use pr_model::{Act, Actor, Did, Entry, Phase, Step};
use pr_num::{Flt, NoMemory};
use pr_proc::Lwp;
use pr_strip::{Past, push_steps, push_turn};

/// Whether an lwp is on its way out of a system call.
fn is_leaving(lwp: Option<&Lwp>) -> bool
    ensures { result ≡ is_leaving (option_copied lwp.entry) }
{
    match lwp {
        None => false,
        Some(lwp) => matches!(lwp.phase, Phase::Exiting { .. }),
    }
}

/// Puts what a fault of a controller's is: FLTTRACE comes after an instruction that was run, but for an lwp on its way
/// out of a system call.
fn push_own(
    steps: &mut Vec<Step>,
    leaving: bool,
    pid: u32,
    lwp: u32,
    did: Did,
) -> Result<(), NoMemory>
    ensures { OnOk result (steps.new.items ≡ steps.old.items ++ steps_of_own leaving pid lwp did) }
{
    match did {
        Did::Faulted(Flt::Trace) if !leaving => Ok(steps.push(Step::Exec(pid, lwp))?),
        _ => Ok(()),
    }
}

/// Puts what programs see of a turn: of a controller's agent nothing, and of a fault of a controller's what was run.
#[tactic(auto, unfolding(pr_hidden::specs::HiddenSteps::turn_seen))]
fn push_turn_seen(
    steps: &mut Vec<Step>,
    who: &[Hider],
    table: &CoverTable,
    machine: &Machine,
    past: &Past,
    pid: u32,
    lwp: u32,
    did: Did,
) -> Result<(), NoMemory>
    ensures { OnOk result (steps.new.items ≡ steps.old.items
        ++ turn_seen (hiders_of who.now) (covers_of table.now) machine.now (past_of past.now) pid lwp did) }
{
    if !table.keeps_lwp(pid, lwp) {
        return Ok(());
    }
    if is_own(who, table, machine, pid, lwp, did) {
        let leaving = is_leaving(lwp_at(&machine.system, pid, lwp));
        return push_own(steps, leaving, pid, lwp, did);
    }
    push_turn(steps, past.is_returning(pid, lwp), pid, lwp, did)
}

/// Puts what programs see of an entry that the machine makes in this state, where so much is hidden, after those that
/// are remembered.
#[tactic(auto, unfolding(pr_hidden::specs::HiddenSteps::hidden_steps_of))]
pub(crate) fn push_seen(
    steps: &mut Vec<Step>,
    who: &[Hider],
    table: &CoverTable,
    machine: &Machine,
    past: &Past,
    entry: &Entry,
) -> Result<(), NoMemory>
    ensures { OnOk result (steps.new.items ≡ steps.old.items
        ++ hidden_steps_of (hiders_of who.now) (covers_of table.now) machine.now (past_of past.now) entry.now) }
{
    match (entry.actor, &entry.act) {
        (Actor::Lwp(pid, lwp), Act::Turn(turned)) => {
            push_turn_seen(steps, who, table, machine, past, pid, lwp, turned.did)
        }
        _ => push_steps(steps, past, entry),
    }
}
