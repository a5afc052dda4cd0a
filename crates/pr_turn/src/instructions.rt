//! The turn of an lwp that runs an instruction, as most turns do: its process and the lwp are looked up once.
ghost use Rattle.std.specs.Prelude.{◌≡◌, ℕ, ◌+◌, ◌-◌, ◌^◌, true, false, Some, IfOk, IfSome, IfNone, IsOk, IsSome, OnErr};
ghost use Rattle.std.specs.Option.{ForSome};
ghost use Rattle.pr_lwp.specs.Plain.{space_after, stores_bytes};
ghost use Rattle.pr_model.specs.InstructionEffects.{instruction_effect};
ghost use Rattle.pr_model.specs.LwpTurns.{can_move, turn_of, with_counted};
ghost use Rattle.pr_model.specs.Points.{after_meeting, meets};
ghost use Rattle.pr_model.specs.State.{live_process, lwp_of};
ghost use Rattle.pr_num.specs.ById.{change_under, under};
ghost use Rattle.pr_parts.specs.PendingSignals.{pending_set};
ghost use Rattle.pr_proc.specs.Counts.{AllUsedAtMost, UsedAtMost};
ghost use Rattle.pr_turn.specs.CallTurns.{may_take_memory, row_takes};
ghost use Rattle.pr_turn.specs.Making.{effect_of, executed_by, made_by, of_row, process_after};
ghost use Rattle.pr_turn.specs.NextRows.{row_of, runs_on};
ghost use Rattle.pr_turn.specs.Turns.{is_of_instruction};

use crate::making::made_by;
use crate::moving::execute_lwp;
use crate::next::Next;
use crate::turns::{count_in, settle};
use pr_lwp::Effect;
use pr_mem::Space;
use pr_model::{Did, Phase, Turned};
use pr_num::{ById, NoMemory, SigSet};
use pr_proc::{Lwp, Proc, Sys};
use pr_sig::takeable;
use pr_stop::meets;
use pr_watch::Areas;

/// Whether an lwp has nothing to do but to run an instruction of its program, where these signals pend for its process:
/// it is not directed to stop, and has no signal to act on or to take.
#[tactic(auto, unfolding(crate::specs::NextRows::runs_on))]
fn runs_on(shared: SigSet, lwp: &Lwp) -> bool
    ensures { result ≡ runs_on shared lwp.now }
{
    match lwp.phase {
        Phase::User => {
            let takes = takeable(lwp.pending.set(), shared, lwp.held).is_some();
            !lwp.control.directed && lwp.current.is_none() && !takes
        }
        _ => false,
    }
}

/// Runs the instruction at pc of the lwp of an id, if that has nothing else to do, and answers what it came to. `None`,
/// and where memory runs out: nothing is changed.
#[tactic(auto, using(pr_num::proofs::ByIdLaws::by_id_laws, std::proofs::lemmas::Option::same_Some))]
fn run_under(
    lwps: &mut ById<Lwp>,
    id: u32,
    shared: SigSet,
    space: &mut Space,
    areas: &Areas,
) -> Result<Option<Effect>, NoMemory>
    requires { IsSome (under id lwps.old) }
    ensures runs { IfOk result (λ ran. IfSome ran (λ effect. ForSome (under id lwps.old) (λ l. runs_on shared l ≡ true))) }
    ensures lwps { IfOk result
        (λ ran. IfSome ran
        (λ effect.
        ForSome (under id lwps.old)
        (λ l. lwps.new ≡ change_under id (executed_by (instruction_effect space.old areas.now l.regs)) lwps.old))) }
    ensures space { IfOk result
        (λ ran. IfSome ran
        (λ effect.
        ForSome (under id lwps.old)
        (λ l. space.new ≡ space_after (instruction_effect space.old areas.now l.regs) space.old))) }
    ensures effect { IfOk result
        (λ ran. IfSome ran
        (λ effect.
        ForSome (under id lwps.old) (λ l. effect ≡ effect_of l (instruction_effect space.old areas.now l.regs)))) }
    ensures other_lwps { IfOk result (λ ran. IfNone ran (lwps.new ≡ lwps.old)) }
    ensures other_space { IfOk result (λ ran. IfNone ran (space.new ≡ space.old)) }
    ensures rests { IfOk result (λ ran. IfNone ran (ForSome (under id lwps.old) (λ l. runs_on shared l ≡ false))) }
    ensures ran { OnErr result (ForSome (under id lwps.old) (λ l. runs_on shared l ≡ true)) }
    ensures memory { OnErr result
        (ForSome (under id lwps.old) (λ l. stores_bytes (instruction_effect space.old areas.now l.regs) ≡ true)) }
    ensures kept_lwps { OnErr result (lwps.new ≡ lwps.old) }
    ensures kept_space { OnErr result (space.new ≡ space.old) }
{
    let lwp = lwps.get_mut(id);
    if !runs_on(shared, lwp) {
        return Ok(None);
    }
    let effect = execute_lwp(lwp, space, areas)?;
    Ok(Some(effect))
}

/// The same in a process.
#[tactic(auto, using(crate::proofs::MakeLemmas::making, crate::proofs::TakingLemmas::taking))]
fn run_in(process: &mut Proc, id: u32) -> Result<Option<Effect>, NoMemory>
    requires { IsSome (lwp_of process.old id) }
    ensures runs { IfOk result
        (λ ran. IfSome ran
        (λ effect. ForSome (lwp_of process.old id) (λ l. runs_on (pending_set process.old.pending) l ≡ true))) }
    ensures process { IfOk result
        (λ ran. IfSome ran
        (λ effect.
        ForSome (lwp_of process.old id)
        (λ l. process.new ≡ process_after id (row_of process.old l Next.Executed).transition process.old))) }
    ensures made { IfOk result
        (λ ran. IfSome ran
        (λ effect.
        ForSome (lwp_of process.old id) (λ l. made_by effect ≡ of_row (row_of process.old l Next.Executed)))) }
    // with the address of a fault, of which no row tells
    ensures effect { IfOk result
        (λ ran. IfSome ran
        (λ effect.
        ForSome (lwp_of process.old id)
        (λ l. effect ≡ effect_of l (instruction_effect process.old.space process.old.control.areas l.regs)))) }
    ensures other { IfOk result (λ ran. IfNone ran (process.new ≡ process.old)) }
    ensures rests { IfOk result
        (λ ran. IfNone ran
        (ForSome (lwp_of process.old id) (λ l. runs_on (pending_set process.old.pending) l ≡ false))) }
    ensures ran { OnErr result (ForSome (lwp_of process.old id) (λ l. runs_on (pending_set process.old.pending) l ≡ true)) }
    ensures memory { OnErr result (ForSome (lwp_of process.old id) (λ l. row_takes (row_of process.old l Next.Executed) ≡ true)) }
    ensures err { OnErr result (process.new ≡ process.old) }
{
    let shared = process.pending.set();
    run_under(
        &mut process.lwps,
        id,
        shared,
        &mut process.space,
        &process.control.areas,
    )
}

/// What is left of a turn whose instruction came to this: it is counted, and the lwp stops at what it met. One that
/// only ran met nothing, and so nothing is asked of it.
#[tactic(auto, unfolding(pr_model::specs::Points::after_meeting))]
fn finish(process: &mut Proc, id: u32, effect: Effect) -> Turned
    requires { UsedAtMost (2 ^ 64 - 2) process.old.control.usage }
    ensures process { process.new ≡ after_meeting (made_by effect).point id
        (with_counted (made_by effect).did (made_by effect).begun process.old) }
    ensures turned { result
        ≡ record { did = (made_by effect).did; stop = meets process.old.control (made_by effect).point } }
{
    if let Effect::Ran = effect {
        count_in(process, Did::Ran, true);
        return Turned {
            did: Did::Ran,
            stop: false,
        };
    }
    let made = made_by(effect);
    let stop = meets(&process.control, made.point);
    settle(process, id, made);
    Turned {
        did: made.did,
        stop,
    }
}

/// The turn of an lwp that can have one, if it runs an instruction, before which no signal is acted on or taken.
/// `None`: the turn is another one, and the system stays as it is. Where memory runs out, it stays so too; only an
/// instruction that stores bytes takes any.
pub fn run_instruction(sys: &mut Sys, pid: u32, id: u32) -> Result<Option<Turned>, NoMemory>
    requires movable { can_move sys.old pid id ≡ true }
    // the counts of use do not wrap
    requires room { AllUsedAtMost (2 ^ 64 - 2) sys.old }
    ensures ok { IfOk result
        (λ ran. IfSome ran (λ turned. turn_of sys.old pid id ≡ Some (record { system = sys.new; turned = turned }))) }
    ensures did { IfOk result (λ ran. IfSome ran (λ turned. is_of_instruction turned.did ≡ true)) }
    // a turn adds at most 1 to each count
    ensures used { IfOk result
        (λ ran. IfSome ran (λ turned. (n : ℕ) → AllUsedAtMost n sys.old → AllUsedAtMost (n + 1) sys.new)) }
    ensures clock { IfOk result (λ ran. IfSome ran (λ turned. sys.new.clock ≡ sys.old.clock)) }
    ensures other { IfOk result (λ ran. IfNone ran (sys.new ≡ sys.old)) }
    ensures rests { IfOk result
        (λ ran. IfNone ran
        (ForSome (live_process sys.old pid)
        (λ p. ForSome (lwp_of p id) (λ l. runs_on (pending_set p.pending) l ≡ false)))) }
    ensures sure { may_take_memory sys.old pid id ≡ false → IsOk result }
    ensures err { OnErr result (sys.new ≡ sys.old) }
{
    let process = sys.processes.get_mut(pid);
    let Some(effect) = run_in(process, id)? else {
        return Ok(None);
    };
    let turned = finish(process, id, effect);
    Ok(Some(turned))
}
