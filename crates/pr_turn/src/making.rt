//! What a row of the turn table makes of its process, and what it did.
ghost use Rattle.std.specs.Prelude.{◌≡◌, true, false, None, Some, IfOk, IsSome, OnErr, OnOk};
ghost use Rattle.std.specs.Option.{ForSome};
ghost use Rattle.pr_num.specs.ById.{change_under, under};
ghost use Rattle.pr_model.specs.Points.{meets};
ghost use Rattle.pr_model.specs.State.{lwp_of};
ghost use Rattle.pr_lwp.specs.Plain.{space_after, stores_bytes};
ghost use Rattle.pr_model.specs.InstructionEffects.{instruction_effect};
ghost use Rattle.pr_turn.specs.CallTurns.{row_takes};
ghost use Rattle.pr_turn.specs.Making.{effect_of, ends, executed_by, made_by, made_of, moved_by, of_row, process_after};
ghost use Rattle.pr_turn.specs.NextRows.{fits, is_own_row, row_of};
ghost use Rattle.pr_model.specs.Machines.{traced};
ghost use Rattle.pr_model.specs.Moves.{drops, moved, takes};
ghost use Rattle.pr_model.specs.Transitions.{job_stopped, shared_taken};

use crate::moving::{drop_current, execute_lwp, move_lwp, set_current};
use crate::next::{Next, finished};
use pr_lwp::Effect;
use pr_mem::Space;
use pr_model::{Current, Did, How, Point};
use pr_num::{ById, Flt, Info, NoMemory, Sig};
use pr_proc::{Lwp, Proc};
use pr_stop::meets;
use pr_watch::Areas;

/// What a turn did, the point that it met, if one, and whether it began an instruction.
#[derive(Clone, Copy, Debug, PartialEq, Eq)]
pub struct Made {
    pub did: Did,
    pub point: Option<Point>,
    pub begun: bool,
}

/// A turn that met nothing.
pub fn quiet(did: Did) -> Made
    ensures { result ≡ record { did = did; point = None; begun = false } }
{
    Made {
        did,
        point: None,
        begun: false,
    }
}

/// A turn that met a point, at which its lwp may stop.
pub fn at_point(did: Did, point: Point) -> Made
    ensures { result ≡ record { did = did; point = Some point; begun = false } }
{
    Made {
        did,
        point: Some(point),
        begun: false,
    }
}

/// What a row that changes its lwp alone did, or one that ends its process.
#[tactic(auto, unfolding(crate::specs::Making::made_of))]
pub fn made_of(lwp: &Lwp, next: Next) -> Made
    ensures { result ≡ made_of lwp.now next }
{
    match next {
        Next::Requested => quiet(Did::Stopped),
        Next::Posted { fault, .. } => quiet(Did::Posted(fault)),
        Next::Gave {
            woken,
            call,
            result: outcome,
            ..
        } => at_point(finished(woken, call, outcome), Point::Exit(call)),
        Next::Ends { did, .. } => quiet(did),
        Next::Returned(_) if lwp.control.step => {
            at_point(Did::Faulted(Flt::Trace), Point::Fault(Flt::Trace))
        }
        Next::Returned(call) => quiet(Did::Returned(call)),
        Next::Executed => quiet(Did::Ran),
        Next::TookOwn(signal) => at_point(Did::Took(signal), Point::Signal(signal)),
        Next::TookShared(signal) => at_point(Did::Took(signal), Point::Signal(signal)),
        Next::Dropped(signal) => quiet(Did::Acted(signal, How::Ignored)),
        Next::JobStopped(signal) => quiet(Did::Acted(signal, How::JobStop)),
        Next::Caught { current, .. } => quiet(Did::Acted(current.signal, How::Caught)),
    }
}

/// What an instruction did that came to this.
pub fn made_by(effect: Effect) -> Made
    ensures { result ≡ made_by effect }
{
    let (did, point) = match effect {
        Effect::Ran => (Did::Ran, None),
        Effect::Sys(call) => (Did::Entered(call), Some(Point::Entry(call))),
        Effect::Fault(fault, _) => (Did::Faulted(fault), Some(Point::Fault(fault))),
    };
    Made {
        did,
        point,
        begun: true,
    }
}

/// What a row that changes its lwp alone makes of the lwp of an id, and what it did.
#[tactic(auto, using(pr_num::proofs::ByIdLaws::by_id_laws, std::proofs::lemmas::Option::same_Some))]
fn move_under(lwps: &mut ById<Lwp>, id: u32, next: Next) -> Made
    requires found { IsSome (under id lwps.old) }
    requires own { is_own_row next ≡ true }
    requires fits { ForSome (under id lwps.old) (λ l. fits l next ≡ true) }
    ensures lwps { lwps.new ≡ change_under id (moved_by next) lwps.old }
    ensures made { ForSome (under id lwps.old) (λ l. result ≡ made_of l next) }
{
    let lwp = lwps.get_mut(id);
    let made = made_of(lwp, next);
    move_lwp(lwp, next);
    made
}

/// Runs the instruction at pc of the lwp of an id, and answers what it did. Where memory runs out nothing is changed.
#[tactic(auto, using(pr_num::proofs::ByIdLaws::by_id_laws, std::proofs::lemmas::Option::same_Some))]
fn execute_under(
    lwps: &mut ById<Lwp>,
    id: u32,
    space: &mut Space,
    areas: &Areas,
) -> Result<Made, NoMemory>
    requires { IsSome (under id lwps.old) }
    ensures lwps { OnOk result
        (ForSome (under id lwps.old)
        (λ l. lwps.new ≡ change_under id (executed_by (instruction_effect space.old areas.now l.regs)) lwps.old)) }
    ensures space { OnOk result
        (ForSome (under id lwps.old)
        (λ l. space.new ≡ space_after (instruction_effect space.old areas.now l.regs) space.old)) }
    ensures made { IfOk result
        (λ made.
        ForSome (under id lwps.old)
        (λ l. made ≡ made_by (effect_of l (instruction_effect space.old areas.now l.regs)))) }
    ensures memory { OnErr result
        (ForSome (under id lwps.old) (λ l. stores_bytes (instruction_effect space.old areas.now l.regs) ≡ true)) }
    ensures kept_lwps { OnErr result (lwps.new ≡ lwps.old) }
    ensures kept_space { OnErr result (space.new ≡ space.old) }
{
    let effect = execute_lwp(lwps.get_mut(id), space, areas)?;
    Ok(made_by(effect))
}

/// The lwp of an id takes a signal that pended for its process.
#[tactic(auto, using(pr_num::proofs::ByIdLaws::by_id_laws))]
fn set_current_under(lwps: &mut ById<Lwp>, id: u32, current: Current)
    requires { IsSome (under id lwps.old) }
    ensures { lwps.new ≡ change_under id (moved traced (takes current false)) lwps.old }
{
    set_current(lwps.get_mut(id), current);
}

/// The current signal of the lwp of an id is dropped.
#[tactic(auto, using(pr_num::proofs::ByIdLaws::by_id_laws))]
fn drop_current_under(lwps: &mut ById<Lwp>, id: u32)
    requires { IsSome (under id lwps.old) }
    ensures { lwps.new ≡ change_under id (moved traced drops) lwps.old }
{
    drop_current(lwps.get_mut(id));
}

/// The lwp of an id takes a signal that pends for its process, with its information.
#[tactic(auto, unfolding(crate::specs::Making::process_after, pr_model::specs::Transitions::shared_taken, pr_model::specs::Changes::with_shared_taken, pr_model::specs::State::with_lwp))]
fn take_shared(process: &mut Proc, id: u32, signal: Sig)
    requires { IsSome (lwp_of process.old id) }
    ensures { process.new ≡ process_after id (shared_taken process.old signal) process.old }
{
    let info = process.pending.info(signal).unwrap_or(Info::none());
    process.pending.delete_one(signal);
    set_current_under(&mut process.lwps, id, Current { signal, info });
}

/// The current signal of the lwp of an id stops its process by job control.
#[tactic(auto, unfolding(crate::specs::Making::process_after, pr_model::specs::Transitions::job_stopped, pr_model::specs::Changes::with_job_stop, pr_model::specs::State::with_lwp))]
fn stop_by_job(process: &mut Proc, id: u32, signal: Sig)
    requires { IsSome (lwp_of process.old id) }
    ensures { process.new ≡ process_after id (job_stopped signal) process.old }
{
    process.job_stop = Some(signal);
    drop_current_under(&mut process.lwps, id);
}

/// Runs the instruction at pc of the lwp of an id in a process, and answers what it did. Only one that stores bytes
/// takes memory; where that runs out nothing is changed.
#[tactic(auto, using(crate::proofs::MakeLemmas::making, crate::proofs::TakingLemmas::taking))]
#[inline]
fn execute(process: &mut Proc, id: u32) -> Result<Made, NoMemory>
    requires { IsSome (lwp_of process.old id) }
    ensures process { OnOk result
        (ForSome (lwp_of process.old id)
        (λ l. process.new ≡ process_after id (row_of process.old l Next.Executed).transition process.old)) }
    ensures made { IfOk result
        (λ made. ForSome (lwp_of process.old id) (λ l. made ≡ of_row (row_of process.old l Next.Executed))) }
    ensures memory { OnErr result (ForSome (lwp_of process.old id) (λ l. row_takes (row_of process.old l Next.Executed) ≡ true)) }
    ensures err { OnErr result (process.new ≡ process.old) }
{
    execute_under(
        &mut process.lwps,
        id,
        &mut process.space,
        &process.control.areas,
    )
}

/// What a row makes of a process, and what it did; a row that ends its process makes nothing of it. Only an instruction
/// that stores bytes takes memory; where that runs out nothing is changed.
#[tactic(auto, using(crate::proofs::MakeLemmas::making, crate::proofs::TakingLemmas::taking))]
pub fn make(process: &mut Proc, id: u32, next: Next) -> Result<Made, NoMemory>
    requires found { IsSome (lwp_of process.old id) }
    requires lives { ends next ≡ false }
    requires fits { ForSome (lwp_of process.old id) (λ l. fits l next ≡ true) }
    ensures process { OnOk result
        (ForSome (lwp_of process.old id)
        (λ l. process.new ≡ process_after id (row_of process.old l next).transition process.old)) }
    ensures made { IfOk result (λ made. ForSome (lwp_of process.old id) (λ l. made ≡ of_row (row_of process.old l next))) }
    ensures memory { OnErr result (ForSome (lwp_of process.old id) (λ l. row_takes (row_of process.old l next) ≡ true)) }
    ensures err { OnErr result (process.new ≡ process.old) }
{
    match next {
        Next::Executed => execute(process, id),
        Next::TookShared(signal) => {
            take_shared(process, id, signal);
            Ok(at_point(Did::Took(signal), Point::Signal(signal)))
        }
        Next::JobStopped(signal) => {
            stop_by_job(process, id, signal);
            Ok(quiet(Did::Acted(signal, How::JobStop)))
        }
        _ => Ok(move_under(&mut process.lwps, id, next)),
    }
}

/// The same, and whether the process traces what the row met.
#[tactic(auto, using(crate::proofs::MakeLemmas::controls))]
pub fn make_and_ask(process: &mut Proc, id: u32, next: Next) -> Result<(Made, bool), NoMemory>
    requires found { IsSome (lwp_of process.old id) }
    requires lives { ends next ≡ false }
    requires fits { ForSome (lwp_of process.old id) (λ l. fits l next ≡ true) }
    ensures process { OnOk result
        (ForSome (lwp_of process.old id)
        (λ l. process.new ≡ process_after id (row_of process.old l next).transition process.old)) }
    ensures made { IfOk result (λ made. ForSome (lwp_of process.old id) (λ l. made.0 ≡ of_row (row_of process.old l next))) }
    ensures stop { IfOk result
        (λ made.
        ForSome (lwp_of process.old id) (λ l. made.1 ≡ meets process.old.control (row_of process.old l next).point)) }
    ensures memory { OnErr result (ForSome (lwp_of process.old id) (λ l. row_takes (row_of process.old l next) ≡ true)) }
    ensures err { OnErr result (process.new ≡ process.old) }
{
    let made = make(process, id, next)?;
    let stop = meets(&process.control, made.point);
    Ok((made, stop))
}
