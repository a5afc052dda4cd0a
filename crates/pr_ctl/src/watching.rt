//! Watched areas (proc(4), "PCWATCH").
ghost use Rattle.std.specs.Prelude.{◌≡◌, ◌<◌, ℕ, List, Option, None, IsSome, OnOk, OnErr};
ghost use Rattle.std.specs.Option.{ForSome};
ghost use Rattle.pr_num.specs.Messages.{bad_operand};
ghost use Rattle.pr_num.specs.declared.messages.Message.TheVariants as message;
ghost use Rattle.pr_parts.specs.WatchedAreas.{with_area, without_area};
ghost use Rattle.pr_model.specs.Messages.{watch_answer, with_areas, with_control};
ghost use Rattle.pr_model.specs.State.{live_process};
ghost use Rattle.pr_watch.specs.Setting.{done_unless, set_refusal};
ghost use Rattle.pr_ctl.specs.Answers.{Answers};
ghost use Rattle.pr_ctl.specs.Watching.{errno_of};

use crate::lending::has_lent;
use pr_model::{Control, Reply};
use pr_num::Errno;
use pr_proc::{Proc, Sys};
use pr_watch::{Areas, WatchFault};

/// The errno of an area that is refused.
fn errno_of(fault: WatchFault) -> Errno
    ensures { result ≡ errno_of fault }
{
    match fault {
        WatchFault::TooMany => Errno::Nomem,
        WatchFault::Overlap | WatchFault::BadFlags => Errno::Inval,
    }
}

#[tactic(auto, unfolding(pr_model::specs::Messages::with_areas))]
fn clear(control: &mut Control<Areas>, at: u64)
    ensures { control.new ≡ with_areas (without_area at control.old.areas) control.old }
{
    control.areas.clear(at);
}

#[tactic(auto, unfolding(pr_model::specs::Messages::with_areas))]
fn set(control: &mut Control<Areas>, at: u64, size: u64, flags: u8) -> Result<(), WatchFault>
    requires { 0 < flags }
    ensures answer { result ≡ done_unless (set_refusal at size flags control.old.areas) }
    ensures ok { OnOk result
        (control.new
        ≡ with_areas (with_area (record { at = at; size = size; flags = flags }) control.old.areas) control.old) }
    ensures err { OnErr result (control.new ≡ control.old) }
{
    control.areas.set(at, size, flags)
}

#[tactic(auto, unfolding(pr_model::specs::Messages::with_control))]
fn clear_in(process: &mut Proc, at: u64)
    ensures { process.new ≡ with_control (with_areas (without_area at process.old.control.areas)) process.old }
{
    clear(&mut process.control, at);
}

#[tactic(auto, unfolding(pr_model::specs::Messages::with_control))]
fn set_in(process: &mut Proc, at: u64, size: u64, flags: u8) -> Result<(), WatchFault>
    requires { 0 < flags }
    ensures answer { result ≡ done_unless (set_refusal at size flags process.old.control.areas) }
    ensures ok { OnOk result
        (process.new
        ≡ with_control
        (with_areas (with_area (record { at = at; size = size; flags = flags }) process.old.control.areas))
        process.old) }
    ensures err { OnErr result (process.new ≡ process.old) }
{
    set(&mut process.control, at, size, flags)
}

/// Watches no more the area that begins at an address.
#[tactic(auto, using(pr_num::proofs::ByIdLaws::by_id_laws, pr_proc::proofs::LifeLemmas::life_laws), unfolding(pr_model::specs::Messages::watch_answer, pr_model::specs::State::with_process))]
fn unwatch(sys: &mut Sys, pid: u32, at: u64, length: u64) -> Reply
    requires { IsSome (live_process sys.old pid) }
    ensures { (size : ℕ)
        → ForSome (live_process sys.old pid)
        (λ p. (record { system = sys.new; reply = result }) ≡ watch_answer sys.old pid p at size 0 length) }
{
    clear_in(sys.processes.get_mut(pid), at);
    Reply::Used(length)
}

/// Watches an area (EINVAL where it overlaps one that is watched, ENOMEM where 64 are).
#[tactic(auto, using(pr_num::proofs::ByIdLaws::by_id_laws, pr_proc::proofs::LifeLemmas::life_laws, crate::proofs::WatchLemmas::watch_laws), unfolding(pr_model::specs::State::with_process))]
fn watch_area(sys: &mut Sys, pid: u32, at: u64, size: u64, flags: u8, length: u64) -> Reply
    requires live { IsSome (live_process sys.old pid) }
    requires some { 0 < flags }
    requires columns { bad_operand (message.Watch at size flags) ≡ None }
    ensures { ForSome (live_process sys.old pid)
        (λ p. (record { system = sys.new; reply = result }) ≡ watch_answer sys.old pid p at size flags length) }
{
    match set_in(sys.processes.get_mut(pid), at, size, flags) {
        Ok(()) => Reply::Used(length),
        Err(fault) => Reply::Fail(errno_of(fault)),
    }
}

/// PCWATCH: watches an area, or with no flags watches no more the one that begins there (EBUSY where the process has
/// lent its memory, EINVAL, ENOMEM).
#[tactic(auto, unfolding(pr_model::specs::Messages::message_answer, pr_num::specs::Messages::bad_operand))]
pub fn watch(sys: &mut Sys, pid: u32, at: u64, size: u64, flags: u64, length: u64) -> Reply
    requires live { IsSome (live_process sys.old pid) }
    requires columns { bad_operand (message.Watch at size flags) ≡ None }
    ensures { (lwp : Option ℕ) (tail : List ℕ)
        → Answers sys.old pid lwp (message.Watch at size flags) tail length sys.new result }
{
    if has_lent(sys, pid) {
        return Reply::Fail(Errno::Busy);
    }
    if flags == 0 {
        return unwatch(sys, pid, at, length);
    }
    watch_area(sys, pid, at, size, flags as u8, length)
}
