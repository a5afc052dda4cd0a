//! What control messages set on a process: what is traced of it, and its modes (proc(4), "PCSTRACE" to "PCUNSET").
ghost use Rattle.std.specs.Prelude.{◌≡◌, ℕ, List, Option, None};
ghost use Rattle.pr_num.specs.Messages.{bad_operand};
ghost use Rattle.pr_num.specs.declared.messages.Message.TheVariants as message;
ghost use Rattle.pr_model.specs.Messages.{with_control};
ghost use Rattle.pr_model.specs.State.{with_process};
ghost use Rattle.pr_ctl.specs.Answers.{Answers};
ghost use Rattle.pr_ctl.specs.Changes.{set_by};

use pr_model::{Control, Reply};
use pr_num::{FltSet, Modes, Sig, SigSet, SysSet};
use pr_proc::{Proc, Sys};
use pr_watch::Areas;

/// What a message sets on a process.
#[derive(Clone, Copy, Debug, PartialEq, Eq)]
pub enum Setting {
    /// PCSTRACE: these signals are traced, but for SIGKILL.
    Signals(SigSet),
    /// PCSFAULT.
    Faults(FltSet),
    /// PCSENTRY: these system calls are traced at their entry.
    Entries(SysSet),
    /// PCSEXIT: these system calls are traced at their exit.
    Exits(SysSet),
    /// PCSET: these modes are set beside the others.
    Set(Modes),
    /// PCUNSET.
    Unset(Modes),
}

/// Sets what a message asks for. SIGKILL is never traced.
#[tactic(auto, unfolding(crate::specs::Changes::set_by, pr_model::specs::Messages::tracing_signals, pr_model::specs::Messages::tracing_faults, pr_model::specs::Messages::tracing_entries, pr_model::specs::Messages::tracing_exits, pr_model::specs::Messages::with_modes, pr_model::specs::Messages::without_modes))]
fn set_in(control: &mut Control<Areas>, setting: Setting)
    ensures { control.new ≡ set_by setting control.old }
{
    match setting {
        Setting::Signals(signals) => control.traced_signals = signals.without(Sig::Kill),
        Setting::Faults(faults) => control.traced_faults = faults,
        Setting::Entries(calls) => control.traced_entries = calls,
        Setting::Exits(calls) => control.traced_exits = calls,
        Setting::Set(modes) => control.modes = control.modes.union(modes),
        Setting::Unset(modes) => control.modes = control.modes.minus(modes),
    }
}

#[tactic(auto, unfolding(pr_model::specs::Messages::with_control))]
fn set_on(process: &mut Proc, setting: Setting)
    ensures { process.new ≡ with_control (set_by setting) process.old }
{
    set_in(&mut process.control, setting);
}

/// Sets what a message asks for on the process of an id, if there is one.
#[tactic(auto, using(pr_num::proofs::ByIdLaws::by_id_laws), unfolding(pr_model::specs::State::with_process))]
fn set(sys: &mut Sys, pid: u32, setting: Setting)
    ensures { sys.new ≡ with_process pid (with_control (set_by setting)) sys.old }
{
    if let Some(process) = sys.processes.find_mut(pid) {
        set_on(process, setting);
    }
}

/// PCSTRACE: these signals are traced, but for SIGKILL.
#[tactic(auto, unfolding(pr_model::specs::Messages::message_answer, pr_num::specs::Messages::bad_operand, crate::specs::Changes::set_by))]
pub fn strace(sys: &mut Sys, pid: u32, signals: u64, length: u64) -> Reply
    requires { bad_operand (message.Strace signals) ≡ None }
    ensures { (tail : List ℕ) (lwp : Option ℕ)
        → Answers sys.old pid lwp (message.Strace signals) tail length sys.new result }
{
    set(sys, pid, Setting::Signals(SigSet::of_word(signals)));
    Reply::Used(length)
}

/// PCSFAULT: these faults are traced.
#[tactic(auto, unfolding(pr_model::specs::Messages::message_answer, pr_num::specs::Messages::bad_operand, crate::specs::Changes::set_by))]
pub fn sfault(sys: &mut Sys, pid: u32, faults: u64, length: u64) -> Reply
    requires { bad_operand (message.Sfault faults) ≡ None }
    ensures { (tail : List ℕ) (lwp : Option ℕ)
        → Answers sys.old pid lwp (message.Sfault faults) tail length sys.new result }
{
    set(sys, pid, Setting::Faults(FltSet::of_word(faults)));
    Reply::Used(length)
}

/// PCSENTRY: these system calls are traced at their entry.
#[tactic(auto, unfolding(pr_model::specs::Messages::message_answer, pr_num::specs::Messages::bad_operand, crate::specs::Changes::set_by))]
pub fn sentry(sys: &mut Sys, pid: u32, calls: u64, length: u64) -> Reply
    requires { bad_operand (message.Sentry calls) ≡ None }
    ensures { (tail : List ℕ) (lwp : Option ℕ)
        → Answers sys.old pid lwp (message.Sentry calls) tail length sys.new result }
{
    set(sys, pid, Setting::Entries(SysSet::of_word(calls)));
    Reply::Used(length)
}

/// PCSEXIT: these system calls are traced at their exit.
#[tactic(auto, unfolding(pr_model::specs::Messages::message_answer, pr_num::specs::Messages::bad_operand, crate::specs::Changes::set_by))]
pub fn sexit(sys: &mut Sys, pid: u32, calls: u64, length: u64) -> Reply
    requires { bad_operand (message.Sexit calls) ≡ None }
    ensures { (tail : List ℕ) (lwp : Option ℕ)
        → Answers sys.old pid lwp (message.Sexit calls) tail length sys.new result }
{
    set(sys, pid, Setting::Exits(SysSet::of_word(calls)));
    Reply::Used(length)
}

/// PCSET: these modes are set beside the others.
#[tactic(auto, unfolding(pr_model::specs::Messages::message_answer, pr_num::specs::Messages::bad_operand, crate::specs::Changes::set_by))]
pub fn set_mode(sys: &mut Sys, pid: u32, modes: u64, length: u64) -> Reply
    requires { bad_operand (message.Set modes) ≡ None }
    ensures { (tail : List ℕ) (lwp : Option ℕ)
        → Answers sys.old pid lwp (message.Set modes) tail length sys.new result }
{
    set(sys, pid, Setting::Set(Modes::of_word(modes)));
    Reply::Used(length)
}

/// PCUNSET: these modes are cleared.
#[tactic(auto, unfolding(pr_model::specs::Messages::message_answer, pr_num::specs::Messages::bad_operand, crate::specs::Changes::set_by))]
pub fn unset_mode(sys: &mut Sys, pid: u32, modes: u64, length: u64) -> Reply
    requires { bad_operand (message.Unset modes) ≡ None }
    ensures { (tail : List ℕ) (lwp : Option ℕ)
        → Answers sys.old pid lwp (message.Unset modes) tail length sys.new result }
{
    set(sys, pid, Setting::Unset(Modes::of_word(modes)));
    Reply::Used(length)
}
