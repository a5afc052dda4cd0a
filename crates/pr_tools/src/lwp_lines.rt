//! The text of pflags.
ghost use Rattle.std.specs.Prelude.{◌≡◌, ◌++◌, map, option_map, IfOk, OnOk};
ghost use Rattle.std.specs.List.{flat_map};
ghost use Rattle.pr_rec.specs.RecordWords.{lwpstatus_words_of};
ghost use Rattle.pr_tools.specs.Pflags.{flag_text, is_begun, flags_text, matter_name, behind_blank, stop_text, why_text, lwp_line, pflags_text};

use crate::entries::lwps_in;
use crate::texts::{end_line, push_header, push_label};
use pr_num::{Flt, NoMemory, Sig, StopReason, Sysno};
use pr_rec::{LwpFlags, LwpStatus, What};
use pr_text::Text;
use std::alloc::Global;

/// A flag by name, where it is set; a bar stands before each but the first. Answers whether one was written by now.
#[tactic(auto, unfolding(crate::specs::Pflags::flag_text))]
fn push_flag(
    text: &mut Text,
    begun: bool,
    flags: LwpFlags,
    flag: LwpFlags,
    name: &[u8],
) -> Result<bool, NoMemory>
    ensures text { OnOk result (text.new ≡ text.old ++ flag_text begun flags flag name.now) }
    ensures begun { IfOk result (λ r. r ≡ is_begun begun flags flag) }
{
    if !flags.has(flag) {
        return Ok(begun);
    }
    if begun {
        text.text(b"|")?;
    }
    text.text(name)?;
    Ok(true)
}

/// The flags of an lwp by name, joined by bars; a dash where none is set.
#[tactic(auto, unfolding(crate::specs::Pflags::flags_text))]
fn push_flags(text: &mut Text, flags: LwpFlags) -> Result<(), NoMemory>
    ensures { OnOk result (text.new ≡ text.old ++ flags_text flags) }
{
    if flags.word() == 0 {
        return text.text(b"-");
    }
    let begun = push_flag(text, false, flags, LwpFlags::STOPPED, b"STOPPED")?;
    let begun = push_flag(text, begun, flags, LwpFlags::ISTOP, b"ISTOP")?;
    let begun = push_flag(text, begun, flags, LwpFlags::DSTOP, b"DSTOP")?;
    let begun = push_flag(text, begun, flags, LwpFlags::STEP, b"STEP")?;
    let begun = push_flag(text, begun, flags, LwpFlags::ASLEEP, b"ASLEEP")?;
    push_flag(text, begun, flags, LwpFlags::AGENT, b"AGENT")?;
    Ok(())
}

#[tactic(auto, unfolding(crate::specs::Pflags::matter_name))]
fn signal_name(what: What) -> Option<&'static [u8]>
    ensures { option_map (λ name. name.now) result ≡ matter_name StopReason.Signalled what }
{
    match Sig::from_number(what.number()) {
        None => None,
        Some(signal) => Some(signal.name().as_bytes()),
    }
}

#[tactic(auto, unfolding(crate::specs::Pflags::matter_name))]
fn call_name(what: What) -> Option<&'static [u8]>
    ensures { option_map (λ name. name.now) result ≡ matter_name StopReason.SysEntry what }
{
    match Sysno::from_number(what.number()) {
        None => None,
        Some(call) => Some(call.name().as_bytes()),
    }
}

#[tactic(auto, unfolding(crate::specs::Pflags::matter_name))]
fn fault_name(what: What) -> Option<&'static [u8]>
    ensures { option_map (λ name. name.now) result ≡ matter_name StopReason.Faulted what }
{
    match Flt::from_number(what.number()) {
        None => None,
        Some(fault) => Some(fault.name().as_bytes()),
    }
}

/// The name of what an lwp is stopped for, where it has one.
#[tactic(auto, unfolding(crate::specs::Pflags::matter_name))]
fn matter_name(reason: StopReason, what: What) -> Option<&'static [u8]>
    ensures { option_map (λ name. name.now) result ≡ matter_name reason what }
{
    match reason {
        StopReason::Signalled | StopReason::JobControl => signal_name(what),
        StopReason::SysEntry | StopReason::SysExit => call_name(what),
        StopReason::Faulted => fault_name(what),
        StopReason::Requested | StopReason::Suspended => None,
    }
}

/// A word with a blank before it, where there is one.
fn push_behind_blank(text: &mut Text, word: Option<&[u8]>) -> Result<(), NoMemory>
    ensures { OnOk result (text.new ≡ text.old ++ behind_blank (option_map (λ name. name.now) word.entry)) }
{
    match word {
        None => Ok(()),
        Some(word) => {
            text.text(b" ")?;
            text.text(word)
        }
    }
}

/// Why an lwp is stopped and what for, where it is stopped.
#[tactic(auto, unfolding(crate::specs::Pflags::stop_text))]
fn push_stop(text: &mut Text, why: Option<StopReason>, what: What) -> Result<(), NoMemory>
    ensures { OnOk result (text.new ≡ text.old ++ stop_text why what) }
{
    match why {
        None => Ok(()),
        Some(reason) => {
            text.text(b" ")?;
            text.text(reason.name().as_bytes())?;
            push_behind_blank(text, matter_name(reason, what))
        }
    }
}

/// Why an lwp is stopped and what for, of its status.
fn push_why(text: &mut Text, lwp: &LwpStatus) -> Result<(), NoMemory>
    ensures { OnOk result (text.new ≡ text.old ++ why_text (lwpstatus_words_of lwp.now)) }
{
    push_stop(text, lwp.why, lwp.what)
}

/// The line of an lwp.
#[tactic(auto, unfolding(crate::specs::Pflags::lwp_line))]
fn push_lwp(text: &mut Text, lwp: &LwpStatus) -> Result<(), NoMemory>
    ensures { OnOk result (text.new ≡ text.old ++ lwp_line (lwpstatus_words_of lwp.now)) }
{
    push_label(text, u64::from(lwp.id))?;
    text.text(b" ")?;
    push_flags(text, lwp.flags)?;
    push_why(text, lwp)?;
    end_line(text)
}

/// The lines of the lwps.
fn push_lwps(text: &mut Text, lwps: &[LwpStatus]) -> Result<(), NoMemory>
    ensures { OnOk result (text.new ≡ text.old ++ flat_map lwp_line (map lwpstatus_words_of lwps.now)) }
{
    for lwp in lwps {
        push_lwp(text, lwp)?;
    }
    Ok(())
}

/// The text of a process, of the status of all its lwps.
#[tactic(auto, unfolding(crate::specs::Pflags::pflags_text))]
pub fn push_pflags(alloc: Global, text: &mut Text, pid: u32, bytes: &[u8]) -> Result<(), NoMemory>
    ensures { OnOk result (text.new ≡ text.old ++ pflags_text pid bytes.now) }
{
    push_header(text, pid)?;
    match lwps_in(alloc, bytes)? {
        None => Ok(()),
        Some(lwps) => push_lwps(text, &lwps),
    }
}
