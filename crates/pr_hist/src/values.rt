//! What a word of a record says.
ghost use Rattle.std.specs.Prelude.{◌≡◌, ◌++◌, OnOk};
ghost use Rattle.std.specs.Option.{option_copied};
ghost use Rattle.pr_hist.specs.Values.{access_text, call_text, count_text, descriptor_text, disposition_text, errno_text, fault_text, handler_text, is_shown, mapping_text, name_text, origin_text, plain_text, says_something, value_text, what_for, what_text, why_text};

use crate::fields::Kind;
use crate::flags::{lwp_flags, process_flags, protection, watch_flags};
use crate::listings::Listing;
use crate::messages::{
    write_address, write_calls, write_code, write_faults, write_signal, write_signals,
};
use crate::texts::{name_in, write_number};
use pr_num::{Errno, Flt, NoMemory, StopReason, Sysno};
use pr_text::Text;

#[tactic(auto, unfolding(crate::specs::Values::count_text))]
fn write_count(text: &mut Text, w: u64) -> Result<(), NoMemory>
    ensures { OnOk result (text.new ≡ text.old ++ count_text w) }
{
    text.text(b" ")?;
    text.decimal(w)
}

#[tactic(auto, unfolding(crate::specs::Values::plain_text))]
fn write_plain(text: &mut Text, w: u64) -> Result<(), NoMemory>
    ensures { OnOk result (text.new ≡ text.old ++ plain_text w) }
{
    text.text(b" ")?;
    write_number(text, w)
}

#[tactic(auto, unfolding(crate::specs::Values::why_text))]
fn write_why(text: &mut Text, w: u64) -> Result<(), NoMemory>
    ensures { OnOk result (text.new ≡ text.old ++ why_text w) }
{
    match StopReason::from_number(w) {
        None => write_plain(text, w),
        Some(reason) => {
            text.text(b" ")?;
            text.text(reason.name().as_bytes())
        }
    }
}

#[tactic(auto, unfolding(crate::specs::Values::fault_text))]
fn write_fault(text: &mut Text, w: u64) -> Result<(), NoMemory>
    ensures { OnOk result (text.new ≡ text.old ++ fault_text w) }
{
    match Flt::from_number(w) {
        None => write_plain(text, w),
        Some(fault) => {
            text.text(b" ")?;
            text.text(fault.name().as_bytes())
        }
    }
}

#[tactic(auto, unfolding(crate::specs::Values::call_text))]
fn write_call(text: &mut Text, w: u64) -> Result<(), NoMemory>
    ensures { OnOk result (text.new ≡ text.old ++ call_text w) }
{
    match Sysno::from_number(w) {
        None => write_plain(text, w),
        Some(call) => {
            text.text(b" ")?;
            text.text(call.name().as_bytes())
        }
    }
}

#[tactic(auto, unfolding(crate::specs::Values::errno_text))]
fn write_errno(text: &mut Text, w: u64) -> Result<(), NoMemory>
    ensures { OnOk result (text.new ≡ text.old ++ errno_text w) }
{
    match Errno::from_number(w) {
        None => write_plain(text, w),
        Some(errno) => {
            text.text(b" ")?;
            text.text(errno.name().as_bytes())
        }
    }
}

/// What an lwp is stopped on, for a reason.
#[tactic(auto, unfolding(crate::specs::Values::what_for))]
fn write_what_for(text: &mut Text, reason: StopReason, w: u64) -> Result<(), NoMemory>
    ensures { OnOk result (text.new ≡ text.old ++ what_for reason w) }
{
    match reason {
        StopReason::Signalled | StopReason::JobControl => write_signal(text, w),
        StopReason::SysEntry | StopReason::SysExit => write_call(text, w),
        StopReason::Faulted => write_fault(text, w),
        StopReason::Requested | StopReason::Suspended => write_plain(text, w),
    }
}

#[tactic(auto, unfolding(crate::specs::Values::what_text))]
fn write_what(text: &mut Text, why: u64, w: u64) -> Result<(), NoMemory>
    ensures { OnOk result (text.new ≡ text.old ++ what_text why w) }
{
    match StopReason::from_number(why) {
        None => write_plain(text, w),
        Some(reason) => write_what_for(text, reason, w),
    }
}

#[tactic(auto, unfolding(crate::specs::Values::disposition_text))]
fn write_disposition(text: &mut Text, w: u64) -> Result<(), NoMemory>
    ensures { OnOk result (text.new ≡ text.old ++ disposition_text w) }
{
    match w {
        1 => text.text(b" ignored"),
        2 => text.text(b" caught"),
        _ => write_plain(text, w),
    }
}

#[tactic(auto, unfolding(crate::specs::Values::handler_text))]
fn write_handler(text: &mut Text, source: Option<&Listing>, w: u64) -> Result<(), NoMemory>
    ensures { OnOk result (text.new ≡ text.old ++ handler_text (option_copied source.entry) w) }
{
    match w {
        1 => text.text(b" ignored"),
        _ => write_code(text, source, w),
    }
}

#[tactic(auto, unfolding(crate::specs::Values::origin_text))]
fn write_origin(text: &mut Text, w: u64) -> Result<(), NoMemory>
    ensures { OnOk result (text.new ≡ text.old ++ origin_text w) }
{
    match w {
        1 => text.text(b" kill"),
        2 => text.text(b" sigqueue"),
        3 => text.text(b" kernel"),
        4 => text.text(b" fault"),
        5 => text.text(b" control"),
        _ => write_plain(text, w),
    }
}

#[tactic(auto, unfolding(crate::specs::Values::mapping_text))]
fn write_mapping(text: &mut Text, w: u64) -> Result<(), NoMemory>
    ensures { OnOk result (text.new ≡ text.old ++ mapping_text w) }
{
    match w {
        1 => text.text(b" text"),
        2 => text.text(b" data"),
        3 => text.text(b" heap"),
        4 => text.text(b" stack"),
        5 => text.text(b" mapped"),
        _ => write_plain(text, w),
    }
}

#[tactic(auto, unfolding(crate::specs::Values::descriptor_text))]
fn write_descriptor(text: &mut Text, w: u64) -> Result<(), NoMemory>
    ensures { OnOk result (text.new ≡ text.old ++ descriptor_text w) }
{
    match w {
        1 => text.text(b" file"),
        2 => text.text(b" pipe, read"),
        3 => text.text(b" pipe, write"),
        _ => write_plain(text, w),
    }
}

#[tactic(auto, unfolding(crate::specs::Values::access_text))]
fn write_access(text: &mut Text, w: u64) -> Result<(), NoMemory>
    ensures { OnOk result (text.new ≡ text.old ++ access_text w) }
{
    match w {
        0 => text.text(b" read"),
        1 => text.text(b" write"),
        2 => text.text(b" both"),
        _ => write_plain(text, w),
    }
}

#[tactic(auto, unfolding(crate::specs::Values::name_text))]
fn write_name(text: &mut Text, bytes: &[u8]) -> Result<(), NoMemory>
    ensures { OnOk result (text.new ≡ text.old ++ name_text bytes.now) }
{
    text.text(b" ")?;
    text.quoted(name_in(bytes))
}

/// A word of a record of a process that runs this program, by its kind. Before it stands the word `before`; `bytes` are
/// its own and those behind it.
#[tactic(auto, unfolding(crate::specs::Values::value_text))]
pub fn write_value(
    text: &mut Text,
    source: Option<&Listing>,
    kind: Kind,
    before: u64,
    w: u64,
    bytes: &[u8],
) -> Result<(), NoMemory>
    ensures { OnOk result (text.new ≡ text.old ++ value_text (option_copied source.entry) kind before w bytes.now) }
{
    match kind {
        Kind::Count | Kind::Place => write_count(text, w),
        Kind::Number => write_plain(text, w),
        Kind::Address => write_address(text, w),
        Kind::Code => write_code(text, source, w),
        Kind::LwpFlags => lwp_flags(text, w),
        Kind::ProcessFlags => process_flags(text, w),
        Kind::WatchFlags => watch_flags(text, w),
        Kind::Protection => protection(text, w),
        Kind::Why => write_why(text, w),
        Kind::What => write_what(text, before, w),
        Kind::Signal => write_signal(text, w),
        Kind::Fault => write_fault(text, w),
        Kind::Call => write_call(text, w),
        Kind::Errno => write_errno(text, w),
        Kind::Signals => write_signals(text, w),
        Kind::Faults => write_faults(text, w),
        Kind::Calls => write_calls(text, w),
        Kind::Disposition => write_disposition(text, w),
        Kind::Handler => write_handler(text, source, w),
        Kind::Origin => write_origin(text, w),
        Kind::MappingKind => write_mapping(text, w),
        Kind::DescriptorKind => write_descriptor(text, w),
        Kind::Access => write_access(text, w),
        Kind::Name => write_name(text, bytes),
        Kind::Rest => Ok(()),
    }
}

/// Whether a word says something.
#[tactic(auto, unfolding(crate::specs::Values::says_something))]
fn says_something(kind: Kind, w: u64) -> bool
    ensures { result ≡ says_something kind w }
{
    match kind {
        Kind::Place | Kind::Access => true,
        Kind::Rest => false,
        _ => w != 0,
    }
}

/// Whether a word is told: where it says something, or where all fields are.
#[tactic(auto, unfolding(crate::specs::Values::is_shown))]
pub fn is_shown(full: bool, kind: Kind, w: u64) -> bool
    ensures { result ≡ is_shown full kind w }
{
    match kind {
        Kind::Rest => false,
        _ => full || says_something(kind, w),
    }
}
