//! Why a call of a controller is refused (proc(4)).
ghost use Rattle.std.specs.Prelude.{◌≡◌, ◌++◌, OnOk};
ghost use Rattle.pr_hist.specs.Refusals.{busy_by, busy_reason, close_reason, control_reason, full_reason, interrupt_reason, invalid_reason, kill_reason, message_reason, no_message_reason, open_reason, poll_reason, read_reason, reason, refusal_text, sentence_text, spawn_reason, until_reason, wait_reason, write_reason};

use crate::names::Names;
use pr_model::Call;
use pr_msg::{Message, decode_one};
use pr_num::{Errno, NoMemory};
use pr_text::Text;

/// Why an open is refused.
#[tactic(auto, unfolding(crate::specs::Refusals::open_reason))]
fn open_reason(errno: Errno) -> &'static [u8]
    ensures { result.now ≡ open_reason errno }
{
    match errno {
        Errno::Inval => b"the mode or the lwp does not fit the file",
        Errno::Noent => b"there is no such process or lwp, or it has ended",
        Errno::Busy => b"the process is open for writing, or exclusively",
        Errno::Mfile => b"1,024 handles are open",
        _ => b"",
    }
}

/// Why a close is refused.
#[tactic(auto, unfolding(crate::specs::Refusals::close_reason))]
fn close_reason(errno: Errno) -> &'static [u8]
    ensures { result.now ≡ close_reason errno }
{
    match errno {
        Errno::Badf => b"the handle is not open, or not this controller's",
        _ => b"",
    }
}

/// Why a read is refused.
#[tactic(auto, unfolding(crate::specs::Refusals::read_reason))]
fn read_reason(errno: Errno) -> &'static [u8]
    ensures { result.now ≡ read_reason errno }
{
    match errno {
        Errno::Badf => b"the handle is not open, not this controller's, or of a control file",
        Errno::Inval => b"the length is 0, or above 20,480",
        Errno::Noent => b"the process or the lwp has ended",
        Errno::Io => b"the first byte is not mapped",
        _ => b"",
    }
}

/// Why a poll is refused.
#[tactic(auto, unfolding(crate::specs::Refusals::poll_reason))]
fn poll_reason(errno: Errno) -> &'static [u8]
    ensures { result.now ≡ poll_reason errno }
{
    match errno {
        Errno::Badf => b"a handle is not open, or not this controller's",
        Errno::Inval => b"there is no handle, or there are more than 1,024",
        Errno::Intr => b"this controller was interrupted",
        _ => b"",
    }
}

/// Why an interrupt is refused.
#[tactic(auto, unfolding(crate::specs::Refusals::interrupt_reason))]
fn interrupt_reason(errno: Errno) -> &'static [u8]
    ensures { result.now ≡ interrupt_reason errno }
{
    match errno {
        Errno::Inval => b"no controller has this number",
        _ => b"",
    }
}

/// Why the making of a process is refused.
#[tactic(auto, unfolding(crate::specs::Refusals::spawn_reason))]
fn spawn_reason(errno: Errno) -> &'static [u8]
    ensures { result.now ≡ spawn_reason errno }
{
    match errno {
        Errno::Noent => b"there is no such program",
        Errno::Again => b"4,096 processes were made",
        Errno::Nomem => b"too much memory would be mapped",
        _ => b"",
    }
}

/// Why a kill is refused.
#[tactic(auto, unfolding(crate::specs::Refusals::kill_reason))]
fn kill_reason(errno: Errno) -> &'static [u8]
    ensures { result.now ≡ kill_reason errno }
{
    match errno {
        Errno::Inval => b"there is no such signal",
        Errno::Perm => b"process 0 takes no signal",
        Errno::Srch => b"there is no such process",
        Errno::Again => b"the queue of signals is full",
        _ => b"",
    }
}

/// Why a wait for the clock is refused.
#[tactic(auto, unfolding(crate::specs::Refusals::until_reason))]
fn until_reason(errno: Errno) -> &'static [u8]
    ensures { result.now ≡ until_reason errno }
{
    match errno {
        Errno::Intr => b"this controller was interrupted",
        _ => b"",
    }
}

/// Why a control message is refused, where the message does not tell why.
#[tactic(auto, unfolding(crate::specs::Refusals::control_reason))]
fn control_reason(errno: Errno) -> &'static [u8]
    ensures { result.now ≡ control_reason errno }
{
    match errno {
        Errno::Badf => b"the handle is not open, not this controller's, or not of a control file",
        Errno::Noent => b"the process or the lwp has ended",
        Errno::Io => b"not all of the bytes are mapped",
        Errno::Again => b"the queue of signals is full",
        _ => b"",
    }
}

/// Why a process but 0 refuses a message with EBUSY.
#[tactic(auto, unfolding(crate::specs::Refusals::busy_reason))]
fn busy_reason(message: &Message) -> &'static [u8]
    ensures { result.now ≡ busy_reason message.now }
{
    match message {
        Message::Run { .. } => {
            b"an agent exists, or the lwp is neither stopped nor directed to stop"
        }
        Message::Sreg { .. } => b"the lwp is not stopped",
        Message::Svaddr { .. } => b"the lwp is not stopped",
        Message::Watch { .. } => b"the process has lent its memory",
        Message::Agent { .. } => {
            b"an agent exists, an lwp is neither stopped nor suspended, or the memory is lent"
        }
        Message::Write { .. } => b"the process has lent its memory",
        _ => b"",
    }
}

/// The same by the process, where it is known: process 0 takes no message.
#[tactic(auto, unfolding(crate::specs::Refusals::busy_by))]
fn busy_by(process: Option<u32>, message: &Message) -> &'static [u8]
    ensures { result.now ≡ busy_by process message.now }
{
    match process {
        None => b"the process takes no such message as it stands",
        Some(pid) if pid == 0 => b"process 0 takes no message",
        Some(_) => busy_reason(message),
    }
}

/// Why a message is refused with EINVAL.
#[tactic(auto, unfolding(crate::specs::Refusals::invalid_reason))]
fn invalid_reason(message: &Message) -> &'static [u8]
    ensures { result.now ≡ invalid_reason message.now }
{
    match message {
        Message::Set { .. } => b"process 0 takes no message",
        Message::Unset { .. } => b"process 0 takes no message",
        Message::Watch { .. } => b"the area overlaps another one",
        _ => b"",
    }
}

/// Why a message is refused with ENOMEM.
#[tactic(auto, unfolding(crate::specs::Refusals::full_reason))]
fn full_reason(message: &Message) -> &'static [u8]
    ensures { result.now ≡ full_reason message.now }
{
    match message {
        Message::Watch { .. } => b"64 areas are watched already",
        Message::Agent { .. } => b"the process has 64 lwps already",
        _ => b"",
    }
}

/// Why a message to this process, where it is known, is refused.
#[tactic(auto, unfolding(crate::specs::Refusals::message_reason))]
fn message_reason(process: Option<u32>, message: &Message, errno: Errno) -> &'static [u8]
    ensures { result.now ≡ message_reason process message.now errno }
{
    match errno {
        Errno::Busy => busy_by(process, message),
        Errno::Inval => invalid_reason(message),
        Errno::Nomem => full_reason(message),
        _ => control_reason(errno),
    }
}

/// Why bytes are refused that begin with no message.
#[tactic(auto, unfolding(crate::specs::Refusals::no_message_reason))]
fn no_message_reason(errno: Errno) -> &'static [u8]
    ensures { result.now ≡ no_message_reason errno }
{
    match errno {
        Errno::Inval => b"the bytes begin with no message",
        _ => control_reason(errno),
    }
}

/// Why a write of control messages to this process, where it is known, is refused.
#[tactic(auto, unfolding(crate::specs::Refusals::write_reason))]
fn write_reason(process: Option<u32>, bytes: &[u8], errno: Errno) -> &'static [u8]
    ensures { result.now ≡ write_reason process bytes.now errno }
{
    match decode_one(bytes) {
        Err(_) => no_message_reason(errno),
        Ok((message, _)) => message_reason(process, &message, errno),
    }
}

/// Why a wait for a stop is refused.
#[tactic(auto, unfolding(crate::specs::Refusals::wait_reason))]
fn wait_reason(errno: Errno) -> &'static [u8]
    ensures { result.now ≡ wait_reason errno }
{
    match errno {
        Errno::Inval => b"the bytes begin with no message that can be waited for",
        Errno::Busy => b"process 0 takes no message",
        Errno::Intr => b"this controller was interrupted",
        _ => control_reason(errno),
    }
}

/// Why a call is refused.
#[tactic(auto, unfolding(crate::specs::Refusals::reason))]
fn reason(names: &Names, call: &Call, errno: Errno) -> &'static [u8]
    ensures { result.now ≡ reason names.now call.now errno }
{
    match call {
        Call::Open { .. } => open_reason(errno),
        Call::Close { .. } => close_reason(errno),
        Call::Ctl { handle, bytes } => {
            write_reason(names.process_by(*handle), bytes.as_slice(), errno)
        }
        Call::CtlWait { .. } => wait_reason(errno),
        Call::Read { .. } => read_reason(errno),
        Call::Poll { .. } => poll_reason(errno),
        Call::Interrupt { .. } => interrupt_reason(errno),
        Call::Spawn { .. } => spawn_reason(errno),
        Call::Kill { .. } => kill_reason(errno),
        Call::Until { .. } => until_reason(errno),
        Call::List => b"",
    }
}

/// A sentence behind a colon, where there is one.
#[tactic(auto, unfolding(crate::specs::Refusals::sentence_text))]
fn write_sentence(text: &mut Text, sentence: &[u8]) -> Result<(), NoMemory>
    ensures { OnOk result (text.new ≡ text.old ++ sentence_text sentence.now) }
{
    if sentence.len() == 0 {
        return Ok(());
    }
    text.text(b": ")?;
    text.text(sentence)
}

/// A refusal.
#[tactic(auto, unfolding(crate::specs::Refusals::refusal_text))]
pub fn write_refusal(
    text: &mut Text,
    names: &Names,
    call: &Call,
    errno: Errno,
) -> Result<(), NoMemory>
    ensures { OnOk result (text.new ≡ text.old ++ refusal_text names.now call.now errno) }
{
    text.text(errno.name().as_bytes())?;
    write_sentence(text, reason(names, call, errno))
}
