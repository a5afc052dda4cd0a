//! What the kernel answered.
ghost use Rattle.std.specs.Prelude.{◌≡◌, ◌++◌, OnOk};
ghost use Rattle.pr_hist.specs.Calls.{answer_text, answering, bytes_answer, call_text, read_text, waited_text};
ghost use Rattle.pr_hist.specs.Names.{handle_text, moved_text};
ghost use Rattle.pr_hist.specs.Texts.{size_text};

use crate::calls::{calling, write_operands, write_until};
use crate::fields::Layout;
use crate::moves::write_moved;
use crate::names::{Names, layout_in, write_handle};
use crate::records::{write_raw, write_record};
use crate::refusals::write_refusal;
use crate::texts::write_size;
use pr_model::{Call, Reply};
use pr_num::NoMemory;
use pr_text::Text;

/// What the kernel answered.
#[tactic(auto, unfolding(crate::specs::Calls::answering))]
fn answering(reply: &Reply) -> &'static [u8]
    ensures { result.now ≡ answering reply.now }
{
    match reply {
        Reply::Handle(_) => b"handle ",
        Reply::Done => b"done",
        Reply::Used(_) => b"took ",
        Reply::Half(_) => b"it waits",
        Reply::Bytes(_) => b"",
        Reply::Pid(_) => b"process ",
        Reply::Ready(_) => b"ready: ",
        Reply::Fail(_) => b"",
    }
}

/// What was read.
#[tactic(auto, unfolding(crate::specs::Calls::read_text))]
fn write_read(
    text: &mut Text,
    full: bool,
    names: &Names,
    call: &Call,
    bytes: &[u8],
) -> Result<(), NoMemory>
    ensures { OnOk result (text.new ≡ text.old ++ read_text full names.now call.now bytes.now) }
{
    match call {
        Call::Read { handle, at, .. } => write_record(
            text,
            full,
            names.listing_by(*handle),
            layout_in(names, *handle),
            *at,
            bytes,
        ),
        Call::List => write_record(text, full, None, Layout::List, 0, bytes),
        _ => write_raw(text, bytes),
    }
}

#[tactic(auto, unfolding(crate::specs::Calls::bytes_answer))]
fn write_bytes(
    text: &mut Text,
    full: bool,
    names: &Names,
    call: &Call,
    bytes: &[u8],
) -> Result<(), NoMemory>
    ensures { OnOk result (text.new ≡ text.old ++ bytes_answer full names.now call.now bytes.now) }
{
    write_size(text, bytes.len() as u64)?;
    write_read(text, full, names, call, bytes)
}

/// That a wait is over: the entry in which the process last moved for which it was.
#[tactic(auto, unfolding(crate::specs::Calls::waited_text))]
fn write_waited(text: &mut Text, names: &Names, call: &Call) -> Result<(), NoMemory>
    ensures { OnOk result (text.new ≡ text.old ++ waited_text names.now call.now) }
{
    match call {
        Call::CtlWait { handle, .. } => write_moved(text, names, *handle),
        _ => Ok(()),
    }
}

fn write_used(text: &mut Text, names: &Names, call: &Call, n: u64) -> Result<(), NoMemory>
    ensures { OnOk result (text.new ≡ text.old ++ (size_text n ++ waited_text names.now call.now)) }
{
    write_size(text, n)?;
    write_waited(text, names, call)
}

fn write_ready(text: &mut Text, names: &Names, handle: u32) -> Result<(), NoMemory>
    ensures { OnOk result (text.new ≡ text.old ++ (handle_text names.now handle ++ moved_text names.now handle)) }
{
    write_handle(text, names, handle)?;
    write_moved(text, names, handle)
}

/// What comes with the answer.
#[tactic(auto, unfolding(crate::specs::Calls::answer_text))]
fn write_answer(
    text: &mut Text,
    full: bool,
    names: &Names,
    call: &Call,
    reply: &Reply,
) -> Result<(), NoMemory>
    ensures { OnOk result (text.new ≡ text.old ++ answer_text full names.now call.now reply.now) }
{
    match reply {
        Reply::Handle(handle) => text.decimal(u64::from(*handle)),
        Reply::Done => Ok(()),
        Reply::Used(n) => write_used(text, names, call, *n),
        Reply::Half(until) => write_until(text, *until),
        Reply::Bytes(bytes) => write_bytes(text, full, names, call, bytes.as_slice()),
        Reply::Pid(pid) => text.decimal(u64::from(*pid)),
        Reply::Ready(handle) => write_ready(text, names, *handle),
        Reply::Fail(errno) => write_refusal(text, names, call, *errno),
    }
}

/// A call and its answer.
#[tactic(auto, unfolding(crate::specs::Calls::call_text))]
pub fn write_call(
    text: &mut Text,
    full: bool,
    names: &Names,
    call: &Call,
    reply: &Reply,
) -> Result<(), NoMemory>
    ensures { OnOk result (text.new ≡ text.old ++ call_text full names.now call.now reply.now) }
{
    text.text(calling(call))?;
    write_operands(text, names, call)?;
    text.text(b" -> ")?;
    text.text(answering(reply))?;
    write_answer(text, full, names, call, reply)
}
