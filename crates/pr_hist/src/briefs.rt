//! Entries in a few words, for the cell of a chart.
ghost use Rattle.std.specs.Prelude.{◌≡◌, ◌++◌, codes, None, OnOk};
ghost use Rattle.pr_hist.specs.Briefs.{asking, brief_call, brief_text, brief_turn, refused};
ghost use Rattle.pr_hist.specs.Calls.{calling, operands_text};
ghost use Rattle.pr_hist.specs.Messages.{messages_text};
ghost use Rattle.pr_hist.specs.Names.{handle_text};

use crate::calls::{calling, write_operands};
use crate::entries::write_tick;
use crate::messages::write_messages;
use crate::names::{Names, write_handle};
use crate::turns::{doing, object, write_outcome};
use pr_model::{Act, Call, Reply, Turned};
use pr_num::NoMemory;
use pr_text::Text;

/// That a call was refused, and how.
#[tactic(auto, unfolding(crate::specs::Briefs::refused))]
fn write_refused(text: &mut Text, reply: &Reply) -> Result<(), NoMemory>
    ensures { OnOk result (text.new ≡ text.old ++ refused reply.now) }
{
    match reply {
        Reply::Fail(errno) => {
            text.text(errno.name().as_bytes())?;
            text.text(b": ")
        }
        _ => Ok(()),
    }
}

fn write_waiting(text: &mut Text, bytes: &[u8]) -> Result<(), NoMemory>
    ensures { OnOk result (text.new ≡ text.old ++ (codes "waits: " ++ messages_text None bytes.now)) }
{
    text.text(b"waits: ")?;
    write_messages(text, None, bytes)
}

fn write_reading(text: &mut Text, names: &Names, handle: u32) -> Result<(), NoMemory>
    ensures { OnOk result (text.new ≡ text.old ++ (codes "reads " ++ handle_text names.now handle)) }
{
    text.text(b"reads ")?;
    write_handle(text, names, handle)
}

fn write_whole(text: &mut Text, names: &Names, call: &Call) -> Result<(), NoMemory>
    ensures { OnOk result (text.new ≡ text.old ++ (calling call.now ++ operands_text names.now call.now)) }
{
    text.text(calling(call))?;
    write_operands(text, names, call)
}

/// What a controller asks: of a write its messages, of a read the file.
#[tactic(auto, unfolding(crate::specs::Briefs::asking))]
fn write_asking(text: &mut Text, names: &Names, call: &Call) -> Result<(), NoMemory>
    ensures { OnOk result (text.new ≡ text.old ++ asking names.now call.now) }
{
    match call {
        Call::Ctl { bytes, .. } => write_messages(text, None, bytes.as_slice()),
        Call::CtlWait { bytes, .. } => write_waiting(text, bytes.as_slice()),
        Call::Read { handle, .. } => write_reading(text, names, *handle),
        _ => write_whole(text, names, call),
    }
}

#[tactic(auto, unfolding(crate::specs::Briefs::brief_call))]
fn write_brief_call(
    text: &mut Text,
    names: &Names,
    call: &Call,
    reply: &Reply,
) -> Result<(), NoMemory>
    ensures { OnOk result (text.new ≡ text.old ++ brief_call names.now call.now reply.now) }
{
    write_refused(text, reply)?;
    write_asking(text, names, call)
}

/// What an lwp does.
#[tactic(auto, unfolding(crate::specs::Briefs::brief_turn))]
fn write_brief_turn(text: &mut Text, turned: Turned) -> Result<(), NoMemory>
    ensures { OnOk result (text.new ≡ text.old ++ brief_turn turned) }
{
    text.text(doing(turned.did))?;
    text.text(object(turned.did))?;
    write_outcome(text, turned.did)
}

/// What was done, in a few words.
#[tactic(auto, unfolding(crate::specs::Briefs::brief_text))]
pub fn write_brief(text: &mut Text, names: &Names, act: &Act) -> Result<(), NoMemory>
    ensures { OnOk result (text.new ≡ text.old ++ brief_text names.now act.now) }
{
    match act {
        Act::Call(call, reply) => write_brief_call(text, names, call, reply),
        Act::Turn(turned) => write_brief_turn(text, *turned),
        Act::Tick(n) => write_tick(text, *n),
    }
}
