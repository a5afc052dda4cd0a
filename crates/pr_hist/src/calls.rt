//! Calls of controllers.
ghost use Rattle.std.specs.Prelude.{◌≡◌, ◌++◌, OnOk};
ghost use Rattle.pr_hist.specs.Calls.{calling, kill_text, operands_text, part_text, spawn_text, until_text, wait_text, write_text};

use crate::listings::write_place;
use crate::messages::{write_messages, write_signal};
use crate::names::{Known, Names, write_handle, write_handles, write_known};
use crate::texts::{write_number, write_size, write_time};
use pr_model::{Call, File, Mode};
use pr_num::{Name, NoMemory};
use pr_text::Text;

/// What a controller does in a call.
#[tactic(auto, unfolding(crate::specs::Calls::calling))]
pub fn calling(call: &Call) -> &'static [u8]
    ensures { result.now ≡ calling call.now }
{
    match call {
        Call::Open { .. } => b"opens ",
        Call::Close { .. } => b"closes ",
        Call::Ctl { .. } => b"writes to ",
        Call::CtlWait { .. } => b"waits at ",
        Call::Read { .. } => b"reads ",
        Call::Poll { .. } => b"polls",
        Call::Interrupt { .. } => b"interrupts c",
        Call::Spawn { .. } => b"makes a process of ",
        Call::Kill { .. } => b"sends",
        Call::Until { .. } => b"waits until ",
        Call::List => b"lists the processes",
    }
}

/// The moment at which a wait ends, where it has one.
#[tactic(auto, unfolding(crate::specs::Calls::until_text))]
pub fn write_until(text: &mut Text, n: u64) -> Result<(), NoMemory>
    ensures { OnOk result (text.new ≡ text.old ++ until_text n) }
{
    if n == 0 {
        return Ok(());
    }
    text.text(b", until ")?;
    write_time(text, n)
}

/// The messages of a write.
#[tactic(auto, unfolding(crate::specs::Calls::write_text))]
fn write_write(text: &mut Text, names: &Names, handle: u32, bytes: &[u8]) -> Result<(), NoMemory>
    ensures { OnOk result (text.new ≡ text.old ++ write_text names.now handle bytes.now) }
{
    write_handle(text, names, handle)?;
    text.text(b": ")?;
    write_messages(text, names.listing_by(handle), bytes)
}

/// The messages of a wait, and its end.
#[tactic(auto, unfolding(crate::specs::Calls::wait_text))]
fn write_wait(
    text: &mut Text,
    names: &Names,
    handle: u32,
    until: u64,
    bytes: &[u8],
) -> Result<(), NoMemory>
    ensures { OnOk result (text.new ≡ text.old ++ wait_text names.now handle until bytes.now) }
{
    write_handle(text, names, handle)?;
    write_until(text, until)?;
    text.text(b": ")?;
    write_messages(text, names.listing_by(handle), bytes)
}

/// The part of a file that is read.
#[tactic(auto, unfolding(crate::specs::Calls::part_text))]
fn write_part(
    text: &mut Text,
    names: &Names,
    handle: u32,
    at: u64,
    len: u64,
) -> Result<(), NoMemory>
    ensures { OnOk result (text.new ≡ text.old ++ part_text names.now handle at len) }
{
    write_handle(text, names, handle)?;
    text.text(b", ")?;
    write_size(text, len)?;
    text.text(b" at ")?;
    write_number(text, at)?;
    write_place(text, names.memory_by(handle), at)
}

/// A program, and whether its process is directed to stop.
#[tactic(auto, unfolding(crate::specs::Calls::spawn_text))]
fn write_spawn(text: &mut Text, program: Name, held: bool) -> Result<(), NoMemory>
    ensures { OnOk result (text.new ≡ text.old ++ spawn_text program held) }
{
    text.text(program.as_slice())?;
    if held { text.text(b", held") } else { Ok(()) }
}

/// A signal and its process.
#[tactic(auto, unfolding(crate::specs::Calls::kill_text))]
fn write_kill(text: &mut Text, pid: u32, sig: u64) -> Result<(), NoMemory>
    ensures { OnOk result (text.new ≡ text.old ++ kill_text pid sig) }
{
    write_signal(text, sig)?;
    text.text(b" to ")?;
    text.decimal(u64::from(pid))
}

#[tactic(auto, unfolding(crate::specs::Calls::operands_text))]
fn write_open(
    text: &mut Text,
    names: &Names,
    pid: u32,
    lwp: u32,
    file: File,
    mode: Mode,
) -> Result<(), NoMemory>
    ensures { OnOk result (text.new ≡ text.old ++ operands_text names.now (Call.Open pid lwp file mode)) }
{
    let _ = names;
    write_known(
        text,
        Known {
            pid,
            lwp,
            file,
            mode,
        },
    )
}

/// With what a call is made.
#[tactic(auto, unfolding(crate::specs::Calls::operands_text))]
pub fn write_operands(text: &mut Text, names: &Names, call: &Call) -> Result<(), NoMemory>
    ensures { OnOk result (text.new ≡ text.old ++ operands_text names.now call.now) }
{
    match call {
        Call::Open {
            pid,
            lwp,
            file,
            mode,
        } => write_open(text, names, *pid, *lwp, *file, *mode),
        Call::Close { handle } => write_handle(text, names, *handle),
        Call::Ctl { handle, bytes } => write_write(text, names, *handle, bytes.as_slice()),
        Call::CtlWait {
            handle,
            until,
            bytes,
        } => write_wait(text, names, *handle, *until, bytes.as_slice()),
        Call::Read { handle, at, len } => write_part(text, names, *handle, *at, *len),
        Call::Poll { handles } => write_handles(text, names, handles.as_slice()),
        Call::Interrupt { controller } => text.decimal(u64::from(*controller)),
        Call::Spawn { program, held } => write_spawn(text, *program, *held),
        Call::Kill { pid, sig } => write_kill(text, *pid, *sig),
        Call::Until { moment } => write_time(text, *moment),
        Call::List => Ok(()),
    }
}
