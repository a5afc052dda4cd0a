//! Control messages by name (proc(4), "Control messages").
ghost use Rattle.std.specs.Prelude.{◌≡◌, ◌++◌, IfOk, OnOk, drop, slice_index};
ghost use Rattle.std.specs.Option.{option_copied};
ghost use Rattle.pr_hist.specs.Messages.{address_text, all_messages, area_text, between, calls_text, code_text, faults_text, first_text, general_text, message_name, message_text, messages_text, no_message_text, operands_text, pointers_text, register_text, registers_text, rest_of, signal_text, signals_text, wait_text, written_text};

use crate::flags::{modes, run_flags, watch_flags};
use crate::listings::{Listing, write_place};
use crate::phrases::{Phrase, write_phrase};
use crate::sets::set_word;
use crate::texts::{write_hex_and_text, write_number, write_size, write_time};
use pr_msg::{Message, decode_one};
use pr_num::{Flt, NoMemory, Sig, Sysno};
use pr_text::{Text, behind, front};

/// The name of a message.
#[tactic(auto, unfolding(crate::specs::Messages::message_name))]
pub fn message_name(message: &Message) -> &'static [u8]
    ensures { result.now ≡ message_name message.now }
{
    match message {
        Message::Stop => b"PCSTOP",
        Message::Dstop => b"PCDSTOP",
        Message::Wstop => b"PCWSTOP",
        Message::Twstop { .. } => b"PCTWSTOP",
        Message::Run { .. } => b"PCRUN",
        Message::Csig => b"PCCSIG",
        Message::Cfault => b"PCCFAULT",
        Message::Ssig { .. } => b"PCSSIG",
        Message::Kill { .. } => b"PCKILL",
        Message::Unkill { .. } => b"PCUNKILL",
        Message::Shold { .. } => b"PCSHOLD",
        Message::Strace { .. } => b"PCSTRACE",
        Message::Sfault { .. } => b"PCSFAULT",
        Message::Sentry { .. } => b"PCSENTRY",
        Message::Sexit { .. } => b"PCSEXIT",
        Message::Set { .. } => b"PCSET",
        Message::Unset { .. } => b"PCUNSET",
        Message::Sreg { .. } => b"PCSREG",
        Message::Svaddr { .. } => b"PCSVADDR",
        Message::Watch { .. } => b"PCWATCH",
        Message::Agent { .. } => b"PCAGENT",
        Message::Read { .. } => b"PCREAD",
        Message::Write { .. } => b"PCWRITE",
    }
}

/// A signal by name; its number where it has none.
#[tactic(auto, unfolding(crate::specs::Messages::signal_text))]
pub fn write_signal(text: &mut Text, n: u64) -> Result<(), NoMemory>
    ensures { OnOk result (text.new ≡ text.old ++ signal_text n) }
{
    text.text(b" ")?;
    match Sig::from_number(n) {
        None => write_number(text, n),
        Some(signal) => text.text(signal.name().as_bytes()),
    }
}

/// A set of signals.
#[tactic(auto, unfolding(crate::specs::Messages::signals_text))]
pub fn write_signals(text: &mut Text, word: u64) -> Result<(), NoMemory>
    ensures { OnOk result (text.new ≡ text.old ++ signals_text word) }
{
    set_word::<Sig>(text, word)
}

/// A set of faults.
#[tactic(auto, unfolding(crate::specs::Messages::faults_text))]
pub fn write_faults(text: &mut Text, word: u64) -> Result<(), NoMemory>
    ensures { OnOk result (text.new ≡ text.old ++ faults_text word) }
{
    set_word::<Flt>(text, word)
}

/// A set of system calls.
#[tactic(auto, unfolding(crate::specs::Messages::calls_text))]
pub fn write_calls(text: &mut Text, word: u64) -> Result<(), NoMemory>
    ensures { OnOk result (text.new ≡ text.old ++ calls_text word) }
{
    set_word::<Sysno>(text, word)
}

#[tactic(auto, unfolding(crate::specs::Messages::wait_text))]
fn write_wait(text: &mut Text, ms: u64) -> Result<(), NoMemory>
    ensures { OnOk result (text.new ≡ text.old ++ wait_text ms) }
{
    text.text(b" ")?;
    write_time(text, ms)
}

/// An address.
#[tactic(auto, unfolding(crate::specs::Messages::address_text))]
pub fn write_address(text: &mut Text, at: u64) -> Result<(), NoMemory>
    ensures { OnOk result (text.new ≡ text.old ++ address_text at) }
{
    text.text(b" ")?;
    text.hex(at)
}

/// An address at which an instruction of this program may stand.
#[tactic(auto, unfolding(crate::specs::Messages::code_text))]
pub fn write_code(text: &mut Text, source: Option<&Listing>, at: u64) -> Result<(), NoMemory>
    ensures { OnOk result (text.new ≡ text.old ++ code_text (option_copied source.entry) at) }
{
    write_address(text, at)?;
    write_place(text, source, at)
}

/// Bytes at an address.
#[tactic(auto, unfolding(crate::specs::Messages::area_text))]
fn write_area(text: &mut Text, source: Option<&Listing>, at: u64, size: u64) -> Result<(), NoMemory>
    ensures { OnOk result (text.new ≡ text.old ++ area_text (option_copied source.entry) at size) }
{
    text.text(b" ")?;
    write_size(text, size)?;
    text.text(b" at ")?;
    text.hex(at)?;
    write_place(text, source, at)
}

/// A register by name.
#[tactic(auto, unfolding(crate::specs::Messages::register_text))]
fn write_register(text: &mut Text, name: &[u8], value: u64) -> Result<(), NoMemory>
    ensures { OnOk result (text.new ≡ text.old ++ register_text name.now value) }
{
    text.text(b" ")?;
    text.text(name)?;
    text.text(b" ")?;
    write_number(text, value)
}

#[tactic(auto, unfolding(crate::specs::Messages::general_text))]
fn write_general(text: &mut Text, regs: &[u64; 11]) -> Result<(), NoMemory>
    ensures { OnOk result (text.new ≡ text.old ++ general_text regs.now) }
{
    write_register(text, b"r0", regs[0])?;
    write_register(text, b"r1", regs[1])?;
    write_register(text, b"r2", regs[2])?;
    write_register(text, b"r3", regs[3])?;
    write_register(text, b"r4", regs[4])?;
    write_register(text, b"r5", regs[5])?;
    write_register(text, b"r6", regs[6])?;
    write_register(text, b"r7", regs[7])
}

#[tactic(auto, unfolding(crate::specs::Messages::pointers_text))]
fn write_pointers(
    text: &mut Text,
    source: Option<&Listing>,
    regs: &[u64; 11],
) -> Result<(), NoMemory>
    ensures { OnOk result (text.new ≡ text.old ++ pointers_text (option_copied source.entry) regs.now) }
{
    write_register(text, b"sp", regs[8])?;
    write_register(text, b"fp", regs[9])?;
    write_register(text, b"pc", regs[10])?;
    write_place(text, source, regs[10])
}

#[tactic(auto, unfolding(crate::specs::Messages::registers_text))]
fn write_registers(
    text: &mut Text,
    source: Option<&Listing>,
    regs: &[u64; 11],
) -> Result<(), NoMemory>
    ensures { OnOk result (text.new ≡ text.old ++ registers_text (option_copied source.entry) regs.now) }
{
    write_general(text, regs)?;
    write_pointers(text, source, regs)
}

/// Where memory is written, and the bytes that stand behind the three words of the message.
#[tactic(auto, unfolding(crate::specs::Messages::written_text))]
fn write_written(
    text: &mut Text,
    source: Option<&Listing>,
    at: u64,
    len: u64,
    bytes: &[u8],
) -> Result<(), NoMemory>
    ensures { OnOk result (text.new ≡ text.old ++ written_text (option_copied source.entry) at len bytes.now) }
{
    write_area(text, source, at, len)?;
    text.text(b": ")?;
    write_hex_and_text(text, front(behind(bytes, 24), len as usize))
}

#[tactic(auto, unfolding(crate::specs::Messages::operands_text))]
fn write_watch(
    text: &mut Text,
    source: Option<&Listing>,
    at: u64,
    size: u64,
    flags: u64,
    bytes: &[u8],
) -> Result<(), NoMemory>
    ensures { OnOk result (text.new ≡ text.old
        ++ operands_text (option_copied source.entry) (Message.Watch at size flags) bytes.now) }
{
    write_area(text, source, at, size)?;
    watch_flags(text, flags)
}

/// The operands of a message with which bytes begin, to a process that runs this program.
#[tactic(auto, unfolding(crate::specs::Messages::operands_text))]
fn write_operands(
    text: &mut Text,
    source: Option<&Listing>,
    message: &Message,
    bytes: &[u8],
) -> Result<(), NoMemory>
    ensures { OnOk result (text.new ≡ text.old ++ operands_text (option_copied source.entry) message.now bytes.now) }
{
    match *message {
        Message::Stop | Message::Dstop | Message::Wstop | Message::Csig | Message::Cfault => Ok(()),
        Message::Twstop { ms } => write_wait(text, ms),
        Message::Run { flags } => run_flags(text, flags),
        Message::Ssig { signal } => write_signal(text, signal),
        Message::Kill { signal } => write_signal(text, signal),
        Message::Unkill { signal } => write_signal(text, signal),
        Message::Shold { signals } => write_signals(text, signals),
        Message::Strace { signals } => write_signals(text, signals),
        Message::Sfault { faults } => write_faults(text, faults),
        Message::Sentry { calls } => write_calls(text, calls),
        Message::Sexit { calls } => write_calls(text, calls),
        Message::Set { modes: word } => modes(text, word),
        Message::Unset { modes: word } => modes(text, word),
        Message::Sreg { regs } => write_registers(text, source, &regs),
        Message::Svaddr { pc } => write_code(text, source, pc),
        Message::Watch { at, size, flags } => write_watch(text, source, at, size, flags, bytes),
        Message::Agent { regs } => write_registers(text, source, &regs),
        Message::Read { at, len } => write_area(text, source, at, len),
        Message::Write { at, len } => write_written(text, source, at, len, bytes),
    }
}

/// The message with which bytes begin.
#[tactic(auto, unfolding(crate::specs::Messages::message_text))]
fn write_message(
    text: &mut Text,
    source: Option<&Listing>,
    message: &Message,
    bytes: &[u8],
) -> Result<(), NoMemory>
    ensures { OnOk result (text.new ≡ text.old ++ message_text (option_copied source.entry) message.now bytes.now) }
{
    text.text(message_name(message))?;
    write_operands(text, source, message, bytes)
}

/// What stands between two messages, where there is a next one.
#[tactic(auto, unfolding(crate::specs::Messages::between))]
fn write_between(text: &mut Text, rest: &[u8]) -> Result<(), NoMemory>
    ensures { OnOk result (text.new ≡ text.old ++ between rest.now) }
{
    if rest.len() == 0 {
        Ok(())
    } else {
        text.text(b"; ")
    }
}

/// Bytes that begin with no message.
#[tactic(auto, unfolding(crate::specs::Messages::no_message_text))]
fn write_no_message(text: &mut Text, bytes: &[u8]) -> Result<(), NoMemory>
    ensures { OnOk result (text.new ≡ text.old ++ no_message_text bytes.now) }
{
    write_phrase(text, Phrase::NoMessage)?;
    write_hex_and_text(text, bytes)
}

/// The message with which bytes begin, or that there is none. Answers the bytes behind it.
#[tactic(auto, unfolding(crate::specs::Messages::first_text, crate::specs::Messages::rest_of))]
fn write_first<'a>(
    text: &mut Text,
    source: Option<&Listing>,
    bytes: &'a [u8],
) -> Result<&'a [u8], NoMemory>
    ensures told { OnOk result (text.new ≡ text.old ++ first_text (option_copied source.entry) bytes.now) }
    ensures rest { IfOk result (λ rest. rest.now ≡ rest_of bytes.now) }
{
    match decode_one(bytes) {
        Err(_) => {
            write_no_message(text, bytes)?;
            Ok(b"")
        }
        Ok((message, n)) => {
            let rest = behind(bytes, n);
            write_message(text, source, &message, bytes)?;
            write_between(text, rest)?;
            Ok(rest)
        }
    }
}

/// The messages of a write, each for itself.
fn write_all_messages(
    text: &mut Text,
    source: Option<&Listing>,
    bytes: &[u8],
) -> Result<(), NoMemory>
    ensures { OnOk result (text.new ≡ text.old ++ all_messages (option_copied source.entry) bytes.now) }
{
    let mut rest = bytes;
    let mut most = bytes.len();
    'messages: while most > 0 {
        if rest.len() == 0 {
            return Ok(());
        }
        rest = write_first(text, source, rest)?;
        most -= 1;
    }
    Ok(())
}

/// The messages of a write to a process that runs this program, or that there is nothing.
#[tactic(auto, unfolding(crate::specs::Messages::messages_text))]
pub fn write_messages(
    text: &mut Text,
    source: Option<&Listing>,
    bytes: &[u8],
) -> Result<(), NoMemory>
    ensures { OnOk result (text.new ≡ text.old ++ messages_text (option_copied source.entry) bytes.now) }
{
    if bytes.len() == 0 {
        text.text(b"nothing")
    } else {
        write_all_messages(text, source, bytes)
    }
}
