//! The bytes that a line spells: of an instruction, or of a control message by its name in proc(4) and its operands.
ghost use Rattle.std.specs.Prelude.{◌≡◌, map, IfOk};
ghost use Rattle.pr_asm.specs.Statements.{statement_of};
ghost use Rattle.pr_hist.specs.Spellings.{alone, bytes_of_line, bytes_of_statement, bytes_with, code_bytes, form_of, if_message, message_bytes, numbered, plain_bytes, with_operands, write_bytes, write_with};

use crate::messages::message_name;
use crate::operand_words::{
    are_numbers, modes_of, number_at, registers_of, run_flags_of, set_of, signal_of,
};
use pr_asm::{Statement, statement_of};
use pr_msg::{Message, decode_one, encode, tail_length};
use pr_num::{Bytes, Flt, NoMemory, Sig, Sysno};
use pr_text::{Refused, bytes_of_digits, number_of, word_texts};
use std::alloc::Global;

/// Each message once, before it has its operands.
const FORMS: [Message; 23] = [
    Message::Stop,
    Message::Dstop,
    Message::Wstop,
    Message::Twstop { ms: 0 },
    Message::Run { flags: 0 },
    Message::Csig,
    Message::Cfault,
    Message::Ssig { signal: 0 },
    Message::Kill { signal: 0 },
    Message::Unkill { signal: 0 },
    Message::Shold { signals: 0 },
    Message::Strace { signals: 0 },
    Message::Sfault { faults: 0 },
    Message::Sentry { calls: 0 },
    Message::Sexit { calls: 0 },
    Message::Set { modes: 0 },
    Message::Unset { modes: 0 },
    Message::Sreg { regs: [0; 11] },
    Message::Svaddr { pc: 0 },
    Message::Watch {
        at: 0,
        size: 0,
        flags: 0,
    },
    Message::Agent { regs: [0; 11] },
    Message::Read { at: 0, len: 0 },
    Message::Write { at: 0, len: 0 },
];

/// The message of a name.
#[tactic(auto, unfolding(crate::specs::Spellings::form_of))]
fn form_of(name: &[u8]) -> Option<Message>
    ensures { result ≡ form_of name.now }
{
    FORMS.iter().copied().find(|m| name == message_name(m))
}

/// A message without operands.
#[tactic(auto, unfolding(crate::specs::Spellings::alone))]
fn alone(ops: &[&[u8]], message: Message) -> Option<Message>
    ensures { result ≡ alone (map (λ op. op.now) ops.now) message }
{
    if ops.len() == 0 { Some(message) } else { None }
}

/// A message with numbers as operands.
#[tactic(auto, unfolding(crate::specs::Spellings::numbered))]
fn numbered(count: usize, ops: &[&[u8]], message: Message) -> Option<Message>
    ensures { result ≡ numbered count (map (λ op. op.now) ops.now) message }
{
    if are_numbers(count, ops) {
        Some(message)
    } else {
        None
    }
}

/// A message with its operands; `None` where they are not its operands, and for PCWRITE, which has bytes besides.
#[tactic(auto, unfolding(crate::specs::Spellings::with_operands))]
fn with_operands(form: &Message, ops: &[&[u8]]) -> Option<Message>
    ensures { result ≡ with_operands form.now (map (λ op. op.now) ops.now) }
{
    match *form {
        Message::Stop => alone(ops, Message::Stop),
        Message::Dstop => alone(ops, Message::Dstop),
        Message::Wstop => alone(ops, Message::Wstop),
        Message::Twstop { .. } => {
            let ms = number_at(ops, 0);
            numbered(1, ops, Message::Twstop { ms })
        }
        Message::Run { .. } => {
            let flags = run_flags_of(ops)?;
            Some(Message::Run { flags })
        }
        Message::Csig => alone(ops, Message::Csig),
        Message::Cfault => alone(ops, Message::Cfault),
        Message::Ssig { .. } => {
            let signal = signal_of(ops)?;
            Some(Message::Ssig { signal })
        }
        Message::Kill { .. } => {
            let signal = signal_of(ops)?;
            Some(Message::Kill { signal })
        }
        Message::Unkill { .. } => {
            let signal = signal_of(ops)?;
            Some(Message::Unkill { signal })
        }
        Message::Shold { .. } => {
            let signals = set_of::<Sig>(ops)?.word();
            Some(Message::Shold { signals })
        }
        Message::Strace { .. } => {
            let signals = set_of::<Sig>(ops)?.word();
            Some(Message::Strace { signals })
        }
        Message::Sfault { .. } => {
            let faults = set_of::<Flt>(ops)?.word();
            Some(Message::Sfault { faults })
        }
        Message::Sentry { .. } => {
            let calls = set_of::<Sysno>(ops)?.word();
            Some(Message::Sentry { calls })
        }
        Message::Sexit { .. } => {
            let calls = set_of::<Sysno>(ops)?.word();
            Some(Message::Sexit { calls })
        }
        Message::Set { .. } => {
            let modes = modes_of(ops)?;
            Some(Message::Set { modes })
        }
        Message::Unset { .. } => {
            let modes = modes_of(ops)?;
            Some(Message::Unset { modes })
        }
        Message::Sreg { .. } => {
            let regs = registers_of(ops);
            numbered(11, ops, Message::Sreg { regs })
        }
        Message::Svaddr { .. } => {
            let pc = number_at(ops, 0);
            numbered(1, ops, Message::Svaddr { pc })
        }
        Message::Watch { .. } => {
            let at = number_at(ops, 0);
            let size = number_at(ops, 1);
            let flags = number_at(ops, 2);
            numbered(3, ops, Message::Watch { at, size, flags })
        }
        Message::Agent { .. } => {
            let regs = registers_of(ops);
            numbered(11, ops, Message::Agent { regs })
        }
        Message::Read { .. } => {
            let at = number_at(ops, 0);
            let len = number_at(ops, 1);
            numbered(2, ops, Message::Read { at, len })
        }
        Message::Write { .. } => None,
    }
}

/// PCWRITE of bytes at an address, where there are both.
#[tactic(auto, unfolding(pr_num::specs::Messages::tail_length))]
fn write_with(
    alloc: Global,
    at: Option<u64>,
    tail: Option<Bytes>,
) -> Result<Option<Bytes>, NoMemory>
    ensures { IfOk result (λ bytes. bytes ≡ write_with at tail) }
{
    let Some(at) = at else {
        return Ok(None);
    };
    let Some(tail) = tail else {
        return Ok(None);
    };
    let bytes = tail.as_slice();
    let message = Message::Write {
        at,
        len: bytes.len() as u64,
    };
    Ok(Some(encode(alloc, &message, bytes)?))
}

/// PCWRITE: an address, and bytes in hex.
#[tactic(auto, unfolding(crate::specs::Spellings::write_bytes))]
fn write_bytes(alloc: Global, ops: &[&[u8]]) -> Result<Option<Bytes>, NoMemory>
    ensures { IfOk result (λ bytes. bytes ≡ write_bytes (map (λ op. op.now) ops.now)) }
{
    match ops {
        [at, digits] => {
            let tail = bytes_of_digits(alloc, digits)?;
            write_with(alloc, number_of(at), tail)
        }
        _ => Ok(None),
    }
}

/// The bytes of a message that has no bytes besides its operands.
fn plain_bytes(alloc: Global, message: Option<Message>) -> Result<Option<Bytes>, NoMemory>
    ensures { IfOk result (λ bytes. bytes ≡ plain_bytes message) }
{
    let Some(message) = message else {
        return Ok(None);
    };
    if tail_length(&message) != 0 {
        return Ok(None);
    }
    Ok(Some(encode(alloc, &message, &[])?))
}

/// The bytes of a message with these operands.
#[tactic(auto, unfolding(crate::specs::Spellings::bytes_with))]
fn bytes_with(alloc: Global, form: &Message, ops: &[&[u8]]) -> Result<Option<Bytes>, NoMemory>
    ensures { IfOk result (λ bytes. bytes ≡ bytes_with form.now (map (λ op. op.now) ops.now)) }
{
    match form {
        Message::Write { .. } => write_bytes(alloc, ops),
        _ => plain_bytes(alloc, with_operands(form, ops)),
    }
}

/// Bytes that the kernel reads as a message.
#[tactic(auto, unfolding(crate::specs::Spellings::if_message))]
fn if_message(bytes: Option<Bytes>) -> Option<Bytes>
    ensures { result ≡ if_message bytes }
{
    let bytes = bytes?;
    if decode_one(bytes.as_slice()).is_ok() {
        Some(bytes)
    } else {
        None
    }
}

/// The bytes of the message that words spell.
#[tactic(auto, unfolding(crate::specs::Spellings::message_bytes))]
fn message_bytes(alloc: Global, words: &[&[u8]]) -> Result<Option<Bytes>, NoMemory>
    ensures { IfOk result (λ bytes. bytes ≡ message_bytes (map (λ word. word.now) words.now)) }
{
    match words {
        [] => Ok(None),
        [name, ops @ ..] => match form_of(name) {
            None => Ok(None),
            Some(form) => Ok(if_message(bytes_with(alloc, &form, ops)?)),
        },
    }
}

/// The bytes of an instruction of which no operand is the name of a label.
fn code_bytes(alloc: Global, statement: &Statement) -> Result<Option<Bytes>, NoMemory>
    ensures { IfOk result (λ bytes. bytes ≡ bytes_of_statement statement.now) }
{
    match statement {
        Statement::Code {
            instruction,
            name: None,
        } => {
            let bytes = instruction.encode();
            Ok(Some(Bytes::from_vec(Vec::from_slice(alloc, &bytes)?)))
        }
        _ => Ok(None),
    }
}

/// The bytes of the instruction that a line spells.
fn instruction_in(alloc: Global, line: &[u8]) -> Result<Option<Bytes>, NoMemory>
    ensures { IfOk result (λ bytes. bytes ≡ code_bytes (statement_of line.now)) }
{
    match statement_of(alloc, line) {
        Ok(statement) => code_bytes(alloc, &statement),
        Err(Refused::Kind(_)) => Ok(None),
        Err(Refused::NoMemory(error)) => Err(error),
    }
}

/// The bytes that a line spells: of a control message, by its name in proc(4) and its operands, or of an instruction.
/// `None` where it is neither.
#[tactic(auto, unfolding(crate::specs::Spellings::bytes_of_line))]
pub fn bytes_of_line(alloc: Global, line: &[u8]) -> Result<Option<Bytes>, NoMemory>
    ensures { IfOk result (λ bytes. bytes ≡ bytes_of_line line.now) }
{
    let words = word_texts(alloc, line)?;
    match message_bytes(alloc, &words)? {
        Some(bytes) => Ok(Some(bytes)),
        None => instruction_in(alloc, line),
    }
}
