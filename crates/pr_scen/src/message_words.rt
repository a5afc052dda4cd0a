//! The words that control messages begin with, and their operands.
ghost use Rattle.std.specs.Prelude.{◌≡◌, ◌≤◌, length, IfOk, IfSome};
ghost use Rattle.pr_num.specs.Messages.{tail_length};
ghost use Rattle.pr_scen.specs.MessageWords.{message_name, message_word_of, operands_of, message_of, bytes_with, bytes_of};

use pr_msg::{Message, encode};
use pr_num::{Bytes, NoMemory};
use std::alloc::Global;

/// What a message of a write begins with.
#[derive(Clone, Copy)]
pub enum MessageWord {
    Stop,
    Dstop,
    Wstop,
    Twstop,
    Run,
    Csig,
    Cfault,
    Ssig,
    Kill,
    Unkill,
    Shold,
    Strace,
    Sfault,
    Sentry,
    Sexit,
    Set,
    Unset,
    Sreg,
    Svaddr,
    Watch,
    Agent,
    Read,
    Write,
    Raw,
}

/// The form of an operand of a message.
#[derive(Clone, Copy)]
pub enum Operand {
    Number,
    /// Bytes, two hex digits each.
    Hex,
    /// Sets, by the names of their entries.
    Signals,
    Faults,
    Calls,
    /// Modes, by their names.
    Modes,
}

const MESSAGE_WORDS: [MessageWord; 24] = [
    MessageWord::Stop,
    MessageWord::Dstop,
    MessageWord::Wstop,
    MessageWord::Twstop,
    MessageWord::Run,
    MessageWord::Csig,
    MessageWord::Cfault,
    MessageWord::Ssig,
    MessageWord::Kill,
    MessageWord::Unkill,
    MessageWord::Shold,
    MessageWord::Strace,
    MessageWord::Sfault,
    MessageWord::Sentry,
    MessageWord::Sexit,
    MessageWord::Set,
    MessageWord::Unset,
    MessageWord::Sreg,
    MessageWord::Svaddr,
    MessageWord::Watch,
    MessageWord::Agent,
    MessageWord::Read,
    MessageWord::Write,
    MessageWord::Raw,
];

/// The registers r0 to r7, sp, fp and pc.
const REGISTERS: [Operand; 11] = [Operand::Number; 11];

#[tactic(auto, unfolding(crate::specs::MessageWords::message_name))]
fn message_name(word: MessageWord) -> &'static [u8]
    ensures { result.now ≡ message_name word }
{
    match word {
        MessageWord::Stop => b"stop",
        MessageWord::Dstop => b"dstop",
        MessageWord::Wstop => b"wstop",
        MessageWord::Twstop => b"twstop",
        MessageWord::Run => b"run",
        MessageWord::Csig => b"csig",
        MessageWord::Cfault => b"cfault",
        MessageWord::Ssig => b"ssig",
        MessageWord::Kill => b"kill",
        MessageWord::Unkill => b"unkill",
        MessageWord::Shold => b"shold",
        MessageWord::Strace => b"strace",
        MessageWord::Sfault => b"sfault",
        MessageWord::Sentry => b"sentry",
        MessageWord::Sexit => b"sexit",
        MessageWord::Set => b"set",
        MessageWord::Unset => b"unset",
        MessageWord::Sreg => b"sreg",
        MessageWord::Svaddr => b"svaddr",
        MessageWord::Watch => b"watch",
        MessageWord::Agent => b"agent",
        MessageWord::Read => b"read",
        MessageWord::Write => b"write",
        MessageWord::Raw => b"raw",
    }
}

/// The message that a word begins.
#[tactic(auto, unfolding(crate::specs::MessageWords::message_word_of))]
pub fn message_word_of(word: &[u8]) -> Option<MessageWord>
    ensures { result ≡ message_word_of word.now }
{
    MESSAGE_WORDS
        .iter()
        .copied()
        .find(|m| word == message_name(*m))
}

/// The operands of a message, in their order; `run` may have any of the run flags after it besides.
#[tactic(auto, unfolding(crate::specs::MessageWords::operands_of))]
pub fn operands_of(word: MessageWord) -> &'static [Operand]
    ensures operands { result.now ≡ operands_of word }
    ensures few { length result.now ≤ 11 }
{
    match word {
        MessageWord::Stop
        | MessageWord::Dstop
        | MessageWord::Wstop
        | MessageWord::Run
        | MessageWord::Csig
        | MessageWord::Cfault => &[],
        MessageWord::Twstop
        | MessageWord::Ssig
        | MessageWord::Kill
        | MessageWord::Unkill
        | MessageWord::Svaddr => &[Operand::Number],
        MessageWord::Shold | MessageWord::Strace => &[Operand::Signals],
        MessageWord::Sfault => &[Operand::Faults],
        MessageWord::Sentry | MessageWord::Sexit => &[Operand::Calls],
        MessageWord::Set | MessageWord::Unset => &[Operand::Modes],
        MessageWord::Sreg | MessageWord::Agent => &REGISTERS,
        MessageWord::Watch => &[Operand::Number, Operand::Number, Operand::Number],
        MessageWord::Read => &[Operand::Number, Operand::Number],
        MessageWord::Write => &[Operand::Number, Operand::Hex],
        MessageWord::Raw => &[Operand::Hex],
    }
}

/// The message of a word with these operands; `None` for `write` and `raw`, which have bytes.
#[tactic(auto, unfolding(crate::specs::MessageWords::message_of, pr_num::specs::Messages::tail_length))]
fn message_of(word: MessageWord, n: &[u64; 11]) -> Option<Message>
    ensures message { result ≡ message_of word n.now }
    ensures alone { IfSome result (λ m. tail_length m ≡ 0) }
{
    match word {
        MessageWord::Stop => Some(Message::Stop),
        MessageWord::Dstop => Some(Message::Dstop),
        MessageWord::Wstop => Some(Message::Wstop),
        MessageWord::Twstop => Some(Message::Twstop { ms: n[0] }),
        MessageWord::Run => Some(Message::Run { flags: 0 }),
        MessageWord::Csig => Some(Message::Csig),
        MessageWord::Cfault => Some(Message::Cfault),
        MessageWord::Ssig => Some(Message::Ssig { signal: n[0] }),
        MessageWord::Kill => Some(Message::Kill { signal: n[0] }),
        MessageWord::Unkill => Some(Message::Unkill { signal: n[0] }),
        MessageWord::Shold => Some(Message::Shold { signals: n[0] }),
        MessageWord::Strace => Some(Message::Strace { signals: n[0] }),
        MessageWord::Sfault => Some(Message::Sfault { faults: n[0] }),
        MessageWord::Sentry => Some(Message::Sentry { calls: n[0] }),
        MessageWord::Sexit => Some(Message::Sexit { calls: n[0] }),
        MessageWord::Set => Some(Message::Set { modes: n[0] }),
        MessageWord::Unset => Some(Message::Unset { modes: n[0] }),
        MessageWord::Sreg => Some(Message::Sreg { regs: *n }),
        MessageWord::Svaddr => Some(Message::Svaddr { pc: n[0] }),
        MessageWord::Watch => Some(Message::Watch {
            at: n[0],
            size: n[1],
            flags: n[2],
        }),
        MessageWord::Agent => Some(Message::Agent { regs: *n }),
        MessageWord::Read => Some(Message::Read {
            at: n[0],
            len: n[1],
        }),
        MessageWord::Write | MessageWord::Raw => None,
    }
}

/// The bytes of a message that has bytes: PCWRITE, or those of `raw` as they are.
#[tactic(auto, unfolding(crate::specs::MessageWords::bytes_with, pr_num::specs::Messages::tail_length))]
fn bytes_with(
    alloc: Global,
    word: MessageWord,
    n: &[u64; 11],
    tail: &[u8],
) -> Result<Bytes, NoMemory>
    ensures { IfOk result (λ bytes. bytes ≡ bytes_with word n.now tail.now) }
{
    if let MessageWord::Write = word {
        let message = Message::Write {
            at: n[0],
            len: tail.len() as u64,
        };
        return encode(alloc, &message, tail);
    }
    Ok(Bytes::from_vec(Vec::from_slice(alloc, tail)?))
}

/// The bytes of a message with these operands, and with these bytes.
#[tactic(auto, unfolding(crate::specs::MessageWords::bytes_of))]
pub fn bytes_of(
    alloc: Global,
    word: MessageWord,
    n: &[u64; 11],
    tail: &[u8],
) -> Result<Bytes, NoMemory>
    ensures { IfOk result (λ bytes. bytes ≡ bytes_of word n.now tail.now) }
{
    match message_of(word, n) {
        Some(message) => encode(alloc, &message, &[]),
        None => bytes_with(alloc, word, n, tail),
    }
}
