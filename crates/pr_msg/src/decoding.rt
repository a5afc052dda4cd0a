ghost use Rattle.std.specs.Prelude.{◌≡◌, ◌↔◌, ◌+◌, ◌*◌, ◌≤◌, ℕ, length, Some, None, Ok, IfOk, if◌then◌else◌};
ghost use Rattle.pr_num.specs.Limits.{message_bytes_limit};
ghost use Rattle.pr_num.specs.declared.messages.Message.{Message};
ghost use Rattle.pr_msg.specs.Beginnings.{BeginsWith};
ghost use Rattle.pr_num.specs.Messages.{nth_word, one_word, two_words, three_words, eleven_words, message_read, bad_operand, in_columns, tail_length, operand_count, unpadded_length, encoded_length, with_tail, first_message};

use crate::paddings::padding;
use pr_codec::{WORD, word};
use pr_num::limits::{FAULT_COUNT, MESSAGE_BYTES_LIMIT, SIGNAL_COUNT, SYSCALL_COUNT, WAIT_LIMIT};
use pr_num::{Message, MsgFault, Sig, are_zeros};

/// The greatest number of a signal.
const LAST_SIGNAL: u64 = SIGNAL_COUNT as u64;

/// The signal that ends a process, whatever it does.
const SIGKILL: u64 = Sig::Kill as u64;

/// The words of sets of signals, of faults and of system calls lie below these.
const SIGNAL_SETS: u64 = 1 << SIGNAL_COUNT;

const FAULT_SETS: u64 = 1 << FAULT_COUNT;

const CALL_SETS: u64 = 1 << SYSCALL_COUNT;

/// The word at a place, counted in words.
#[tactic(auto, unfolding(pr_num::specs::Messages::nth_word))]
fn nth_word(bytes: &[u8], place: usize) -> u64
    requires { 8 * place + 8 ≤ length bytes.now }
    ensures { result ≡ nth_word bytes.now place }
{
    word(bytes, WORD * place).unwrap()
}

#[tactic(auto, unfolding(pr_num::specs::Messages::one_word))]
fn one_word(bytes: &[u8]) -> Result<u64, MsgFault>
    ensures { result ≡ one_word bytes.now }
{
    if bytes.len() < 16 {
        return Err(MsgFault::Short);
    }
    Ok(nth_word(bytes, 1))
}

#[tactic(auto, unfolding(pr_num::specs::Messages::two_words))]
fn two_words(bytes: &[u8]) -> Result<(u64, u64), MsgFault>
    ensures { result ≡ two_words bytes.now }
{
    if bytes.len() < 24 {
        return Err(MsgFault::Short);
    }
    Ok((nth_word(bytes, 1), nth_word(bytes, 2)))
}

#[tactic(auto, unfolding(pr_num::specs::Messages::three_words))]
fn three_words(bytes: &[u8]) -> Result<(u64, u64, u64), MsgFault>
    ensures { result ≡ three_words bytes.now }
{
    if bytes.len() < 32 {
        return Err(MsgFault::Short);
    }
    Ok((nth_word(bytes, 1), nth_word(bytes, 2), nth_word(bytes, 3)))
}

#[tactic(auto, unfolding(pr_num::specs::Messages::eleven_words))]
fn eleven_words(bytes: &[u8]) -> Result<[u64; 11], MsgFault>
    ensures { result ≡ eleven_words bytes.now }
{
    if bytes.len() < 96 {
        return Err(MsgFault::Short);
    }
    Ok([
        nth_word(bytes, 1),
        nth_word(bytes, 2),
        nth_word(bytes, 3),
        nth_word(bytes, 4),
        nth_word(bytes, 5),
        nth_word(bytes, 6),
        nth_word(bytes, 7),
        nth_word(bytes, 8),
        nth_word(bytes, 9),
        nth_word(bytes, 10),
        nth_word(bytes, 11),
    ])
}

#[tactic(auto, unfolding(pr_num::specs::Messages::message_read))]
fn set_registers(bytes: &[u8]) -> Result<Message, MsgFault>
    ensures { result ≡ message_read 18 bytes.now }
{
    let regs = eleven_words(bytes)?;
    Ok(Message::Sreg { regs })
}

#[tactic(auto, unfolding(pr_num::specs::Messages::message_read))]
fn make_agent(bytes: &[u8]) -> Result<Message, MsgFault>
    ensures { result ≡ message_read 21 bytes.now }
{
    let regs = eleven_words(bytes)?;
    Ok(Message::Agent { regs })
}

/// The message of a code, with the operand words that stand after it.
#[tactic(auto, unfolding(pr_num::specs::Messages::message_read))]
fn message_read(code: u64, bytes: &[u8]) -> Result<Message, MsgFault>
    ensures { result ≡ message_read code bytes.now }
{
    match code {
        1 => Ok(Message::Stop),
        2 => Ok(Message::Dstop),
        3 => Ok(Message::Wstop),
        4 => one_word(bytes).map(|ms| Message::Twstop { ms }),
        5 => one_word(bytes).map(|flags| Message::Run { flags }),
        6 => Ok(Message::Csig),
        7 => Ok(Message::Cfault),
        8 => one_word(bytes).map(|signal| Message::Ssig { signal }),
        9 => one_word(bytes).map(|signal| Message::Kill { signal }),
        10 => one_word(bytes).map(|signal| Message::Unkill { signal }),
        11 => one_word(bytes).map(|signals| Message::Shold { signals }),
        12 => one_word(bytes).map(|signals| Message::Strace { signals }),
        13 => one_word(bytes).map(|faults| Message::Sfault { faults }),
        14 => one_word(bytes).map(|calls| Message::Sentry { calls }),
        15 => one_word(bytes).map(|calls| Message::Sexit { calls }),
        16 => one_word(bytes).map(|modes| Message::Set { modes }),
        17 => one_word(bytes).map(|modes| Message::Unset { modes }),
        18 => set_registers(bytes),
        19 => one_word(bytes).map(|pc| Message::Svaddr { pc }),
        20 => three_words(bytes).map(|(at, size, flags)| Message::Watch { at, size, flags }),
        21 => make_agent(bytes),
        22 => two_words(bytes).map(|(at, len)| Message::Read { at, len }),
        23 => two_words(bytes).map(|(at, len)| Message::Write { at, len }),
        _ => Err(MsgFault::UnknownOp),
    }
}

/// Which operand word of a message is the first that lies outside its column, if one does.
#[tactic(auto, unfolding(pr_num::specs::Messages::bad_operand))]
fn bad_operand(message: &Message) -> Option<u32>
    ensures { result ≡ bad_operand message.now }
{
    match *message {
        Message::Twstop { ms } => outside(ms <= WAIT_LIMIT, 1),
        Message::Run { flags } => outside(flags < 32, 1),
        Message::Ssig { signal } => outside(signal <= LAST_SIGNAL, 1),
        Message::Kill { signal } => outside(1 <= signal && signal <= LAST_SIGNAL, 1),
        Message::Unkill { signal } => outside(
            1 <= signal && signal <= LAST_SIGNAL && signal != SIGKILL,
            1,
        ),
        Message::Shold { signals } | Message::Strace { signals } => outside(
            signals < SIGNAL_SETS,
            1,
        ),
        Message::Sfault { faults } => outside(faults < FAULT_SETS, 1),
        Message::Sentry { calls } | Message::Sexit { calls } => outside(calls < CALL_SETS, 1),
        Message::Set { modes } | Message::Unset { modes } => outside(modes < 16, 1),
        Message::Watch { at, size, flags } => bad_area(at, size, flags),
        Message::Read { len, .. } | Message::Write { len, .. } => {
            outside(1 <= len && len <= MESSAGE_BYTES_LIMIT, 2)
        }
        Message::Stop
        | Message::Dstop
        | Message::Wstop
        | Message::Csig
        | Message::Cfault
        | Message::Sreg { .. }
        | Message::Svaddr { .. }
        | Message::Agent { .. } => None,
    }
}

/// A word's number, where that word is outside its column.
fn outside(fits: bool, word: u32) -> Option<u32>
    ensures { result ≡ (if fits then None else Some word) }
{
    if fits { None } else { Some(word) }
}

/// Which word of a watched area is the first that lies outside its column.
#[tactic(auto, unfolding(pr_num::specs::Messages::bad_operand))]
fn bad_area(at: u64, size: u64, flags: u64) -> Option<u32>
    ensures { result ≡ bad_operand (Message.Watch at size flags) }
{
    if flags == 0 {
        return None;
    }
    if size == 0 || u128::from(at) + u128::from(size) > 1 << 64 {
        return Some(2);
    }
    outside(flags < 16 && flags != 8, 3)
}

#[tactic(auto, unfolding(pr_num::specs::Messages::in_columns, pr_num::specs::Messages::bad_operand, pr_num::specs::Messages::tail_length))]
fn in_columns(message: Message) -> Result<Message, MsgFault>
    ensures value { result ≡ in_columns message }
    ensures tail { IfOk result (λ m. tail_length m ≤ message_bytes_limit) }
{
    match bad_operand(&message) {
        None => Ok(message),
        Some(word) => Err(MsgFault::BadOperand { word }),
    }
}

/// How many bytes stand after the operand words of a message, the padding aside: for PCWRITE those to write, and else
/// none. Takes no memory.
#[tactic(auto, unfolding(pr_num::specs::Messages::tail_length))]
pub fn tail_length(message: &Message) -> u64
    ensures { result ≡ tail_length message.now }
{
    match *message {
        Message::Write { len, .. } => len,
        _ => 0,
    }
}

/// How many operand words a message has.
#[tactic(auto, unfolding(pr_num::specs::Messages::operand_count))]
fn operand_count(message: &Message) -> usize
    ensures count { result ≡ operand_count message.now }
    ensures limit { result ≤ 11 }
{
    match message {
        Message::Stop | Message::Dstop | Message::Wstop | Message::Csig | Message::Cfault => 0,
        Message::Twstop { .. }
        | Message::Run { .. }
        | Message::Ssig { .. }
        | Message::Kill { .. }
        | Message::Unkill { .. }
        | Message::Shold { .. }
        | Message::Strace { .. }
        | Message::Sfault { .. }
        | Message::Sentry { .. }
        | Message::Sexit { .. }
        | Message::Set { .. }
        | Message::Unset { .. }
        | Message::Svaddr { .. } => 1,
        Message::Read { .. } | Message::Write { .. } => 2,
        Message::Watch { .. } => 3,
        Message::Sreg { .. } | Message::Agent { .. } => 11,
    }
}

/// The first message of bytes, and how many of them encode it: `Ok((m, n))` exactly where the first `n` bytes encode
/// `m`.
/// The faults are tried in the order: 8 bytes for the code, a known code, the operand words, their columns, and for
/// PCWRITE its bytes and then zeros up to a multiple of 8. Takes no memory.
pub fn decode_one(bytes: &[u8]) -> Result<(Message, usize), MsgFault>
    ensures value { result ≡ first_message bytes.now }
    ensures spelt { (m : Message) (n : ℕ) → (result ≡ Ok (m, n)) ↔ BeginsWith bytes.now m n }
{
    first_message(bytes)
}

#[tactic(auto, unfolding(pr_num::specs::Messages::first_message))]
fn first_message(bytes: &[u8]) -> Result<(Message, usize), MsgFault>
    ensures { result ≡ first_message bytes.now }
{
    if bytes.len() < 8 {
        return Err(MsgFault::Short);
    }
    let message = message_read(nth_word(bytes, 0), bytes)?;
    let message = in_columns(message)?;
    with_tail(bytes, message)
}

#[tactic(auto, unfolding(pr_num::specs::Messages::with_tail, pr_num::specs::Messages::encoded_length, pr_num::specs::Messages::unpadded_length))]
fn with_tail(bytes: &[u8], message: Message) -> Result<(Message, usize), MsgFault>
    requires { tail_length message ≤ message_bytes_limit }
    ensures { result ≡ with_tail bytes.now message }
{
    let tail = tail_length(&message) as usize;
    let unpadded = 8 * (1 + operand_count(&message)) + tail;
    let encoded = unpadded + padding(tail);
    if bytes.len() < encoded {
        return Err(MsgFault::Short);
    }
    if are_zeros(&bytes[unpadded..encoded]) {
        Ok((message, encoded))
    } else {
        Err(MsgFault::BadOperand {
            word: (encoded / 8 - 1) as u32,
        })
    }
}
