ghost use Rattle.std.specs.Prelude.{◌≡◌, ◌++◌, ◌≤◌, length, replicate, None, IfOk, OnOk};
ghost use Rattle.std.specs.List.{All};
ghost use Rattle.pr_num.specs.Words.{IsWord, words_bytes};
ghost use Rattle.pr_num.specs.Messages.{Spells, spelling, message_code, operands, operand_count, bad_operand, tail_length, padding};

use crate::paddings::padding;
use pr_codec::push_word;
use pr_num::{Bytes, Message, NoMemory};
use std::alloc::{AllocError, Global};

/// As many zeros as a message can be padded with.
const ZEROS: [u8; 7] = [0; 7];

/// The bytes that encode a message: its code, its operand words and `tail`, padded with zeros to a multiple of 8. The
/// tail has as many bytes as `tail_length` says. Operands may lie outside their columns: then the bytes encode no
/// message, and `decode_one` refuses the first such operand.
pub fn encode(alloc: Global, message: &Message, tail: &[u8]) -> Result<Bytes, NoMemory>
    requires { length tail.now ≡ tail_length message.now }
    ensures bytes { IfOk result (λ b. b ≡ spelling message.now tail.now) }
    ensures spelt { bad_operand message.now ≡ None → IfOk result (λ b. Spells b message.now tail.now) }
{
    let mut bytes = Vec::new(alloc);
    push_word(&mut bytes, code(message))?;
    put_operands(&mut bytes, message)?;
    bytes.extend_from_slice(tail)?;
    put_padding(&mut bytes, tail.len())?;
    Ok(Bytes::from_vec(bytes))
}

/// The code of a message.
#[tactic(auto, unfolding(pr_num::specs::Messages::message_code))]
fn code(message: &Message) -> u64
    ensures { result ≡ message_code message.now }
{
    match message {
        Message::Stop => 1,
        Message::Dstop => 2,
        Message::Wstop => 3,
        Message::Twstop { .. } => 4,
        Message::Run { .. } => 5,
        Message::Csig => 6,
        Message::Cfault => 7,
        Message::Ssig { .. } => 8,
        Message::Kill { .. } => 9,
        Message::Unkill { .. } => 10,
        Message::Shold { .. } => 11,
        Message::Strace { .. } => 12,
        Message::Sfault { .. } => 13,
        Message::Sentry { .. } => 14,
        Message::Sexit { .. } => 15,
        Message::Set { .. } => 16,
        Message::Unset { .. } => 17,
        Message::Sreg { .. } => 18,
        Message::Svaddr { .. } => 19,
        Message::Watch { .. } => 20,
        Message::Agent { .. } => 21,
        Message::Read { .. } => 22,
        Message::Write { .. } => 23,
    }
}

/// Adds the operand words of a message.
#[tactic(auto, unfolding(pr_num::specs::Messages::operands, pr_num::specs::Messages::operand_count))]
fn put_operands(out: &mut Vec<u8>, message: &Message) -> Result<(), NoMemory>
    ensures bytes { OnOk result (out.new.items ≡ out.old.items ++ words_bytes (operands message.now)) }
    ensures words { All IsWord (operands message.now) }
    ensures count { length (operands message.now) ≡ operand_count message.now }
{
    match *message {
        Message::Stop | Message::Dstop | Message::Wstop | Message::Csig | Message::Cfault => {
            put_words(out, &[])
        }
        Message::Twstop { ms } => put_words(out, &[ms]),
        Message::Run { flags } => put_words(out, &[flags]),
        Message::Ssig { signal } | Message::Kill { signal } | Message::Unkill { signal } => {
            put_words(out, &[signal])
        }
        Message::Shold { signals } | Message::Strace { signals } => put_words(out, &[signals]),
        Message::Sfault { faults } => put_words(out, &[faults]),
        Message::Sentry { calls } | Message::Sexit { calls } => put_words(out, &[calls]),
        Message::Set { modes } | Message::Unset { modes } => put_words(out, &[modes]),
        Message::Sreg { regs } | Message::Agent { regs } => put_words(out, &regs),
        Message::Svaddr { pc } => put_words(out, &[pc]),
        Message::Watch { at, size, flags } => put_words(out, &[at, size, flags]),
        Message::Read { at, len } | Message::Write { at, len } => put_words(out, &[at, len]),
    }
}

fn put_words(out: &mut Vec<u8>, words: &[u64]) -> Result<(), NoMemory>
    ensures bytes { OnOk result (out.new.items ≡ out.old.items ++ words_bytes words.now) }
    ensures words { All IsWord words.now }
{
    for word in words {
        push_word(out, *word)?;
    }
    Ok(())
}

/// Adds the zeros that pad so many bytes to whole words.
#[tactic(auto, using(crate::proofs::EncodeLemmas::zeros))]
fn put_padding(out: &mut Vec<u8>, len: usize) -> Result<(), AllocError>
    ensures { OnOk result (out.new.items ≡ out.old.items ++ replicate (padding len) 0) }
{
    out.extend_from_slice(&ZEROS[..padding(len)])
}
