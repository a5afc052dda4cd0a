ghost use Rattle.std.specs.Prelude.{◌≡◌, ◌+◌, ◌*◌, ◌≤◌, ◌<◌, ◌↔◌, ◌++◌, length, take, drop, vec_capacity, IsOk, IsErr, OnOk, OnErr, IfOk, IfErr};
ghost use Rattle.pr_num.specs.Words.{word_bytes, words_bytes};
ghost use Rattle.pr_codec.specs.Words.{word_at};

use byteorder::{ByteOrder, LittleEndian};
use pr_num::NoMemory;
use thiserror::Error;

/// How many bytes a word has.
pub const WORD: usize = 8;

/// Fewer than eight bytes stand from the byte at `at`.
#[derive(Clone, Copy, Debug, PartialEq, Eq, Error)]
#[error("no word of 8 bytes at byte {at}")]
pub struct Short {
    pub at: usize,
}

/// The word in the eight bytes from `at`, the least byte first. `at` may lie anywhere, also beyond the
/// end. Takes no memory.
pub fn word(bytes: &[u8], at: usize) -> Result<u64, Short>
    ensures short { IsErr result ↔ (length bytes.now < at + 8) }
    ensures place { IfErr result (λ e. e ≡ record { at = at }) }
    ensures whole { OnOk result (at + 8 ≤ length bytes.now) }
    ensures value { IfOk result (λ w. w ≡ word_at bytes.now at) }
    ensures spelled { IfOk result (λ w. word_bytes w ≡ take 8 (drop at bytes.now)) }
{
    if bytes.len() < WORD || at > bytes.len() - WORD {
        return Err(Short { at });
    }
    Ok(LittleEndian::read_u64(&bytes[at..at + WORD]))
}

/// Writes a word over the eight bytes from `at`, the least byte first, and leaves the others. Takes no
/// memory.
pub fn put(out: &mut [u8], at: usize, v: u64)
    requires { at + 8 ≤ length out.old }
    ensures { out.new ≡ take at out.old ++ word_bytes v ++ drop (at + 8) out.old }
{
    LittleEndian::write_u64(&mut out[at..at + WORD], v);
}

/// Adds a word at the end, the least byte first. Where memory runs out the bytes stay as they are, and it does not
/// while there is room for the word.
#[tactic(auto, unfolding(pr_num::specs::Words::word_bytes))]
pub fn push_word(out: &mut Vec<u8>, v: u64) -> Result<(), NoMemory>
    ensures ok { OnOk result (out.new.items ≡ out.old.items ++ word_bytes v) }
    ensures err { OnErr result (out.new.items ≡ out.old.items) }
    ensures room { length out.old.items + 8 ≤ vec_capacity out.old → IsOk result }
{
    out.extend_from_slice(&v.to_le_bytes())?;
    Ok(())
}

/// Reads as many words as `out` has places, from bytes that are as many words. Takes no memory.
pub fn read_words(bytes: &[u8], out: &mut [u64])
    requires { length bytes.now ≡ 8 * length out.old }
    ensures { words_bytes out.new ≡ bytes.now }
{
    LittleEndian::read_u64_into(bytes, out);
}

/// Writes words one after the other over all of `out`. Takes no memory.
pub fn put_words(out: &mut [u8], words: &[u64])
    requires { length out.old ≡ 8 * length words.now }
    ensures { out.new ≡ words_bytes words.now }
{
    LittleEndian::write_u64_into(words, out);
}
