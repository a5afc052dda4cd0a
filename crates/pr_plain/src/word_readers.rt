//! Words of a line, taken one after another.
ghost use Rattle.std.specs.Prelude.{◌≡◌, ◌++◌, [], ◌∷◌, OnErr, OnOk};
ghost use Rattle.pr_plain.specs.HexWords.{bytes_of_word};
ghost use Rattle.pr_plain.specs.Readings.{Says, Gives};
ghost use Rattle.pr_plain.specs.WordReading.{behind_word, number_at, id_at, bytes_at, syscall_at, fault_at, signal_of, signal_at, errno_at, file_at, mode_at, program_at};

use crate::numerals::{decimal_id_of, decimal_of};
use crate::pieces::Pieces;
use crate::refusals::Refused;
use pr_model::{File, Mode, file_of_name, mode_of_name};
use pr_num::{Bytes, Errno, Flt, Name, NoMemory, Sig, Sysno};
use pr_text::{bytes_of_digits, name_of};
use std::alloc::Global;

/// Takes this word, if it is the next.
#[tactic(auto, unfolding(crate::specs::WordReading::behind_word))]
pub fn pass(words: &mut Pieces<'_>, word: &[u8]) -> Option<()>
    ensures { Says (λ _. words.new) result (behind_word word.now words.old) }
{
    if words.next()? == word {
        Some(())
    } else {
        None
    }
}

/// Takes a number.
#[tactic(auto, unfolding(crate::specs::WordReading::number_at))]
pub fn number_at(words: &mut Pieces<'_>) -> Option<u64>
    ensures { Says (λ n. (n, words.new)) result (number_at words.old) }
{
    decimal_of(words.next()?)
}

/// Takes a number below 2^32.
#[tactic(auto, unfolding(crate::specs::WordReading::id_at))]
pub fn id_at(words: &mut Pieces<'_>) -> Option<u32>
    ensures { Says (λ n. (n, words.new)) result (id_at words.old) }
{
    decimal_id_of(words.next()?)
}

/// Takes the name of a system call.
#[tactic(auto, unfolding(crate::specs::WordReading::syscall_at))]
pub fn syscall_at(words: &mut Pieces<'_>) -> Option<Sysno>
    ensures { Says (λ c. (c, words.new)) result (syscall_at words.old) }
{
    Sysno::from_name(words.next()?)
}

/// Takes the name of a fault.
#[tactic(auto, unfolding(crate::specs::WordReading::fault_at))]
pub fn fault_at(words: &mut Pieces<'_>) -> Option<Flt>
    ensures { Says (λ f. (f, words.new)) result (fault_at words.old) }
{
    Flt::from_name(words.next()?)
}

/// The signal of a whole name, with `SIG`.
#[tactic(auto, unfolding(crate::specs::WordReading::signal_of))]
fn signal_of(word: &[u8]) -> Option<Sig>
    ensures { result ≡ signal_of word.now }
{
    let signal = Sig::from_name(word)?;
    if word == signal.name().as_bytes() {
        Some(signal)
    } else {
        None
    }
}

/// Takes the whole name of a signal.
#[tactic(auto, unfolding(crate::specs::WordReading::signal_at))]
pub fn signal_at(words: &mut Pieces<'_>) -> Option<Sig>
    ensures { Says (λ s. (s, words.new)) result (signal_at words.old) }
{
    signal_of(words.next()?)
}

/// Takes the name of an errno.
#[tactic(auto, unfolding(crate::specs::WordReading::errno_at))]
pub fn errno_at(words: &mut Pieces<'_>) -> Option<Errno>
    ensures { Says (λ e. (e, words.new)) result (errno_at words.old) }
{
    Errno::from_name(words.next()?)
}

/// Takes the name of a file.
#[tactic(auto, unfolding(crate::specs::WordReading::file_at))]
pub fn file_at(words: &mut Pieces<'_>) -> Option<File>
    ensures { Says (λ f. (f, words.new)) result (file_at words.old) }
{
    file_of_name(words.next()?)
}

/// Takes the name of a way to open a file.
#[tactic(auto, unfolding(crate::specs::WordReading::mode_at))]
pub fn mode_at(words: &mut Pieces<'_>) -> Option<Mode>
    ensures { Says (λ m. (m, words.new)) result (mode_at words.old) }
{
    mode_of_name(words.next()?)
}

/// Takes the name of a program.
#[tactic(auto, unfolding(crate::specs::WordReading::program_at))]
pub fn program_at(words: &mut Pieces<'_>) -> Option<Name>
    ensures { Says (λ n. (n, words.new)) result (program_at words.old) }
{
    name_of(words.next()?)
}

/// Puts an item behind others.
pub fn put<T: Drop>(items: &mut Vec<T>, item: T) -> Result<(), NoMemory>
    ensures put { OnOk result (items.new.items ≡ items.old.items ++ item ∷ []) }
    ensures kept { OnErr result (items.new.items ≡ items.old.items) }
{
    Ok(items.push(item)?)
}

/// The bytes that a word says; a dash says none.
#[tactic(auto, unfolding(crate::specs::HexWords::bytes_of_word))]
fn bytes_of_word(alloc: Global, word: &[u8]) -> Result<Bytes, Refused>
    ensures { Gives (λ bytes. bytes) result (bytes_of_word word.now) }
{
    match word {
        [] => Err(Refused::Malformed),
        [c] => {
            if *c != b'-' {
                return Err(Refused::Malformed);
            }
            Ok(Bytes::from_vec(Vec::new(alloc)))
        }
        [_, _, ..] => bytes_of_digits(alloc, word)?.ok_or(Refused::Malformed),
    }
}

/// Takes bytes in hex.
#[tactic(auto, unfolding(crate::specs::WordReading::bytes_at))]
pub fn bytes_at(alloc: Global, words: &mut Pieces<'_>) -> Result<Bytes, Refused>
    ensures { Gives (λ bytes. (bytes, words.new)) result (bytes_at words.old) }
{
    let word = words.next().ok_or(Refused::Malformed)?;
    bytes_of_word(alloc, word)
}
