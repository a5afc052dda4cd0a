//! Words of a core, each with the place at which it begins.
ghost use Rattle.std.specs.Prelude.{◌≡◌, ◌+◌, ◌≤◌, length, IfOk, OnOk, if◌then◌else◌};
ghost use Rattle.pr_num.specs.Records.{an_id};
ghost use Rattle.pr_core.specs.CoreReading.{word_read, word_in, exactly};

use crate::CoreFault;
use pr_codec::word;

/// The word at a place.
#[tactic(auto, unfolding(crate::specs::CoreReading::word_read))]
pub(crate) fn word_read(bytes: &[u8], at: usize) -> Result<u64, CoreFault>
    ensures value { result ≡ word_read bytes.now at }
    ensures whole { OnOk result (at + 8 ≤ length bytes.now) }
{
    match word(bytes, at) {
        Ok(word) => Ok(word),
        Err(short) => Err(CoreFault::Short { at: short.at }),
    }
}

/// A word of a place, where it may stand there.
pub(crate) fn in_range(fits: bool, at: usize, word: u64) -> Result<u64, CoreFault>
    ensures { result ≡ (if fits then Ok word else Err (CoreFault.Bad at)) }
{
    if fits {
        Ok(word)
    } else {
        Err(CoreFault::Bad { at })
    }
}

/// The word at a place, where it is this one.
#[tactic(auto, unfolding(crate::specs::CoreReading::word_in))]
pub(crate) fn exact_word(bytes: &[u8], expected: u64, at: usize) -> Result<u64, CoreFault>
    ensures value { result ≡ word_in (exactly expected) bytes.now at }
    ensures whole { OnOk result (at + 8 ≤ length bytes.now) }
    ensures same { IfOk result (λ word. word ≡ expected) }
{
    let word = word_read(bytes, at)?;
    in_range(word == expected, at, word)
}

/// The word at a place, where it is a process's id.
#[tactic(auto, unfolding(crate::specs::CoreReading::word_in))]
pub(crate) fn id_word(bytes: &[u8], at: usize) -> Result<u64, CoreFault>
    ensures value { result ≡ word_in an_id bytes.now at }
    ensures whole { OnOk result (at + 8 ≤ length bytes.now) }
{
    let word = word_read(bytes, at)?;
    in_range(word < 1 << 32, at, word)
}
