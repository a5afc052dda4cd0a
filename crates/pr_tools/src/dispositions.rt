//! The text of psig.
ghost use Rattle.std.specs.Prelude.{◌≡◌, ◌++◌, OnOk};
ghost use Rattle.pr_num.specs.Signals.{signals};
ghost use Rattle.pr_tools.specs.Psig.{disposition_text, signal_line, signal_lines, psig_text};

use crate::decoding::fill;
use crate::texts::{end_line, push_header};
use pr_codec::WORD;
use pr_num::limits::SIGNAL_COUNT;
use pr_num::{NoMemory, Sig};
use pr_rec::Disposition;
use pr_text::Text;

/// What is done at a signal.
#[tactic(auto, unfolding(crate::specs::Psig::disposition_text))]
fn push_disposition(text: &mut Text, word: u64, disposition: Disposition) -> Result<(), NoMemory>
    ensures { OnOk result (text.new ≡ text.old ++ disposition_text word disposition) }
{
    match disposition {
        Disposition::Default => text.text(b"default"),
        Disposition::Ignored => text.text(b"ignored"),
        Disposition::Caught => {
            text.text(b"caught ")?;
            text.hex(word)
        }
    }
}

/// The line of a signal.
#[tactic(auto, unfolding(crate::specs::Psig::signal_line))]
fn push_signal(text: &mut Text, signal: Sig, word: u64) -> Result<(), NoMemory>
    ensures { OnOk result (text.new ≡ text.old ++ signal_line signal word) }
{
    text.text(b" ")?;
    text.text(signal.name().as_bytes())?;
    text.text(b" ")?;
    push_disposition(text, word, Disposition::of(word))?;
    end_line(text)
}

/// The lines of all signals, each with its word.
fn push_signals(text: &mut Text, words: &[u64; SIGNAL_COUNT]) -> Result<(), NoMemory>
    ensures { OnOk result (text.new ≡ text.old ++ signal_lines signals words.now) }
{
    for (place, word) in words.iter().enumerate() {
        push_signal(text, Sig::ALL[place], *word)?;
    }
    Ok(())
}

/// The text of a process, of its dispositions.
#[tactic(auto, unfolding(crate::specs::Psig::psig_text))]
pub fn push_psig(text: &mut Text, pid: u32, bytes: &[u8]) -> Result<(), NoMemory>
    ensures { OnOk result (text.new ≡ text.old ++ psig_text pid bytes.now) }
{
    push_header(text, pid)?;
    if bytes.len() != WORD * SIGNAL_COUNT {
        return Ok(());
    }
    let mut words = [0; SIGNAL_COUNT];
    fill(bytes, &mut words);
    push_signals(text, &words)
}
