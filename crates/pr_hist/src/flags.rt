//! Flags by name.
ghost use Rattle.std.specs.Prelude.{◌≡◌, ◌++◌, ◌<◌, codes, OnOk};
ghost use Rattle.pr_text.specs.Numerals.{hex_text};
ghost use Rattle.pr_hist.specs.Flags.{flag_text, lwp_flags_text, mode_names, modes_text, process_flags_text, protection_text, run_flags_text, watch_flags_text};

use pr_num::NoMemory;
use pr_text::Text;

/// A flag by name, where it is set.
#[tactic(auto, unfolding(crate::specs::Flags::flag_text))]
fn flag(text: &mut Text, word: u64, bit: u64, name: &[u8]) -> Result<(), NoMemory>
    requires { 0 < bit }
    ensures { OnOk result (text.new ≡ text.old ++ flag_text word bit name.now) }
{
    if word / bit % 2 == 1 {
        text.text(b" ")?;
        text.text(name)
    } else {
        Ok(())
    }
}

/// A word that has a bit which is no flag.
fn hex_word(text: &mut Text, word: u64) -> Result<(), NoMemory>
    ensures { OnOk result (text.new ≡ text.old ++ (codes " " ++ hex_text word)) }
{
    text.text(b" ")?;
    text.hex(word)
}

/// What PCRUN is asked for.
#[tactic(auto, unfolding(crate::specs::Flags::run_flags_text))]
pub fn run_flags(text: &mut Text, word: u64) -> Result<(), NoMemory>
    ensures { OnOk result (text.new ≡ text.old ++ run_flags_text word) }
{
    if word >= 32 {
        return hex_word(text, word);
    }
    flag(text, word, 1, b"PRCSIG")?;
    flag(text, word, 2, b"PRCFAULT")?;
    flag(text, word, 4, b"PRSTEP")?;
    flag(text, word, 8, b"PRSABORT")?;
    flag(text, word, 16, b"PRSTOP")
}

fn mode_names(text: &mut Text, word: u64) -> Result<(), NoMemory>
    ensures { OnOk result (text.new ≡ text.old ++ mode_names word) }
{
    flag(text, word, 1, b"FORK")?;
    flag(text, word, 2, b"RLC")?;
    flag(text, word, 4, b"KLC")?;
    flag(text, word, 8, b"ASYNC")
}

/// Modes of a process.
#[tactic(auto, unfolding(crate::specs::Flags::modes_text))]
pub fn modes(text: &mut Text, word: u64) -> Result<(), NoMemory>
    ensures { OnOk result (text.new ≡ text.old ++ modes_text word) }
{
    if word < 16 {
        mode_names(text, word)
    } else {
        hex_word(text, word)
    }
}

/// Flags of a process.
#[tactic(auto, unfolding(crate::specs::Flags::process_flags_text))]
pub fn process_flags(text: &mut Text, word: u64) -> Result<(), NoMemory>
    ensures { OnOk result (text.new ≡ text.old ++ process_flags_text word) }
{
    if word >= 64 {
        return hex_word(text, word);
    }
    mode_names(text, word)?;
    flag(text, word, 16, b"ISSYS")?;
    flag(text, word, 32, b"VFORKP")
}

/// Flags of an lwp.
#[tactic(auto, unfolding(crate::specs::Flags::lwp_flags_text))]
pub fn lwp_flags(text: &mut Text, word: u64) -> Result<(), NoMemory>
    ensures { OnOk result (text.new ≡ text.old ++ lwp_flags_text word) }
{
    if word >= 64 {
        return hex_word(text, word);
    }
    flag(text, word, 1, b"STOPPED")?;
    flag(text, word, 2, b"ISTOP")?;
    flag(text, word, 4, b"DSTOP")?;
    flag(text, word, 8, b"STEP")?;
    flag(text, word, 16, b"ASLEEP")?;
    flag(text, word, 32, b"AGENT")
}

/// Flags of a watched area.
#[tactic(auto, unfolding(crate::specs::Flags::watch_flags_text))]
pub fn watch_flags(text: &mut Text, word: u64) -> Result<(), NoMemory>
    ensures { OnOk result (text.new ≡ text.old ++ watch_flags_text word) }
{
    if word >= 16 {
        return hex_word(text, word);
    }
    flag(text, word, 1, b"READ")?;
    flag(text, word, 2, b"WRITE")?;
    flag(text, word, 4, b"EXEC")?;
    flag(text, word, 8, b"TRAPAFTER")
}

/// The protection of a mapping.
#[tactic(auto, unfolding(crate::specs::Flags::protection_text))]
pub fn protection(text: &mut Text, word: u64) -> Result<(), NoMemory>
    ensures { OnOk result (text.new ≡ text.old ++ protection_text word) }
{
    if word >= 8 {
        return hex_word(text, word);
    }
    flag(text, word, 4, b"read")?;
    flag(text, word, 2, b"write")?;
    flag(text, word, 1, b"execute")
}
