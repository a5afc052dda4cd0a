//! Histories, read from their text.
ghost use Rattle.std.specs.Prelude.{◌≡◌, ◌+◌, ◌*◌, ◌<◌, ◌≤◌, ◌^◌, List, [], length, IfOk, IfErr};
ghost use Rattle.pr_model.specs.declared.events.Entry.{Entry as AnyEntry};
ghost use Rattle.pr_plain.specs.Histories.{BeginsWith, Refuses};
ghost use Rattle.pr_plain.specs.EntryLines.{entries_left};
ghost use Rattle.pr_plain.specs.EntryReading.{history_of};
ghost use Rattle.pr_plain.specs.Readings.{Answers};

use crate::entry_lines::EntryLines;
use crate::refusals::HistRefusal;
use pr_model::History;
use pr_num::NoMemory;
use std::alloc::Global;

/// Room is kept for one entry in so many bytes of text: the line `0 1/1 ran` has so many, its newline counted.
const BYTES_PER_ENTRY: usize = 10;

/// A history without entries, and with room for so many: for no more than a text has, whatever its heading says.
fn empty_history(alloc: Global, room: usize, text: &[u8]) -> Result<History, NoMemory>
    requires { room * 10 ≤ length text.now }
    ensures { IfOk result (λ h. h.entries ≡ []) }
{
    prove!(room <= text.len());
    let mut history = History::new(alloc);
    history.reserve(room)?;
    Ok(history)
}

/// The entries that lines have; `history` has none yet.
#[tactic(auto, using(crate::proofs::EntryLoop::entries_read))]
fn read_entries(
    alloc: Global,
    lines: EntryLines<'_>,
    history: History,
) -> Result<History, HistRefusal>
    requires unread { lines.read ≡ 0 }
    requires empty { history.entries ≡ [] }
    ensures { Answers (λ h. h.entries) result (entries_left lines.entry) }
{
    let mut lines = lines;
    let mut history = history;
    for number in 0..lines.count() {
        let entry = lines.next(alloc)?;
        history.reserve(1)?;
        history.push(entry);
    }
    Ok(history)
}

/// The history that the text begins with, or its first line that is wrong.
#[tactic(auto, using(crate::proofs::EntryLoop::entries_read), unfolding(crate::specs::EntryReading::history_in))]
fn read_text(alloc: Global, text: &[u8], first_line: u32) -> Result<History, HistRefusal>
    requires { first_line + length text.now < 2 ^ 32 }
    ensures { Answers (λ h. h.entries) result (history_of first_line text.now) }
{
    match EntryLines::of(text, first_line) {
        Err(line) => Err(HistRefusal::Line(line)),
        Ok(lines) => {
            let room = lines.count().min((text.len() / BYTES_PER_ENTRY) as u64) as usize;
            let history = empty_history(alloc, room, text)?;
            read_entries(alloc, lines, history)
        }
    }
}

/// The history that a text begins with: a heading that tells how many entries there are, and each entry on a line of
/// its own, as they are written. Or the first line that is wrong, where the text's lines count from `first_line`; where
/// the lines end too early that is the line behind the last. The last line may lack its newline, and what stands below
/// the last entry is not looked at.
///
/// Goes over the text once. Of memory it takes what the history needs, and at most twice that for handles of a poll.
pub fn read_history(alloc: Global, text: &[u8], first_line: u32) -> Result<History, HistRefusal>
    requires { first_line + length text.now < 2 ^ 32 }
    // What is read is what the text begins with.
    ensures read { IfOk result (λ h. BeginsWith text.now h.entries) }
    // What it begins with is read, and nothing else, unless memory runs out.
    ensures only { (es : List AnyEntry) → BeginsWith text.now es → Answers (λ h. h.entries) result (Ok es) }
    // What is refused names the first line that is wrong.
    ensures refused { IfErr result (Refuses first_line text.now) }
    // Both are a function of the text, and a history has no more entries than its text has bytes.
    ensures same { Answers (λ h. h.entries) result (history_of first_line text.now) }
    ensures few { IfOk result (λ h. length h.entries ≤ length text.now) }
{
    read_text(alloc, text, first_line)
}
