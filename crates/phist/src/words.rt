//! What the words after the program's name ask for.
ghost use Rattle.std.specs.Prelude.{◌≡◌, ◌==◌, ◌<◌, length, map, position, IfOk, IfSome, option_map, string_bytes, Some};
ghost use Rattle.phist.specs.Words.{asked_for, begun, cut_at, every, has_width, is_width, joined, lwp_of, range_of, ready, waiting, with_flag, with_operand, with_range, with_who, with_width, with_word, with_words, work_of, work_with};

use pr_hist::{Chart, Selection, Who, write_spaced};
use pr_num::{Bytes, NoMemory};
use pr_text::{Text, id_of, number_of};
use std::alloc::Global;

/// What words ask for.
#[derive(Drop)]
pub enum Work {
    /// The whole history is told.
    Tells,
    /// A part of it is, or all of it with all fields.
    Selects(Selection),
    /// It is drawn as a chart, all of it or a part.
    Draws(Chart, Selection),
    /// The bytes that this line spells are written.
    Spells(Bytes),
    /// They ask for nothing, and get the usage line.
    Explains,
}

/// An option whose operand is still to come.
#[derive(Clone, Copy, Debug, PartialEq, Eq)]
pub enum Operand {
    /// `-p`
    Process,
    /// `-c`
    Controller,
    /// `-l`
    Lwp,
    /// `-n`
    Numbers,
    /// `-w`
    Width,
}

/// What options ask for, as far as they were read.
#[derive(Clone, Copy, Debug, PartialEq, Eq)]
pub struct Asking {
    /// The chart that is to be drawn; `None`: words are.
    pub chart: Option<Chart>,
    pub selection: Selection,
    /// The option that awaits its operand.
    pub operand: Option<Operand>,
}

/// The place of the first byte of a kind.
fn place_of(at: u8, word: &[u8]) -> Option<usize>
    ensures place { result ≡ position (λ c. c == at) word.now }
    ensures within { IfSome result (λ i. i < length word.now) }
{
    word.iter().position(|byte| *byte == at)
}

/// What stands before and behind the first byte of a kind, where there is one.
#[tactic(auto, unfolding(crate::specs::Words::cut_at))]
fn cut_at(at: u8, word: &[u8]) -> Option<(&[u8], &[u8])>
    ensures { option_map (λ ends. (ends.0.now, ends.1.now)) result ≡ cut_at at word.now }
{
    match place_of(at, word) {
        None => None,
        Some(i) => Some((&word[..i], &word[i + 1..])),
    }
}

/// The lwp of a word: the id of its process, a slash and its own.
#[tactic(auto, unfolding(crate::specs::Words::lwp_of))]
fn lwp_of(word: &[u8]) -> Option<Who>
    ensures { result ≡ lwp_of word.now }
{
    let (pid, lwp) = cut_at(b'/', word)?;
    let pid = id_of(pid)?;
    let lwp = id_of(lwp)?;
    Some(Who::Lwp(pid, lwp))
}

/// The numbers of two entries, with a dash between.
#[tactic(auto, unfolding(crate::specs::Words::range_of))]
fn range_of(word: &[u8]) -> Option<(u64, u64)>
    ensures { result ≡ range_of word.now }
{
    let (from, to) = cut_at(b'-', word)?;
    let from = number_of(from)?;
    let to = number_of(to)?;
    Some((from, to))
}

/// The options so far, with this selection.
fn ready(asking: Asking, selection: Selection) -> Option<Asking>
    ensures { result ≡ Some (ready asking selection) }
{
    Some(Asking {
        chart: asking.chart,
        selection,
        operand: None,
    })
}

/// Whose entries are told; once one is named, no other may be.
fn with_who(asking: Asking, who: Option<Who>) -> Option<Asking>
    ensures { result ≡ with_who asking who }
{
    let who = who?;
    if asking.selection.who.is_some() {
        return None;
    }
    let selection = Selection {
        who: Some(who),
        ..asking.selection
    };
    ready(asking, selection)
}

fn with_range(asking: Asking, range: Option<(u64, u64)>) -> Option<Asking>
    ensures { result ≡ with_range asking range }
{
    let (from, to) = range?;
    let selection = Selection {
        from,
        to,
        ..asking.selection
    };
    ready(asking, selection)
}

/// Whether lines may be so wide.
#[tactic(auto, unfolding(crate::specs::Words::is_width))]
fn is_width(width: u64) -> bool
    ensures { result ≡ is_width width }
{
    20 <= width && width <= 1_000
}

fn with_width(asking: Asking, width: Option<u64>) -> Option<Asking>
    ensures { result ≡ with_width asking width }
{
    let width = width?;
    if !is_width(width) {
        return None;
    }
    Some(Asking {
        chart: Some(Chart::Lanes(width)),
        selection: asking.selection,
        operand: None,
    })
}

/// An option with its operand.
#[tactic(auto, unfolding(crate::specs::Words::with_operand))]
fn with_operand(asking: Asking, operand: Operand, word: &[u8]) -> Option<Asking>
    ensures { result ≡ with_operand asking operand word.now }
{
    match operand {
        Operand::Process => with_who(asking, id_of(word).map(|pid| Who::Process(pid))),
        Operand::Controller => with_who(asking, id_of(word).map(|k| Who::Controller(k))),
        Operand::Lwp => with_who(asking, lwp_of(word)),
        Operand::Numbers => with_range(asking, range_of(word)),
        Operand::Width => with_width(asking, number_of(word)),
    }
}

fn waiting(asking: Asking, operand: Operand) -> Option<Asking>
    ensures { result ≡ Some (waiting asking operand) }
{
    Some(Asking {
        chart: asking.chart,
        selection: asking.selection,
        operand: Some(operand),
    })
}

/// Whether lines are drawn, which have a width.
fn has_width(chart: Option<Chart>) -> bool
    ensures { result ≡ has_width chart }
{
    match chart {
        Some(Chart::Lanes(_)) => true,
        Some(Chart::Picture) => false,
        None => false,
    }
}

/// An option; those but `-v` have an operand.
#[tactic(auto, unfolding(crate::specs::Words::with_flag))]
fn with_flag(asking: Asking, word: &[u8]) -> Option<Asking>
    ensures { result ≡ with_flag asking word.now }
{
    if word == b"-v".as_slice() {
        let selection = Selection {
            full: true,
            ..asking.selection
        };
        ready(asking, selection)
    } else if word == b"-p".as_slice() {
        waiting(asking, Operand::Process)
    } else if word == b"-c".as_slice() {
        waiting(asking, Operand::Controller)
    } else if word == b"-l".as_slice() {
        waiting(asking, Operand::Lwp)
    } else if word == b"-n".as_slice() {
        waiting(asking, Operand::Numbers)
    } else if word == b"-w".as_slice() && has_width(asking.chart) {
        waiting(asking, Operand::Width)
    } else {
        None
    }
}

/// One word more.
#[tactic(auto, unfolding(crate::specs::Words::with_word))]
fn with_word(asking: Asking, word: &[u8]) -> Option<Asking>
    ensures { result ≡ with_word asking word.now }
{
    match asking.operand {
        None => with_flag(asking, word),
        Some(operand) => with_operand(asking, operand, word),
    }
}

/// All words of a list.
#[tactic(auto, unfolding(crate::specs::Words::with_words))]
fn with_words(asking: Asking, words: &[String]) -> Option<Asking>
    ensures { result ≡ with_words asking (map string_bytes words.now) }
{
    let mut asking = asking;
    for word in words {
        asking = with_word(asking, word.as_str().as_bytes())?;
    }
    Some(asking)
}

/// Every entry.
fn every() -> Selection
    ensures { result ≡ every }
{
    Selection {
        who: None,
        from: 0,
        to: u64::MAX,
        full: false,
    }
}

fn begun(chart: Option<Chart>) -> Asking
    ensures { result ≡ begun chart }
{
    Asking {
        chart,
        selection: every(),
        operand: None,
    }
}

/// What options ask for, none of which may await its operand.
fn work_with(asking: Option<Asking>) -> Work
    ensures { result ≡ work_with asking }
{
    match asking {
        None => Work::Explains,
        Some(asking) => match (asking.operand, asking.chart) {
            (Some(_), _) => Work::Explains,
            (None, None) => Work::Selects(asking.selection),
            (None, Some(chart)) => Work::Draws(chart, asking.selection),
        },
    }
}

/// What options ask for, with this chart or with words.
#[tactic(auto, unfolding(crate::specs::Words::asked_for))]
fn asked_for(chart: Option<Chart>, words: &[String]) -> Work
    ensures { result ≡ asked_for chart (map string_bytes words.now) }
{
    work_with(with_words(begun(chart), words))
}

/// Words on a line, each behind a blank; `+` parts words as a blank does.
fn joined(alloc: Global, words: &[String]) -> Result<Bytes, NoMemory>
    ensures { IfOk result (λ line. line ≡ joined (map string_bytes words.now)) }
{
    let mut line = Text::new(alloc)?;
    for word in words {
        write_spaced(&mut line, word.as_str().as_bytes())?;
    }
    Ok(line.into_bytes())
}

fn spells(alloc: Global, words: &[String]) -> Result<Work, NoMemory>
    ensures { IfOk result (λ work. work ≡ Work.Spells (joined (map string_bytes words.now))) }
{
    let line = joined(alloc, words)?;
    Ok(Work::Spells(line))
}

/// What words ask for.
#[tactic(auto, unfolding(crate::specs::Words::work_of))]
pub fn work_of(alloc: Global, words: &[String]) -> Result<Work, NoMemory>
    ensures { IfOk result (λ work. work ≡ work_of (map string_bytes words.now)) }
{
    match words {
        [] => Ok(Work::Tells),
        [first, rest @ ..] => {
            if first.as_str().as_bytes() == b"bytes".as_slice() {
                spells(alloc, rest)
            } else if first.as_str().as_bytes() == b"lanes".as_slice() {
                Ok(asked_for(Some(Chart::Lanes(80)), rest))
            } else if first.as_str().as_bytes() == b"svg".as_slice() {
                Ok(asked_for(Some(Chart::Picture), rest))
            } else {
                Ok(asked_for(None, words))
            }
        }
    }
}
