//! What is answered to an input.
ghost use Rattle.std.specs.Prelude.{◌≡◌, ◌≢◌, ◌≤◌, Err, ◌+◌, ◌<◌, ◌^◌, ◌++◌, codes, length, IfOk, IfSome, OnOk};
ghost use Rattle.pr_num.specs.Limits.{checked_limit};
ghost use Rattle.pr_plain.specs.EntryReading.{history_of};
ghost use Rattle.phist.specs.Answers.{IsAnswerStatus, answer_alone, answer_at, answer_of, answer_to, answer_to_text, begins_history, drawn_or, in_words, refused_at, shown, shown_text, spelled, spelled_or};

use crate::sources::names_of;
use crate::statuses::Status;
use crate::words::Work;
use pr_ends::Unread;
use pr_hist::{Names, bytes_of_line, chart_of, selected_text, text_of, write_hex_bytes};
use pr_input::{Mark, kind_name, lines_above};
use pr_model::History;
use pr_num::limits::SCENARIO_LIMIT;
use pr_num::{Bytes, NoMemory};
use pr_output::refusal_line;
use pr_plain::{HistRefusal, read_history};
use pr_scen::{ScenRefusal, read_scenario};
use pr_text::Text;
use std::alloc::Global;

/// A status, and what is written.
#[derive(Drop)]
pub struct Answer {
    pub status: Status,
    pub text: Bytes,
}

/// The input is refused, at a line for a reason.
#[tactic(auto, unfolding(crate::specs::Answers::refused_at))]
fn refuse(alloc: Global, line: u32, kind: &[u8]) -> Result<Answer, NoMemory>
    ensures answer { IfOk result (λ a. record { status = a.status; text = a.text } ≡ refused_at line kind.now) }
    ensures status { IfOk result (λ a. IsAnswerStatus a.status) }
{
    let text = refusal_line(alloc, line, kind)?;
    Ok(Answer {
        status: Status::Refused,
        text,
    })
}

/// What is told of a history, before which this is known.
#[tactic(auto, unfolding(crate::specs::Answers::shown_text))]
fn shown_text(
    alloc: Global,
    work: &Work,
    names: Names,
    history: &History,
) -> Result<Bytes, NoMemory>
    ensures { IfOk result (λ text. text ≡ shown_text work.now names history.now.entries) }
{
    match work {
        Work::Tells => text_of(alloc, names, history),
        Work::Selects(selection) => selected_text(alloc, *selection, names, history),
        Work::Draws(_, _) | Work::Spells(_) | Work::Explains => Ok(Bytes::new(alloc)),
    }
}

/// A chart, or that there are too many rows for it.
#[tactic(auto, unfolding(crate::specs::Answers::drawn_or))]
fn drawn_or(alloc: Global, text: Option<Bytes>) -> Result<Answer, NoMemory>
    ensures answer { IfOk result (λ a. record { status = a.status; text = a.text } ≡ drawn_or text) }
    ensures status { IfOk result (λ a. IsAnswerStatus a.status) }
{
    match text {
        None => {
            let mut text = Text::new(alloc)?;
            text.text(b"more than 5,000 entries: take a part by -n FROM-TO\n")?;
            Ok(Answer {
                status: Status::Refused,
                text: text.into_bytes(),
            })
        }
        Some(text) => Ok(Answer {
            status: Status::Done,
            text,
        }),
    }
}

/// The history in words.
#[tactic(auto, unfolding(crate::specs::Answers::in_words))]
fn tell_in_words(
    alloc: Global,
    work: &Work,
    names: Names,
    history: &History,
) -> Result<Answer, NoMemory>
    ensures answer { IfOk result (λ a.
        record { status = a.status; text = a.text } ≡ in_words work.now names history.now.entries) }
    ensures status { IfOk result (λ a. IsAnswerStatus a.status) }
{
    let text = shown_text(alloc, work, names, history)?;
    Ok(Answer {
        status: Status::Done,
        text,
    })
}

/// What is answered to a history, before which this is known.
#[tactic(auto, unfolding(crate::specs::Answers::shown))]
fn tell(alloc: Global, work: &Work, names: Names, history: &History) -> Result<Answer, NoMemory>
    ensures answer { IfOk result (λ a.
        record { status = a.status; text = a.text } ≡ shown work.now names history.now.entries) }
    ensures status { IfOk result (λ a. IsAnswerStatus a.status) }
{
    match work {
        Work::Draws(chart, selection) => {
            let text = chart_of(alloc, *chart, *selection, names, history)?;
            drawn_or(alloc, text)
        }
        Work::Tells | Work::Selects(_) | Work::Spells(_) | Work::Explains => {
            tell_in_words(alloc, work, names, history)
        }
    }
}

/// The answer to the text of a history, before which this is known. Its lines count from `first_line`.
fn answer_of(
    alloc: Global,
    work: &Work,
    names: Names,
    text: &[u8],
    first_line: u32,
) -> Result<Answer, Unread>
    requires { first_line + length text.now < 2 ^ 32 }
    ensures memory { result ≢ Err Unread.Failed }
    ensures status { IfOk result (λ a. IsAnswerStatus a.status) }
    ensures answer { IfOk result (λ a.
        record { status = a.status; text = a.text } ≡ answer_of work.now names (history_of first_line text.now)) }
{
    match read_history(alloc, text, first_line) {
        Ok(history) => Ok(tell(alloc, work, names, &history)?),
        Err(HistRefusal::Line(line)) => Ok(refuse(alloc, line, b"BadHistory")?),
        Err(HistRefusal::NoMemory) => Err(Unread::NoMemory),
    }
}

/// The answer to a history that stands alone.
fn answer_alone(alloc: Global, work: &Work, text: &[u8]) -> Result<Answer, Unread>
    requires { length text.now ≤ checked_limit }
    ensures memory { result ≢ Err Unread.Failed }
    ensures status { IfOk result (λ a. IsAnswerStatus a.status) }
    ensures answer { IfOk result (λ a. record { status = a.status; text = a.text } ≡ answer_alone work.now text.now) }
{
    answer_of(alloc, work, Names::new(alloc), text, 1)
}

/// The answer to a scenario, the line `%history` at this place, and a history.
#[tactic(auto, unfolding(crate::specs::Answers::answer_at))]
fn answer_at(alloc: Global, work: &Work, text: &[u8], place: usize) -> Result<Answer, Unread>
    requires within { place ≤ length text.now }
    requires few { length text.now ≤ checked_limit }
    ensures memory { result ≢ Err Unread.Failed }
    ensures status { IfOk result (λ a. IsAnswerStatus a.status) }
    ensures answer { IfOk result (λ a.
        record { status = a.status; text = a.text } ≡ answer_at work.now text.now place) }
{
    let above = &text[..place];
    match read_scenario(alloc, above) {
        Ok(scenario) => {
            let names = names_of(alloc, scenario, above)?;
            let below = Mark::History.below(text, place);
            answer_of(alloc, work, names, below, lines_above(text, place) + 2)
        }
        Err(ScenRefusal::Fault(fault)) => Ok(refuse(alloc, fault.line, kind_name(fault.kind))?),
        Err(ScenRefusal::NoMemory) => Err(Unread::NoMemory),
    }
}

/// Whether a text begins as a history does.
#[tactic(auto, unfolding(crate::specs::Answers::begins_history))]
fn begins_history(text: &[u8]) -> bool
    ensures { result ≡ begins_history text.now }
{
    text.starts_with(b"history ")
}

/// The answer to a text: to a history, or to a scenario and a history.
#[tactic(auto, unfolding(crate::specs::Answers::answer_to_text))]
fn answer_to_text(alloc: Global, work: &Work, text: &[u8]) -> Result<Answer, Unread>
    requires { length text.now ≤ checked_limit }
    ensures memory { result ≢ Err Unread.Failed }
    ensures status { IfOk result (λ a. IsAnswerStatus a.status) }
    ensures answer { IfOk result (λ a. record { status = a.status; text = a.text } ≡ answer_to_text work.now text.now) }
{
    if begins_history(text) {
        return answer_alone(alloc, work, text);
    }
    match Mark::History.place(SCENARIO_LIMIT, text) {
        Some(place) => answer_at(alloc, work, text, place),
        None => answer_alone(alloc, work, text),
    }
}

/// The answer to an input.
#[tactic(auto, unfolding(crate::specs::Answers::answer_to))]
pub fn answer_to(alloc: Global, work: &Work, input: Option<Bytes>) -> Result<Answer, Unread>
    requires { IfSome input (λ bytes. length bytes ≤ checked_limit) }
    ensures memory { result ≢ Err Unread.Failed }
    ensures status { IfOk result (λ a. IsAnswerStatus a.status) }
    ensures answer { IfOk result (λ a. record { status = a.status; text = a.text } ≡ answer_to work.now input) }
{
    match input {
        None => Ok(refuse(alloc, 0, b"TooLong")?),
        Some(bytes) => answer_to_text(alloc, work, bytes.as_slice()),
    }
}

/// The digits of bytes, or that there are none.
#[tactic(auto, unfolding(crate::specs::Answers::spelled_or))]
fn spelled_or(alloc: Global, bytes: Option<Bytes>) -> Result<Answer, NoMemory>
    ensures answer { IfOk result (λ a. record { status = a.status; text = a.text } ≡ spelled_or bytes) }
    ensures status { IfOk result (λ a. IsAnswerStatus a.status) }
{
    let mut text = Text::new(alloc)?;
    match bytes {
        None => {
            text.text(b"neither an instruction nor a control message\n")?;
            Ok(Answer {
                status: Status::Refused,
                text: text.into_bytes(),
            })
        }
        Some(bytes) => {
            write_hex_bytes(&mut text, bytes.as_slice())?;
            text.text(b"\n")?;
            Ok(Answer {
                status: Status::Done,
                text: text.into_bytes(),
            })
        }
    }
}

/// The bytes that a line spells, in hex.
#[tactic(auto, unfolding(crate::specs::Answers::spelled))]
pub fn spelled(alloc: Global, line: &[u8]) -> Result<Answer, Unread>
    ensures memory { result ≢ Err Unread.Failed }
    ensures answer { IfOk result (λ a. record { status = a.status; text = a.text } ≡ spelled line.now) }
    ensures status { IfOk result (λ a. IsAnswerStatus a.status) }
{
    let bytes = bytes_of_line(alloc, line)?;
    Ok(spelled_or(alloc, bytes)?)
}
