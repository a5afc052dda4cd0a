//! A history, told from the source to the sink.
ghost use Rattle.std.specs.Prelude.{◌≡◌, ◌≢◌, Err, IfOk};
ghost use Rattle.pr_ends.specs.Ends.{ends_of};
ghost use Rattle.pr_io.specs.Faults.{Rose};
ghost use Rattle.pr_io.specs.Reading.{CameWithin};
ghost use Rattle.pr_num.specs.Limits.{checked_limit};
ghost use Rattle.phist.specs.Answers.{Answers, IsAnswerStatus};
ghost use Rattle.phist.specs.Telling.{EndsAs, Gives, IsExplained, SpellsLine, TellsHistory};

use crate::answers::{Answer, answer_to, spelled};
use crate::statuses::Status;
use crate::words::Work;
use pr_ends::{Unread, take_input};
use pr_io::{Sink, Source, write_all};
use pr_num::limits::CHECKED_LIMIT;
use std::alloc::Global;

/// What is told of words that ask for nothing.
const USAGE: &[u8] =
    b"usage: phist [lanes [-w WIDTH] | svg] [-v] [-p PID | -c K | -l P/L] [-n FROM-TO] | bytes TEXT\n";

/// Writes a text, and ends with a status. Takes no memory.
fn put<K: Sink>(sink: &mut K, text: &[u8], status: Status) -> Status
    requires { status ≢ Status.WriteFailed }
    ensures given { Gives (record { status = status; text = text.now }) (K.written sink.old) (K.written sink.new)
        (K.faults sink.old) (K.faults sink.new) result }
    ensures status { result ≢ Status.WriteFailed → result ≡ status }
{
    match write_all(sink, text) {
        Ok(()) => status,
        Err(_) => Status::WriteFailed,
    }
}

/// The answer to what the source has.
fn answer_source<S: Source>(alloc: Global, work: &Work, source: &mut S) -> Result<Answer, Unread>
    ensures answer { IfOk result (λ a. Answers work.now checked_limit (S.left source.old) (S.left source.new)
        (record { status = a.status; text = a.text })) }
    ensures status { IfOk result (λ a. IsAnswerStatus a.status) }
    ensures failed { result ≡ Err Unread.Failed → Rose (S.faults source.old) (S.faults source.new) }
    ensures failed_within { result ≡ Err Unread.Failed
        → CameWithin checked_limit (S.left source.old) (S.left source.new) }
    ensures no_fault { result ≢ Err Unread.Failed → S.faults source.new ≡ S.faults source.old }
{
    let input = take_input(alloc, source, CHECKED_LIMIT)?;
    answer_to(alloc, work, input)
}

/// Tells the history of the source in words, or names the first line that is wrong.
fn tell<S: Source, K: Sink>(alloc: Global, work: &Work, source: &mut S, sink: &mut K) -> Status
    ensures { TellsHistory work.now (ends_of S.left S.faults K.written K.faults source.old sink.old)
        (ends_of S.left S.faults K.written K.faults source.new sink.new) result }
{
    match answer_source(alloc, work, source) {
        Ok(answer) => put(sink, answer.text.as_slice(), answer.status),
        Err(Unread::Failed) => Status::ReadFailed,
        Err(Unread::NoMemory) => Status::OutOfMemory,
    }
}

/// Writes how the program is called.
#[tactic(auto, unfolding(crate::specs::Answers::explained))]
fn explain<S: Source, K: Sink>(source: &mut S, sink: &mut K) -> Status
    ensures { IsExplained (ends_of S.left S.faults K.written K.faults source.old sink.old)
        (ends_of S.left S.faults K.written K.faults source.new sink.new) result }
{
    let _ = source;
    put(sink, USAGE, Status::Usage)
}

/// Writes the bytes that a line spells, in hex.
fn spell<S: Source, K: Sink>(alloc: Global, line: &[u8], source: &mut S, sink: &mut K) -> Status
    ensures { SpellsLine line.now (ends_of S.left S.faults K.written K.faults source.old sink.old)
        (ends_of S.left S.faults K.written K.faults source.new sink.new) result }
{
    let _ = source;
    match spelled(alloc, line) {
        Ok(answer) => put(sink, answer.text.as_slice(), answer.status),
        Err(Unread::Failed) => unreachable!(),
        Err(Unread::NoMemory) => Status::OutOfMemory,
    }
}

/// Tells the history of the source in words or draws it, all of it or a part, writes the bytes that a line spells,
/// or writes how the program is called.
///
/// Status 0: it was told, a block for each entry, in their order. Status 1: the words ask for nothing. Status 2: the
/// first line that is wrong was named, there were too many entries for a picture, or the line spells no bytes.
/// Status 5, 6 and 7: a read or a write failed, or memory ran out.
pub fn serve<S: Source, K: Sink>(alloc: Global, work: &Work, source: &mut S, sink: &mut K) -> Status
    ensures { EndsAs work.now (ends_of S.left S.faults K.written K.faults source.old sink.old)
        (ends_of S.left S.faults K.written K.faults source.new sink.new) result }
{
    match work {
        Work::Tells => tell(alloc, work, source, sink),
        Work::Selects(_) => tell(alloc, work, source, sink),
        Work::Draws(_, _) => tell(alloc, work, source, sink),
        Work::Spells(line) => spell(alloc, line.as_slice(), source, sink),
        Work::Explains => explain(source, sink),
    }
}
