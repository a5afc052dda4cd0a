//! The lines of the outside are answered, one after another.
ghost use Rattle.std.specs.Prelude.{◌≡◌, ◌≢◌, ◌⊎◌, Err, IfOk, IsErrOf, OnErr, OnOk};
ghost use Rattle.pr_asks.specs.Asks.{name_of};
ghost use Rattle.pr_io.specs.Faults.{Rose};
ghost use Rattle.pr_io.specs.Known.{with_end};
ghost use Rattle.pr_drive.specs.Rounds.{FinishesRound};
ghost use Rattle.pr_drive.specs.Sessions.{AnsweredAll, AnsweredIf, AnsweredSome, AnsweredUnread, CameOf, CutAnswer};
ghost use Rattle.pr_drive.specs.Sessions.{CutAt, CutNext, PutAnswer, UnreadNext, came_of, is_end, is_last};
ghost use Rattle.pr_drive.specs.Statuses.{CountsFaults};
ghost use Rattle.pr_output.specs.Output.{AppendsSome, refusal_text};

use crate::ends::CutOff;
use crate::sessions::Session;
use pr_asks::{Ask, AskKind, Unasked, read_ask};
use pr_io::{Sink, Source, write_all};
use pr_lines::Lines;
use pr_num::NoMemory;
use pr_output::write_refusal;
use std::alloc::Global;

/// What came of a line.
#[derive(Clone, Copy)]
pub enum Came {
    /// It ends the session.
    End,
    /// It was answered, and the outside's turn is over.
    Over,
    /// It was answered, and it is the outside's turn still.
    Still,
}

impl Came {
    /// Whether the session ends.
    fn is_last(self) -> bool
        ensures { result ≡ is_last self }
    {
        match self {
            Came::End => true,
            Came::Over | Came::Still => false,
        }
    }
}

/// Whether a line asks for the end.
fn is_end(ask: &Ask) -> bool
    ensures { result ≡ is_end ask.now }
{
    match ask {
        Ask::End => true,
        _ => false,
    }
}

/// What came of a line that was answered.
#[tactic(auto, unfolding(crate::specs::Sessions::came_of))]
fn came_of(over: bool) -> Came
    ensures { result ≡ came_of over }
{
    if over { Came::Over } else { Came::Still }
}

/// Does what a line asks for, and puts the reply. Says whether the outside's turn is over.
fn put_answer<K: Sink>(
    session: &mut Session,
    ask: Ask,
    reply: &mut Vec<u8>,
    sink: &mut K,
) -> Result<bool, CutOff>
    ensures put { IfOk result (λ over.
        PutAnswer ask over session.old session.new (K.written sink.old) (K.written sink.new)) }
    ensures cut { OnErr result
        ((K.written sink.new ≡ K.written sink.old) ⊎ CutAnswer ask session.old (K.written sink.old)
        (K.written sink.new)) }
    ensures rose { IsErrOf result CutOff.WriteFailed → Rose (K.faults sink.old) (K.faults sink.new) }
    ensures no_fault { result ≢ Err CutOff.WriteFailed → K.faults sink.new ≡ K.faults sink.old }
    ensures not_read { result ≢ Err CutOff.ReadFailed }
{
    reply.clear();
    let over = session.answer(ask, reply)?;
    write_all(sink, reply)?;
    Ok(over)
}

/// Puts why a line asks for nothing.
fn put_refusal<K: Sink>(
    alloc: Global,
    number: u32,
    kind: AskKind,
    sink: &mut K,
) -> Result<(), CutOff>
    ensures put { OnOk result
        (K.written sink.new ≡ with_end (K.written sink.old) (refusal_text number (name_of kind))) }
    ensures cut { OnErr result
        (AppendsSome (K.written sink.old) (K.written sink.new) (refusal_text number (name_of kind))) }
    ensures rose { IsErrOf result CutOff.WriteFailed → Rose (K.faults sink.old) (K.faults sink.new) }
    ensures no_fault { result ≢ Err CutOff.WriteFailed → K.faults sink.new ≡ K.faults sink.old }
    ensures not_read { result ≢ Err CutOff.ReadFailed }
{
    write_refusal(alloc, sink, number, kind.name())?;
    Ok(())
}

/// Answers a line, and puts the reply.
fn answer_line<K: Sink>(
    alloc: Global,
    session: &mut Session,
    number: u32,
    line: &[u8],
    reply: &mut Vec<u8>,
    sink: &mut K,
) -> Result<Came, CutOff>
    ensures came { IfOk result (λ came.
        CameOf came number line.now session.old session.new (K.written sink.old) (K.written sink.new)) }
    ensures cut { OnErr result (CutAt number line.now session.old (K.written sink.old) (K.written sink.new)) }
    ensures rose { IsErrOf result CutOff.WriteFailed → Rose (K.faults sink.old) (K.faults sink.new) }
    ensures no_fault { result ≢ Err CutOff.WriteFailed → K.faults sink.new ≡ K.faults sink.old }
    ensures not_read { result ≢ Err CutOff.ReadFailed }
{
    match read_ask(alloc, line) {
        Ok(ask) => {
            if is_end(&ask) {
                return Ok(Came::End);
            }
            let over = put_answer(session, ask, reply, sink)?;
            Ok(came_of(over))
        }
        Err(Unasked::Refused(kind)) => {
            put_refusal(alloc, number, kind, sink)?;
            Ok(Came::Still)
        }
        Err(Unasked::NoMemory) => Err(CutOff::NoMemory),
    }
}

/// Others have their turn, where the outside's is over.
fn pass(session: &mut Session, came: Came) -> Result<(), NoMemory>
    ensures over { came ≡ Came.Over → OnOk result (FinishesRound 0 session.old session.new) }
    ensures still { came ≡ Came.Still → OnOk result (session.new ≡ session.old) }
{
    match came {
        Came::Over => session.pass_turn(),
        Came::Still | Came::End => Ok(()),
    }
}

/// Takes the next line, answers it, and lets others have their turn after a call. Says whether a line was answered;
/// else it was the end, or there was none.
fn answer_next<S: Source, K: Sink>(
    alloc: Global,
    session: &mut Session,
    number: u32,
    lines: &mut Lines,
    line: &mut Vec<u8>,
    reply: &mut Vec<u8>,
    source: &mut S,
    sink: &mut K,
) -> Result<bool, CutOff>
    ensures answered { IfOk result (λ there. AnsweredIf there number
        (record { input = record { held = lines.old.held; left = S.left source.old }; rounds = session.old })
        (record { input = record { held = lines.new.held; left = S.left source.new }; rounds = session.new })
        (K.written sink.old) (K.written sink.new)) }
    ensures cut { OnErr result (CutNext number
        (record { input = record { held = lines.old.held; left = S.left source.old }; rounds = session.old })
        (S.left source.new) (K.written sink.old) (K.written sink.new)) }
    ensures unended { IsErrOf result CutOff.ReadFailed → UnreadNext
        (record { input = record { held = lines.old.held; left = S.left source.old }; rounds = session.old })
        (S.left source.new) (K.written sink.old) (K.written sink.new) }
    ensures faults { CountsFaults result
        (S.faults source.old) (S.faults source.new) (K.faults sink.old) (K.faults sink.new) }
{
    let there = lines.next(source, line)?;
    if !there {
        return Ok(false);
    }
    let came = answer_line(alloc, session, number, line, reply, sink)?;
    if came.is_last() {
        return Ok(false);
    }
    pass(session, came)?;
    Ok(true)
}

/// Answers the lines of the outside, of which the first has so many above it, up to the one that ends the session, the
/// end of the input, or the last number that a line can have.
pub fn answer_lines<S: Source, K: Sink>(
    alloc: Global,
    session: &mut Session,
    above: u32,
    lines: &mut Lines,
    source: &mut S,
    sink: &mut K,
) -> Result<(), CutOff>
    ensures answered { OnOk result (AnsweredAll above
        (record { input = record { held = lines.old.held; left = S.left source.old }; rounds = session.old })
        (record { input = record { held = lines.new.held; left = S.left source.new }; rounds = session.new })
        (K.written sink.old) (K.written sink.new)) }
    ensures cut { OnErr result (AnsweredSome above
        (record { input = record { held = lines.old.held; left = S.left source.old }; rounds = session.old })
        (S.left source.new) (K.written sink.old) (K.written sink.new)) }
    ensures unended { IsErrOf result CutOff.ReadFailed → AnsweredUnread above
        (record { input = record { held = lines.old.held; left = S.left source.old }; rounds = session.old })
        (S.left source.new) (K.written sink.old) (K.written sink.new) }
    ensures faults { CountsFaults result
        (S.faults source.old) (S.faults source.new) (K.faults sink.old) (K.faults sink.new) }
{
    let mut line = Vec::new(alloc);
    let mut reply = Vec::new(alloc);
    for number in above..u32::MAX {
        let answered = answer_next(
            alloc,
            session,
            number + 1,
            lines,
            &mut line,
            &mut reply,
            source,
            sink,
        )?;
        if !answered {
            return Ok(());
        }
    }
    Ok(())
}
