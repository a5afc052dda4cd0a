//! The lines of a script block, each read on its own.
ghost use Rattle.std.specs.Prelude.{◌≡◌, [], map, IfOk};
ghost use Rattle.pr_text.specs.Reads.{Gives};
ghost use Rattle.pr_text.specs.Words.{texts_of};
ghost use Rattle.pr_scen.specs.ScriptLines.{place_from, place_of_word, open_of, close_of, read_of, with_names, poll_of, write_of, interrupt_of, spawn_of, kill_of, until_of, list_of, call_with, script_line_of};

use crate::writes::messages_of;
use crate::{ScenKind, ScriptLine};
use pr_model::{file_of_name, mode_of_name};
use pr_num::{Name, NoMemory, Table};
use pr_text::{
    Refused, Tokens, begins_comment, four, id_of, name_of, none, number_of, one, pieces_of, some,
    three, two,
};
use std::alloc::Global;

/// What a line of a script block says.
#[derive(Drop)]
pub enum InScript {
    /// Nothing: a comment, or a line without words.
    Blank,
    Line(ScriptLine),
}

/// The process of one id, or the lwp of two; lwp 0 stands for the process.
fn place_from(ids: &[&[u8]]) -> Option<(u32, u32)>
    ensures { result ≡ place_from (map (λ id. id.now) ids.now) }
{
    match ids {
        [pid] => Some((id_of(pid)?, 0)),
        [pid, lwp] => Some((id_of(pid)?, id_of(lwp)?)),
        _ => None,
    }
}

/// The process and the lwp that a word names: `P`, or `P/L`.
#[tactic(auto, unfolding(crate::specs::ScriptLines::place_of_word))]
fn place_of_word(alloc: Global, word: &[u8]) -> Result<Option<(u32, u32)>, NoMemory>
    ensures { IfOk result (λ place. place ≡ place_of_word word.now) }
{
    let ids = pieces_of(alloc, word, b'/')?;
    Ok(place_from(&ids))
}

/// `open V PID FILE MODE`, `open V PID/LWP FILE MODE`.
#[tactic(auto, unfolding(crate::specs::ScriptLines::open_of))]
fn open_of(alloc: Global, operands: Tokens) -> Result<ScriptLine, Refused<ScenKind>>
    ensures { Gives (λ line. line) result (open_of operands.entry) }
{
    let (name, place, file, mode) = four(operands, ScenKind::BadOperand)?;
    let name = name_of(name).ok_or(ScenKind::BadOperand)?;
    let (pid, lwp) = place_of_word(alloc, place)?.ok_or(ScenKind::BadOperand)?;
    let mode = mode_of_name(mode).ok_or(ScenKind::BadOperand)?;
    name_of(file).ok_or(ScenKind::BadOperand)?;
    let file = file_of_name(file).ok_or(ScenKind::UnknownName)?;
    Ok(ScriptLine::Open {
        name,
        pid,
        lwp,
        file,
        mode,
    })
}

/// `close V`.
#[tactic(auto, unfolding(crate::specs::ScriptLines::close_of))]
fn close_of(operands: Tokens) -> Result<ScriptLine, ScenKind>
    ensures { result ≡ close_of operands.entry }
{
    let name = name_of(one(operands, ScenKind::BadOperand)?).ok_or(ScenKind::BadOperand)?;
    Ok(ScriptLine::Close { name })
}

/// `read V AT LEN`.
#[tactic(auto, unfolding(crate::specs::ScriptLines::read_of))]
fn read_of(operands: Tokens) -> Result<ScriptLine, ScenKind>
    ensures { result ≡ read_of operands.entry }
{
    let (name, at, len) = three(operands, ScenKind::BadOperand)?;
    let name = name_of(name).ok_or(ScenKind::BadOperand)?;
    let at = number_of(at).ok_or(ScenKind::BadOperand)?;
    let len = number_of(len).ok_or(ScenKind::BadOperand)?;
    Ok(ScriptLine::Read { name, at, len })
}

/// The names that words are.
#[tactic(auto, unfolding(crate::specs::ScriptLines::with_names))]
fn names_of(alloc: Global, words: Tokens) -> Result<Table<Name>, Refused<ScenKind>>
    ensures { Gives (λ names. names) result (with_names [] words.entry) }
{
    let mut words = words;
    let mut names = Table::new(alloc);
    while let Some(word) = words.next() {
        let name = name_of(word).ok_or(ScenKind::BadOperand)?;
        names.push(name)?;
    }
    Ok(names)
}

/// `poll V ..`.
#[tactic(auto, unfolding(crate::specs::ScriptLines::poll_of))]
fn poll_of(alloc: Global, operands: Tokens) -> Result<ScriptLine, Refused<ScenKind>>
    ensures { Gives (λ line. line) result (poll_of operands.entry) }
{
    let names = names_of(alloc, operands)?;
    if names.is_empty() {
        return Err(Refused::Kind(ScenKind::BadOperand));
    }
    Ok(ScriptLine::Poll { names })
}

/// `write V MESSAGES`.
#[tactic(auto, unfolding(crate::specs::ScriptLines::write_of))]
fn write_of(alloc: Global, operands: Tokens) -> Result<ScriptLine, Refused<ScenKind>>
    ensures { Gives (λ line. line) result (write_of operands.entry) }
{
    let (name, messages) = some(operands, ScenKind::BadOperand)?;
    let name = name_of(name).ok_or(ScenKind::BadOperand)?;
    let bytes = messages_of(alloc, messages)?;
    Ok(ScriptLine::Write { name, bytes })
}

/// `interrupt K`.
#[tactic(auto, unfolding(crate::specs::ScriptLines::interrupt_of))]
fn interrupt_of(operands: Tokens) -> Result<ScriptLine, ScenKind>
    ensures { result ≡ interrupt_of operands.entry }
{
    let controller = id_of(one(operands, ScenKind::BadOperand)?).ok_or(ScenKind::BadOperand)?;
    Ok(ScriptLine::Interrupt { controller })
}

/// `spawn NAME`, `spawn NAME held`.
#[tactic(auto, unfolding(crate::specs::ScriptLines::spawn_of))]
fn spawn_of(mut operands: Tokens) -> Result<ScriptLine, ScenKind>
    ensures { result ≡ spawn_of operands.entry }
{
    let word = operands.next().ok_or(ScenKind::BadOperand)?;
    let how = operands.next();
    none(operands, ScenKind::BadOperand)?;
    let program = name_of(word).ok_or(ScenKind::BadOperand)?;
    match how {
        None => Ok(ScriptLine::Spawn {
            program,
            held: false,
        }),
        Some(how) if how == b"held".as_slice() => Ok(ScriptLine::Spawn {
            program,
            held: true,
        }),
        Some(_) => Err(ScenKind::BadOperand),
    }
}

/// `kill PID SIGNUMBER`.
#[tactic(auto, unfolding(crate::specs::ScriptLines::kill_of))]
fn kill_of(operands: Tokens) -> Result<ScriptLine, ScenKind>
    ensures { result ≡ kill_of operands.entry }
{
    let (pid, sig) = two(operands, ScenKind::BadOperand)?;
    let pid = id_of(pid).ok_or(ScenKind::BadOperand)?;
    let sig = number_of(sig).ok_or(ScenKind::BadOperand)?;
    Ok(ScriptLine::Kill { pid, sig })
}

/// `until N`.
#[tactic(auto, unfolding(crate::specs::ScriptLines::until_of))]
fn until_of(operands: Tokens) -> Result<ScriptLine, ScenKind>
    ensures { result ≡ until_of operands.entry }
{
    let moment = number_of(one(operands, ScenKind::BadOperand)?).ok_or(ScenKind::BadOperand)?;
    Ok(ScriptLine::Until { moment })
}

/// `list`.
#[tactic(auto, unfolding(crate::specs::ScriptLines::list_of))]
fn list_of(operands: Tokens) -> Result<ScriptLine, ScenKind>
    ensures { result ≡ list_of operands.entry }
{
    none(operands, ScenKind::BadOperand)?;
    Ok(ScriptLine::List)
}

/// A line of a script by its first word.
#[tactic(auto, unfolding(crate::specs::ScriptLines::call_with))]
fn call_with(alloc: Global, first: &[u8], operands: Tokens) -> Result<ScriptLine, Refused<ScenKind>>
    ensures { Gives (λ line. line) result (call_with first.now operands.entry) }
{
    if first == b"open".as_slice() {
        return open_of(alloc, operands);
    }
    if first == b"close".as_slice() {
        return Ok(close_of(operands)?);
    }
    if first == b"read".as_slice() {
        return Ok(read_of(operands)?);
    }
    if first == b"poll".as_slice() {
        return poll_of(alloc, operands);
    }
    if first == b"write".as_slice() {
        return write_of(alloc, operands);
    }
    if first == b"interrupt".as_slice() {
        return Ok(interrupt_of(operands)?);
    }
    if first == b"spawn".as_slice() {
        return Ok(spawn_of(operands)?);
    }
    if first == b"kill".as_slice() {
        return Ok(kill_of(operands)?);
    }
    if first == b"until".as_slice() {
        return Ok(until_of(operands)?);
    }
    if first == b"list".as_slice() {
        return Ok(list_of(operands)?);
    }
    Err(Refused::Kind(ScenKind::UnknownWord))
}

/// What a line of a script block says.
#[tactic(auto, unfolding(crate::specs::ScriptLines::script_line_of))]
pub fn script_line_of(alloc: Global, line: &[u8]) -> Result<InScript, Refused<ScenKind>>
    ensures { Gives (λ x. x) result (script_line_of (texts_of line.now)) }
{
    let mut words = Tokens::of(line);
    let Some(first) = words.next() else {
        return Ok(InScript::Blank);
    };
    if begins_comment(first) {
        return Ok(InScript::Blank);
    }
    Ok(InScript::Line(call_with(alloc, first, words)?))
}
