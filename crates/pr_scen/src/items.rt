//! The lines outside blocks, each read on its own.
ghost use Rattle.std.specs.Prelude.{◌≡◌, ◌<◌, ◌≤◌, ◌^◌, [], ◌∷◌, length, IfOk, if◌then◌else◌};
ghost use Rattle.pr_num.specs.Limits.{line_limit};
ghost use Rattle.pr_line.specs.Reading.{has_bad_option};
ghost use Rattle.pr_text.specs.Reads.{Gives};
ghost use Rattle.pr_text.specs.Words.{texts_of};
ghost use Rattle.pr_scen.specs.Items.{turns_of, file_of, program_of, spawn_of, script_of, truss_of, process_tool_line, tool_line_of, schedule_of, item_with, item_of};

use crate::ScenKind;
use crate::schedules::{Turns, all_turns_of};
use pr_line::{Asked, has_bad_option, read_words};
use pr_model::{ToolKind, process_tool_of_name};
use pr_num::{Bytes, Name, NoMemory, Table};
use pr_text::{
    Refused, Tokens, begins_comment, id_of, name_of, none, number_of, one, quoted_bytes, two,
};
use std::alloc::Global;

/// What a line outside blocks says.
#[derive(Drop)]
pub enum Item {
    /// Nothing: a comment, or a line without words.
    Blank,
    /// The history may have so many entries.
    Turns(u64),
    /// A file with these bytes.
    File(Name, Bytes),
    /// A program block begins.
    Program(Name),
    /// A process of a program.
    Spawn(Name),
    /// A script block begins.
    Script,
    Truss(Asked),
    /// A tool of proc(1) or pmap(1).
    Tool(ToolKind, u32),
    /// gcore(1) of a process.
    Gcore(u32),
    /// pfiles of a process by an agent.
    Probe(u32),
    Schedule(Table<Turns>),
}

/// `turns N`.
#[tactic(auto, unfolding(crate::specs::Items::turns_of))]
fn turns_of(operands: Tokens) -> Result<Item, ScenKind>
    ensures { result ≡ turns_of operands.entry }
{
    let n = number_of(one(operands, ScenKind::BadOperand)?).ok_or(ScenKind::BadOperand)?;
    if n == 0 {
        return Err(ScenKind::BadOperand);
    }
    Ok(Item::Turns(n))
}

/// `file NAME "..."`.
#[tactic(auto, unfolding(crate::specs::Items::file_of))]
fn file_of(alloc: Global, operands: Tokens) -> Result<Item, Refused<ScenKind>>
    ensures { Gives (λ item. item) result (file_of operands.entry) }
{
    let (name, text) = two(operands, ScenKind::BadOperand)?;
    let name = name_of(name).ok_or(ScenKind::BadOperand)?;
    let bytes = quoted_bytes(alloc, text)?.ok_or(ScenKind::BadOperand)?;
    Ok(Item::File(name, bytes))
}

/// `program NAME`.
#[tactic(auto, unfolding(crate::specs::Items::program_of))]
fn program_of(operands: Tokens) -> Result<Item, ScenKind>
    ensures { result ≡ program_of operands.entry }
{
    let name = name_of(one(operands, ScenKind::BadOperand)?).ok_or(ScenKind::BadOperand)?;
    Ok(Item::Program(name))
}

/// `spawn NAME`.
#[tactic(auto, unfolding(crate::specs::Items::spawn_of))]
fn spawn_of(operands: Tokens) -> Result<Item, ScenKind>
    ensures { result ≡ spawn_of operands.entry }
{
    let name = name_of(one(operands, ScenKind::BadOperand)?).ok_or(ScenKind::BadOperand)?;
    Ok(Item::Spawn(name))
}

/// `script`.
#[tactic(auto, unfolding(crate::specs::Items::script_of))]
fn script_of(operands: Tokens) -> Result<Item, ScenKind>
    ensures { result ≡ script_of operands.entry }
{
    none(operands, ScenKind::BadOperand)?;
    Ok(Item::Script)
}

/// The words that are left, each as bytes of its own. A line has fewer words than bytes.
fn words_of(alloc: Global, words: Tokens) -> Result<Vec<Bytes>, NoMemory>
    ensures { IfOk result (λ v. v.items ≡ words.entry) }
{
    let mut words = words;
    let mut texts = Vec::new(alloc);
    while let Some(word) = words.next() {
        texts.push(Bytes::from_vec(Vec::from_slice(alloc, word)?))?;
    }
    Ok(texts)
}

/// `truss WORDS`.
#[tactic(auto, unfolding(crate::specs::Items::truss_of))]
fn truss_of(alloc: Global, operands: Tokens) -> Result<Item, Refused<ScenKind>>
    requires { length operands < 2 ^ 32 }
    ensures { Gives (λ item. item) result (truss_of operands.entry) }
{
    let words = words_of(alloc, operands)?;
    match read_words(alloc, &words) {
        Ok(asked) => Ok(Item::Truss(asked)),
        Err(Refused::Kind(_)) => Err(Refused::Kind(truss_kind(alloc, &words)?)),
        Err(Refused::NoMemory(error)) => Err(Refused::NoMemory(error)),
    }
}

/// The kind of a truss line that is refused: a bad option comes before a name that is in no table.
fn truss_kind(alloc: Global, words: &[Bytes]) -> Result<ScenKind, NoMemory>
    requires { length words.now < 2 ^ 32 }
    ensures { IfOk result
        (λ kind. kind ≡ (if has_bad_option words.now then ScenKind.BadOperand else ScenKind.UnknownName)) }
{
    if has_bad_option(alloc, words)? {
        Ok(ScenKind::BadOperand)
    } else {
        Ok(ScenKind::UnknownName)
    }
}

/// `tool TOOL PID`, `tool ptree`.
#[tactic(auto, unfolding(crate::specs::Items::tool_line_of))]
fn tool_line_of(mut operands: Tokens) -> Result<Item, ScenKind>
    ensures { result ≡ tool_line_of operands.entry }
{
    let word = operands.next().ok_or(ScenKind::BadOperand)?;
    let Some(id) = operands.next() else {
        return ptree_line(word);
    };
    none(operands, ScenKind::BadOperand)?;
    process_tool(word, id)
}

/// A tool that has no process.
#[tactic(auto, unfolding(crate::specs::Items::tool_line_of))]
fn ptree_line(word: &[u8]) -> Result<Item, ScenKind>
    ensures { result ≡ tool_line_of (word.now ∷ []) }
{
    if word == b"ptree".as_slice() {
        Ok(Item::Tool(ToolKind::Ptree, 0))
    } else {
        Err(ScenKind::BadOperand)
    }
}

/// A tool of a process.
#[tactic(auto, unfolding(crate::specs::Items::tool_line_of))]
fn process_tool(word: &[u8], id: &[u8]) -> Result<Item, ScenKind>
    ensures { result ≡ tool_line_of (word.now ∷ id.now ∷ []) }
{
    name_of(word).ok_or(ScenKind::BadOperand)?;
    let pid = id_of(id).ok_or(ScenKind::BadOperand)?;
    process_tool_line(word, pid)
}

/// A tool of a process, by its name.
#[tactic(auto, unfolding(crate::specs::Items::process_tool_line))]
fn process_tool_line(word: &[u8], pid: u32) -> Result<Item, ScenKind>
    ensures { result ≡ process_tool_line word.now pid }
{
    if word == b"ptree".as_slice() {
        return Err(ScenKind::BadOperand);
    }
    if word == b"gcore".as_slice() {
        return Ok(Item::Gcore(pid));
    }
    if word == b"apfiles".as_slice() {
        return Ok(Item::Probe(pid));
    }
    let kind = process_tool_of_name(word).ok_or(ScenKind::UnknownName)?;
    Ok(Item::Tool(kind, pid))
}

/// `schedule ACTORS`.
#[tactic(auto, unfolding(crate::specs::Items::schedule_of))]
fn schedule_of(alloc: Global, operands: Tokens) -> Result<Item, Refused<ScenKind>>
    ensures { Gives (λ item. item) result (schedule_of operands.entry) }
{
    let turns = all_turns_of(alloc, operands)?;
    if turns.is_empty() {
        return Err(Refused::Kind(ScenKind::BadOperand));
    }
    Ok(Item::Schedule(turns))
}

/// A line that is neither empty nor a comment, by its first word.
#[tactic(auto, unfolding(crate::specs::Items::item_with))]
fn item_with(alloc: Global, first: &[u8], operands: Tokens) -> Result<Item, Refused<ScenKind>>
    requires { length operands < 2 ^ 32 }
    ensures { Gives (λ item. item) result (item_with first.now operands.entry) }
{
    if first == b"turns".as_slice() {
        return Ok(turns_of(operands)?);
    }
    if first == b"file".as_slice() {
        return file_of(alloc, operands);
    }
    if first == b"program".as_slice() {
        return Ok(program_of(operands)?);
    }
    if first == b"spawn".as_slice() {
        return Ok(spawn_of(operands)?);
    }
    if first == b"script".as_slice() {
        return Ok(script_of(operands)?);
    }
    if first == b"truss".as_slice() {
        return truss_of(alloc, operands);
    }
    if first == b"tool".as_slice() {
        return Ok(tool_line_of(operands)?);
    }
    if first == b"schedule".as_slice() {
        return schedule_of(alloc, operands);
    }
    Err(Refused::Kind(ScenKind::UnknownWord))
}

/// What a line outside blocks says.
#[tactic(auto, unfolding(crate::specs::Items::item_of))]
pub fn item_of(alloc: Global, line: &[u8]) -> Result<Item, Refused<ScenKind>>
    requires { length line.now ≤ line_limit }
    ensures { Gives (λ item. item) result (item_of (texts_of line.now)) }
{
    let mut words = Tokens::of(line);
    let Some(first) = words.next() else {
        return Ok(Item::Blank);
    };
    if begins_comment(first) {
        return Ok(Item::Blank);
    }
    item_with(alloc, first, words)
}
