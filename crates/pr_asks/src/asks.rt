//! What a line of the outside asks for.
ghost use Rattle.std.specs.Prelude.{◌≡◌, ◌+◌, ◌<◌, ◌≤◌, ◌^◌, length, IfSome};
ghost use Rattle.std.specs.List.{position};
ghost use Rattle.pr_asks.specs.Asks.{Gives, as_moves, ask_of, is_blank, messages_behind, name_of, or_messages, split_word};
ghost use Rattle.pr_asks.specs.Calls.{call_of};
ghost use Rattle.pr_text.specs.NumberWords.{number_of};

use crate::call_lines::{actor_of, call_of};
use crate::message_lines::messages_of;
use pr_input::kind_name;
use pr_lines::LINE_BYTES;
use pr_model::{Actor, Call};
use pr_num::NoMemory;
use pr_scen::{ScenKind, Script};
use pr_text::{id_of, number_of};
use std::alloc::Global;

/// What a line asks for.
#[derive(Drop)]
pub enum Ask {
    /// A call of the outside, as a history writes it.
    Call(Call),
    /// Control messages by words: the calls that a script makes.
    Messages(Script),
    /// Others move so many times.
    Moves(u64),
    /// One actor moves.
    Move(Actor),
    /// Others move until a file of the outside is ready.
    Run,
    /// The session ends.
    End,
}

/// Why a line asks for nothing.
#[derive(Clone, Copy, Debug, PartialEq, Eq)]
pub enum AskKind {
    /// It has more bytes than a line may have.
    TooLong,
    /// It is no call, and none of what else can be asked.
    NoCall,
    /// Its words are no messages.
    Message(ScenKind),
}

impl AskKind {
    /// Its name.
    #[tactic(auto, unfolding(crate::specs::Asks::name_of))]
    pub fn name(self) -> &'static [u8]
        ensures { result.now ≡ name_of self }
    {
        match self {
            AskKind::TooLong => b"TooLong",
            AskKind::NoCall => b"NoCall",
            AskKind::Message(kind) => kind_name(kind),
        }
    }
}

/// Why no answer is made to a line.
#[derive(Clone, Copy, Debug, PartialEq, Eq)]
pub enum Unasked {
    /// It asks for nothing.
    Refused(AskKind),
    NoMemory,
}

impl From<NoMemory> for Unasked {
    ghost use Rattle.std.specs.Prelude.{◌≡◌};
    ghost use Rattle.pr_asks.specs.declared.asks.Unasked.TheVariants as variants;

    ghost from_gives = { λ _ e. e ≡ variants.NoMemory };

    fn from(_error: NoMemory) -> Unasked {
        Unasked::NoMemory
    }
}

/// The place of the first blank.
fn blank_in(line: &[u8]) -> Option<usize>
    ensures place { result ≡ position is_blank line.now }
    ensures within { IfSome result (λ place. place < length line.now) }
{
    line.iter().position(|byte| *byte == b' ')
}

/// The first word of a line, and what stands behind the blank after it.
#[tactic(auto, unfolding(crate::specs::Asks::split_word))]
fn split_word(line: &[u8]) -> (&[u8], &[u8])
    ensures words { (result.0.now, result.1.now) ≡ split_word line.now }
    ensures fewer { length result.1.now ≤ length line.now }
{
    match blank_in(line) {
        Some(place) => (&line[..place], &line[place + 1..]),
        None => (line, &[]),
    }
}

/// The messages that the words behind `ctl` are.
#[tactic(auto, unfolding(crate::specs::Asks::messages_behind))]
fn messages_behind(alloc: Global, operands: &[u8]) -> Result<Ask, Unasked>
    requires { length operands.now + 64 < 2 ^ 32 }
    ensures { Gives result (messages_behind operands.now) }
{
    let (word, messages) = split_word(operands);
    match id_of(word) {
        Some(handle) => Ok(Ask::Messages(messages_of(alloc, handle, messages)?)),
        None => Err(Unasked::Refused(AskKind::NoCall)),
    }
}

/// The call, or the messages, that a line is.
fn call_or_messages(alloc: Global, line: &[u8]) -> Result<Ask, Unasked>
    requires { length line.now + 64 < 2 ^ 32 }
    ensures { Gives result (or_messages line.now (call_of line.now)) }
{
    let (word, operands) = split_word(line);
    match call_of(alloc, line) {
        Ok(call) => Ok(Ask::Call(call)),
        Err(Unasked::Refused(kind)) => {
            if word == b"ctl".as_slice() {
                messages_behind(alloc, operands)
            } else {
                Err(Unasked::Refused(kind))
            }
        }
        Err(Unasked::NoMemory) => Err(Unasked::NoMemory),
    }
}

/// The moves that a word asks for: so many.
fn moves_of(word: &[u8]) -> Result<Ask, Unasked>
    ensures { Gives result (as_moves (number_of word.now)) }
{
    match number_of(word) {
        Some(times) => Ok(Ask::Moves(times)),
        None => Err(Unasked::Refused(AskKind::NoCall)),
    }
}

/// What a line asks for.
#[tactic(auto, unfolding(crate::specs::Asks::ask_of))]
pub fn read_ask(alloc: Global, line: &[u8]) -> Result<Ask, Unasked>
    ensures { Gives result (ask_of line.now) }
{
    if line.len() > LINE_BYTES {
        return Err(Unasked::Refused(AskKind::TooLong));
    }
    let (word, operands) = split_word(line);
    if line == b"%end".as_slice() {
        Ok(Ask::End)
    } else if line == b"run".as_slice() {
        Ok(Ask::Run)
    } else if word == b"moves".as_slice() {
        moves_of(operands)
    } else if word == b"move".as_slice() {
        Ok(Ask::Move(actor_of(alloc, operands)?))
    } else {
        call_or_messages(alloc, line)
    }
}
