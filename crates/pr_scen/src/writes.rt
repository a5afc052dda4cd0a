//! The messages of one write, a word after another.
ghost use Rattle.std.specs.Prelude.{◌≡◌, ◌<◌, OnOk, slice_get};
ghost use Rattle.pr_text.specs.Reads.{Gives};
ghost use Rattle.pr_scen.specs.MessageLists.{flag_of};
ghost use Rattle.pr_scen.specs.MessageWords.{operands_of};
ghost use Rattle.pr_scen.specs.Messages.{nothing_written, with_whole, if_whole, with_number_operand, with_set, operand_read, run_over, message_begun, word_begun, flag_or_word, in_message, word_written, whole_bytes, write_over, messages_of};

use crate::ScenKind;
use crate::message_lists::{flag_of, modes_of, set_of};
use crate::message_words::{MessageWord, Operand, bytes_of, message_word_of, operands_of};
use pr_msg::{Message, RunFlags, encode};
use pr_num::{Bytes, Flt, NoMemory, Numbered, SetOf, Sig, Sysno};
use pr_text::{Refused, Tokens, bytes_of_digits, number_of};
use std::alloc::Global;
use std::marker::Model;

/// What was read of a write so far, seen by contracts as a plain record.
#[derive(Drop)]
pub struct Writing {
    bytes: Vec<u8>,
    begun: Option<MessageWord>,
    count: usize,
    numbers: [u64; 11],
    run: Option<RunFlags>,
    unknown: bool,
}

impl Model for Writing {
    ghost use Rattle.pr_scen.specs.Messages as plain;

    ghost Value = { plain.Writing };

    ghost view = { λ w. record {
      bytes = w.bytes.items;
      begun = w.begun;
      count = w.count;
      numbers = w.numbers;
      run = w.run;
      unknown = w.unknown;
    } };
}

impl Writing {
    /// Before the first word.
    fn new(alloc: Global) -> Writing
        ensures { result ≡ nothing_written }
    {
        Writing {
            bytes: Vec::new(alloc),
            begun: None,
            count: 0,
            numbers: [0; 11],
            run: None,
            unknown: false,
        }
    }

    /// A message is whole, with these bytes.
    fn end_message(&mut self, alloc: Global, word: MessageWord, tail: &[u8]) -> Result<(), NoMemory>
        ensures { OnOk result (self.new ≡ with_whole self.old word tail.now) }
    {
        let bytes = bytes_of(alloc, word, &self.numbers, tail)?;
        self.bytes.extend_from_slice(bytes.as_slice())?;
        self.begun = None;
        self.count = 0;
        Ok(())
    }

    /// A message is whole, if it has no operand more.
    fn end_if_whole(&mut self, alloc: Global, word: MessageWord) -> Result<(), NoMemory>
        ensures { OnOk result (self.new ≡ if_whole self.old word) }
    {
        match operands_of(word).get(self.count) {
            None => self.end_message(alloc, word, &[]),
            Some(_) => Ok(()),
        }
    }

    /// Takes a number more among the operands of a message.
    #[tactic(auto, unfolding(crate::specs::Messages::with_number_operand))]
    fn take_number(&mut self, alloc: Global, word: MessageWord, n: u64) -> Result<(), NoMemory>
        requires { self.old.count < 11 }
        ensures { OnOk result (self.new ≡ with_number_operand self.old word n) }
    {
        self.numbers[self.count] = n;
        self.count += 1;
        self.end_if_whole(alloc, word)
    }

    /// Takes a set more; a name that is in no table is remembered.
    fn take_set<T: Numbered>(
        &mut self,
        alloc: Global,
        word: MessageWord,
        set: Result<SetOf<T>, ScenKind>,
    ) -> Result<(), Refused<ScenKind>>
        requires { self.old.count < 11 }
        ensures { Gives (λ _. self.new) result (with_set self.old word set) }
    {
        match set {
            Ok(set) => Ok(self.take_number(alloc, word, set.word())?),
            Err(ScenKind::UnknownName) => {
                self.unknown = true;
                Ok(self.take_number(alloc, word, 0)?)
            }
            Err(kind) => Err(Refused::Kind(kind)),
        }
    }

    /// Takes an operand of this form.
    #[tactic(auto, unfolding(crate::specs::Messages::operand_read))]
    fn take_operand(
        &mut self,
        alloc: Global,
        word: MessageWord,
        text: &[u8],
        operand: Operand,
    ) -> Result<(), Refused<ScenKind>>
        requires { self.old.count < 11 }
        ensures { Gives (λ _. self.new) result (operand_read self.old word text.now operand) }
    {
        match operand {
            Operand::Number => {
                let n = number_of(text).ok_or(ScenKind::BadOperand)?;
                Ok(self.take_number(alloc, word, n)?)
            }
            Operand::Hex => {
                let tail = bytes_of_digits(alloc, text)?.ok_or(ScenKind::BadOperand)?;
                Ok(self.end_message(alloc, word, tail.as_slice())?)
            }
            Operand::Signals => {
                let set = set_of::<Sig>(alloc, text)?;
                self.take_set(alloc, word, set)
            }
            Operand::Faults => {
                let set = set_of::<Flt>(alloc, text)?;
                self.take_set(alloc, word, set)
            }
            Operand::Calls => {
                let set = set_of::<Sysno>(alloc, text)?;
                self.take_set(alloc, word, set)
            }
            Operand::Modes => {
                let modes = modes_of(alloc, text)?.ok_or(ScenKind::BadOperand)?;
                Ok(self.take_number(alloc, word, modes.word())?)
            }
        }
    }

    /// The `run` that came last, with its flags, is whole.
    #[tactic(auto, unfolding(pr_num::specs::Messages::tail_length))]
    fn end_run(&mut self, alloc: Global) -> Result<(), NoMemory>
        ensures { OnOk result (self.new ≡ run_over self.old self.old.run) }
    {
        let Some(flags) = self.run else {
            return Ok(());
        };
        let message = Message::Run {
            flags: flags.word(),
        };
        let bytes = encode(alloc, &message, &[])?;
        self.bytes.extend_from_slice(bytes.as_slice())?;
        self.run = None;
        Ok(())
    }

    /// A message begins.
    #[tactic(auto, unfolding(crate::specs::Messages::message_begun))]
    fn begin(&mut self, alloc: Global, word: MessageWord) -> Result<(), NoMemory>
        ensures { OnOk result (self.new ≡ message_begun self.old word) }
    {
        if let MessageWord::Run = word {
            self.run = Some(RunFlags::empty());
            return Ok(());
        }
        self.begun = Some(word);
        self.count = 0;
        self.end_if_whole(alloc, word)
    }

    /// Takes a word that begins a message.
    fn take_first(&mut self, alloc: Global, text: &[u8]) -> Result<(), Refused<ScenKind>>
        ensures { Gives (λ _. self.new) result (word_begun self.old text.now) }
    {
        let word = message_word_of(text).ok_or(ScenKind::BadOperand)?;
        self.end_run(alloc)?;
        Ok(self.begin(alloc, word)?)
    }

    /// Takes a word after `run` with these flags: a flag more, or what begins the next message.
    fn take_flag(
        &mut self,
        alloc: Global,
        text: &[u8],
        flags: RunFlags,
    ) -> Result<(), Refused<ScenKind>>
        ensures { Gives (λ _. self.new) result (flag_or_word self.old text.now flags (flag_of text.now)) }
    {
        match flag_of(text) {
            Some(flag) => {
                self.run = Some(flags.union(flag));
                Ok(())
            }
            None => self.take_first(alloc, text),
        }
    }

    /// Takes an operand of a message that has begun.
    fn take_next(
        &mut self,
        alloc: Global,
        text: &[u8],
        word: MessageWord,
    ) -> Result<(), Refused<ScenKind>>
        ensures { Gives (λ _. self.new) result
            (in_message self.old text.now word (slice_get (operands_of word) self.old.count)) }
    {
        match operands_of(word).get(self.count) {
            Some(operand) => self.take_operand(alloc, word, text, *operand),
            None => Err(Refused::Kind(ScenKind::BadOperand)),
        }
    }

    /// Takes one word more.
    #[tactic(auto, unfolding(crate::specs::Messages::word_written))]
    fn take(&mut self, alloc: Global, text: &[u8]) -> Result<(), Refused<ScenKind>>
        ensures { Gives (λ _. self.new) result (word_written self.old text.now) }
    {
        if let Some(word) = self.begun {
            return self.take_next(alloc, text, word);
        }
        match self.run {
            Some(flags) => self.take_flag(alloc, text, flags),
            None => self.take_first(alloc, text),
        }
    }

    /// The bytes of its messages, which are whole, with no name unknown; there is one at least.
    fn whole(self) -> Result<Bytes, ScenKind>
        ensures { result ≡ whole_bytes self }
    {
        if self.unknown {
            return Err(ScenKind::UnknownName);
        }
        if self.bytes.len() == 0 {
            return Err(ScenKind::BadOperand);
        }
        Ok(Bytes::from_vec(self.bytes))
    }

    /// The bytes of the write, after its last word.
    #[tactic(auto, unfolding(crate::specs::Messages::write_over))]
    fn finish(mut self, alloc: Global) -> Result<Bytes, Refused<ScenKind>>
        ensures { Gives (λ bytes. bytes) result (write_over self) }
    {
        if self.begun.is_some() {
            return Err(Refused::Kind(ScenKind::BadOperand));
        }
        self.end_run(alloc)?;
        Ok(self.whole()?)
    }
}

/// The bytes of the messages that words spell, one after the other.
#[tactic(auto, unfolding(crate::specs::Messages::messages_of, crate::specs::Messages::words_written))]
pub fn messages_of(alloc: Global, words: Tokens) -> Result<Bytes, Refused<ScenKind>>
    ensures { Gives (λ bytes. bytes) result (messages_of words.entry) }
{
    let mut words = words;
    let mut writing = Writing::new(alloc);
    while let Some(word) = words.next() {
        writing.take(alloc, word)?;
    }
    writing.finish(alloc)
}
