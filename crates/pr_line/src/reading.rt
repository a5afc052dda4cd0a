//! The words of truss(1).
ghost use Rattle.std.specs.Prelude.{◌≡◌, ◌<◌, ◌^◌, false, length, IfOk, if◌then◌else◌};
ghost use Rattle.pr_line.specs.Options.{start, with_list, with_pids, with_program, list_taken, option_taken, word_taken, takes_list, follows_or_counts};
ghost use Rattle.pr_line.specs.Reading.{is_whole, all_asked, asked_in, asked_of, options_of, has_bad_option};
ghost use Rattle.pr_line.specs.Reads.{Reads};
ghost use Rattle.pr_text.specs.Names.{name_of};
ghost use Rattle.pr_text.specs.Reads.{Gives};

use crate::entries::list_of;
use crate::faults::WordFault;
use crate::function_names::{FunctionNames, function_names_of};
use crate::pids::pids_of;
use crate::{Functions, OptFault, Options};
use pr_num::{Bytes, Flt, FltSet, Handles, NoMemory, Sig, SigSet, SysSet, Sysno};
use pr_text::{Refused, name_of};
use std::alloc::Global;

/// An option that a list follows.
#[derive(Clone, Copy)]
pub enum ListOption {
    Calls,
    Signals,
    Faults,
    Processes,
    Functions,
}

/// What words of truss(1) ask for.
#[derive(Drop)]
pub struct Asked {
    /// The options, which have no functions yet: those stand in the text of a program, which the words only name.
    pub options: Options,
    /// The functions of the last `-u`, if there is one.
    pub functions: Option<FunctionNames>,
}

/// What the words so far ask for.
#[derive(Drop)]
pub struct Draft {
    pub options: Options,
    /// The functions of the last `-u` so far, if there is one.
    pub functions: Option<FunctionNames>,
    /// The option whose list comes next, if one does.
    pub pending: Option<ListOption>,
    /// Whether `-f` or `-c` stands among all words, so that no `-u` may.
    pub mixed: bool,
}

impl Draft {
    /// Nothing asked: all calls, signals and faults, of no process yet.
    fn new(alloc: Global, mixed: bool) -> Draft
        ensures { result ≡ start mixed }
    {
        Draft {
            options: Options {
                follow: false,
                lwps: false,
                count: false,
                calls: SysSet::all(),
                signals: SigSet::all(),
                faults: FltSet::all(),
                pids: Handles::from_vec(Vec::new(alloc)),
                program: None,
                functions: Functions::new(alloc),
            },
            functions: None,
            pending: None,
            mixed,
        }
    }

    /// Takes the list of an option.
    #[tactic(auto, unfolding(crate::specs::Options::list_taken))]
    fn take_list(
        &mut self,
        alloc: Global,
        lenient: bool,
        number: u32,
        word: &[u8],
        option: ListOption,
    ) -> Result<(), Refused<WordFault>>
        ensures { Gives (λ _. self.new) result (list_taken lenient number self.old word.now option) }
    {
        match option {
            ListOption::Calls => self.take_calls(alloc, lenient, number, word),
            ListOption::Signals => self.take_signals(alloc, lenient, number, word),
            ListOption::Faults => self.take_faults(alloc, lenient, number, word),
            ListOption::Processes => self.take_pids(alloc, number, word),
            ListOption::Functions => self.take_functions(alloc, number, word),
        }
    }

    #[tactic(auto, unfolding(crate::specs::Options::list_taken))]
    fn take_calls(
        &mut self,
        alloc: Global,
        lenient: bool,
        number: u32,
        word: &[u8],
    ) -> Result<(), Refused<WordFault>>
        ensures { Gives (λ _. self.new) result (list_taken lenient number self.old word.now ListOption.Calls) }
    {
        match list_of::<Sysno>(alloc, word)? {
            Some(set) => self.options.calls = set,
            None => pass_over(lenient, number)?,
        }
        self.pending = None;
        Ok(())
    }

    #[tactic(auto, unfolding(crate::specs::Options::list_taken))]
    fn take_signals(
        &mut self,
        alloc: Global,
        lenient: bool,
        number: u32,
        word: &[u8],
    ) -> Result<(), Refused<WordFault>>
        ensures { Gives (λ _. self.new) result (list_taken lenient number self.old word.now ListOption.Signals) }
    {
        match list_of::<Sig>(alloc, word)? {
            Some(set) => self.options.signals = set,
            None => pass_over(lenient, number)?,
        }
        self.pending = None;
        Ok(())
    }

    #[tactic(auto, unfolding(crate::specs::Options::list_taken))]
    fn take_faults(
        &mut self,
        alloc: Global,
        lenient: bool,
        number: u32,
        word: &[u8],
    ) -> Result<(), Refused<WordFault>>
        ensures { Gives (λ _. self.new) result (list_taken lenient number self.old word.now ListOption.Faults) }
    {
        match list_of::<Flt>(alloc, word)? {
            Some(set) => self.options.faults = set,
            None => pass_over(lenient, number)?,
        }
        self.pending = None;
        Ok(())
    }

    #[tactic(auto, unfolding(crate::specs::Options::list_taken))]
    fn take_pids(
        &mut self,
        alloc: Global,
        number: u32,
        word: &[u8],
    ) -> Result<(), Refused<WordFault>>
        ensures { Gives (λ _. self.new) result (list_taken false number self.old word.now ListOption.Processes) }
    {
        match pids_of(alloc, word)? {
            Some(pids) => self.options.pids = pids,
            None => return Err(Refused::Kind(WordFault::BadOption { word: number })),
        }
        self.pending = None;
        Ok(())
    }

    #[tactic(auto, unfolding(crate::specs::Options::list_taken))]
    fn take_functions(
        &mut self,
        alloc: Global,
        number: u32,
        word: &[u8],
    ) -> Result<(), Refused<WordFault>>
        ensures { Gives (λ _. self.new) result (list_taken false number self.old word.now ListOption.Functions) }
    {
        match function_names_of(alloc, word)? {
            Some(names) => self.functions = Some(names),
            None => return Err(Refused::Kind(WordFault::BadOption { word: number })),
        }
        self.pending = None;
        Ok(())
    }

    /// Takes an option or the program's name.
    #[tactic(auto, unfolding(crate::specs::Options::option_taken))]
    fn take_option(&mut self, number: u32, word: &[u8]) -> Result<(), Refused<WordFault>>
        ensures { Gives (λ _. self.new) result (option_taken number self.old word.now) }
    {
        if word == b"-f".as_slice() {
            self.options.follow = true;
        } else if word == b"-l".as_slice() {
            self.options.lwps = true;
        } else if word == b"-c".as_slice() {
            self.options.count = true;
        } else if word == b"-i".as_slice() {
            return Ok(());
        } else if word == b"-t".as_slice() {
            self.pending = Some(ListOption::Calls);
        } else if word == b"-s".as_slice() {
            self.pending = Some(ListOption::Signals);
        } else if word == b"-m".as_slice() {
            self.pending = Some(ListOption::Faults);
        } else if word == b"-p".as_slice() {
            self.pending = Some(ListOption::Processes);
        } else if word == b"-u".as_slice() {
            if self.mixed {
                return Err(Refused::Kind(WordFault::BadOption { word: number }));
            }
            self.pending = Some(ListOption::Functions);
        } else {
            return self.take_program(number, word);
        }
        Ok(())
    }

    fn take_program(&mut self, number: u32, word: &[u8]) -> Result<(), Refused<WordFault>>
        ensures { Gives (λ _. self.new) result (with_program number self.old (name_of word.now)) }
    {
        match name_of(word) {
            Some(name) => {
                self.options.program = Some(name);
                Ok(())
            }
            None => Err(Refused::Kind(WordFault::BadOption { word: number })),
        }
    }

    /// Takes one word more.
    #[tactic(auto, unfolding(crate::specs::Options::word_taken))]
    fn take(
        &mut self,
        alloc: Global,
        lenient: bool,
        number: u32,
        word: &[u8],
    ) -> Result<(), Refused<WordFault>>
        ensures { Gives (λ _. self.new) result (word_taken lenient number self.old word.now) }
    {
        if self.options.program.is_some() {
            return Err(Refused::Kind(WordFault::BadOption {
                word: number.saturating_sub(1),
            }));
        }
        match self.pending {
            None => self.take_option(number, word),
            Some(option) => self.take_list(alloc, lenient, number, word, option),
        }
    }

    /// Whether the options name processes, or else a program, and no option lacks its list.
    #[tactic(auto, unfolding(crate::specs::Reading::is_whole))]
    fn is_whole(&self) -> bool
        ensures { result ≡ is_whole self.now }
    {
        if self.pending.is_some() {
            return false;
        }
        if self.options.pids.as_slice().len() == 0 {
            self.options.program.is_some()
        } else {
            self.options.program.is_none()
        }
    }

    /// What is asked for, of which so many words were read.
    #[tactic(auto, unfolding(crate::specs::Reading::all_asked))]
    fn finish(self, count: usize) -> Result<Asked, Refused<WordFault>>
        requires { count < 2 ^ 32 }
        ensures { Gives (λ asked. asked) result (all_asked count self) }
    {
        if self.is_whole() {
            Ok(Asked {
                options: self.options,
                functions: self.functions,
            })
        } else {
            Err(Refused::Kind(WordFault::BadOption {
                word: count.saturating_sub(1) as u32,
            }))
        }
    }
}

/// A list with a bad name is passed over, or refused.
fn pass_over(lenient: bool, number: u32) -> Result<(), WordFault>
    ensures { result ≡ (if lenient then Ok tt else Err (WordFault.BadName number)) }
{
    if lenient {
        Ok(())
    } else {
        Err(WordFault::BadName { word: number })
    }
}

/// Whether the word after an option is its list.
#[tactic(auto, unfolding(crate::specs::Options::takes_list))]
fn takes_list(word: &[u8]) -> bool
    ensures { result ≡ takes_list word.now }
{
    word == b"-t".as_slice()
        || word == b"-s".as_slice()
        || word == b"-m".as_slice()
        || word == b"-p".as_slice()
        || word == b"-u".as_slice()
}

/// Whether `-f` or `-c` is an option among words, whatever the lists between them hold.
#[tactic(auto, unfolding(crate::specs::Options::follows_or_counts))]
fn follows_or_counts(words: &[Bytes]) -> bool
    ensures { result ≡ follows_or_counts false words.now }
{
    let mut is_list = false;
    for word in words {
        let word = word.as_slice();
        if is_list {
            is_list = false;
        } else if word == b"-f".as_slice() || word == b"-c".as_slice() {
            return true;
        } else {
            is_list = takes_list(word);
        }
    }
    false
}

/// What words ask for, or the first word at fault; where bad names are passed over, the first bad option.
#[tactic(auto, unfolding(crate::specs::Reading::asked_in))]
fn read_in(alloc: Global, lenient: bool, words: &[Bytes]) -> Result<Asked, Refused<WordFault>>
    requires { length words.now < 2 ^ 32 }
    ensures { Gives (λ asked. asked) result (asked_in lenient words.now) }
{
    let mut draft = Draft::new(alloc, follows_or_counts(words));
    for (i, word) in words.iter().enumerate() {
        draft.take(alloc, lenient, i as u32, word.as_slice())?;
    }
    draft.finish(words.len())
}

/// What the words after `truss` ask for (truss(1)), or the first word at fault; out of memory apart.
///
/// Takes time linear in the words.
pub fn read_words(alloc: Global, words: &[Bytes]) -> Result<Asked, Refused<WordFault>>
    requires { length words.now < 2 ^ 32 }
    ensures { Gives (λ asked. asked) result (asked_of words.now) }
{
    read_in(alloc, false, words)
}

/// The options that the words after `truss` stand for (truss(1)), or the first word at fault. The options have no
/// functions: of the word after `-u` only the form is judged here.
///
/// Takes time linear in the words.
#[tactic(auto, unfolding(crate::specs::Reading::options_of))]
pub fn read_options(alloc: Global, words: &[Bytes]) -> Result<Options, OptFault>
    requires { length words.now < 2 ^ 32 }
    ensures { Reads result (options_of words.now) }
{
    match read_words(alloc, words) {
        Ok(asked) => Ok(asked.options),
        Err(Refused::Kind(WordFault::BadOption { word })) => Err(OptFault::BadOption { word }),
        Err(Refused::Kind(WordFault::BadName { word })) => Err(OptFault::BadName { word }),
        Err(Refused::NoMemory(error)) => Err(OptFault::from(error)),
    }
}

/// Whether a word is a bad option, also where an earlier one is a list with a bad name.
#[tactic(auto, unfolding(crate::specs::Reading::has_bad_option))]
pub fn has_bad_option(alloc: Global, words: &[Bytes]) -> Result<bool, NoMemory>
    requires { length words.now < 2 ^ 32 }
    ensures { IfOk result (λ bad. bad ≡ has_bad_option words.now) }
{
    match read_in(alloc, true, words) {
        Ok(_) => Ok(false),
        Err(Refused::Kind(_)) => Ok(true),
        Err(Refused::NoMemory(error)) => Err(error),
    }
}
