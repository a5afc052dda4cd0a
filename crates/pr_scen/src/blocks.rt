//! The lines and blocks of a text, one after the other.
ghost use Rattle.std.specs.Prelude.{◌≡◌, ◌≤◌, ◌<◌, ◌+◌, ◌^◌, length, map, None, Ok, Err, IfOk};
ghost use Rattle.pr_num.specs.Limits.{program_limit};
ghost use Rattle.pr_text.specs.Reads.{Gives};
ghost use Rattle.pr_text.specs.Steps.{folded};
ghost use Rattle.pr_scen.specs.Blocks.{numbered, item_in, line_added, begun, ended, kind_of, all_readable, first_of_both, program_read, program_added, script_words_added, script_line_read, script_added, part_added};
ghost use Rattle.pr_scen.specs.Drafts.{may_begin};
ghost use Rattle.pr_scen.specs.Parts.{line, block, endless};
ghost use Rattle.pr_text.specs.Reads.{Answers, LineGave, Stops};
ghost use Rattle.pr_scen.specs.Names.{place_of};

use crate::drafts::Draft;
use crate::items::{Item, item_of};
use crate::lines::readable;
use crate::script_blocks::script_line_of;
use crate::{ScenFault, ScenKind, ScenRefusal};
use pr_asm::{AsmFault, AsmKind, AsmRefusal, Program, read_lines};
use pr_num::Name;
use pr_text::{Refused, Tokens, none};
use std::alloc::Global;

/// What was read of a line, with the number of the line where it is refused.
fn at_line<T>(line: u32, read: Result<T, Refused<ScenKind>>) -> Result<T, ScenRefusal>
    ensures { LineGave line read result }
{
    match read {
        Ok(x) => Ok(x),
        Err(Refused::Kind(kind)) => Err(ScenRefusal::Fault(ScenFault { line, kind })),
        Err(Refused::NoMemory(error)) => Err(ScenRefusal::from(error)),
    }
}

/// What a line outside blocks says.
fn item_in(alloc: Global, line: &[u8]) -> Result<Item, Refused<ScenKind>>
    ensures { Gives (λ item. item) result (item_in line.now) }
{
    readable(line)?;
    item_of(alloc, line)
}

/// The line that ends a block has `end` alone.
#[tactic(auto, unfolding(crate::specs::Blocks::ended))]
fn ended(line: &[u8]) -> Result<(), ScenKind>
    ensures { result ≡ ended line.now }
{
    readable(line)?;
    let mut words = Tokens::of(line);
    match words.next() {
        Some(_) => none(words, ScenKind::BadOperand),
        None => Ok(()),
    }
}

/// The same, with the number of the line.
fn ended_at(number: u32, line: &[u8]) -> Result<(), ScenFault>
    ensures { result ≡ numbered number (ended line.now) }
{
    match ended(line) {
        Ok(()) => Ok(()),
        Err(kind) => Err(ScenFault { line: number, kind }),
    }
}

/// The kinds of programs are kinds of scenarios.
#[tactic(auto, unfolding(crate::specs::Blocks::kind_of))]
fn kind_of(kind: AsmKind) -> ScenKind
    ensures { result ≡ kind_of kind }
{
    match kind {
        AsmKind::UnknownWord => ScenKind::UnknownWord,
        AsmKind::BadOperand => ScenKind::BadOperand,
        AsmKind::UnknownName => ScenKind::UnknownName,
        AsmKind::Double => ScenKind::Double,
        AsmKind::TooBig => ScenKind::TooBig,
    }
}

/// The first of these lines, which count from `first`, that cannot be read, if there is one.
#[tactic(auto, unfolding(crate::specs::Blocks::all_readable))]
fn all_readable(first: u32, lines: &[&[u8]]) -> Result<(), ScenFault>
    requires { first + length lines.now ≤ 2 ^ 32 }
    ensures { result ≡ all_readable first (map (λ line. line.now) lines.now) }
{
    for (i, line) in lines.iter().enumerate() {
        if let Err(kind) = readable(line) {
            return Err(ScenFault {
                line: first + i as u32,
                kind,
            });
        }
    }
    Ok(())
}

/// What stands first: a line that cannot be read, or what the program's own language refuses.
fn first_fault(lines: Result<(), ScenFault>, fault: AsmFault) -> ScenFault
    ensures { first_of_both lines (Err fault) ≡ Err result }
{
    match lines {
        Err(unreadable) if unreadable.line <= fault.line => unreadable,
        _ => ScenFault {
            line: fault.line,
            kind: kind_of(fault.kind),
        },
    }
}

/// The program of the lines of a block, which count from `first`.
#[tactic(auto, unfolding(crate::specs::Blocks::program_read))]
fn program_read(
    alloc: Global,
    name: Name,
    first: u32,
    lines: &[&[u8]],
) -> Result<Program, ScenRefusal>
    requires { first + length lines.now ≤ 2 ^ 32 }
    ensures { Answers (λ p. p) result (program_read name first (map (λ line. line.now) lines.now)) }
{
    let readable = all_readable(first, lines);
    match read_lines(alloc, name, lines, first) {
        Ok(program) => {
            readable?;
            Ok(program)
        }
        Err(AsmRefusal::Fault(fault)) => Err(ScenRefusal::Fault(first_fault(readable, fault))),
        Err(AsmRefusal::NoMemory) => Err(ScenRefusal::NoMemory),
    }
}

impl Draft {
    /// Adds a line outside blocks.
    #[tactic(auto, unfolding(crate::specs::Blocks::line_added))]
    fn add_words(&mut self, alloc: Global, line: &[u8]) -> Result<(), Refused<ScenKind>>
        ensures { Gives (λ _. self.new) result (line_added self.old line.now) }
    {
        let item = item_in(alloc, line)?;
        self.add_item(alloc, item)
    }

    /// Adds a line outside blocks, or names it as refused.
    #[tactic(auto, unfolding(crate::specs::Blocks::part_added))]
    pub fn add_outer_line(
        &mut self,
        alloc: Global,
        number: u32,
        this: &[u8],
    ) -> Result<(), ScenRefusal>
        ensures { Answers (λ _. self.new) result (part_added self.old (line number this.now)) }
    {
        let added = self.add_words(alloc, this);
        at_line(number, added)
    }

    /// What a line that begins a block says, where it may.
    #[tactic(auto, unfolding(crate::specs::Blocks::begun))]
    fn begin(&self, alloc: Global, first: &[u8]) -> Result<Item, Refused<ScenKind>>
        ensures value { Gives (λ item. item) result (begun self.now first.now) }
        ensures may { IfOk result (λ item. may_begin self.now item ≡ Ok tt) }
    {
        let item = item_in(alloc, first)?;
        self.may_begin(&item)?;
        Ok(item)
    }

    /// The same, with the number of the line where it is refused.
    fn begin_at(&self, alloc: Global, number: u32, first: &[u8]) -> Result<Item, ScenRefusal>
        ensures value { Answers (λ item. item) result (numbered number (begun self.now first.now)) }
        ensures may { IfOk result (λ item. may_begin self.now item ≡ Ok tt) }
    {
        let item = self.begin(alloc, first);
        at_line(number, item)
    }

    /// Why a line is refused that begins a block without end: for that, or for a kind that comes before.
    #[tactic(auto, unfolding(crate::specs::Blocks::part_added))]
    pub fn refuse_endless(&self, alloc: Global, number: u32, first: &[u8]) -> ScenRefusal
        ensures { Stops result (part_added self.now (endless number first.now)) }
    {
        match self.begin(alloc, first) {
            Ok(_) => ScenRefusal::Fault(ScenFault {
                line: number,
                kind: ScenKind::NoEnd,
            }),
            Err(Refused::Kind(kind)) => ScenRefusal::Fault(ScenFault { line: number, kind }),
            Err(Refused::NoMemory(error)) => ScenRefusal::from(error),
        }
    }

    /// Adds the block of the program of this name, whose first line has this number.
    #[tactic(auto, unfolding(crate::specs::Blocks::program_added))]
    fn add_program_block(
        &mut self,
        alloc: Global,
        number: u32,
        name: Name,
        body: &[&[u8]],
        last: &[u8],
    ) -> Result<(), ScenRefusal>
        requires few { number + length body.now + 1 < 2 ^ 32 }
        requires fresh { place_of self.old.program_names name ≡ None }
        requires room { length self.old.program_names < program_limit }
        ensures { Answers (λ _. self.new) result
            (program_added number self.old name (map (λ line. line.now) body.now) last.now) }
    {
        let program = program_read(alloc, name, number + 1, body)?;
        let end = number + body.len() as u32 + 1;
        ended_at(end, last)?;
        self.add_program(name, program)?;
        Ok(())
    }

    /// Adds a line of a script block.
    fn add_script_words(&mut self, alloc: Global, line: &[u8]) -> Result<(), Refused<ScenKind>>
        ensures { Gives (λ _. self.new) result (script_words_added self.old line.now) }
    {
        readable(line)?;
        let read = script_line_of(alloc, line)?;
        self.add_script_line(read)
    }

    /// Adds a line of a script block, or names it as refused.
    #[tactic(auto, unfolding(crate::specs::Blocks::script_line_read))]
    fn add_inner_line(&mut self, alloc: Global, number: u32, line: &[u8]) -> Result<(), ScenRefusal>
        ensures { Answers (λ _. self.new) result (script_line_read number self.old line.now) }
    {
        let added = self.add_script_words(alloc, line);
        at_line(number, added)
    }

    /// Adds the lines of a script block, which count from `first`.
    fn add_script_lines(
        &mut self,
        alloc: Global,
        first: u32,
        lines: &[&[u8]],
    ) -> Result<(), ScenRefusal>
        requires { first + length lines.now ≤ 2 ^ 32 }
        ensures { Answers (λ _. self.new) result
            (folded script_line_read first self.old (map (λ line. line.now) lines.now)) }
    {
        for (i, line) in lines.iter().enumerate() {
            self.add_inner_line(alloc, first + i as u32, line)?;
        }
        Ok(())
    }

    /// Adds the block of a script, whose first line has this number.
    #[tactic(auto, unfolding(crate::specs::Blocks::script_added))]
    fn add_script_block(
        &mut self,
        alloc: Global,
        number: u32,
        body: &[&[u8]],
        last: &[u8],
    ) -> Result<(), ScenRefusal>
        requires { number + length body.now + 1 < 2 ^ 32 }
        ensures { Answers (λ _. self.new) result
            (script_added number self.old (map (λ line. line.now) body.now) last.now) }
    {
        self.add_script_lines(alloc, number + 1, body)?;
        ended_at(number + body.len() as u32 + 1, last)?;
        self.end_script(alloc)?;
        Ok(())
    }

    /// Adds a block, whose first line has this number.
    #[tactic(auto, using(crate::proofs::DraftLemmas::may_laws), unfolding(crate::specs::Blocks::part_added, crate::specs::Blocks::block_added))]
    pub fn add_block(
        &mut self,
        alloc: Global,
        number: u32,
        first: &[u8],
        body: &[&[u8]],
        last: &[u8],
    ) -> Result<(), ScenRefusal>
        requires { number + length body.now + 1 < 2 ^ 32 }
        ensures { Answers (λ _. self.new) result
            (part_added self.old (block number first.now (map (λ line. line.now) body.now) last.now)) }
    {
        match self.begin_at(alloc, number, first)? {
            Item::Program(name) => self.add_program_block(alloc, number, name, body, last),
            Item::Script => self.add_script_block(alloc, number, body, last),
            _ => Ok(()),
        }
    }
}
