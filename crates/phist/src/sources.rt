//! The source lines of the instructions of a scenario's programs.
ghost use Rattle.std.specs.Prelude.{◌≡◌, ◌+◌, ◌≤◌, ◌<◌, ◌^◌, [], drop, length, map, take, IfOk, Ok, OnOk};
ghost use Rattle.std.specs.List.{All};
ghost use Rattle.pr_hist.specs.News.{known_at_start};
ghost use Rattle.pr_num.specs.Limits.{checked_limit, spawn_limit};
ghost use Rattle.pr_scen.specs.Lines.{first_is, is_end};
ghost use Rattle.pr_scen.specs.Reading.{scenario_of};
ghost use Rattle.pr_scen.specs.Scenarios.{IsWithinLimits};
ghost use Rattle.pr_text.specs.TextLines.{lines_of};
ghost use Rattle.pr_text.specs.Words.{texts_of};
ghost use Rattle.phist.specs.Sources.{HasItsLines, block_after, block_begun, code_after, code_from, code_lines, inside_or_out, is_code, listing_of, listings_of, names_of};

use pr_asm::{Program, Statement, statement_of};
use pr_hist::{Listing, Names};
use pr_num::NoMemory;
use pr_scen::Scenario;
use pr_text::{Refused, Tokens, behind, front, split_lines};
use std::alloc::Global;

/// In which block of a scenario a line stands.
#[derive(Clone, Copy, Debug, PartialEq, Eq)]
pub enum Block {
    Outside,
    Program,
    Script,
}

/// Whether the first of a line's words is this one.
fn first_is(word: &[u8], line: &[u8]) -> bool
    ensures { result ≡ first_is word.now (texts_of line.now) }
{
    let mut words = Tokens::of(line);
    match words.next() {
        Some(first) => first == word,
        None => false,
    }
}

/// Whether a line ends a block.
#[tactic(auto, unfolding(pr_scen::specs::Lines::is_end))]
fn is_end(line: &[u8]) -> bool
    ensures { result ≡ is_end line.now }
{
    first_is(b"end", line)
}

/// The block that a line outside of blocks begins, if it does.
fn block_begun(line: &[u8]) -> Block
    ensures { result ≡ block_begun line.now }
{
    if first_is(b"program", line) {
        Block::Program
    } else if first_is(b"script", line) {
        Block::Script
    } else {
        Block::Outside
    }
}

/// This block, unless a line of it ends it.
fn inside_or_out(block: Block, line: &[u8]) -> Block
    ensures { result ≡ inside_or_out block line.now }
{
    if is_end(line) { Block::Outside } else { block }
}

/// The block in which the next line stands.
#[tactic(auto, unfolding(crate::specs::Sources::block_after))]
fn block_after(block: Block, line: &[u8]) -> Block
    ensures { result ≡ block_after block line.now }
{
    match block {
        Block::Outside => block_begun(line),
        Block::Program => inside_or_out(Block::Program, line),
        Block::Script => inside_or_out(Block::Script, line),
    }
}

/// Whether a line of a program is an instruction.
#[tactic(auto, unfolding(crate::specs::Sources::is_code))]
fn is_code(alloc: Global, line: &[u8]) -> Result<bool, NoMemory>
    ensures { IfOk result (λ code. code ≡ is_code line.now) }
{
    match statement_of(alloc, line) {
        Ok(Statement::Code { .. }) => Ok(true),
        Ok(Statement::Blank) => Ok(false),
        Ok(Statement::Label { .. }) => Ok(false),
        Ok(Statement::Data { .. }) => Ok(false),
        Err(Refused::Kind(_)) => Ok(false),
        Err(Refused::NoMemory(error)) => Err(error),
    }
}

/// Keeps the number of a line, where it is an instruction.
#[tactic(auto, unfolding(crate::specs::Sources::code_after))]
fn note_line(
    alloc: Global,
    numbers: &mut Vec<u32>,
    number: u32,
    line: &[u8],
) -> Result<(), NoMemory>
    ensures { OnOk result (numbers.new.items ≡ code_after Block.Program number line.now numbers.old.items) }
{
    if is_code(alloc, line)? {
        numbers.push(number)?;
    }
    Ok(())
}

/// Keeps the number of a line, where it is an instruction of a program.
#[tactic(auto, unfolding(crate::specs::Sources::code_after))]
fn note_code(
    alloc: Global,
    numbers: &mut Vec<u32>,
    block: Block,
    number: u32,
    line: &[u8],
) -> Result<(), NoMemory>
    ensures { OnOk result (numbers.new.items ≡ code_after block number line.now numbers.old.items) }
{
    match block {
        Block::Program => note_line(alloc, numbers, number, line),
        Block::Outside | Block::Script => Ok(()),
    }
}

/// The numbers of the lines of all instructions of programs, in their order. Lines count from 1.
#[tactic(auto, unfolding(crate::specs::Sources::code_from))]
fn line_numbers(alloc: Global, lines: &[&[u8]]) -> Result<Vec<u32>, NoMemory>
    requires { length lines.now + 1 < 2 ^ 32 }
    ensures { IfOk result (λ numbers.
        numbers.items ≡ code_from 1 Block.Outside [] (map (λ line. line.now) lines.now)) }
{
    let mut numbers = Vec::new(alloc);
    let mut block = Block::Outside;
    for (i, line) in lines.iter().enumerate() {
        note_code(alloc, &mut numbers, block, i as u32 + 1, line)?;
        block = block_after(block, line);
    }
    Ok(numbers)
}

/// A program with the lines of its instructions, which are the first of these.
fn listing(alloc: Global, program: Program, numbers: &[u32]) -> Result<Listing, NoMemory>
    ensures { IfOk result (λ l. l ≡ listing_of program numbers.now) }
{
    let lines = front(numbers, program.code().len()).to_vec(alloc)?;
    Ok(Listing { program, lines })
}

/// Programs with the lines of their instructions, which stand one after another in these.
fn listings_of(
    alloc: Global,
    programs: Vec<Program>,
    numbers: &[u32],
) -> Result<Vec<Listing>, NoMemory>
    ensures { IfOk result (λ listings. listings.items ≡ listings_of programs.items numbers.now) }
{
    let mut listings = Vec::new(alloc);
    let mut rest = numbers;
    for program in programs {
        let count = program.code().len();
        listings.push(listing(alloc, program, rest)?)?;
        rest = behind(rest, count);
    }
    Ok(listings)
}

/// What these programs tell, which were read from this text, and processes that run them from the beginning.
fn names_from(
    alloc: Global,
    programs: Vec<Program>,
    spawns: &[u32],
    text: &[u8],
) -> Result<Names, NoMemory>
    requires spawns { length spawns.now ≤ spawn_limit }
    requires few { length text.now ≤ checked_limit }
    ensures { IfOk result (λ names.
        names ≡ known_at_start (listings_of programs.items (code_lines text.now)) spawns.now) }
{
    let lines = split_lines(alloc, text)?;
    let numbers = line_numbers(alloc, &lines)?;
    let listings = listings_of(alloc, programs, &numbers)?;
    Names::of(alloc, listings, spawns)
}

/// What a scenario tells before the first entry of its history: its programs with their lines, and which of them its
/// first processes run. Where it was read from this text, each program has those lines of its own block that are
/// instructions, and each of them is the instruction of its place.
pub fn names_of(alloc: Global, scenario: Scenario, text: &[u8]) -> Result<Names, NoMemory>
    requires limits { IsWithinLimits scenario }
    requires few { length text.now ≤ checked_limit }
    ensures names { IfOk result (λ names. names ≡ names_of scenario text.now) }
    ensures lines { scenario_of text.now ≡ Ok scenario → IfOk result
        (λ names. All (HasItsLines (lines_of text.now)) names.listings) }
{
    let Scenario {
        turns: _,
        programs,
        files: _,
        spawns,
        controllers: _,
        schedule: _,
    } = scenario;
    names_from(alloc, programs, spawns.as_slice(), text)
}
