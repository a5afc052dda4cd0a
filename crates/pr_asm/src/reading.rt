//! Programs as text.
ghost use Rattle.std.specs.Prelude.{◌≡◌, ◌+◌, ◌<◌, ◌≤◌, ◌^◌, length, map, IfOk};
ghost use Rattle.pr_asm.specs.Assembly.{assembled, program_in, program_of};
ghost use Rattle.pr_text.specs.Reads.{Answers};
ghost use Rattle.pr_asm.specs.Statements.{statement_of};

use crate::places::Places;
use crate::statements::{Statement, statement_of};
use crate::{AsmKind, AsmRefusal, Program};
use pr_num::{Name, NoMemory};
use pr_text::{Refused, split_lines};
use std::alloc::Global;

/// What a line says on its own, or the kind for which it is refused.
fn read_line(alloc: Global, line: &[u8]) -> Result<Result<Statement, AsmKind>, NoMemory>
    ensures { IfOk result (λ read. read ≡ statement_of line.now) }
{
    match statement_of(alloc, line) {
        Ok(statement) => Ok(Ok(statement)),
        Err(Refused::Kind(kind)) => Ok(Err(kind)),
        Err(Refused::NoMemory(error)) => Err(error),
    }
}

/// What each of these lines says on its own.
fn reads_of(alloc: Global, lines: &[&[u8]]) -> Result<Vec<Result<Statement, AsmKind>>, NoMemory>
    ensures { IfOk result (λ reads. reads.items ≡ map statement_of (map (λ line. line.now) lines.now)) }
{
    let mut reads = Vec::new(alloc);
    for line in lines {
        reads.push(read_line(alloc, line)?)?;
    }
    Ok(reads)
}

/// The program that lines make of which these were read, where the lines count from `first`.
fn assemble(
    alloc: Global,
    name: Name,
    reads: &[Result<Statement, AsmKind>],
    first: u32,
) -> Result<Program, AsmRefusal>
    requires { first + length reads.now ≤ 2 ^ 32 }
    ensures { Answers (λ p. p) result (assembled name first reads.now) }
{
    let places = Places::of(alloc, reads, first)?;
    let mut program = Program::empty(alloc, name);
    for (i, read) in reads.iter().enumerate() {
        program.add_line(&places, first + i as u32, read)?;
    }
    Ok(program)
}

/// The program of this name that lines spell, or the first of them that is refused. They count from `first_line`.
///
/// Takes time linear in the lines, but for the logarithm of the number of names.
pub fn read_lines(
    alloc: Global,
    name: Name,
    lines: &[&[u8]],
    first_line: u32,
) -> Result<Program, AsmRefusal>
    requires { first_line + length lines.now ≤ 2 ^ 32 }
    ensures { Answers (λ p. p) result (program_in name (map (λ line. line.now) lines.now) first_line) }
{
    let reads = reads_of(alloc, lines)?;
    assemble(alloc, name, &reads, first_line)
}

/// The program of this name that a text spells, or its first line that is refused. The lines of the text count from
/// `first_line`.
///
/// Takes time linear in the text, but for the logarithm of the number of names.
pub fn read_program(
    alloc: Global,
    name: Name,
    text: &[u8],
    first_line: u32,
) -> Result<Program, AsmRefusal>
    requires { first_line + length text.now < 2 ^ 32 }
    ensures { Answers (λ p. p) result (program_of name text.now first_line) }
{
    let lines = split_lines(alloc, text)?;
    read_lines(alloc, name, &lines, first_line)
}
