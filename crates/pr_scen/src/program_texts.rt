//! Texts of programs alone: program blocks, comments, and lines without words.
ghost use Rattle.std.specs.Prelude.{◌≡◌, ◌+◌, ◌<◌, ◌^◌, length, map};
ghost use Rattle.pr_text.specs.Words.{texts_of};
ghost use Rattle.pr_scen.specs.Blocks.{numbered};
ghost use Rattle.pr_scen.specs.ProgramTexts.{admitted, may_stand, program_draft_in, programs_of};
ghost use Rattle.pr_text.specs.Reads.{Answers};

use crate::drafts::Draft;
use crate::lines::readable;
use crate::reading::lines_from;
use crate::{ScenFault, ScenKind, ScenRefusal};
use pr_asm::Program;
use pr_text::{Tokens, begins_comment, split_lines};
use std::alloc::Global;

/// Whether a line may begin a part: it has no words, is a comment, or begins a program block.
#[tactic(auto, unfolding(crate::specs::ProgramTexts::may_stand))]
fn may_stand(line: &[u8]) -> bool
    ensures { result ≡ may_stand (texts_of line.now) }
{
    let mut words = Tokens::of(line);
    match words.next() {
        Some(first) => begins_comment(first) || first == b"program".as_slice(),
        None => true,
    }
}

/// A line that may begin a part, or why it is refused.
#[tactic(auto, unfolding(crate::specs::ProgramTexts::admitted))]
fn admitted(line: &[u8]) -> Result<(), ScenKind>
    ensures { result ≡ admitted line.now }
{
    readable(line)?;
    if may_stand(line) {
        Ok(())
    } else {
        Err(ScenKind::UnknownWord)
    }
}

/// The same, with the number of the line.
fn admitted_at(number: u32, line: &[u8]) -> Result<(), ScenFault>
    ensures { result ≡ numbered number (admitted line.now) }
{
    match admitted(line) {
        Ok(()) => Ok(()),
        Err(kind) => Err(ScenFault { line: number, kind }),
    }
}

/// What lines make, one part after another.
fn read_parts(alloc: Global, lines: &[&[u8]]) -> Result<Draft, ScenRefusal>
    requires { length lines.now + 1 < 2 ^ 32 }
    ensures { Answers (λ d. d) result (program_draft_in (map (λ line. line.now) lines.now)) }
{
    let mut draft = Draft::new(alloc);
    let mut number = 1;
    let mut rest = lines;
    while let Some((first, below)) = rest.split_first() {
        admitted_at(number, first)?;
        let taken = draft.take_part(alloc, number, first, below)?;
        number += taken as u32;
        rest = lines_from(rest, taken);
    }
    Ok(draft)
}

/// The programs that a text spells, in the order of their blocks, or its first line that is refused. Lines count from
/// 1. A line outside blocks has no words or is a comment; any other is refused as one whose first word is unknown.
#[tactic(auto, unfolding(crate::specs::ProgramTexts::programs_of))]
pub fn read_programs(alloc: Global, text: &[u8]) -> Result<Vec<Program>, ScenRefusal>
    requires { length text.now + 2 < 2 ^ 32 }
    ensures { Answers (λ programs. programs.items) result (programs_of text.now) }
{
    let lines = split_lines(alloc, text)?;
    let draft = read_parts(alloc, &lines)?;
    Ok(draft.programs.into_vec())
}
