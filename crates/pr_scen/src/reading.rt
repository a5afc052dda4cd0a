//! Scenarios as text.
ghost use Rattle.std.specs.Prelude.{◌≡◌, ◌+◌, ◌<◌, ◌≤◌, ◌^◌, ◌∷◌, true, drop, length, map, IfOk, IfSome};
ghost use Rattle.std.specs.List.{position_from};
ghost use Rattle.pr_scen.specs.Lines.{is_end};
ghost use Rattle.pr_scen.specs.Parts.{begins_block};
ghost use Rattle.pr_scen.specs.Reading.{draft_in, scenario_in, scenario_of};
ghost use Rattle.pr_text.specs.Reads.{Answers};
ghost use Rattle.pr_scen.specs.Scenarios.{IsWithinLimits};
ghost use Rattle.pr_scen.specs.Taken.{PartTaken};

use crate::drafts::Draft;
use crate::lines::{begins_block, is_end};
use crate::{ScenFault, ScenKind, ScenRefusal, Scenario};
use pr_num::NoMemory;
use pr_text::split_lines;
use std::alloc::Global;

/// Which of these lines ends a block first.
fn end_of(lines: &[&[u8]]) -> Option<usize>
    ensures value { result ≡ position_from is_end 0 (map (λ line. line.now) lines.now) }
    ensures within { IfSome result (λ k. k < length lines.now) }
{
    for (i, line) in lines.iter().enumerate() {
        if is_end(line) {
            return Some(i);
        }
    }
    None
}

impl Draft {
    /// Adds the block that a line of this number begins, where these lines stand below it, and answers how many lines
    /// it has.
    fn take_block(
        &mut self,
        alloc: Global,
        number: u32,
        first: &[u8],
        below: &[&[u8]],
    ) -> Result<usize, ScenRefusal>
        requires few { number + length below.now + 1 < 2 ^ 32 }
        requires begins { begins_block first.now ≡ true }
        ensures { PartTaken number self.old self.new (first.now ∷ map (λ line. line.now) below.now) result }
    {
        let Some(end) = end_of(below) else {
            return Err(self.refuse_endless(alloc, number, first));
        };
        self.add_block(alloc, number, first, &below[..end], below[end])?;
        Ok(end + 2)
    }

    /// Adds the part that a line of this number begins, where these lines stand below it, and answers how many lines it
    /// has.
    pub(crate) fn take_part(
        &mut self,
        alloc: Global,
        number: u32,
        first: &[u8],
        below: &[&[u8]],
    ) -> Result<usize, ScenRefusal>
        requires { number + length below.now + 1 < 2 ^ 32 }
        ensures { PartTaken number self.old self.new (first.now ∷ map (λ line. line.now) below.now) result }
    {
        if begins_block(first) {
            return self.take_block(alloc, number, first, below);
        }
        self.add_outer_line(alloc, number, first)?;
        Ok(1)
    }
}

/// The lines from a place on.
pub(crate) fn lines_from<'a, 'b>(lines: &'a [&'b [u8]], place: usize) -> &'a [&'b [u8]]
    requires { place ≤ length lines.now }
    ensures { result.now ≡ drop place lines.now }
{
    &lines[place..]
}

/// What lines make, one part after another.
fn read_parts(alloc: Global, lines: &[&[u8]]) -> Result<Draft, ScenRefusal>
    requires { length lines.now + 1 < 2 ^ 32 }
    ensures { Answers (λ d. d) result (draft_in (map (λ line. line.now) lines.now)) }
{
    let mut draft = Draft::new(alloc);
    let mut number = 1;
    let mut rest = lines;
    while let Some((first, below)) = rest.split_first() {
        let taken = draft.take_part(alloc, number, first, below)?;
        number += taken as u32;
        rest = lines_from(rest, taken);
    }
    Ok(draft)
}

/// The scenario that lines spell, or the first line that is refused.
#[tactic(auto, unfolding(crate::specs::Reading::scenario_in))]
fn read_lines(alloc: Global, lines: &[&[u8]]) -> Result<Scenario, ScenRefusal>
    requires { length lines.now + 1 < 2 ^ 32 }
    ensures { Answers (λ s. s) result (scenario_in (map (λ line. line.now) lines.now)) }
{
    Ok(read_parts(alloc, lines)?.make())
}

/// The scenario that a text spells, or its first line that is refused.
fn read_text(alloc: Global, text: &[u8]) -> Result<Scenario, ScenRefusal>
    requires { length text.now + 2 < 2 ^ 32 }
    ensures { Answers (λ s. s) result (scenario_of text.now) }
{
    let lines = split_lines(alloc, text)?;
    read_lines(alloc, &lines)
}

/// The scenario that a text spells, or its first line that is refused. Lines count from 1. What is read keeps each
/// limit of a scenario.
///
/// Takes time linear in the text, but for the logarithm of the number of names.
pub fn read_scenario(alloc: Global, text: &[u8]) -> Result<Scenario, ScenRefusal>
    requires { length text.now + 2 < 2 ^ 32 }
    ensures read { Answers (λ s. s) result (scenario_of text.now) }
    ensures limits { IfOk result (λ s. IsWithinLimits s) }
{
    read_text(alloc, text)
}
