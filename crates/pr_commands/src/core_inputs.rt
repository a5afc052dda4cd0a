//! What the command `core` is given: programs, the line `%core`, and the text of a core.
ghost use Rattle.std.specs.Prelude.{◌≡◌, ◌≤◌, ◌<◌, ◌+◌, ◌^◌, length, IfOk, IfSome};
ghost use Rattle.pr_core.specs.CoreBytes.{core_bytes};
ghost use Rattle.pr_core.specs.CoreRanges.{IsCore};
ghost use Rattle.pr_core_text.specs.CoreTexts.{core_of};
ghost use Rattle.pr_scen.specs.ProgramTexts.{programs_of};
ghost use Rattle.pr_commands.specs.CoreInputs.{ReadsCore, core_input_of, core_limit, core_of_input, core_parts_at};
ghost use Rattle.pr_commands.specs.Parts.{Gives, ReadsLines};

use crate::inputs::TOO_LONG;
use crate::wrongs::{Misread, Wrong};
use pr_asm::Program;
use pr_core::Core;
use pr_core_text::{CoreTextRefusal, read_core};
use pr_input::{Mark, lines_above};
use pr_num::Bytes;
use pr_scen::{ScenFault, ScenKind, ScenRefusal, read_programs};
use std::alloc::Global;

/// The most bytes that an input may have.
pub const CORE_LIMIT: usize = 4_194_304;

/// Programs, which give stacks their labels, and a core.
#[derive(Drop)]
pub struct CoreInput {
    pub programs: Vec<Program>,
    pub core: Core,
}

/// Reads the programs of an input.
fn programs_of(alloc: Global, text: &[u8]) -> Result<Vec<Program>, Misread>
    requires { length text.now ≤ core_limit }
    ensures { ReadsLines (λ programs. programs.items) result (programs_of text.now) }
{
    match read_programs(alloc, text) {
        Ok(programs) => Ok(programs),
        Err(ScenRefusal::Fault(fault)) => Err(Misread::Wrong(Wrong::Scenario(fault))),
        Err(ScenRefusal::NoMemory) => Err(Misread::NoMemory),
    }
}

/// Reads the core of an input, of which the first line has this number.
fn core_of(alloc: Global, text: &[u8], first_line: u32) -> Result<Core, Misread>
    requires { first_line + length text.now + 1 < 2 ^ 32 }
    ensures read { ReadsCore result (core_of first_line text.now) }
    ensures core { IfOk result IsCore }
    ensures fits { IfOk result (λ core. length (core_bytes core) < 2 ^ 64) }
{
    match read_core(alloc, text, first_line) {
        Ok(core) => Ok(core),
        Err(CoreTextRefusal::Line(line)) => Err(Misread::Wrong(Wrong::Core(line))),
        Err(CoreTextRefusal::NoMemory) => Err(Misread::NoMemory),
    }
}

/// Reads an input with the line `%core` at this place.
#[tactic(auto, unfolding(crate::specs::CoreInputs::core_parts_at))]
fn read_parts(alloc: Global, text: &[u8], place: usize) -> Result<CoreInput, Misread>
    requires within { place ≤ length text.now }
    requires few { length text.now ≤ core_limit }
    ensures read { Gives (λ input. (input.programs.items, core_bytes input.core)) result (core_parts_at text.now place) }
    ensures core { IfOk result (λ input. IsCore input.core) }
    ensures fits { IfOk result (λ input. length (core_bytes input.core) < 2 ^ 64) }
{
    let programs = programs_of(alloc, &text[..place])?;
    let below = Mark::Core.below(text, place);
    let core = core_of(alloc, below, lines_above(text, place) + 2)?;
    Ok(CoreInput { programs, core })
}

/// Reads an input: programs, the line `%core`, and the text of a core, of which what stands below is not looked at.
#[tactic(auto, unfolding(crate::specs::CoreInputs::core_input_of))]
fn read_input(alloc: Global, text: &[u8]) -> Result<CoreInput, Misread>
    requires { length text.now ≤ core_limit }
    ensures read { Gives (λ input. (input.programs.items, core_bytes input.core)) result (core_input_of text.now) }
    ensures core { IfOk result (λ input. IsCore input.core) }
    ensures fits { IfOk result (λ input. length (core_bytes input.core) < 2 ^ 64) }
{
    match Mark::Core.place(CORE_LIMIT, text) {
        Some(place) => read_parts(alloc, text, place),
        None => Err(Misread::Wrong(Wrong::Scenario(ScenFault {
            line: 0,
            kind: ScenKind::NoEnd,
        }))),
    }
}

/// The programs and the core of an input, which is let go; none: it had more bytes than it may have.
#[tactic(auto, unfolding(crate::specs::CoreInputs::core_of_input))]
pub fn core_of_input(alloc: Global, input: Option<Bytes>) -> Result<CoreInput, Misread>
    requires { IfSome input (λ bytes. length bytes ≤ core_limit) }
    ensures read { Gives (λ input. (input.programs.items, core_bytes input.core)) result (core_of_input input) }
    ensures core { IfOk result (λ input. IsCore input.core) }
    ensures fits { IfOk result (λ input. length (core_bytes input.core) < 2 ^ 64) }
{
    match input {
        Some(bytes) => read_input(alloc, bytes.as_slice()),
        None => Err(Misread::Wrong(Wrong::Scenario(TOO_LONG))),
    }
}
