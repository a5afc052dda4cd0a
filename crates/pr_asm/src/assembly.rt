//! The program that statements make.
ghost use Rattle.std.specs.Prelude.{◌≡◌};
ghost use Rattle.pr_asm.specs.Assembly.{with_immediate, filled, is_first, numbered};
ghost use Rattle.pr_asm.specs.Placing.{found};
ghost use Rattle.pr_text.specs.Reads.{LineGave};

use crate::places::Places;
use crate::{AsmFault, AsmKind, AsmRefusal};
use pr_num::{Instruction, Name};
use pr_text::Refused;

/// An instruction with another immediate, where it has one.
#[tactic(auto, unfolding(crate::specs::Assembly::with_immediate))]
fn with_immediate(instruction: Instruction, value: u64) -> Instruction
    ensures { result ≡ with_immediate instruction value }
{
    match instruction {
        Instruction::Set { to, .. } => Instruction::Set { to, imm: value },
        Instruction::Ld { to, base, .. } => Instruction::Ld {
            to,
            base,
            offset: value,
        },
        Instruction::St { from, base, .. } => Instruction::St {
            from,
            base,
            offset: value,
        },
        Instruction::Ldb { to, base, .. } => Instruction::Ldb {
            to,
            base,
            offset: value,
        },
        Instruction::Stb { from, base, .. } => Instruction::Stb {
            from,
            base,
            offset: value,
        },
        Instruction::Jmp { .. } => Instruction::Jmp { target: value },
        Instruction::Jz { test, .. } => Instruction::Jz {
            test,
            target: value,
        },
        Instruction::Jnz { test, .. } => Instruction::Jnz {
            test,
            target: value,
        },
        Instruction::Jlt { left, right, .. } => Instruction::Jlt {
            left,
            right,
            target: value,
        },
        Instruction::Call { .. } => Instruction::Call { target: value },
        other => other,
    }
}

/// An instruction with its immediate: the value of the name that stands there, if a name does.
#[tactic(auto, unfolding(crate::specs::Assembly::filled))]
pub fn filled(
    places: &Places,
    instruction: Instruction,
    name: Option<Name>,
) -> Result<Instruction, AsmKind>
    ensures { result ≡ filled (found places.now) instruction name }
{
    let Some(name) = name else {
        return Ok(instruction);
    };
    let place = places.find(name).ok_or(AsmKind::UnknownName)?;
    Ok(with_immediate(instruction, place.value))
}

/// Whether a name is placed first on this line.
#[tactic(auto, unfolding(crate::specs::Assembly::is_first))]
pub fn is_first(places: &Places, line: u32, name: Name) -> bool
    ensures { result ≡ is_first (found places.now) line name }
{
    match places.find(name) {
        Some(place) => place.line == line,
        None => false,
    }
}

/// What a line answered, with the number of the line where it is refused.
pub fn at_line(line: u32, answer: Result<(), Refused<AsmKind>>) -> Result<(), AsmRefusal>
    ensures { LineGave line answer result }
{
    match answer {
        Ok(()) => Ok(()),
        Err(Refused::Kind(kind)) => Err(AsmRefusal::Fault(AsmFault { line, kind })),
        Err(Refused::NoMemory(error)) => Err(AsmRefusal::from(error)),
    }
}
