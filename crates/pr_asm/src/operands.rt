//! The operands of instructions.
ghost use Rattle.std.specs.Prelude.{◌≡◌};
ghost use Rattle.pr_asm.specs.Operands.{register, immediate, call, two_registers, register_and_immediate, registers_and_immediate, one_immediate, one_call};

use crate::AsmKind;
use pr_num::{Name, Reg, Sysno};
use pr_text::{Tokens, name_of, number_of, one, three, two};

/// An immediate: a number, or a name of the program, whose value is filled in once the program's names are known.
#[derive(Clone, Copy)]
pub struct Immediate {
    /// The number; 0 where a name stands.
    pub value: u64,
    pub name: Option<Name>,
}

#[tactic(auto, unfolding(crate::specs::Operands::register))]
fn register(word: &[u8]) -> Result<Reg, AsmKind>
    ensures { result ≡ register word.now }
{
    if word.len() != 2 || word[0] != b'r' || word[1] < b'0' {
        return Err(AsmKind::BadOperand);
    }
    Reg::from_number(word[1] - b'0').ok_or(AsmKind::BadOperand)
}

#[tactic(auto, unfolding(crate::specs::Operands::immediate_of))]
fn immediate_of(word: &[u8]) -> Result<Immediate, AsmKind>
    ensures { result ≡ immediate word.now }
{
    if let Some(value) = number_of(word) {
        return Ok(Immediate { value, name: None });
    }
    let name = name_of(word).ok_or(AsmKind::BadOperand)?;
    Ok(Immediate {
        value: 0,
        name: Some(name),
    })
}

#[tactic(auto, unfolding(crate::specs::Operands::call))]
fn call(word: &[u8]) -> Result<Sysno, AsmKind>
    ensures { result ≡ call word.now }
{
    if name_of(word).is_none() {
        return Err(AsmKind::BadOperand);
    }
    Sysno::from_name(word).ok_or(AsmKind::UnknownName)
}

/// Two registers, `r0` to `r7`; `BadOperand` where the operands are others, more or fewer.
#[tactic(auto, unfolding(crate::specs::Operands::two_registers))]
pub fn two_registers(operands: Tokens) -> Result<(Reg, Reg), AsmKind>
    ensures { result ≡ two_registers operands.entry }
{
    let (a, b) = two(operands, AsmKind::BadOperand)?;
    Ok((register(a)?, register(b)?))
}

/// A register and an immediate; else `BadOperand`.
#[tactic(auto, unfolding(crate::specs::Operands::register_and_immediate))]
pub fn register_and_immediate(operands: Tokens) -> Result<(Reg, Immediate), AsmKind>
    ensures { result ≡ register_and_immediate operands.entry }
{
    let (a, b) = two(operands, AsmKind::BadOperand)?;
    Ok((register(a)?, immediate_of(b)?))
}

/// Two registers and an immediate; else `BadOperand`.
#[tactic(auto, unfolding(crate::specs::Operands::registers_and_immediate))]
pub fn registers_and_immediate(operands: Tokens) -> Result<(Reg, Reg, Immediate), AsmKind>
    ensures { result ≡ registers_and_immediate operands.entry }
{
    let (a, b, c) = three(operands, AsmKind::BadOperand)?;
    Ok((register(a)?, register(b)?, immediate_of(c)?))
}

/// An immediate alone; else `BadOperand`.
#[tactic(auto, unfolding(crate::specs::Operands::one_immediate))]
pub fn one_immediate(operands: Tokens) -> Result<Immediate, AsmKind>
    ensures { result ≡ one_immediate operands.entry }
{
    immediate_of(one(operands, AsmKind::BadOperand)?)
}

/// The name of a system call alone: `BadOperand` where it is no name or does not stand alone, `UnknownName` where no
/// call has it.
#[tactic(auto, unfolding(crate::specs::Operands::one_call))]
pub fn one_call(operands: Tokens) -> Result<Sysno, AsmKind>
    ensures { result ≡ one_call operands.entry }
{
    call(one(operands, AsmKind::BadOperand)?)
}
