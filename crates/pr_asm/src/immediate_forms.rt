//! The instructions that have an immediate, each with the operands of its form.
#![tactic(auto, unfolding(crate::specs::Statements::code_of))]

ghost use Rattle.std.specs.Prelude.{◌≡◌};
ghost use Rattle.pr_asm.specs.declared.mnemonics.Mnemonic.{Mnemonic};
ghost use Rattle.pr_asm.specs.Statements.{code_of};

use crate::AsmKind;
use crate::operands::{one_immediate, register_and_immediate, registers_and_immediate};
use crate::statements::Statement;
use pr_num::Instruction;
use pr_text::Tokens;

/// `set R, IMM`: a register, and a number or a name of the program. Else `BadOperand`.
pub fn set(operands: Tokens) -> Result<Statement, AsmKind>
    ensures { result ≡ code_of Mnemonic.Set operands.entry }
{
    let (to, immediate) = register_and_immediate(operands)?;
    let imm = immediate.value;
    Ok(Statement::Code {
        instruction: Instruction::Set { to, imm },
        name: immediate.name,
    })
}

/// `ld R, R, IMM`: the register that is loaded, the base, and the offset. Else `BadOperand`.
pub fn ld(operands: Tokens) -> Result<Statement, AsmKind>
    ensures { result ≡ code_of Mnemonic.Ld operands.entry }
{
    let (to, base, immediate) = registers_and_immediate(operands)?;
    let offset = immediate.value;
    Ok(Statement::Code {
        instruction: Instruction::Ld { to, base, offset },
        name: immediate.name,
    })
}

/// `st R, R, IMM`: the register that is stored, the base, and the offset. Else `BadOperand`.
pub fn st(operands: Tokens) -> Result<Statement, AsmKind>
    ensures { result ≡ code_of Mnemonic.St operands.entry }
{
    let (from, base, immediate) = registers_and_immediate(operands)?;
    let offset = immediate.value;
    Ok(Statement::Code {
        instruction: Instruction::St { from, base, offset },
        name: immediate.name,
    })
}

/// `ldb R, R, IMM`: as `ld`, of a byte.
pub fn ldb(operands: Tokens) -> Result<Statement, AsmKind>
    ensures { result ≡ code_of Mnemonic.Ldb operands.entry }
{
    let (to, base, immediate) = registers_and_immediate(operands)?;
    let offset = immediate.value;
    Ok(Statement::Code {
        instruction: Instruction::Ldb { to, base, offset },
        name: immediate.name,
    })
}

/// `stb R, R, IMM`: as `st`, of a byte.
pub fn stb(operands: Tokens) -> Result<Statement, AsmKind>
    ensures { result ≡ code_of Mnemonic.Stb operands.entry }
{
    let (from, base, immediate) = registers_and_immediate(operands)?;
    let offset = immediate.value;
    Ok(Statement::Code {
        instruction: Instruction::Stb { from, base, offset },
        name: immediate.name,
    })
}

/// `jmp IMM`: where to go on. Else `BadOperand`.
pub fn jmp(operands: Tokens) -> Result<Statement, AsmKind>
    ensures { result ≡ code_of Mnemonic.Jmp operands.entry }
{
    let immediate = one_immediate(operands)?;
    let target = immediate.value;
    Ok(Statement::Code {
        instruction: Instruction::Jmp { target },
        name: immediate.name,
    })
}

/// `jz R, IMM`: the register that is tested, and where to go on if it is 0. Else `BadOperand`.
pub fn jz(operands: Tokens) -> Result<Statement, AsmKind>
    ensures { result ≡ code_of Mnemonic.Jz operands.entry }
{
    let (test, immediate) = register_and_immediate(operands)?;
    let target = immediate.value;
    Ok(Statement::Code {
        instruction: Instruction::Jz { test, target },
        name: immediate.name,
    })
}

/// `jnz R, IMM`: the register that is tested, and where to go on if it is not 0. Else `BadOperand`.
pub fn jnz(operands: Tokens) -> Result<Statement, AsmKind>
    ensures { result ≡ code_of Mnemonic.Jnz operands.entry }
{
    let (test, immediate) = register_and_immediate(operands)?;
    let target = immediate.value;
    Ok(Statement::Code {
        instruction: Instruction::Jnz { test, target },
        name: immediate.name,
    })
}

/// `jlt R, R, IMM`: where to go on if the first register is below the second. Else `BadOperand`.
pub fn jlt(operands: Tokens) -> Result<Statement, AsmKind>
    ensures { result ≡ code_of Mnemonic.Jlt operands.entry }
{
    let (left, right, immediate) = registers_and_immediate(operands)?;
    let target = immediate.value;
    Ok(Statement::Code {
        instruction: Instruction::Jlt {
            left,
            right,
            target,
        },
        name: immediate.name,
    })
}

/// `call IMM`: where the subroutine begins. Else `BadOperand`.
pub fn call(operands: Tokens) -> Result<Statement, AsmKind>
    ensures { result ≡ code_of Mnemonic.Call operands.entry }
{
    let immediate = one_immediate(operands)?;
    let target = immediate.value;
    Ok(Statement::Code {
        instruction: Instruction::Call { target },
        name: immediate.name,
    })
}
