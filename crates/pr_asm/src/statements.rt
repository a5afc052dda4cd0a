//! The statements of a program, each read on its own line.
ghost use Rattle.std.specs.Prelude.{◌≡◌, Some, None};
ghost use Rattle.pr_text.specs.Reads.{Gives};
ghost use Rattle.pr_asm.specs.Statements.{code_of, text_of, space_of, statement_with, statement_of};

use crate::mnemonics::Mnemonic;
use crate::names::label_of;
use crate::operands::{one_call, two_registers};
use crate::{AsmKind, immediate_forms};
use pr_num::limits::DATA_LIMIT;
use pr_num::{Bytes, Instruction, Name};
use pr_text::{Refused, Tokens, begins_comment, name_of, none, number_of, quoted_bytes, two};
use std::alloc::Global;

/// What a line of a program says.
#[derive(Drop)]
pub enum Statement {
    /// Nothing: a comment, or a line without words.
    Blank,
    /// A label before the next instruction.
    Label {
        name: Name,
    },
    /// Bytes in the data, with so many zero bytes after them.
    Data {
        name: Name,
        bytes: Bytes,
        zeros: u64,
    },
    /// An instruction. Where a name stands for its immediate, the immediate is 0 here.
    Code {
        instruction: Instruction,
        name: Option<Name>,
    },
}

fn plain(instruction: Instruction) -> Statement
    ensures { result ≡ Statement.Code instruction None }
{
    Statement::Code {
        instruction,
        name: None,
    }
}

/// The statement of an instruction.
#[tactic(auto, unfolding(crate::specs::Statements::code_of))]
fn code_of(mnemonic: Mnemonic, operands: Tokens) -> Result<Statement, AsmKind>
    ensures { result ≡ code_of mnemonic operands.entry }
{
    match mnemonic {
        Mnemonic::Bpt => none(operands, AsmKind::BadOperand).map(|()| plain(Instruction::Bpt)),
        Mnemonic::Nop => none(operands, AsmKind::BadOperand).map(|()| plain(Instruction::Nop)),
        Mnemonic::Set => immediate_forms::set(operands),
        Mnemonic::Mov => two_registers(operands).map(|(to, from)| plain(Instruction::Mov {
            to,
            from,
        })),
        Mnemonic::Add => two_registers(operands).map(|(to, from)| plain(Instruction::Add {
            to,
            from,
        })),
        Mnemonic::Sub => two_registers(operands).map(|(to, from)| plain(Instruction::Sub {
            to,
            from,
        })),
        Mnemonic::Mul => two_registers(operands).map(|(to, from)| plain(Instruction::Mul {
            to,
            from,
        })),
        Mnemonic::Div => two_registers(operands).map(|(to, from)| plain(Instruction::Div {
            to,
            from,
        })),
        Mnemonic::Ld => immediate_forms::ld(operands),
        Mnemonic::St => immediate_forms::st(operands),
        Mnemonic::Ldb => immediate_forms::ldb(operands),
        Mnemonic::Stb => immediate_forms::stb(operands),
        Mnemonic::Jmp => immediate_forms::jmp(operands),
        Mnemonic::Jz => immediate_forms::jz(operands),
        Mnemonic::Jnz => immediate_forms::jnz(operands),
        Mnemonic::Jlt => immediate_forms::jlt(operands),
        Mnemonic::Call => immediate_forms::call(operands),
        Mnemonic::Ret => none(operands, AsmKind::BadOperand).map(|()| plain(Instruction::Ret)),
        Mnemonic::Sys => one_call(operands).map(|call| plain(Instruction::Sys { call })),
    }
}

/// `text NAME "..."`.
#[tactic(auto, unfolding(crate::specs::Statements::text_of))]
fn text_of(alloc: Global, operands: Tokens) -> Result<Statement, Refused<AsmKind>>
    ensures { Gives (λ s. s) result (text_of operands.entry) }
{
    let (name, text) = two(operands, AsmKind::BadOperand)?;
    let name = name_of(name).ok_or(AsmKind::BadOperand)?;
    let bytes = quoted_bytes(alloc, text)?.ok_or(AsmKind::BadOperand)?;
    Ok(Statement::Data {
        name,
        bytes,
        zeros: 1,
    })
}

/// `space NAME N`.
#[tactic(auto, unfolding(crate::specs::Statements::space_of))]
fn space_of(alloc: Global, operands: Tokens) -> Result<Statement, AsmKind>
    ensures { result ≡ space_of operands.entry }
{
    let (name, size) = two(operands, AsmKind::BadOperand)?;
    let name = name_of(name).ok_or(AsmKind::BadOperand)?;
    let zeros = number_of(size).ok_or(AsmKind::BadOperand)?;
    if zeros == 0 || zeros > DATA_LIMIT as u64 {
        return Err(AsmKind::BadOperand);
    }
    Ok(Statement::Data {
        name,
        bytes: Bytes::from_vec(Vec::new(alloc)),
        zeros,
    })
}

/// A line that is not a label: data or an instruction.
#[tactic(auto, unfolding(crate::specs::Statements::statement_with, crate::specs::Statements::instruction_of))]
fn statement_with(
    alloc: Global,
    first: &[u8],
    operands: Tokens,
) -> Result<Statement, Refused<AsmKind>>
    ensures { Gives (λ s. s) result (statement_with first.now operands.entry) }
{
    if first == b"text".as_slice() {
        return text_of(alloc, operands);
    }
    if first == b"space".as_slice() {
        return Ok(space_of(alloc, operands)?);
    }
    let mnemonic = Mnemonic::from_word(first).ok_or(AsmKind::UnknownWord)?;
    Ok(code_of(mnemonic, operands)?)
}

/// What a line says on its own.
#[tactic(auto, unfolding(crate::specs::Statements::statement_of, crate::specs::Statements::statement_in, crate::specs::Statements::label_or))]
pub fn statement_of(alloc: Global, line: &[u8]) -> Result<Statement, Refused<AsmKind>>
    ensures { Gives (λ s. s) result (statement_of line.now) }
{
    let mut words = Tokens::of(line);
    let Some(first) = words.next() else {
        return Ok(Statement::Blank);
    };
    if begins_comment(first) {
        return Ok(Statement::Blank);
    }
    if let Some(name) = label_of(first) {
        none(words, AsmKind::BadOperand)?;
        return Ok(Statement::Label { name });
    }
    statement_with(alloc, first, words)
}
