//! What each instruction is once it is decoded.
ghost use Rattle.std.specs.Prelude.{◌≡◌, false, true};
ghost use Rattle.pr_model.specs.InstructionEffects.{access_at, after_call, call_frame, call_sp, decoded, divided, stores};
ghost use Rattle.pr_model.specs.Registers.{moved_on};
ghost use Rattle.pr_lwp.specs.Plain.{decoded_of, leaves_registers, stored_bytes};

use crate::registers::{
    FP, FRAME, SP, access_at, called, compute, jump, jump_if, move_on, moved_on, value,
};
use pr_model::PC;
use pr_num::{Flt, Instruction, Reg, Sysno};

/// Bytes that an instruction stores: the low byte of a register, a word, or the two words of a call.
#[derive(Clone, Copy, Debug, PartialEq, Eq)]
pub enum Stored {
    Byte(u8),
    Word(u64),
    Frame { fp: u64, pc: u64 },
}

/// A store of bytes from an address on.
#[derive(Clone, Copy, Debug, PartialEq, Eq)]
pub struct Store {
    pub at: u64,
    pub bytes: Stored,
}

/// Where bytes go that an instruction reads: a word or a byte into a register, or the two words of a call into fp and
/// pc.
#[derive(Clone, Copy, Debug, PartialEq, Eq)]
pub enum Load {
    Word(Reg),
    Byte(Reg),
    Frame,
}

/// An instruction once it is decoded. One that leaves registers and does not touch memory has been carried out then.
#[derive(Clone, Copy, Debug, PartialEq, Eq)]
pub enum Decoded {
    /// It faults by itself.
    FaultsItself(Flt),
    /// It comes to a system call.
    EntersCall(Sysno),
    /// It leaves the registers as they are now and does not touch memory.
    Leaves,
    /// It reads bytes from an address on.
    Loads {
        load: Load,
        at: u64,
    },
    /// It leaves these registers and stores bytes, at the stack where it calls a subroutine.
    Stores {
        stack: bool,
        regs: [u64; 11],
        store: Store,
    },
}

/// Whether an instruction leaves registers and does not touch memory.
pub fn leaves_registers(decoded: Decoded) -> bool
    ensures { result ≡ leaves_registers decoded }
{
    match decoded {
        Decoded::Leaves => true,
        _ => false,
    }
}

/// A quotient; a divisor of 0 faults.
fn divide(to: Reg, from: Reg, regs: &mut [u64; 11]) -> Decoded
    ensures value { decoded_of result regs.new ≡ divided to from regs.old }
    ensures kept { leaves_registers result ≡ false → regs.new ≡ regs.old }
{
    let divisor = value(regs, from);
    if divisor == 0 {
        return Decoded::FaultsItself(Flt::Izdiv);
    }
    let quotient = value(regs, to) / divisor;
    compute(regs, to, quotient);
    Decoded::Leaves
}

/// A store through a register and an offset.
fn store_through(base: Reg, offset: u64, regs: &[u64; 11], bytes: Stored) -> Decoded
    ensures { decoded_of result regs.now
        ≡ stores false (moved_on regs.now)
        (record { at = access_at base offset regs.now; bytes = stored_bytes bytes }) }
{
    Decoded::Stores {
        stack: false,
        regs: moved_on(regs),
        store: Store {
            at: access_at(base, offset, regs),
            bytes,
        },
    }
}

/// A call of a subroutine, which keeps fp and the next pc on the stack.
fn call(target: u64, regs: &[u64; 11]) -> Decoded
    ensures { decoded_of result regs.now
        ≡ stores true (after_call target regs.now) (record { at = call_sp regs.now; bytes = call_frame regs.now }) }
{
    Decoded::Stores {
        stack: true,
        regs: called(regs, target),
        store: Store {
            at: regs[SP].wrapping_sub(FRAME),
            bytes: Stored::Frame {
                fp: regs[FP],
                pc: regs[PC].wrapping_add(FRAME),
            },
        },
    }
}

/// What each instruction is, a row an instruction. One that leaves registers and does not touch memory is carried out;
/// any other changes nothing.
#[tactic(auto, unfolding(pr_model::specs::InstructionEffects::decoded))]
pub fn decode(instruction: Instruction, regs: &mut [u64; 11]) -> Decoded
    ensures value { decoded_of result regs.new ≡ decoded instruction regs.old }
    ensures kept { leaves_registers result ≡ false → regs.new ≡ regs.old }
{
    match instruction {
        Instruction::Bpt => Decoded::FaultsItself(Flt::Bpt),
        Instruction::Nop => {
            move_on(regs);
            Decoded::Leaves
        }
        Instruction::Set { to, imm } => {
            compute(regs, to, imm);
            Decoded::Leaves
        }
        Instruction::Mov { to, from } => {
            let copied = value(regs, from);
            compute(regs, to, copied);
            Decoded::Leaves
        }
        Instruction::Add { to, from } => {
            let sum = value(regs, to).wrapping_add(value(regs, from));
            compute(regs, to, sum);
            Decoded::Leaves
        }
        Instruction::Sub { to, from } => {
            let difference = value(regs, to).wrapping_sub(value(regs, from));
            compute(regs, to, difference);
            Decoded::Leaves
        }
        Instruction::Mul { to, from } => {
            let product = value(regs, to).wrapping_mul(value(regs, from));
            compute(regs, to, product);
            Decoded::Leaves
        }
        Instruction::Div { to, from } => divide(to, from, regs),
        Instruction::Ld { to, base, offset } => Decoded::Loads {
            load: Load::Word(to),
            at: access_at(base, offset, regs),
        },
        Instruction::St { from, base, offset } => {
            store_through(base, offset, regs, Stored::Word(value(regs, from)))
        }
        Instruction::Ldb { to, base, offset } => Decoded::Loads {
            load: Load::Byte(to),
            at: access_at(base, offset, regs),
        },
        Instruction::Stb { from, base, offset } => {
            store_through(
                base,
                offset,
                regs,
                Stored::Byte((value(regs, from) % 256) as u8),
            )
        }
        Instruction::Jmp { target } => {
            jump(regs, target);
            Decoded::Leaves
        }
        Instruction::Jz { test, target } => {
            let taken = value(regs, test) == 0;
            jump_if(regs, taken, target);
            Decoded::Leaves
        }
        Instruction::Jnz { test, target } => {
            let taken = value(regs, test) != 0;
            jump_if(regs, taken, target);
            Decoded::Leaves
        }
        Instruction::Jlt {
            left,
            right,
            target,
        } => {
            let taken = value(regs, left) < value(regs, right);
            jump_if(regs, taken, target);
            Decoded::Leaves
        }
        Instruction::Call { target } => call(target, regs),
        Instruction::Ret => Decoded::Loads {
            load: Load::Frame,
            at: regs[FP],
        },
        Instruction::Sys { call } => Decoded::EntersCall(call),
    }
}
