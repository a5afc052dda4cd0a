//! The registers of an lwp: r0 to r7, sp, fp and pc.
ghost use Rattle.std.specs.Prelude.{◌≡◌};
ghost use Rattle.pr_model.specs.InstructionEffects.{access_at, after_call, after_return, in_register, jumped_if, with_register};
ghost use Rattle.pr_model.specs.Registers.{moved_on, with_pc};

use pr_model::PC;
use pr_num::Reg;

/// The places of sp and fp among the registers.
pub const SP: usize = 8;

pub const FP: usize = 9;

/// How many bytes a call of a subroutine stores, the old fp and pc.
pub const FRAME: u64 = 16;

/// What a register that an instruction names has, of the eleven of an lwp.
#[tactic(auto, using(crate::proofs::RegisterLemmas::registers))]
pub fn value(regs: &[u64; 11], r: Reg) -> u64
    ensures { result ≡ in_register r regs.now }
{
    regs[r.number() as usize]
}

/// Moves pc to the next instruction.
#[tactic(auto, unfolding(pr_model::specs::Registers::moved_on))]
pub fn move_on(regs: &mut [u64; 11])
    ensures { regs.new ≡ moved_on regs.old }
{
    regs[PC] = regs[PC].wrapping_add(16);
}

/// The registers with pc at the next instruction.
pub fn moved_on(regs: &[u64; 11]) -> [u64; 11]
    ensures { result ≡ moved_on regs.now }
{
    let mut new = *regs;
    move_on(&mut new);
    new
}

/// Puts a value that an instruction computes into a register.
#[tactic(auto, using(crate::proofs::RegisterLemmas::registers))]
pub fn compute(regs: &mut [u64; 11], to: Reg, value: u64)
    ensures { regs.new ≡ moved_on (with_register to value regs.old) }
{
    regs[to.number() as usize] = value;
    move_on(regs);
}

/// The registers after an instruction that puts a value into one of them.
pub fn computed(regs: &[u64; 11], to: Reg, value: u64) -> [u64; 11]
    ensures { result ≡ moved_on (with_register to value regs.now) }
{
    let mut new = *regs;
    compute(&mut new, to, value);
    new
}

/// Jumps.
pub fn jump(regs: &mut [u64; 11], target: u64)
    ensures { regs.new ≡ with_pc target regs.old }
{
    regs[PC] = target;
}

/// Jumps or moves on.
pub fn jump_if(regs: &mut [u64; 11], taken: bool, target: u64)
    ensures { regs.new ≡ jumped_if taken target regs.old }
{
    if taken {
        jump(regs, target);
    } else {
        move_on(regs);
    }
}

/// The registers after a call of a subroutine: sp falls by 16, and fp points there.
pub fn called(regs: &[u64; 11], target: u64) -> [u64; 11]
    ensures { result ≡ after_call target regs.now }
{
    let sp = regs[SP].wrapping_sub(FRAME);
    let mut new = *regs;
    new[SP] = sp;
    new[FP] = sp;
    new[PC] = target;
    new
}

/// The address of an access through a register and an offset, which wraps.
pub fn access_at(base: Reg, offset: u64, regs: &[u64; 11]) -> u64
    ensures { result ≡ access_at base offset regs.now }
{
    value(regs, base).wrapping_add(offset)
}

/// The registers after the return from a subroutine: fp and pc are the two words at fp, and sp stands behind them.
#[tactic(auto, unfolding(pr_num::specs::Words::word_of))]
pub fn returned(regs: &[u64; 11], frame: &[u8; 16]) -> [u64; 11]
    ensures { result ≡ after_return regs.now frame.now }
{
    let mut fp = [0; 8];
    fp.copy_from_slice(&frame[..8]);
    let mut pc = [0; 8];
    pc.copy_from_slice(&frame[8..]);
    let mut new = *regs;
    new[SP] = regs[FP].wrapping_add(FRAME);
    new[FP] = u64::from_le_bytes(fp);
    new[PC] = u64::from_le_bytes(pc);
    new
}
