//! What the agent of apfiles runs: one call of fstat(2), and in the end one of _lwp_exit(2).
ghost use Rattle.std.specs.Prelude.{◌≡◌};
ghost use Rattle.pr_probe.specs.AgentCode.{planted, agent_registers};

use pr_num::layout::{STACK_BASE, TEXT_BASE};
use pr_num::{Instruction, Sysno};

/// How many bytes of the text are written over: two instructions.
pub(crate) const CODE_SIZE: usize = 2 * Instruction::SIZE;

/// How many bytes of the stack are written over: what fstat(2) writes.
pub(crate) const STACK_SIZE: usize = 24;

/// Where the agent leaves: at its second instruction.
pub(crate) const EXIT_PC: u64 = TEXT_BASE + Instruction::SIZE as u64;

/// The code of the agent.
#[tactic(auto, unfolding(crate::specs::AgentCode::planted))]
pub(crate) fn planted() -> [u8; CODE_SIZE]
    ensures { result ≡ planted }
{
    let mut code = [0; CODE_SIZE];
    code[..Instruction::SIZE].copy_from_slice(&Instruction::Sys { call: Sysno::Fstat }.encode());
    code[Instruction::SIZE..].copy_from_slice(&Instruction::Sys {
        call: Sysno::LwpExit,
    }
    .encode());
    code
}

/// The registers of the agent: it asks for a descriptor, is answered on the stack, and goes on at a pc.
#[tactic(auto, unfolding(crate::specs::AgentCode::agent_registers))]
pub(crate) fn agent_registers(descriptor: u32, pc: u64) -> [u64; 11]
    ensures { result ≡ agent_registers descriptor pc }
{
    [
        0,
        u64::from(descriptor),
        STACK_BASE,
        0,
        0,
        0,
        0,
        0,
        0,
        0,
        pc,
    ]
}
