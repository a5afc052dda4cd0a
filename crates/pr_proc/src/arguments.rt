//! The arguments of system calls (Intro(2)).
ghost use Rattle.std.specs.Prelude.{◌≡◌};
ghost use Rattle.pr_model.specs.Registers.{arguments};
ghost use Rattle.pr_model.specs.Statuses.{arguments_in};

use crate::Lwp;
use pr_model::Phase;

/// The six arguments of a system call, as the registers have them at its entry.
pub fn arguments_of(regs: &[u64; 11]) -> [u64; 6]
    ensures { result ≡ arguments regs.now }
{
    [regs[1], regs[2], regs[3], regs[4], regs[5], regs[6]]
}

/// The arguments of the call in which an lwp is: before the call is made they are those that stand in r1 to r6.
#[tactic(auto, unfolding(pr_model::specs::Statuses::arguments_in))]
pub fn arguments_in(lwp: &Lwp) -> [u64; 6]
    ensures { result ≡ arguments_in lwp.now.regs lwp.now.phase }
{
    match lwp.phase {
        Phase::User | Phase::Faulted { .. } => [0; 6],
        Phase::Entered(_) => arguments_of(&lwp.regs),
        Phase::Asleep { args, .. } | Phase::Exiting { args, .. } => args,
    }
}
