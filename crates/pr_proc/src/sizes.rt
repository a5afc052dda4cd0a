//! How much memory processes have mapped.
ghost use Rattle.std.specs.Prelude.{◌≡◌, ◌≤◌, ℕ};
ghost use Rattle.pr_num.specs.Limits.{mapping_limit};
ghost use Rattle.pr_model.specs.ProcessCalls.{given_up};
ghost use Rattle.pr_model.specs.Readers.{size_of, total_has_room};
ghost use Rattle.pr_model.specs.State.{TracedSystem};

use crate::{Proc, Sys};
use pr_num::limits::ALL_MAPPINGS_LIMIT;

/// How many bytes a process has mapped, at most 1 MiB.
#[tactic(auto, using(crate::proofs::SizeLemmas::size_laws), unfolding(pr_model::specs::Readers::size_of))]
pub fn size_of(process: &Proc) -> u64
    ensures size { result ≡ size_of process.now }
    ensures limit { result ≤ mapping_limit }
{
    let _ = process.space.mappings();
    process.space.mapped()
}

/// How many bytes a process gives up when it runs another program: a loan goes back.
#[tactic(auto, unfolding(pr_model::specs::ProcessCalls::given_up))]
pub(crate) fn given_up(process: &Proc) -> u64
    ensures size { (s : TracedSystem) (lwp : ℕ) → result ≡ given_up s process.now lwp }
    ensures limit { result ≤ mapping_limit }
{
    if process.lender.is_some() {
        0
    } else {
        size_of(process)
    }
}

/// Whether so many bytes more can be mapped where so many, at most a process's, are given up: all live processes
/// together map at most 64 MiB. Takes as long however many processes there are, and no memory.
#[tactic(auto, unfolding(pr_model::specs::Readers::total_has_room, pr_model::specs::Readers::total_size))]
pub fn total_has_room(sys: &Sys, more: u64, less: u64) -> bool
    requires { less ≤ mapping_limit }
    ensures { result ≡ total_has_room sys.now more less }
{
    let mapped = sys.processes.mapped();
    u128::from(mapped) + u128::from(more) <= u128::from(ALL_MAPPINGS_LIMIT + less)
}
