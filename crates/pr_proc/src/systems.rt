ghost use Rattle.std.specs.Prelude.{◌≡◌};
ghost use Rattle.std.specs.Option.{option_copied};
ghost use Rattle.pr_model.specs.Readers.{space_seen};
ghost use Rattle.pr_model.specs.State.{has_agent, live_process};

use crate::{Proc, Processes, Programs};
use pr_file::Files;
use pr_mem::Space;
use pr_model::System;
use pr_num::AGENT;

/// The system with its files. Contracts see it as the traced system of the definitions.
pub type Sys = System<Programs, Files, Processes>;

/// The live process of an id: `None` for an id that no process has, and for a zombie's.
#[tactic(auto, unfolding(pr_model::specs::State::live_process))]
pub fn live(sys: &Sys, pid: u32) -> Option<&Proc>
    ensures { option_copied result ≡ live_process sys.now pid }
{
    let process = sys.processes.get(pid)?;
    if process.ended.is_some() {
        return None;
    }
    Some(process)
}

/// The address space of a process of a system as controllers see it, through its files and by messages: its own, or
/// that of the last of the chain of its borrowers, which is no longer than the processes that were made.
pub fn seen<'a>(sys: &'a Sys, process: &'a Proc) -> &'a Space
    ensures { result.now ≡ space_seen sys.now process.now }
{
    let mut shown = process;
    for _ in 0..sys.made {
        let Some(borrower) = shown.borrower else {
            return &shown.space;
        };
        let Some(next) = sys.processes.get(borrower) else {
            return sys.programs.empty_space();
        };
        shown = next;
    }
    if shown.borrower.is_some() {
        return sys.programs.empty_space();
    }
    &shown.space
}

/// Whether a process has an agent.
pub fn has_agent(process: &Proc) -> bool
    ensures { result ≡ has_agent process.now }
{
    process.lwps.contains(AGENT)
}
