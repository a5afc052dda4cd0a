//! The system before the first step.
ghost use Rattle.std.specs.Prelude.{◌≡◌, ◌+◌, ◌<◌, ◌≤◌, ◌^◌, ◌∷◌, [], length, slice_get, None, IfOk, OnOk, OnErr};
ghost use Rattle.pr_num.specs.Limits.{program_limit};
ghost use Rattle.pr_model.specs.FirstState.{system_process, bare_system, spawned_at, first_system};
ghost use Rattle.pr_model.specs.State.{process_of};
ghost use Rattle.pr_proc.specs.Counts.{IsNumbered};
ghost use Rattle.pr_proc.specs.FirstFiles.{stored_alone};

use crate::spawns::{bare_process, spawn_unlimited};
use crate::{Proc, Processes, Programs, Sys};
use pr_asm::Program;
use pr_file::Files;
use pr_model::System;
use pr_num::{Name, NoMemory};
use std::alloc::Global;

/// Process 0, the system process.
#[tactic(auto, unfolding(pr_model::specs::FirstState::system_process))]
fn system_process(alloc: Global) -> Proc
    ensures { result ≡ system_process }
{
    let name = Name::from_slice(b"sched").unwrap();
    bare_process(alloc, 0, name, 0)
}

/// Nothing but process 0, these programs and these files.
#[tactic(auto, using(crate::proofs::FirstLemmas::numbering), unfolding(pr_model::specs::FirstState::bare_system))]
fn bare_system(alloc: Global, programs: Programs, files: Files) -> Result<Sys, NoMemory>
    requires { files ≡ stored_alone files.files }
    ensures value { IfOk result (λ s. s ≡ bare_system programs files.files) }
    ensures ids { IfOk result (λ s. IsNumbered s) }
{
    let mut processes = Processes::new(alloc)?;
    processes.insert(0, system_process(alloc))?;
    Ok(System {
        programs,
        clock: 0,
        made: 1,
        files,
        processes,
    })
}

/// Makes a process of the program at a place, if there is one.
#[tactic(auto, using(crate::proofs::FirstLemmas::spawning_laws))]
fn spawn_at(alloc: Global, sys: &mut Sys, place: u32) -> Result<(), NoMemory>
    requires room { sys.old.made + 1 < 2 ^ 32 }
    requires ids { IsNumbered sys.old }
    ensures ok { OnOk result (sys.new ≡ spawned_at (slice_get sys.old.programs place) sys.old) }
    ensures made { OnOk result (sys.new.made ≤ sys.old.made + 1) }
    ensures ids { IsNumbered sys.new }
{
    if place < sys.programs.len() {
        spawn_unlimited(alloc, sys, place, false)?;
    }
    Ok(())
}

/// The system with the processes that are spawned at the start, one after another, each of the program at a place of
/// the list; a place with no program spawns none. Nothing is open in its files.
#[tactic(auto, using(crate::proofs::FirstLemmas::spawning_laws, crate::proofs::FirstLemmas::numbering))]
pub fn first_system(
    alloc: Global,
    programs: Vec<Program>,
    files: Files,
    spawns: &[u32],
) -> Result<Sys, NoMemory>
    requires programs { length programs.items ≤ program_limit }
    requires room { length spawns.now + 1 < 2 ^ 32 }
    requires files { files ≡ stored_alone files.files }
    ensures value { IfOk result (λ s. s ≡ first_system programs.items files.files spawns.now) }
    // no process has the next id
    ensures free { IfOk result (λ s. process_of s s.made ≡ None) }
{
    let mut sys = bare_system(alloc, Programs::from_vec(programs)?, files)?;
    for place in spawns {
        spawn_at(alloc, &mut sys, *place)?;
    }
    Ok(sys)
}
