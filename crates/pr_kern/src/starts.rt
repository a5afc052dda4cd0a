//! The state before the first step.
ghost use Rattle.std.specs.Prelude.{◌≡◌, ◌≤◌, ◌+◌, All, length, true, IfOk};
ghost use Rattle.pr_num.specs.Limits.{process_limit, program_limit, file_limit, file_size_limit};
ghost use Rattle.pr_parts.specs.FileTables.{names_differ};
ghost use Rattle.pr_proc.specs.FirstFiles.{stored_alone};
ghost use Rattle.pr_model.specs.FirstState.{first_state};
ghost use Rattle.pr_model.specs.Lawful.{IsLawfulProgram};
ghost use Rattle.pr_kern.specs.Starts.{stored};

use crate::Machine;
use pr_asm::Program;
use pr_file::Files;
use pr_num::{Bytes, Name, NoMemory};
use pr_open::Opens;
use pr_proc::first_system;
use std::alloc::Global;

/// Files as the system keeps them.
#[tactic(auto, using(crate::proofs::FileLemmas::storing))]
fn stored(alloc: Global, files: Vec<(Name, Bytes)>) -> Result<Files, NoMemory>
    requires few { length files.items ≤ file_limit }
    requires short { All (λ f. length f.1 ≤ file_size_limit) files.items }
    requires own_names { names_differ (stored files.items) ≡ true }
    ensures { IfOk result (λ all. all ≡ stored_alone (stored files.items)) }
{
    let mut all = Files::new(alloc);
    for (name, bytes) in files {
        all.add(alloc, name, bytes)?;
    }
    Ok(all)
}

/// A program is within its limits, as its type keeps it. Does nothing.
fn keep_limit(program: &Program)
    ensures { IsLawfulProgram program.now }
{
    let code = program.code().len();
    let bytes = program.data().len();
    prove!(code <= Program::MAX_CODE && bytes <= Program::MAX_DATA);
}

/// So are all of these. Does nothing.
pub fn keep_limits(programs: &[Program])
    ensures { All IsLawfulProgram programs.now }
{
    for program in programs {
        keep_limit(program);
    }
}

/// The state before the first step: these programs and files, a process of each program that is spawned, by its place
/// among the programs, nothing open and nobody interrupted.
#[tactic(auto, unfolding(pr_model::specs::FirstState::first_state))]
pub fn first_machine(
    alloc: Global,
    programs: Vec<Program>,
    files: Vec<(Name, Bytes)>,
    spawns: &[u32],
) -> Result<Machine, NoMemory>
    requires programs { length programs.items ≤ program_limit }
    requires spawns { length spawns.now + 1 ≤ process_limit }
    requires few { length files.items ≤ file_limit }
    requires short { All (λ f. length f.1 ≤ file_size_limit) files.items }
    requires own_names { names_differ (stored files.items) ≡ true }
    ensures { IfOk result (λ state. state ≡ first_state programs.items (stored files.items) spawns.now) }
{
    let files = stored(alloc, files)?;
    let system = first_system(alloc, programs, files, spawns)?;
    let opens = Opens::new(alloc)?;
    Ok(Machine {
        system,
        opens,
        interrupted: 0,
    })
}
