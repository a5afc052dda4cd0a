//! How a process runs another program (exec(2)).
ghost use Rattle.std.specs.Prelude.{◌≡◌, ◌<◌, [], ◌∷◌, None, Err, IfSome, IsSome, OnOk, OnErr, false, length, map, slice_get};
ghost use Rattle.std.specs.Option.{ForSome};
ghost use Rattle.pr_num.specs.ById.{change_under, under};
ghost use Rattle.pr_num.specs.Spaces.{first_space};
ghost use Rattle.pr_model.specs.Lives.{first_lwp, started, uncaught, with_loan_back, with_program};
ghost use Rattle.pr_model.specs.Machines.{exec_control, traced};
ghost use Rattle.pr_model.specs.State.{live_process, lwp_of, with_process, with_process_if};
ghost use Rattle.pr_proc.specs.Refusals.{Says, exec_refusal};

use crate::loans::give_back;
use crate::sizes::given_up;
use crate::spawns::{FIRST_REGISTERS, first_lwp, one_lwp};
use crate::{Lwp, Proc, ProcNo, Processes, Sys, live, total_has_room};
use pr_asm::Program;
use pr_mem::Space;
use pr_model::{Control, Frames};
use pr_num::limits::SIGNAL_COUNT;
use pr_num::{ById, NoMemory};
use pr_watch::Areas;
use std::alloc::Global;
use std::mem;

/// What a process does with a signal once it runs another program: a handler is gone, what is ignored stays ignored.
fn uncaught(disposition: u64) -> u64
    ensures { result ≡ uncaught disposition }
{
    if disposition > 1 { 0 } else { disposition }
}

#[tactic(auto, using(std::proofs::lemmas::List::Edits::map_over_more))]
fn catch_nothing(dispositions: &mut [u64; SIGNAL_COUNT])
    ensures { dispositions.new ≡ map uncaught dispositions.old }
{
    for place in 0..SIGNAL_COUNT {
        dispositions[place] = uncaught(dispositions[place]);
    }
}

/// Lets an lwp begin a program.
#[tactic(auto, unfolding(pr_model::specs::Lives::started))]
fn start(lwp: &mut Lwp)
    ensures { lwp.new ≡ started traced lwp.old }
{
    lwp.regs = FIRST_REGISTERS;
    lwp.frames = Frames::new();
}

/// Leaves the lwp of an id alone, which begins a program; `only` has the place for it.
#[tactic(auto, using(pr_num::proofs::ByIdLaws::by_id_laws, crate::proofs::ExecLemmas::exec_laws))]
fn keep_started(lwps: &mut ById<Lwp>, id: u32, mut only: ById<Lwp>)
    requires stands { IsSome (under id lwps.old) }
    requires place { only ≡ (id, first_lwp traced false) ∷ [] }
    ensures { ForSome (under id lwps.old) (λ l. lwps.new ≡ (id, started traced l) ∷ []) }
{
    let mut lwp = lwps.remove(id);
    start(&mut lwp);
    *only.get_mut(id) = lwp;
    *lwps = only;
}

/// Of what controllers set on a process all stays but its watched areas.
#[tactic(auto, unfolding(pr_model::specs::Machines::exec_control))]
fn unwatch(control: &mut Control<Areas>)
    ensures { control.new ≡ exec_control control.old }
{
    control.areas = Areas::new();
}

/// Lets a process run another program, in this space and with an lwp of it alone. Answers the space that it had. Takes
/// no memory.
#[tactic(auto, unfolding(pr_model::specs::Lives::with_program, pr_model::specs::Machines::traced))]
fn run(process: &mut Proc, id: u32, program: &Program, space: Space, only: ById<Lwp>) -> Space
    requires stands { IsSome (lwp_of process.old id) }
    requires space { space ≡ first_space program.now }
    requires place { only ≡ (id, first_lwp traced false) ∷ [] }
    ensures process { ForSome (lwp_of process.old id) (λ l. process.new ≡ with_program traced id l program.now process.old) }
    ensures left { result ≡ process.old.space }
{
    keep_started(&mut process.lwps, id, only);
    process.program = program.name();
    process.lender = None;
    catch_nothing(&mut process.dispositions);
    unwatch(&mut process.control);
    mem::replace(&mut process.space, space)
}

/// The same of the process of an id.
#[tactic(auto, using(pr_num::proofs::ByIdLaws::by_id_laws))]
fn run_under(
    processes: &mut Processes,
    pid: u32,
    id: u32,
    program: &Program,
    space: Space,
    only: ById<Lwp>,
) -> Space
    requires process { IsSome (under pid processes.old) }
    requires lwp { IfSome (under pid processes.old) (λ p. IsSome (lwp_of p id)) }
    requires space { space ≡ first_space program.now }
    requires place { only ≡ (id, first_lwp traced false) ∷ [] }
    ensures processes { ForSome (under pid processes.old)
        (λ p. ForSome (lwp_of p id)
        (λ l. processes.new ≡ change_under pid (with_program traced id l program.now) processes.old)) }
    ensures left { ForSome (under pid processes.old) (λ p. result ≡ p.space) }
{
    run(processes.get_mut(pid), id, program, space, only)
}

/// Lets a live process run the program at a place, with the lwp of an id alone, which begins it (exec(2)); memory that
/// it borrowed goes back, without a copy. `NoSpace` comes exactly where all processes together would then map more than
/// 64 MiB, and memory runs out only where that is not so. After an error the system is as it was.
#[tactic(auto, using(pr_num::proofs::ByIdLaws::by_id_laws, crate::proofs::LifeLemmas::life_laws), unfolding(crate::specs::Refusals::exec_refusal, pr_model::specs::State::with_process))]
pub fn exec(alloc: Global, sys: &mut Sys, pid: u32, lwp: u32, program: u32) -> Result<(), ProcNo>
    requires live { IsSome (live_process sys.old pid) }
    requires lwp { IfSome (live_process sys.old pid) (λ p. IsSome (lwp_of p lwp)) }
    requires program { program < length sys.old.programs }
    ensures ok { OnOk result
        (ForSome (live_process sys.old pid)
        (λ p. ForSome (lwp_of p lwp)
        (λ l. ForSome (slice_get sys.old.programs program)
        (λ g. sys.new
        ≡ with_process_if p.lender (with_loan_back pid p) (with_process pid (with_program traced lwp l g) sys.old))))) }
    ensures refused { ForSome (live_process sys.old pid)
        (λ p. ForSome (slice_get sys.old.programs program) (λ g. Says result (exec_refusal sys.old p lwp g))) }
    ensures memory { result ≡ Err ProcNo.NoMemory
        → ForSome (live_process sys.old pid)
        (λ p. ForSome (slice_get sys.old.programs program) (λ g. exec_refusal sys.old p lwp g ≡ None)) }
    ensures err { OnErr result (sys.new ≡ sys.old) }
{
    let process = live(sys, pid).unwrap();
    let (lender, borrower) = (process.lender, process.borrower);
    let given_up = given_up(process);
    let (_, first) = sys.programs.start(program);
    let size = first.mapped();
    if !total_has_room(sys, size, given_up) {
        return Err(ProcNo::NoSpace);
    }
    let (_, first) = sys.programs.start(program);
    let space = first.copy(alloc)?;
    let only = one_lwp(alloc, lwp, first_lwp(false))?;
    let program = sys.programs.at(program);
    let left = run_under(&mut sys.processes, pid, lwp, program, space, only);
    give_back(sys, pid, lender, left, borrower);
    Ok(())
}
