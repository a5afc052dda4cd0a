//! How processes begin.
ghost use Rattle.std.specs.Prelude.{◌≡◌, ◌+◌, ◌<◌, ◌^◌, [], ◌∷◌, length, slice_get, None, Err, IfOk, OnOk, OnErr};
ghost use Rattle.std.specs.Option.{ForSome};
ghost use Rattle.pr_num.specs.Limits.{process_limit};
ghost use Rattle.pr_num.specs.Spaces.{first_space};
ghost use Rattle.pr_model.specs.Lives.{bare_process, first_lwp, with_made, with_spawned};
ghost use Rattle.pr_model.specs.Spawning.{spawn_refusal};
ghost use Rattle.pr_model.specs.State.{process_of};
ghost use Rattle.pr_model.specs.Machines.{no_marks, nothing_set, traced};
ghost use Rattle.pr_proc.specs.Counts.{IsNumbered};
ghost use Rattle.pr_proc.specs.Refusals.{Says};

use crate::lwps::new_lwp;
use crate::{Lwp, Proc, ProcNo, Sys, total_has_room};
use pr_file::Fds;
use pr_mem::Space;
use pr_model::{Control, ProcessOf, Usage};
use pr_num::layout::{STACK_END, TEXT_BASE};
use pr_num::limits::{PROCESS_LIMIT, REGISTER_COUNT, SIGNAL_COUNT};
use pr_num::{ById, FltSet, Modes, Name, NoMemory, SigSet, SysSet};
use pr_sig::Pendings;
use pr_watch::Areas;
use std::alloc::Global;

/// The registers of an lwp that begins a program: pc at the first instruction, sp at the end of an empty stack.
pub(crate) const FIRST_REGISTERS: [u64; REGISTER_COUNT] = [
    0, 0, 0, 0, 0, 0, 0, 0, STACK_END, 0, TEXT_BASE,
];

/// The lwp of a new process, directed to stop or not. It begins at the first instruction, with an empty stack.
#[tactic(auto, unfolding(pr_model::specs::Lives::first_lwp, pr_model::specs::Machines::traced))]
pub(crate) fn first_lwp(held: bool) -> Lwp
    ensures { result ≡ first_lwp traced held }
{
    new_lwp(FIRST_REGISTERS, SigSet::empty(), held)
}

/// Nothing is traced, no mode is set and nothing watched.
#[tactic(auto, unfolding(pr_model::specs::Machines::nothing_set))]
pub(crate) fn nothing_set() -> Control<Areas>
    ensures { result ≡ nothing_set }
{
    Control {
        traced_signals: SigSet::empty(),
        traced_faults: FltSet::empty(),
        traced_entries: SysSet::empty(),
        traced_exits: SysSet::empty(),
        modes: Modes::empty(),
        areas: Areas::new(),
        usage: Usage {
            calls: 0,
            signals: 0,
            faults: 0,
            instructions: 0,
        },
    }
}

/// A process with no lwp, no memory, no descriptor and nothing set on it. Takes no memory.
#[tactic(auto, unfolding(pr_model::specs::Lives::bare_process, pr_model::specs::Machines::traced))]
pub(crate) fn bare_process(alloc: Global, parent: u32, name: Name, clock: u64) -> Proc
    ensures { result ≡ bare_process traced parent name clock }
{
    ProcessOf {
        parent,
        program: name,
        made_at: clock,
        ended: None,
        space: Space::new(alloc),
        lender: None,
        borrower: None,
        fds: Fds::new(),
        dispositions: [0; SIGNAL_COUNT],
        pending: Pendings::new(),
        job_stop: None,
        next_lwp: 1,
        lwps: ById::new(alloc),
        control: nothing_set(),
    }
}

/// The lwps of a process that has one.
pub(crate) fn one_lwp(alloc: Global, id: u32, lwp: Lwp) -> Result<ById<Lwp>, NoMemory>
    ensures { IfOk result (λ lwps. lwps ≡ (id, lwp) ∷ []) }
{
    let mut lwps = ById::new(alloc);
    lwps.insert(id, lwp)?;
    Ok(lwps)
}

/// Puts a process under the next id. Where memory runs out, the system stays as it is.
#[tactic(auto, using(crate::proofs::FirstLemmas::numbering), unfolding(pr_model::specs::Lives::with_made))]
pub(crate) fn add_process(sys: &mut Sys, process: Proc) -> Result<(), NoMemory>
    requires room { sys.old.made + 1 < 2 ^ 32 }
    requires free { process_of sys.old sys.old.made ≡ None }
    ensures ok { OnOk result (sys.new ≡ with_made process sys.old) }
    ensures made { OnOk result (sys.new.made ≡ sys.old.made + 1) }
    ensures ids { IsNumbered sys.old → IsNumbered sys.new }
    ensures err { OnErr result (sys.new ≡ sys.old) }
{
    sys.processes.insert(sys.made, process)?;
    sys.made += 1;
    Ok(())
}

/// Makes a process of the program at a place that begins in this space, under the next id; its parent is process 0, and
/// `held`: it is directed to stop before it runs.
#[tactic(auto, using(crate::proofs::FirstLemmas::numbering))]
fn add_spawned(
    alloc: Global,
    sys: &mut Sys,
    place: u32,
    space: Space,
    held: bool,
) -> Result<(), NoMemory>
    requires program { place < length sys.old.programs }
    requires space { ForSome (slice_get sys.old.programs place) (λ program. space ≡ first_space program) }
    requires room { sys.old.made + 1 < 2 ^ 32 }
    requires free { process_of sys.old sys.old.made ≡ None }
    ensures ok { OnOk result
        (ForSome (slice_get sys.old.programs place) (λ program. sys.new ≡ with_spawned traced program held sys.old)) }
    ensures made { OnOk result (sys.new.made ≡ sys.old.made + 1) }
    ensures ids { IsNumbered sys.old → IsNumbered sys.new }
    ensures err { OnErr result (sys.new ≡ sys.old) }
{
    let lwps = one_lwp(alloc, 1, first_lwp(held))?;
    let name = sys.programs.at(place).name();
    let mut process = bare_process(alloc, 0, name, sys.clock);
    process.space = space;
    process.next_lwp = 2;
    process.lwps = lwps;
    add_process(sys, process)?;
    Ok(())
}

/// Makes a process of the program at a place, under the next id, however many there are.
#[tactic(auto, using(crate::proofs::FirstLemmas::numbering))]
pub(crate) fn spawn_unlimited(
    alloc: Global,
    sys: &mut Sys,
    place: u32,
    held: bool,
) -> Result<(), NoMemory>
    requires program { place < length sys.old.programs }
    requires room { sys.old.made + 1 < 2 ^ 32 }
    requires ids { IsNumbered sys.old }
    ensures ok { OnOk result
        (ForSome (slice_get sys.old.programs place) (λ program. sys.new ≡ with_spawned traced program held sys.old)) }
    ensures made { OnOk result (sys.new.made ≡ sys.old.made + 1) }
    ensures ids { IsNumbered sys.new }
    ensures err { OnErr result (sys.new ≡ sys.old) }
{
    let (_, first) = sys.programs.start(place);
    let space = first.copy(alloc)?;
    add_spawned(alloc, sys, place, space, held)
}

/// Makes a process of the program at a place, under the next id, which it answers; `held`: the process is directed to
/// stop before it runs. `Again` comes exactly where 4,096 processes were made, then `NoSpace` exactly where
/// all processes together would map more than 64 MiB, and memory runs out only where neither is so. After an error the
/// system is as it was.
#[tactic(auto, unfolding(pr_model::specs::Spawning::spawn_refusal))]
pub fn spawn(alloc: Global, sys: &mut Sys, place: u32, held: bool) -> Result<u32, ProcNo>
    requires program { place < length sys.old.programs }
    // no process has the next id
    requires free { process_of sys.old sys.old.made ≡ None }
    ensures ok { OnOk result
        (ForSome (slice_get sys.old.programs place) (λ program. sys.new ≡ with_spawned traced program held sys.old)) }
    ensures child { IfOk result (λ child. child ≡ sys.old.made) }
    ensures refused { ForSome (slice_get sys.old.programs place) (λ program. Says result (spawn_refusal sys.old program)) }
    ensures memory { result ≡ Err ProcNo.NoMemory → sys.old.made < process_limit }
    ensures room { result ≡ Err ProcNo.NoMemory
        → ForSome (slice_get sys.old.programs place) (λ program. spawn_refusal sys.old program ≡ None) }
    ensures err { OnErr result (sys.new ≡ sys.old) }
{
    let child = sys.made;
    if child >= PROCESS_LIMIT as u32 {
        return Err(ProcNo::Again);
    }
    let (_, first) = sys.programs.start(place);
    let size = first.mapped();
    if !total_has_room(sys, size, 0) {
        return Err(ProcNo::NoSpace);
    }
    let (_, first) = sys.programs.start(place);
    let space = first.copy(alloc)?;
    add_spawned(alloc, sys, place, space, held)?;
    Ok(child)
}
