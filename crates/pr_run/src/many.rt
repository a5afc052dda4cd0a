//! Runs of a world on several threads.
ghost use Rattle.std.specs.Prelude.{◌≡◌, ◌+◌, ◌≤◌, ◌<◌, ◌^◌, ◌++◌, ◌||◌, true, false, [], None, Some, All, length, flat_map, vec_len, IfOk, IsOk, OnErr, OnOk, IsOkUnless};
ghost use Rattle.std.specs.List.{list_all, list_any};
ghost use Rattle.pr_lock.specs.Seats.{IsOutside, first_of, own_of, saw_over, shares_of};
ghost use Rattle.pr_num.specs.Limits.{worker_limit};
ghost use Rattle.pr_run.specs.Logs.{entries_of};
ghost use Rattle.pr_run.specs.ManyRuns.{AtPlaces, HasLeft, HasWorked, IsMadeBy, IsNew, IsOffDuty, IsOnDuty, IsReady, first_world, is_over, last_lwp};
ghost use Rattle.pr_run.specs.declared.workers.Progress.TheVariants.{Done};
ghost use Rattle.pr_world.specs.Runs.{CameFrom};
ghost use Rattle.pr_world.specs.Worlds.{ended_as, seen};

use crate::attendance::Attendance;
use crate::duties::Duty;
use crate::one::end;
use crate::shared_worlds::SharedWorld;
use crate::workers::{Progress, Worker};
use pr_api::Kernel;
use pr_io::Gate;
use pr_lock::{Logged, NewNo, Seat, Shared};
use pr_num::NoMemory;
use pr_world::{End, World};
use std::alloc::Global;
use std::sync::Wait;
use std::thread;
use std::thread::Threads;

/// One turn of a worker: it takes the world, makes its move, and gives the world back. `last` is the lwp that it moved
/// last. The refusal is its own, or that of another worker, which left its mark.
fn take_turn<R: Wait, Q: Kernel + Send>(
    rt: &R,
    lock: &Shared<SharedWorld<Q>>,
    seat: &mut Seat<SharedWorld<Q>>,
    worker: Worker,
    last: &mut Option<(u32, u32)>,
) -> Result<Progress, NoMemory>
    requires seat { HasWorked (first_world Q.view lock.now) worker.processors lock.now worker.number seat.old }
    requires number { worker.number < worker.processors + length (first_of lock.now).world.controllers }
    requires last { last.old ≡ last_lwp None (entries_of (own_of seat.old)) }
    ensures seat { HasWorked (first_world Q.view lock.now) worker.processors lock.now worker.number seat.new }
    ensures last { last.new ≡ last_lwp None (entries_of (own_of seat.new)) }
    ensures done { IfOk result (λ progress. progress ≡ Done
        → HasLeft (first_world Q.view lock.now) worker.processors worker.number seat.new) }
    ensures refused { OnErr result (saw_over seat.new ≡ true) }
{
    let mut shared = lock.enter(rt, seat);
    let progress = shared.take_turn(worker, last);
    lock.leave(seat, shared);
    progress
}

/// One turn of a worker that has not made its last one. It passes the gate before, outside the lock.
fn take_next_turn<R: Wait, Q: Kernel + Send, G: Gate>(
    rt: &R,
    lock: &Shared<SharedWorld<Q>>,
    duty: &mut Duty<SharedWorld<Q>>,
    worker: Worker,
    gate: &G,
)
    requires duty { IsOnDuty (first_world Q.view lock.now) worker.processors lock.now worker.number duty.old }
    requires goes_on { duty.old.has_stopped ≡ false }
    requires number { worker.number < worker.processors + length (first_of lock.now).world.controllers }
    ensures { IsOnDuty (first_world Q.view lock.now) worker.processors lock.now worker.number duty.new }
{
    gate.pass(worker.number, duty.turn);
    duty.turn = duty.turn.saturating_add(1);
    match take_turn(rt, lock, &mut duty.seat, worker, &mut duty.last) {
        Ok(Progress::Moved) => {}
        Ok(Progress::Idle) => thread::yield_now(),
        Ok(Progress::Done) | Err(_) => duty.has_stopped = true,
    }
}

/// The turns of a worker. Where all have come, it makes them until it has nothing more to do, or memory was refused, to
/// it or to another one, which left its mark beside the world. Else it makes one of them, and goes on later.
fn take_turns<R: Wait, Q: Kernel + Send, G: Gate>(
    rt: &R,
    lock: &Shared<SharedWorld<Q>>,
    duty: &mut Duty<SharedWorld<Q>>,
    worker: Worker,
    gate: &G,
    attendance: &Attendance,
)
    requires duty { IsOnDuty (first_world Q.view lock.now) worker.processors lock.now worker.number duty.old }
    requires number { worker.number < worker.processors + length (first_of lock.now).world.controllers }
    ensures { IsOnDuty (first_world Q.view lock.now) worker.processors lock.now worker.number duty.new }
{
    let is_full = attendance.is_full();
    for _ in rt.forever() {
        if duty.has_stopped {
            return;
        }
        take_next_turn(rt, lock, duty, worker, gate);
        if !is_full {
            return;
        }
    }
    unreachable!()
}

/// A duty for each worker, of which there are so many.
fn duties_of<Q: Kernel + Send>(
    alloc: Global,
    lock: &Shared<SharedWorld<Q>>,
    seat: &mut Seat<SharedWorld<Q>>,
    workers: u32,
) -> Result<Vec<Duty<SharedWorld<Q>>>, NoMemory>
    requires lock { IsOutside seat.old lock.now }
    requires shares { shares_of seat.old ≡ workers + 1 }
    requires own { own_of seat.old ≡ [] }
    ensures seat { OnOk result (IsReady lock.now seat.new) }
    ensures duties { IfOk result (λ duties. All (IsNew lock.now) duties.items × (vec_len duties ≡ workers)) }
{
    let mut duties = Vec::with_capacity(alloc, workers as usize)?;
    for _ in 0..workers {
        duties.push(Duty {
            seat: lock.split(seat),
            last: None,
            turn: 0,
            has_stopped: false,
        })?;
    }
    Ok(duties)
}

/// All workers take turns, in so many threads, or in as many of them as the system makes.
fn go_on<R: Threads + Wait + Sync, Q: Kernel + Send, G: Gate + Sync>(
    rt: &R,
    lock: &Shared<SharedWorld<Q>>,
    duties: &mut [Duty<SharedWorld<Q>>],
    processors: u32,
    gate: &G,
    attendance: &Attendance,
    threads: usize,
)
    requires threads { 0 < threads }
    requires few { length duties.old < 2 ^ 32 }
    requires number { length duties.old ≤ processors + length (first_of lock.now).world.controllers }
    requires duties { AtPlaces (IsOnDuty (first_world Q.view lock.now) processors lock.now) duties.old }
    ensures duties { AtPlaces (IsOnDuty (first_world Q.view lock.now) processors lock.now) duties.new }
{
    thread::for_each_mut(
        rt,
        duties,
        threads,
        &|number: usize, duty: &mut Duty<SharedWorld<Q>>|
            requires few { number < 2 ^ 32 }
            requires number { number < processors + length (first_of lock.now).world.controllers }
            requires duty { IsOnDuty (first_world Q.view lock.now) processors lock.now number duty.old }
            ensures { IsOnDuty (first_world Q.view lock.entry.now) processors lock.entry.now number duty.new }
        {
            let worker = Worker {
                processors,
                number: number as u32,
            };
            take_turns(rt, lock, duty, worker, gate, attendance);
        },
    );
}

/// Whether all workers have made their last turns.
fn have_stopped<V: Logged>(duties: &[Duty<V>]) -> bool
    ensures { result ≡ list_all (λ duty. duty.has_stopped) duties.now }
{
    duties.iter().all(|duty| duty.has_stopped)
}

/// All workers at once, each in a thread of its own. Where the system makes fewer threads, a worker that has none
/// begins only behind others, and these would wait for what it moves. So all wait until each has come, and where one
/// does not, one thread makes the run in rounds, in which each worker has one turn.
fn work<R: Threads + Wait + Sync, Q: Kernel + Send, G: Gate + Sync>(
    rt: &R,
    lock: &Shared<SharedWorld<Q>>,
    duties: &mut [Duty<SharedWorld<Q>>],
    processors: u32,
    gate: &G,
)
    requires few { length duties.old < 2 ^ 32 }
    requires number { length duties.old ≤ processors + length (first_of lock.now).world.controllers }
    requires duties { All (IsNew lock.now) duties.old }
    ensures duties { AtPlaces (IsOffDuty (first_world Q.view lock.now) processors lock.now) duties.new }
{
    let attendance = Attendance::new(duties.len() as u64);
    let mut threads = duties.len().max(1);
    for _ in rt.forever() {
        go_on(rt, lock, duties, processors, gate, &attendance, threads);
        if have_stopped(duties) {
            return;
        }
        threads = 1;
    }
    unreachable!()
}

/// All seats in one, which has seen that all is over, if one of them has.
fn gather<Q: Kernel + Send>(
    lock: &Shared<SharedWorld<Q>>,
    seat: &mut Seat<SharedWorld<Q>>,
    duties: Vec<Duty<SharedWorld<Q>>>,
)
    requires lock { IsOutside seat.old lock.now }
    requires duties { All (λ duty. IsOutside duty.seat lock.now × (shares_of duty.seat ≡ 1)) duties.items }
    ensures lock { IsOutside seat.new lock.now }
    ensures shares { shares_of seat.new ≡ shares_of seat.old + vec_len duties }
    ensures own { own_of seat.new ≡ own_of seat.old ++ flat_map (λ duty. own_of duty.seat) duties.items }
    ensures over { saw_over seat.new ≡ saw_over seat.old || list_any (λ duty. saw_over duty.seat) duties.items }
{
    for duty in duties {
        lock.join(seat, duty.seat);
    }
}

/// A kernel has no more entries than places. Does nothing.
fn keep_within<Q: Kernel>(kernel: &Q)
    ensures { length (Q.view kernel.now).history ≤ (Q.view kernel.now).places }
{
    let entries = kernel.entries();
    let places = kernel.places();
    prove!(entries <= places);
}

/// The world that workers left where all was over, and how its run ended: it had, unless memory was refused to one of
/// them. Takes no memory.
fn ended<Q: Kernel>(shared: SharedWorld<Q>) -> (World<Q>, Result<End, NoMemory>)
    requires { is_over Q.view shared ≡ true }
    ensures world { result.0 ≡ shared.world }
    ensures sure { shared.refusal ≡ None → IsOk result.1 }
    ensures within { length (Q.view result.0.kernel).history ≤ (Q.view result.0.kernel).places }
    ensures end { IfOk result.1 (λ end. ended_as (seen Q.view result.0) ≡ Some end) }
{
    let SharedWorld { world, refusal } = shared;
    let end = match refusal {
        Some(refusal) => Err(refusal),
        None => Ok(end(&world)),
    };
    keep_within(world.kernel());
    (world, end)
}

/// Makes the run of a world by workers, each in a thread of its own: so many that share the processor and move lwps and
/// the clock, and one for each controller. They take the world in turn under a lock, in any order; its schedule is not
/// used. A worker leaves where the world has ended, its controller has finished, or memory was refused, and one of the
/// processor never where its controller has: so the world has ended when all have left, and it says how, without asking
/// for memory. Where memory runs out on the way, the world is handed back as it stands. It waits for its workers, and
/// for nothing else once they have left: what is said here holds if it returns.
pub fn run_many<R: Threads + Wait + Sync, Q: Kernel + Send, G: Gate + Sync>(
    rt: &R,
    alloc: Global,
    world: World<Q>,
    workers: u32,
    gate: &G,
) -> Result<(World<Q>, Result<End, NoMemory>), NewNo>
    requires some { 1 ≤ workers }
    requires most { workers ≤ worker_limit }
    requires empty { (Q.view world.kernel).history ≡ [] }
    // Each controller made its next calls, and got replies of their shapes; of a machine that is told the history is
    // legal and follows the protocol, and its state is the one after it.
    ensures came { IfOk result (λ made. CameFrom (seen Q.view world) (seen Q.view made.0)) }

    // The entries of the history are those that the workers made, each once. Each is a move in a world on the way from
    // the first to the last, of the actor that came next for its worker: a worker of the processor went on after the
    // lwp that it had moved last.
    ensures made { IfOk result (λ made. IsMadeBy (seen Q.view world) workers (Q.view made.0.kernel).history) }

    ensures within { IfOk result (λ made. length (Q.view made.0.kernel).history ≤ (Q.view made.0.kernel).places) }
    ensures end { IfOk result (λ made. IfOk made.1 (λ end. ended_as (seen Q.view made.0) ≡ Some end)) }

    // The lock is refused for memory alone.
    ensures refused { IsOkUnless result NewNo.NoMemory }
{
    let count = workers + world.controllers();
    let shared = SharedWorld {
        world,
        refusal: None,
    };
    let (lock, mut seat) = Shared::new(alloc, shared, count + 1)?;
    let mut duties = duties_of(alloc, &lock, &mut seat, count)?;
    work(rt, &lock, &mut duties, workers, gate);
    gather(&lock, &mut seat, duties);
    Ok(ended(lock.close(seat)))
}
