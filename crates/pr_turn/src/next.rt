//! Which row of the turn table is the next turn of an lwp.
ghost use Rattle.std.specs.Prelude.{◌≡◌, ℕ, true, Some, IfSome};
ghost use Rattle.pr_call.specs.Requests.{request_in};
ghost use Rattle.pr_model.specs.LwpTurns.{is_held_back};
ghost use Rattle.pr_model.specs.Rows.{Row, acted_row, call_row, caught_row, finished, handler_row, interrupted_row, row_for, row_in, signal_row_or, taken_or};
ghost use Rattle.pr_model.specs.Signals.{has_takeable, own_takeable, shared_takeable};
ghost use Rattle.pr_model.specs.State.{TracedLwp, TracedProcess, TracedSystem};
ghost use Rattle.pr_turn.specs.CallTurns.{Asks};
ghost use Rattle.pr_turn.specs.NextRows.{unposted_fault, fits, row_of, row_of_turn, row_or, turn_fits};

use pr_model::{Current, Did, Frames, How, Phase, Res};
use pr_num::{AGENT, Errno, Flt, Sig, Sysno};
use pr_proc::{Lwp, Proc, arguments_of, disposition_of};
use pr_sig::{Action, action, takeable};

/// A row of the turn table, with what decides it.
#[derive(Clone, Copy, Debug, PartialEq, Eq)]
pub enum Next {
    /// The lwp stops as it was directed to.
    Requested,
    /// The signal of its fault is posted.
    Posted {
        fault: Flt,
        address: u64,
    },
    /// The call at which it is, or in which it sleeps, ends with a result that does not come from it.
    Gave {
        woken: bool,
        call: Sysno,
        args: [u64; 6],
        result: Res,
    },
    /// What it does ends its process, with this wait status.
    Ends {
        did: Did,
        status: u64,
    },
    /// It goes back from a call to its program.
    Returned(Sysno),
    /// It runs an instruction.
    Executed,
    /// It takes a signal that pends for it alone.
    TookOwn(Sig),
    /// It takes a signal that pends for its process.
    TookShared(Sig),
    /// Its current signal is dropped.
    Dropped(Sig),
    /// Its current signal stops its process by job control.
    JobStopped(Sig),
    /// Its current signal is caught: the handler at this address runs.
    Caught {
        current: Current,
        handler: u64,
    },
}

/// The next turn of an lwp.
#[derive(Clone, Copy, Debug, PartialEq, Eq)]
pub enum NextTurn {
    /// It makes a row that all is known of.
    Row(Next),
    /// It performs the call at which it is, or in which it sleeps since that moment.
    Performs {
        woken: bool,
        call: Sysno,
        args: [u64; 6],
        since: u64,
    },
}

/// Whether an lwp is held back: it stands on an event of interest, or is suspended, or its process is stopped by job
/// control, which does not hold the agent, or has lent its memory, which lets it move only to stop as directed.
#[tactic(auto, unfolding(pr_model::specs::LwpTurns::is_held_back))]
pub fn is_held_back(process: &Proc, id: u32, lwp: &Lwp) -> bool
    ensures { result ≡ is_held_back process.now id lwp.now }
{
    lwp.control.stop.is_some()
        || lwp.suspended
        || (process.job_stop.is_some() && id != AGENT)
        || (process.borrower.is_some() && !lwp.control.directed)
}

/// Whether a signal is pending for an lwp, or for its process, that the lwp does not hold.
#[tactic(auto, unfolding(pr_model::specs::Signals::takeable))]
pub fn has_takeable(process: &Proc, lwp: &Lwp) -> bool
    ensures { result ≡ has_takeable process.now lwp.now }
{
    takeable(lwp.pending.set(), process.pending.set(), lwp.held).is_some()
}

// ---- an lwp in a system call

/// What an lwp did whose call is over: it made it from its entry, or woke from its sleep in it.
pub fn finished(woken: bool, call: Sysno, outcome: Res) -> Did
    ensures { result ≡ finished woken call outcome }
{
    if woken {
        Did::Woke(call, outcome)
    } else {
        Did::Made(call, outcome)
    }
}

/// A call ends with EINTR.
#[tactic(auto, unfolding(crate::specs::NextRows::row_of, pr_model::specs::Rows::interrupted_row, pr_model::specs::Transitions::interrupted))]
fn interrupted(woken: bool, call: Sysno, args: [u64; 6]) -> Next
    ensures row { (p : TracedProcess) (l : TracedLwp) → row_of p l result ≡ interrupted_row woken call args }
    ensures fits { (l : TracedLwp) → fits l result ≡ true }
{
    Next::Gave {
        woken,
        call,
        args,
        result: Res::Error(Errno::Intr),
    }
}

/// An lwp in a system call, since some moment, performs it; one whose call was aborted gets EINTR.
#[tactic(auto, using(crate::proofs::NextLemmas::performing))]
fn at_call(lwp: &Lwp, woken: bool, call: Sysno, args: [u64; 6], since: u64) -> NextTurn
    ensures row { (s : TracedSystem) (pid : ℕ) (p : TracedProcess) (id : ℕ)
        → row_of_turn s pid p id lwp.now result ≡ call_row s pid p id lwp.now woken call args since }
    ensures fits { turn_fits lwp.now result ≡ true }
    ensures asks { (clock pid id : ℕ)
        → request_in clock pid id lwp.now lwp.now.phase
        ≡ Some (record { pid = pid; lwp = id; since = since; call = call; args = args })
        → Asks clock pid id lwp.now result }
{
    if lwp.control.abort {
        return NextTurn::Row(interrupted(woken, call, args));
    }
    NextTurn::Performs {
        woken,
        call,
        args,
        since,
    }
}

// ---- the current signal

/// A handler runs where its frame has room; else the process ends as by SIGSEGV.
#[tactic(auto, unfolding(crate::specs::NextRows::row_of, pr_model::specs::Rows::handler_row, pr_model::specs::Transitions::handled))]
fn handled(lwp: &Lwp, current: Current, handler: u64) -> Next
    ensures row { (p : TracedProcess) → row_of p lwp.now result ≡ handler_row lwp.now current handler }
    ensures fits { fits lwp.now result ≡ true }
{
    if lwp.frames.len() < Frames::MAX {
        return Next::Caught { current, handler };
    }
    Next::Ends {
        did: Did::Acted(current.signal, How::Died),
        status: Sig::Segv.number(),
    }
}

/// A caught signal first ends the system call in which its lwp is with EINTR.
#[tactic(auto, unfolding(pr_model::specs::Rows::caught_row))]
fn caught(lwp: &Lwp, current: Current, handler: u64) -> Next
    ensures row { (p : TracedProcess) → row_of p lwp.now result ≡ caught_row lwp.now current handler lwp.now.phase }
    ensures fits { fits lwp.now result ≡ true }
{
    match lwp.phase {
        Phase::Entered(call) => interrupted(false, call, arguments_of(&lwp.regs)),
        Phase::Asleep { call, args, .. } => interrupted(true, call, args),
        Phase::User => handled(lwp, current, handler),
        Phase::Exiting { .. } => handled(lwp, current, handler),
        Phase::Faulted { .. } => handled(lwp, current, handler),
    }
}

/// The current signal is acted on: it is dropped, stops its process by job control, kills it, or is caught.
#[tactic(auto, using(crate::proofs::NextLemmas::acting))]
fn acted(process: &Proc, lwp: &Lwp, current: Current) -> Next
    ensures row { row_of process.now lwp.now result ≡ acted_row process.now lwp.now current }
    ensures fits { fits lwp.now result ≡ true }
{
    let signal = current.signal;
    match action(signal, disposition_of(&process.dispositions, signal)) {
        Action::Ignore => Next::Dropped(signal),
        Action::Stop => Next::JobStopped(signal),
        Action::Die => Next::Ends {
            did: Did::Acted(signal, How::Died),
            status: signal.number(),
        },
        Action::Catch(handler) => caught(lwp, current, handler),
    }
}

// ---- the table

/// The row of the signal that an lwp takes, if there is one: from those that pend for it alone first.
#[tactic(auto, unfolding(crate::specs::NextRows::row_of, pr_model::specs::Signals::own_takeable, pr_model::specs::Signals::shared_takeable, pr_model::specs::Signals::takeable, pr_parts::specs::SignalRules::takeable_signal, pr_num::specs::Signals::least_signal))]
fn taken(process: &Proc, lwp: &Lwp) -> Option<Next>
    ensures row { (s : TracedSystem) (pid id : ℕ) (otherwise : Row)
        → row_or process.now lwp.now result otherwise
        ≡ taken_or s pid process.now id lwp.now (own_takeable lwp.now) (shared_takeable process.now lwp.now) otherwise }
    ensures fits { IfSome result (λ next. fits lwp.now next ≡ true) }
{
    if let Some(signal) = lwp.pending.set().minus(lwp.held).first() {
        return Some(Next::TookOwn(signal));
    }
    let signal = process.pending.set().minus(lwp.held).first()?;
    Some(Next::TookShared(signal))
}

/// The row of an lwp that is not at a call that it has not made: it takes a signal, if there is one, or its phase
/// decides.
fn taken_or(process: &Proc, lwp: &Lwp, otherwise: Next) -> Next
    requires { fits lwp.now otherwise ≡ true }
    ensures row { (s : TracedSystem) (pid id : ℕ)
        → row_of process.now lwp.now result
        ≡ taken_or s pid process.now id lwp.now (own_takeable lwp.now) (shared_takeable process.now lwp.now)
        (row_of process.now lwp.now otherwise) }
    ensures fits { fits lwp.now result ≡ true }
{
    match taken(process, lwp) {
        Some(next) => next,
        None => otherwise,
    }
}

/// An lwp that sleeps takes a signal, or its call is over.
fn asleep(process: &Proc, lwp: &Lwp, call: Sysno, args: [u64; 6], since: u64) -> NextTurn
    ensures row { (s : TracedSystem) (pid id : ℕ)
        → row_of_turn s pid process.now id lwp.now result
        ≡ taken_or s pid process.now id lwp.now (own_takeable lwp.now) (shared_takeable process.now lwp.now)
        (call_row s pid process.now id lwp.now true call args since) }
    ensures fits { turn_fits lwp.now result ≡ true }
    ensures asks { (clock pid id : ℕ)
        → request_in clock pid id lwp.now lwp.now.phase
        ≡ Some (record { pid = pid; lwp = id; since = since; call = call; args = args })
        → Asks clock pid id lwp.now result }
{
    match taken(process, lwp) {
        Some(next) => NextTurn::Row(next),
        None => at_call(lwp, true, call, args, since),
    }
}

/// An lwp in its program takes a signal, or runs an instruction.
fn in_program(process: &Proc, lwp: &Lwp) -> Next
    ensures row { (s : TracedSystem) (pid id : ℕ)
        → row_of process.now lwp.now result
        ≡ taken_or s pid process.now id lwp.now (own_takeable lwp.now) (shared_takeable process.now lwp.now)
        (row_of process.now lwp.now Next.Executed) }
    ensures fits { fits lwp.now result ≡ true }
{
    taken_or(process, lwp, Next::Executed)
}

/// An lwp on its way out of a call takes a signal, or goes back to its program.
fn leaving(process: &Proc, lwp: &Lwp, call: Sysno) -> Next
    ensures row { (s : TracedSystem) (pid id : ℕ)
        → row_of process.now lwp.now result
        ≡ taken_or s pid process.now id lwp.now (own_takeable lwp.now) (shared_takeable process.now lwp.now)
        (row_of process.now lwp.now (Next.Returned call)) }
    ensures fits { fits lwp.now result ≡ true }
{
    taken_or(process, lwp, Next::Returned(call))
}

/// An lwp takes a signal, or its phase decides; one at a call that it has not made takes none.
#[tactic(auto, using(crate::proofs::NextLemmas::phases))]
fn in_phase(clock: u64, process: &Proc, lwp: &Lwp) -> NextTurn
    ensures row { (s : TracedSystem) (pid id : ℕ) → s.clock ≡ clock
        → row_of_turn s pid process.now id lwp.now result
        ≡ signal_row_or s pid process.now id lwp.now lwp.now.phase (row_in s pid process.now id lwp.now lwp.now.phase) }
    ensures fits { turn_fits lwp.now result ≡ true }
    ensures asks { (pid id : ℕ) → Asks clock pid id lwp.now result }
{
    match lwp.phase {
        Phase::User => NextTurn::Row(in_program(process, lwp)),
        Phase::Entered(call) => at_call(lwp, false, call, arguments_of(&lwp.regs), clock),
        Phase::Asleep { call, args, since } => asleep(process, lwp, call, args, since),
        Phase::Exiting { call, .. } => NextTurn::Row(leaving(process, lwp, call)),
        Phase::Faulted { fault, address } => NextTurn::Row(Next::Posted { fault, address }),
    }
}

/// The fault that an lwp incurred and whose signal is not posted yet.
fn unposted_fault(phase: Phase) -> Option<(Flt, u64)>
    ensures { result ≡ unposted_fault phase }
{
    match phase {
        Phase::Faulted { fault, address } => Some((fault, address)),
        _ => None,
    }
}

/// The row that is the next turn of an lwp, the first that fits: a directed lwp stops; a fault's signal is posted; the
/// current signal is acted on; a signal is taken; and then the phase decides.
#[tactic(auto, using(crate::proofs::NextLemmas::rows))]
pub fn next_row(clock: u64, process: &Proc, lwp: &Lwp) -> NextTurn
    ensures row { (s : TracedSystem) (pid id : ℕ) → s.clock ≡ clock
        → row_of_turn s pid process.now id lwp.now result ≡ row_for s pid process.now id lwp.now }
    ensures fits { turn_fits lwp.now result ≡ true }
    ensures asks { (pid id : ℕ) → Asks clock pid id lwp.now result }
{
    if lwp.control.directed {
        return NextTurn::Row(Next::Requested);
    }
    if let Some((fault, address)) = unposted_fault(lwp.phase) {
        return NextTurn::Row(Next::Posted { fault, address });
    }
    match lwp.current {
        Some(current) => NextTurn::Row(acted(process, lwp, current)),
        None => in_phase(clock, process, lwp),
    }
}
