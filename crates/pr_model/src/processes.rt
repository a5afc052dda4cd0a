use crate::Lwp;
use pr_num::limits::SIGNAL_COUNT;
use pr_num::{ById, FltSet, Modes, Name, Sig, SigSet, SysSet};

/// What a process has used, counted from its making (proc(4), "usage").
#[derive(Clone, Copy, Debug, PartialEq, Eq)]
pub struct Usage {
    /// System calls ended.
    pub calls: u64,
    /// Signals taken.
    pub signals: u64,
    /// Faults incurred.
    pub faults: u64,
    /// Instructions begun.
    pub instructions: u64,
}

/// A process, which stands in its system under its id. `S` is how its address space is kept, `F` its descriptors, `P`
/// pending signals, `L` its lwps, and `C` what controllers set on it.
///
/// A zombie has ended and waits to be reaped. It has nothing of what stands from `space` on, but for its usage: no
/// memory, nothing lent or borrowed, no descriptors, no lwps, no traced events and no modes; its next lwp would be the
/// first.
#[derive(Drop)]
pub struct ProcessOf<S, F, P, L, C> {
    /// The parent's id, 0 once the parent has ended.
    pub parent: u32,
    /// The name of the program that it runs.
    pub program: Name,
    /// The clock at its making, in milliseconds.
    pub made_at: u64,
    /// The wait status of a zombie (wait.h(3HEAD)).
    pub ended: Option<u64>,
    /// Its mappings; none while it has lent them.
    pub space: S,
    /// The process whose mappings it has, until it runs another program or either of the two ends (vfork(2)).
    pub lender: Option<u32>,
    /// The process to which it has lent its mappings, until they come back.
    pub borrower: Option<u32>,
    pub fds: F,
    /// For each signal from 1 on: 0 default, 1 ignored, else the address of its handler.
    pub dispositions: [u64; SIGNAL_COUNT],
    /// The signals sent to the process that no lwp has taken yet.
    pub pending: P,
    /// The signal that stopped it by job control.
    pub job_stop: Option<Sig>,
    /// The id that the next lwp gets.
    pub next_lwp: u32,
    /// Under their ids.
    pub lwps: L,
    pub control: C,
}

/// What controllers set on a process, and what they alone can read of it. `A` is how watched areas are kept.
#[derive(Drop)]
pub struct Control<A> {
    pub traced_signals: SigSet,
    pub traced_faults: FltSet,
    pub traced_entries: SysSet,
    pub traced_exits: SysSet,
    pub modes: Modes,
    pub areas: A,
    pub usage: Usage,
}

/// A process of the traced machine. `A` is how watched areas are kept.
pub type Process<S, F, P, A> = ProcessOf<S, F, P, ById<Lwp<P>>, Control<A>>;
