use crate::{Frames, Res, Stop};
use pr_num::{Flt, Info, Sig, SigSet, Sysno};

/// Where an lwp is between its program and the kernel.
#[derive(Clone, Copy, Debug, PartialEq, Eq)]
pub enum Phase {
    /// In its program.
    User,
    /// At a system call that it has not made yet.
    Entered(Sysno),
    /// Asleep in a system call, since this clock; the arguments are those that the call was made with.
    Asleep {
        call: Sysno,
        args: [u64; 6],
        since: u64,
    },
    /// On its way out of a system call. The result is never `Res::Ended`.
    Exiting {
        call: Sysno,
        args: [u64; 6],
        result: Res,
    },
    /// It incurred a fault, whose signal is not posted yet.
    Faulted {
        fault: Flt,
        address: u64,
    },
}

/// The place of pc among the registers.
pub const PC: usize = 10;

/// A signal that an lwp took and has not acted on yet, with its information.
#[derive(Clone, Copy, Debug, PartialEq, Eq)]
pub struct Current {
    pub signal: Sig,
    pub info: Info,
}

/// A lightweight process, which stands in its process under its id: ids count from 1, and the agent's is 65,535. `P` is
/// how pending signals are kept, `H` where it is between its program and the kernel, and `K` what controllers set on
/// it.
#[derive(Drop)]
pub struct LwpOf<P, H, K> {
    /// r0 to r7, sp, fp and pc.
    pub regs: [u64; 11],
    /// The signals that it does not take.
    pub held: SigSet,
    /// The signals sent to it alone that it has not taken yet.
    pub pending: P,
    /// The signal that it took and has not acted on yet.
    pub current: Option<Current>,
    /// What its running signal handlers interrupted, the latest last.
    pub frames: Frames,
    /// Whether another lwp suspended it (lwp_suspend(2)).
    pub suspended: bool,
    pub phase: H,
    pub control: K,
}

/// What controllers set on an lwp.
#[derive(Clone, Copy, Debug, PartialEq, Eq)]
pub struct LwpControl {
    /// Why it stands still on an event of interest, if it does.
    pub stop: Option<Stop>,
    /// Whether it is directed to stop.
    pub directed: bool,
    /// Whether it is to incur FLTTRACE after the next instruction.
    pub step: bool,
    /// Whether the system call in which it is is to end with EINTR.
    pub abort: bool,
}

/// An lwp of the traced machine.
pub type Lwp<P> = LwpOf<P, Phase, LwpControl>;
