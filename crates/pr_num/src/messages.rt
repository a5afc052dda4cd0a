use thiserror::Error;

/// A control message (proc(4), "CONTROL MESSAGES"): what one write to a `ctl` or `lwpctl` file asks for.
///
/// The fields are the message's operand words as they were written. Some words are no operands of their message, as
/// a signal number of 99: such a message has no encoding.
#[derive(Clone, Copy, Debug, PartialEq, Eq)]
pub enum Message {
    /// PCSTOP: direct to stop, and wait for the stop.
    Stop,
    /// PCDSTOP: direct to stop.
    Dstop,
    /// PCWSTOP: wait for a stop.
    Wstop,
    /// PCTWSTOP: wait for a stop, for so many milliseconds at most; 0 sets no limit.
    Twstop { ms: u64 },
    /// PCRUN: run again, by these run flags.
    Run { flags: u64 },
    /// PCCSIG: clear the current signal.
    Csig,
    /// PCCFAULT: clear the current fault.
    Cfault,
    /// PCSSIG: set the current signal; 0 clears it.
    Ssig { signal: u64 },
    /// PCKILL: send a signal.
    Kill { signal: u64 },
    /// PCUNKILL: delete a pending signal.
    Unkill { signal: u64 },
    /// PCSHOLD: set the held signals.
    Shold { signals: u64 },
    /// PCSTRACE: set the traced signals.
    Strace { signals: u64 },
    /// PCSFAULT: set the traced faults.
    Sfault { faults: u64 },
    /// PCSENTRY: set the calls traced at entry.
    Sentry { calls: u64 },
    /// PCSEXIT: set the calls traced at exit.
    Sexit { calls: u64 },
    /// PCSET: set modes.
    Set { modes: u64 },
    /// PCUNSET: clear modes.
    Unset { modes: u64 },
    /// PCSREG: set the registers r0 to r7, sp, fp and pc.
    Sreg { regs: [u64; 11] },
    /// PCSVADDR: set pc.
    Svaddr { pc: u64 },
    /// PCWATCH: set a watched area, or with no flags clear the one that starts there.
    Watch { at: u64, size: u64, flags: u64 },
    /// PCAGENT: make the agent lwp, with these registers.
    Agent { regs: [u64; 11] },
    /// PCREAD: read memory.
    Read { at: u64, len: u64 },
    /// PCWRITE: write memory. The bytes stand after the operand words, padded with zeros to a multiple of 8.
    Write { at: u64, len: u64 },
}

/// Why bytes begin with no control message.
#[derive(Clone, Copy, Debug, PartialEq, Eq, Error)]
pub enum MsgFault {
    /// There are fewer bytes than the message has.
    #[error("too few bytes for a control message")]
    Short,
    /// The first word is the code of no message.
    #[error("no control message has this code")]
    UnknownOp,
    /// This word is the first that the message cannot have; its code is word 0.
    #[error("bad operand: word {word} of the control message")]
    BadOperand { word: u32 },
}
