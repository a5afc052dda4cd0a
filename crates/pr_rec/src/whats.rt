ghost use Rattle.std.specs.Prelude.{◌≡◌, ◌<◌, ◌+◌, Some, None, nat_lt, if◌then◌else◌};
ghost use Rattle.pr_num.specs.Limits.{signal_count};
ghost use Rattle.pr_num.specs.Faults.{fault_number};
ghost use Rattle.pr_num.specs.Signals.{signal_number};
ghost use Rattle.pr_num.specs.Syscalls.{syscall_number};

use pr_num::limits::SIGNAL_COUNT;
use pr_num::{Flt, Sig, Sysno};
use std::marker::Model;

/// What an lwp is stopped for (proc(4), "pr_what"): the number of a signal, a system call or a fault, as the reason of
/// the stop says, and 0 where there is none. Below 40, and seen by contracts as that number.
#[derive(Clone, Copy, Debug, PartialEq, Eq)]
pub struct What {
    number: u64,
}

impl Model for What {
    ghost use Rattle.std.specs.Prelude.{ℕ, ◌<◌, ◌+◌};
    ghost use Rattle.pr_num.specs.Limits.{signal_count};

    ghost Value = { ℕ };

    ghost view = { λ what. what.number };

    ghost invariant = { λ what. what.number < signal_count + 1 };

    ghost inverse = { λ number. record { number = number } };
}

impl What {
    /// An lwp that is stopped for none of these, or not stopped.
    pub const NONE: What = What { number: 0 };

    /// The numbers of the widest table lie below this one.
    const BEYOND: u64 = SIGNAL_COUNT as u64 + 1;

    /// A stop at this signal, or by it.
    #[tactic(auto, using(crate::proofs::FieldLemmas::number_bounds))]
    pub fn of_signal(signal: Sig) -> What
        ensures { result ≡ signal_number signal }
    {
        What {
            number: signal.number(),
        }
    }

    /// A stop at the entry or the exit of this system call.
    #[tactic(auto, using(crate::proofs::FieldLemmas::number_bounds))]
    pub fn of_call(call: Sysno) -> What
        ensures { result ≡ syscall_number call }
    {
        What {
            number: call.number(),
        }
    }

    /// A stop at this fault.
    #[tactic(auto, using(crate::proofs::FieldLemmas::number_bounds))]
    pub fn of_fault(fault: Flt) -> What
        ensures { result ≡ fault_number fault }
    {
        What {
            number: fault.number(),
        }
    }

    /// What has a number, `None` exactly where no table has numbers so great.
    pub fn from_number(number: u64) -> Option<What>
        ensures { result ≡ (if nat_lt number (signal_count + 1) then Some number else None) }
    {
        if number < What::BEYOND {
            Some(What { number })
        } else {
            None
        }
    }

    /// The number: of a signal, a fault or a system call, after the reason of the stop, or 0 for nothing.
    pub fn number(self) -> u64
        ensures value { result ≡ self }
        ensures range { result < signal_count + 1 }
    {
        self.number
    }
}
