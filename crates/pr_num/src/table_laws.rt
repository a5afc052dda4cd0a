ghost use Rattle.std.specs.Prelude.{◌≡◌, ◌≢◌, ◌≤◌, ◌↔◌, ◌⊎◌, ℕ, List, Some, None, IsSome, drop, find};
ghost use Rattle.pr_num.specs.Signals.{signal_number, signal_name, signal_of_number, signal_of_name};
ghost use Rattle.pr_num.specs.Faults.{fault_number, fault_name, fault_of_number, fault_of_name};
ghost use Rattle.pr_num.specs.Errnos.{errno_number, errno_name, errno_of_number, errno_of_name};
ghost use Rattle.pr_num.specs.Syscalls.{syscall_number, syscall_name, syscall_of_number, syscall_of_name};
ghost use Rattle.pr_num.specs.StopReasons.{stop_reasons, reason_number, reason_name, is_reason_named};
ghost use Rattle.pr_num.specs.Limits.{signal_count, syscall_count};
ghost use Rattle.pr_num.specs.Tables.{entry_at};
ghost use Rattle.pr_num.specs.declared.signals.Sig.{Sig as AnySignal};
ghost use Rattle.pr_num.specs.declared.faults.Flt.{Flt as AnyFault};
ghost use Rattle.pr_num.specs.declared.errnos.Errno.{Errno as AnyErrno};
ghost use Rattle.pr_num.specs.declared.syscalls.Sysno.{Sysno as AnySyscall};
ghost use Rattle.pr_num.specs.declared.stop_reasons.StopReason.{StopReason as AnyReason};

use crate::errnos::Errno;
use crate::faults::Flt;
use crate::signals::Sig;
use crate::stop_reasons::StopReason;
use crate::syscalls::Sysno;

// A number or a name stands for one entry of its table, and an entry for its number and its name.

/// The numbers of signals are 1 to 39, each of one signal.
pub fn signal_numbers(signal: Sig)
    ensures back { signal_of_number (signal_number signal) ≡ Some signal }
    ensures only { (n : ℕ) (found : AnySignal) → signal_of_number n ≡ Some found → signal_number found ≡ n }
    ensures range { (n : ℕ) → IsSome (signal_of_number n) ↔ ((1 ≤ n) × (n ≤ signal_count)) }
{}

/// Each signal has its name, with and without `SIG`, and no other signal has it.
pub fn signal_names(signal: Sig)
    ensures whole { signal_of_name (signal_name signal) ≡ Some signal }
    ensures short { signal_of_name (drop 3 (signal_name signal)) ≡ Some signal }
    ensures only { (bytes : List ℕ) (found : AnySignal) → signal_of_name bytes ≡ Some found
        → (bytes ≡ signal_name found) ⊎ (bytes ≡ drop 3 (signal_name found)) }
    ensures none { (bytes : List ℕ) (other : AnySignal) → signal_of_name bytes ≡ None
        → (bytes ≢ signal_name other) × (bytes ≢ drop 3 (signal_name other)) }
{}

/// The numbers of faults are 1 to 8, each of one fault.
pub fn fault_numbers(fault: Flt)
    ensures back { fault_of_number (fault_number fault) ≡ Some fault }
    ensures only { (n : ℕ) (found : AnyFault) → fault_of_number n ≡ Some found → fault_number found ≡ n }
    ensures range { (n : ℕ) → IsSome (fault_of_number n) ↔ ((1 ≤ n) × (n ≤ 8)) }
{}

/// Each fault has its name, and no other fault has it.
pub fn fault_names(fault: Flt)
    ensures back { fault_of_name (fault_name fault) ≡ Some fault }
    ensures only { (bytes : List ℕ) (found : AnyFault) → fault_of_name bytes ≡ Some found → bytes ≡ fault_name found }
    ensures none { (bytes : List ℕ) (other : AnyFault) → fault_of_name bytes ≡ None → bytes ≢ fault_name other }
{}

/// Each errno has its number, and no other errno has it.
pub fn errno_numbers(errno: Errno)
    ensures back { errno_of_number (errno_number errno) ≡ Some errno }
    ensures only { (n : ℕ) (found : AnyErrno) → errno_of_number n ≡ Some found → errno_number found ≡ n }
    ensures none { (n : ℕ) (other : AnyErrno) → errno_of_number n ≡ None → errno_number other ≢ n }
{}

/// Each errno has its name, and no other errno has it.
pub fn errno_names(errno: Errno)
    ensures back { errno_of_name (errno_name errno) ≡ Some errno }
    ensures only { (bytes : List ℕ) (found : AnyErrno) → errno_of_name bytes ≡ Some found → bytes ≡ errno_name found }
    ensures none { (bytes : List ℕ) (other : AnyErrno) → errno_of_name bytes ≡ None → bytes ≢ errno_name other }
{}

/// The numbers of calls are 1 to 31, each of one call.
pub fn syscall_numbers(syscall: Sysno)
    ensures back { syscall_of_number (syscall_number syscall) ≡ Some syscall }
    ensures only { (n : ℕ) (found : AnySyscall) → syscall_of_number n ≡ Some found → syscall_number found ≡ n }
    ensures range { (n : ℕ) → IsSome (syscall_of_number n) ↔ ((1 ≤ n) × (n ≤ syscall_count)) }
{}

/// Each call has its name, and no other call has it.
pub fn syscall_names(syscall: Sysno)
    ensures back { syscall_of_name (syscall_name syscall) ≡ Some syscall }
    ensures only { (bytes : List ℕ) (found : AnySyscall) → syscall_of_name bytes ≡ Some found → bytes ≡ syscall_name found }
    ensures none { (bytes : List ℕ) (other : AnySyscall) → syscall_of_name bytes ≡ None → bytes ≢ syscall_name other }
{}

/// The numbers of stop reasons are 1 to 7, each of one reason.
pub fn reason_numbers(reason: StopReason)
    ensures back { entry_at stop_reasons (reason_number reason) ≡ Some reason }
    ensures only { (n : ℕ) (found : AnyReason) → entry_at stop_reasons n ≡ Some found → reason_number found ≡ n }
    ensures range { (n : ℕ) → IsSome (entry_at stop_reasons n) ↔ ((1 ≤ n) × (n ≤ 7)) }
{}

/// Each stop reason has its name, and no other reason has it.
pub fn reason_names(reason: StopReason)
    ensures back { find (is_reason_named (reason_name reason)) stop_reasons ≡ Some reason }
    ensures only { (bytes : List ℕ) (found : AnyReason) → find (is_reason_named bytes) stop_reasons ≡ Some found
        → bytes ≡ reason_name found }
    ensures none { (bytes : List ℕ) (other : AnyReason) → find (is_reason_named bytes) stop_reasons ≡ None
        → bytes ≢ reason_name other }
{}
