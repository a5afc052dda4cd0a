ghost use Rattle.std.specs.Prelude.{◌≡◌, ◌≢◌, ◌==◌, ◌-◌, ◌^◌, ◌<◌, ◌≤◌, ◌↔◌, ◌&&◌, ◌||◌, ℕ, not, true, false, Some, IsSome, [], ◌∷◌};
ghost use Rattle.pr_num.specs.Sets.{has_number, union_word, common_word, minus_word, with_number, without_number, set_of_word, least_entry};
ghost use Rattle.pr_num.specs.Signals.{holdable_word};
ghost use Rattle.pr_num.specs.Control.{has_flags, fork_mode, rlc_mode, klc_mode, async_mode, watch_read, watch_write, watch_exec, watch_trap_after, prot_read, prot_write, prot_exec, clear_signal, clear_fault, single_step, abort_call, stop_again, issys_flag, vforkp_flag, stopped_flag, istop_flag, dstop_flag, step_flag, asleep_flag, agent_flag};

use crate::lwp_flags::LwpFlags;
use crate::modes::Modes;
use crate::numbered::Numbered;
use crate::process_flags::ProcessFlags;
use crate::protections::Prot;
use crate::run_flags::RunFlags;
use crate::watch_flags::WatchFlags;

// A set is known by the numbers that it has.

/// What the sets have that are made of others, number by number.
pub fn members_of_made_sets()
    ensures empty { (n : ℕ) → has_number 0 n ≡ false }
    ensures union { (a b n : ℕ) → has_number (union_word a b) n ≡ (has_number a n || has_number b n) }
    ensures common { (a b n : ℕ) → has_number (common_word a b) n ≡ (has_number a n && has_number b n) }
    ensures minus { (a b n : ℕ) → b < 2 ^ 64 → 1 ≤ n → n ≤ 64
        → has_number (minus_word a b) n ≡ (has_number a n && not (has_number b n)) }
    ensures added { (w n m : ℕ) → 1 ≤ n → 1 ≤ m → has_number (with_number w n) m ≡ (has_number w m || m == n) }
    ensures taken_out { (w n m : ℕ) → 1 ≤ n → n ≤ 64 → 1 ≤ m → m ≤ 64
        → has_number (without_number w n) m ≡ (has_number w m && not (m == n)) }
    ensures holdable { (w n : ℕ) → 1 ≤ n → n ≤ 64
        → has_number (holdable_word w) n ≡ (has_number w n && not (n == 9) && not (n == 23)) }
{}

/// Sets over a table of so many entries that have the same numbers are the same.
pub fn set_is_its_members()
    ensures { (entries a b : ℕ) → a < 2 ^ entries → b < 2 ^ entries
        → ((n : ℕ) → 1 ≤ n → n ≤ entries → has_number a n ≡ has_number b n) → a ≡ b }
{}

/// A word is a set exactly where it has no number beyond its table, and then it is the set's word.
pub fn words_of_sets()
    ensures accepted { (entries w : ℕ) → IsSome (set_of_word entries w) ↔ ((n : ℕ) → entries < n → has_number w n ≡ false) }
    ensures back { (entries w set : ℕ) → set_of_word entries w ≡ Some set → set ≡ w }
{}

/// The least entry of a set is in it, and no entry below it is.
pub fn least_entries<T: Numbered>()
    ensures member { (w : ℕ) (least : T) → least_entry T.number_of T.table w ≡ Some least
        → has_number w (T.number_of least) ≡ true }
    ensures least { (w : ℕ) (least : T) → least_entry T.number_of T.table w ≡ Some least → (n : ℕ) → 1 ≤ n → n < T.number_of least
        → has_number w n ≡ false }
{
    // the call tells that their numbers count up
    let _ = T::entries();
}

/// One flag is one number of its word, so that the laws of sets are those of flags.
pub fn flags_are_members()
    ensures { (w n : ℕ) → 1 ≤ n → has_flags w (2 ^ (n - 1)) ≡ has_number w n }
{}

/// The words of the modes.
pub fn words_of_modes() -> [u64; 4]
    ensures { result ≡ fork_mode ∷ rlc_mode ∷ klc_mode ∷ async_mode ∷ [] }
{
    [
        Modes::FORK.word(),
        Modes::RLC.word(),
        Modes::KLC.word(),
        Modes::ASYNC.word(),
    ]
}

/// The words of the watch flags.
pub fn words_of_watch_flags() -> [u64; 4]
    ensures { result ≡ watch_read ∷ watch_write ∷ watch_exec ∷ watch_trap_after ∷ [] }
{
    [
        WatchFlags::READ.word(),
        WatchFlags::WRITE.word(),
        WatchFlags::EXEC.word(),
        WatchFlags::TRAPAFTER.word(),
    ]
}

/// The words of the protections.
pub fn words_of_protections() -> [u64; 3]
    ensures { result ≡ prot_read ∷ prot_write ∷ prot_exec ∷ [] }
{
    [Prot::READ.word(), Prot::WRITE.word(), Prot::EXEC.word()]
}

/// The words of the run flags.
pub fn words_of_run_flags() -> [u64; 5]
    ensures { result ≡ clear_signal ∷ clear_fault ∷ single_step ∷ abort_call ∷ stop_again ∷ [] }
{
    [
        RunFlags::CSIG.word(),
        RunFlags::CFAULT.word(),
        RunFlags::STEP.word(),
        RunFlags::SABORT.word(),
        RunFlags::STOP.word(),
    ]
}

/// The words of the flags of a process.
pub fn words_of_process_flags() -> [u64; 6]
    ensures { result ≡ fork_mode ∷ rlc_mode ∷ klc_mode ∷ async_mode ∷ issys_flag ∷ vforkp_flag ∷ [] }
{
    [
        ProcessFlags::FORK.word(),
        ProcessFlags::RLC.word(),
        ProcessFlags::KLC.word(),
        ProcessFlags::ASYNC.word(),
        ProcessFlags::ISSYS.word(),
        ProcessFlags::VFORKP.word(),
    ]
}

/// The words of the flags of an lwp.
pub fn words_of_lwp_flags() -> [u64; 6]
    ensures { result ≡ stopped_flag ∷ istop_flag ∷ dstop_flag ∷ step_flag ∷ asleep_flag ∷ agent_flag ∷ [] }
{
    [
        LwpFlags::STOPPED.word(),
        LwpFlags::ISTOP.word(),
        LwpFlags::DSTOP.word(),
        LwpFlags::STEP.word(),
        LwpFlags::ASLEEP.word(),
        LwpFlags::AGENT.word(),
    ]
}
