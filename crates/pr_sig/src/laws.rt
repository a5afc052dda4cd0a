ghost use Rattle.std.specs.Prelude.{◌≡◌, ◌↔◌, ◌⊎◌, ◌^◌, ◌<◌, ◌==◌, ℕ, true, false, None, Some, IsNone, IsSome, is_some};
ghost use Rattle.pr_num.specs.Faults.{fault_signal};
ghost use Rattle.pr_num.specs.Signals.{signal_number, default_action};
ghost use Rattle.pr_num.specs.declared.faults.Flt.{Flt as AnyFault};
ghost use Rattle.pr_num.specs.declared.signals.DefAct.TheVariants as default;
ghost use Rattle.pr_num.specs.declared.signals.Sig.{Sig as AnySignal};
ghost use Rattle.pr_num.specs.declared.signals.Sig.TheVariants.{Cont};
ghost use Rattle.pr_num.specs.Infos.{fault_code};
ghost use Rattle.pr_num.specs.Limits.{signal_count};
ghost use Rattle.pr_num.specs.Sets.{has_number, minus_word, with_number, without_number};
ghost use Rattle.pr_num.specs.declared.infos.Info.{Info as AnyInfo};
ghost use Rattle.pr_parts.specs.PendingSignals.{Pending, IsPendings, is_standard, info_of, pending_set, added, without_one, without_signals};
ghost use Rattle.pr_parts.specs.SignalRules.{takeable_signal, stop_signals, deleted_by};

// What shows that the rules of signals mean what they say. Each function carries laws in its contract, and does
// nothing.

/// A signal that is taken is pending and not held.
pub fn taken_signals()
    ensures pending { (own shared held : ℕ) (s : AnySignal) → held < 2 ^ 64 → takeable_signal own shared held ≡ Some s
        → (has_number own (signal_number s) ≡ true) ⊎ (has_number shared (signal_number s) ≡ true) }
    ensures unheld { (own shared held : ℕ) (s : AnySignal) → held < 2 ^ 64 → takeable_signal own shared held ≡ Some s
        → has_number held (signal_number s) ≡ false }
{}

/// The stop signals are those whose default action is to stop their process; each of them deletes `SIGCONT` exactly
/// where that deletes it; no signal deletes itself; and no signal that a fault sends is deleted, whatever is generated.
pub fn stop_and_continue_delete_each_other()
    ensures stop_signals { (s : AnySignal) → (has_number stop_signals (signal_number s) ≡ true) ↔ (default_action s ≡ default.Stop) }
    ensures symmetric { (s : AnySignal)
        → has_number (deleted_by s) (signal_number Cont) ≡ has_number (deleted_by Cont) (signal_number s) }
    ensures never_itself { (s : AnySignal) → has_number (deleted_by s) (signal_number s) ≡ false }
    ensures faults { (s : AnySignal) (f : AnyFault) → has_number (deleted_by s) (signal_number (fault_signal f)) ≡ false }
{}

/// The set of the pending signals has those with an information or a pair, and it changes as they come and go.
pub fn pending_sets()
    ensures members { (p : Pending) (s : AnySignal) → has_number (pending_set p) (signal_number s) ≡ is_some (info_of s p) }
    ensures signals { (p : Pending) → pending_set p < 2 ^ signal_count }
    ensures added { (s : AnySignal) (i : AnyInfo) (p : Pending) → IsPendings p
        → pending_set (added s i p) ≡ with_number (pending_set p) (signal_number s) }
    ensures gone { (s : AnySignal) (p : Pending) → IsPendings p → IsNone (info_of s (without_one s p))
        → pending_set (without_one s p) ≡ without_number (pending_set p) (signal_number s) }
    ensures left { (s : AnySignal) (p : Pending) → IsPendings p → IsSome (info_of s (without_one s p))
        → pending_set (without_one s p) ≡ pending_set p }
    ensures deleted { (w : ℕ) (p : Pending) → w < 2 ^ 64 → pending_set (without_signals w p) ≡ minus_word (pending_set p) w }
{}

/// What came with a signal first stands, whatever else comes; but what comes of a fault replaces it. A standard signal
/// that is taken is pending no longer.
pub fn information_of_signals()
    ensures first { (s : AnySignal) (i : AnyInfo) (p : Pending) → IsPendings p → info_of s p ≡ None
        → info_of s (added s i p) ≡ Some i }
    ensures stays { (s : AnySignal) (i first : AnyInfo) (p : Pending) → IsPendings p → (i.code == fault_code) ≡ false
        → info_of s p ≡ Some first → info_of s (added s i p) ≡ Some first }
    ensures fault { (s : AnySignal) (i : AnyInfo) (p : Pending) → IsPendings p → is_standard s ≡ true → i.code ≡ fault_code
        → info_of s (added s i p) ≡ Some i }
    ensures taken { (s : AnySignal) (p : Pending) → IsPendings p → is_standard s ≡ true → IsNone (info_of s (without_one s p)) }
{}

/// A fault's signal may come before the deletion of others or after it.
pub fn early_signals()
    ensures { (t : AnySignal) (f : AnyFault) (i : AnyInfo) (p : Pending)
        → without_signals (deleted_by t) (added (fault_signal f) i p)
        ≡ added (fault_signal f) i (without_signals (deleted_by t) p) }
{}
