ghost use Rattle.std.specs.Prelude.{◌≡◌, ◌⊎◌, ℕ, true, false, None};
ghost use Rattle.pr_keeps.specs.RowKinds.{RowKind};
ghost use Rattle.pr_model.specs.LwpTurns.{is_held_back};
ghost use Rattle.pr_model.specs.Rows.{requested_row, row_for};
ghost use Rattle.pr_model.specs.Stops.{has_event_stop};
ghost use Rattle.pr_model.specs.State.{TracedLwp, TracedProcess, TracedSystem};

/// Whatever a turn of an lwp does is one of the rows.
pub fn turns_are_rows()
    ensures { (s : TracedSystem) (pid : ℕ) (p : TracedProcess) (id : ℕ) (l : TracedLwp)
        → RowKind s pid p id l (row_for s pid p id l) }
{}

/// An lwp of a process that has lent its memory has no turn but to stop as it is directed to (vfork(2)).
pub fn lenders_only_stop()
    ensures { (s : TracedSystem) (pid : ℕ) (p : TracedProcess) (id : ℕ) (l : TracedLwp) → is_held_back p id l ≡ false
        → (row_for s pid p id l ≡ requested_row) ⊎ (p.borrower ≡ None) }
{}

/// But that turn it has: an lwp that is directed to stop is not held back since its process has lent its memory.
pub fn directed_lenders_stop()
    ensures { (p : TracedProcess) (id : ℕ) (l : TracedLwp) → has_event_stop l ≡ false → l.suspended ≡ false
        → p.job_stop ≡ None → l.control.directed ≡ true → is_held_back p id l ≡ false }
{}
