//! Laws of the open handles. Each function does nothing: its clauses are what is proved.
ghost use Rattle.std.specs.Prelude.{◌≡◌, ℕ, List, Option, Some, None, Ok, slice_set};
ghost use Rattle.pr_model.specs.State.{nothing_open};
ghost use Rattle.pr_model.specs.declared.handles.Held.{Held};
ghost use Rattle.pr_open.specs.Exclusion.{AreExclusive};
ghost use Rattle.pr_open.specs.Opening.{open_answer};

/// Handles that are open for writing exclusively are alone, whatever is opened and closed.
pub fn exclusive_handles_stay_alone()
    ensures first { AreExclusive nothing_open }
    ensures opened { (places : List (Option Held)) (h : Held) (number : ℕ) → AreExclusive places → open_answer h places ≡ Ok number
        → AreExclusive (slice_set places number (Some h)) }
    ensures closed { (places : List (Option Held)) (number : ℕ) → AreExclusive places
        → AreExclusive (slice_set places number None) }
{}
