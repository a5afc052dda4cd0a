//! A law of the definitions of watched areas. The function does nothing: its clauses are what is proved.
ghost use Rattle.std.specs.Prelude.{◌≡◌, ◌↔◌, ◌≤◌, ◌+◌, ◌^◌, ℕ, Bool, List, Some, None};
ghost use Rattle.pr_num.specs.declared.mappings.Area.{Area};
ghost use Rattle.pr_parts.specs.WatchedAreas.{hit_in};
ghost use Rattle.pr_watch.specs.Laws.{IsLeastWatched, IsUnwatched};

/// An access that does not wrap hits its least watched byte, and stops as the area that watches it says; it hits none
/// exactly where none of its bytes is watched.
pub fn a_hit_is_the_least_watched_byte()
    ensures found { (kind address size byte : ℕ) (after : Bool) (areas : List Area) → address + size ≤ 2 ^ 64
        → hit_in kind areas address size ≡ Some (byte, after) → IsLeastWatched kind areas address size byte after }
    ensures none { (kind address size : ℕ) (areas : List Area) → address + size ≤ 2 ^ 64
        → (hit_in kind areas address size ≡ None) ↔ IsUnwatched kind areas address size }
{}
