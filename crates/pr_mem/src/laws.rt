ghost use Rattle.std.specs.Prelude.{◌≡◌, ℕ, Some, None};
ghost use Rattle.pr_num.specs.Spaces.{Space};
ghost use Rattle.pr_parts.specs.AddressSpaces.{gap_in};
ghost use Rattle.pr_mem.specs.Laws.{WritesEachByte, IsReadBack, IsLeastGap, HasNoGap};

// What shows that the definitions of writing and of gaps say what they mean. Each function carries laws in its
// contract, and does nothing.

/// What was written is read back, and bytes outside stay.
pub fn what_is_written_is_read()
    ensures bytes { (space : Space) → WritesEachByte space }
    ensures read_back { (space : Space) → IsReadBack space }
{}

/// A gap that is found is free, and the least; where none is found there is none.
pub fn a_gap_is_free_and_least()
    ensures found { (size : ℕ) (space : Space) (at : ℕ) → gap_in size space ≡ Some at → IsLeastGap size space at }
    ensures none { (size : ℕ) (space : Space) → gap_in size space ≡ None → HasNoGap size space }
{}
