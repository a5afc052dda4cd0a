ghost use Rattle.std.specs.Prelude.{◌≡◌, ◌≤◌, ◌<◌, ◌+◌, ◌^◌, ◌++◌, ◌∷◌, true, false, length, ℕ, List, Ok};
ghost use Rattle.pr_num.specs.Spaces.{IsSpace, Space, bytes_for};
ghost use Rattle.pr_parts.specs.AddressSpaces.{with_bytes};
ghost use Rattle.pr_hidden.specs.Covers.{Patch, patched};
ghost use Rattle.pr_hidden.specs.Sparing.{is_apart_from, is_spared};

/// A breakpoint that is planted is hidden: where a controller writes bytes over others, and notes those others as a
/// patch that has no byte in common with the patches there, programs have what they had.
#[tactic(auto, using(crate::proofs::PatchedSpaces::PatchLemmas::planted))]
pub fn bytes_written_where_a_patch_is_noted_are_hidden()
    ensures { (p : Patch) (patches : List Patch) (bytes : List ℕ) (space : Space) → is_apart_from p patches ≡ true
        → length bytes ≡ length p.bytes → with_bytes p.at p.bytes space ≡ space
        → patched (p ∷ patches) (with_bytes p.at bytes space) ≡ patched patches space }
{}

/// A breakpoint that is lifted leaves nothing: once the bytes of a patch are written back it is no patch any more, and
/// programs have what they had.
#[tactic(auto, using(crate::proofs::PatchedSpaces::PatchLemmas::lifted))]
pub fn what_is_written_back_is_no_patch()
    ensures { (before after : List Patch) (p : Patch) (space : Space) → is_apart_from p after ≡ true
        → patched (before ++ after) (with_bytes p.at p.bytes space) ≡ patched (before ++ p ∷ after) space }
{}

/// A store of which every byte is patched is hidden, as one by which an agent gets its answers.
#[tactic(auto, using(crate::proofs::PatchedSpaces::PatchLemmas::hides))]
pub fn stores_into_patches_are_hidden()
    ensures { (patches : List Patch) (at : ℕ) (bytes : List ℕ)
        → ((address : ℕ) → at ≤ address → address < at + length bytes → is_spared patches address ≡ false)
        → (space : Space)
        → patched patches (with_bytes at bytes space) ≡ patched patches space }
{}

/// What PCREAD reads of a space stands there: written back it changes nothing. So it can be noted as a patch.
#[tactic(auto, using(crate::proofs::PatchedSpaces::StandLemmas::stands))]
pub fn what_is_read_stands_there()
    ensures { (space : Space) (at : ℕ) (bytes : List ℕ) → IsSpace space → at + length bytes ≤ 2 ^ 64
        → bytes_for 0 space at (length bytes) ≡ Ok bytes → with_bytes at bytes space ≡ space }
{}
