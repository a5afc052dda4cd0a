//! Laws of cores. Each function does nothing: its clauses are what is proved.
ghost use Rattle.std.specs.Prelude.{◌≡◌, ◌≢◌, ◌↔◌, ◌<◌, ◌≤◌, ◌^◌, ◌++◌, ◌∷◌, ℕ, List, length, take, Ok, Err};
ghost use Rattle.std.specs.List.{All, flat_map};
ghost use Rattle.pr_num.specs.Records.{entries_words};
ghost use Rattle.pr_num.specs.Words.{IsByte, word_bytes, words_bytes};
ghost use Rattle.pr_rec.specs.RecordBytes.{psinfo_bytes, lstatus_bytes, sigact_bytes, map_bytes};
ghost use Rattle.pr_core.specs.CoreBytes.{core_bytes, core_version, section, psinfo_kind, lstatus_kind, sigact_kind, map_kind, fds_kind, memory_kind};
ghost use Rattle.pr_core.specs.CoreRanges.{EncodesCore, IsCore};
ghost use Rattle.pr_core.specs.CoreReading.{core_read};
ghost use Rattle.pr_core.specs.Cores.{CoreState, CoreWords, core_words};

use crate::CoreFault;

/// The bytes of a core are the version, the process's id, and the records of the process file system, each in a
/// section of its own, with the memory after them.
pub fn sections_are_records()
    ensures { (c : CoreState) → core_bytes c ≡ word_bytes core_version ++ word_bytes c.pid
        ++ section psinfo_kind (psinfo_bytes c.psinfo) ++ section lstatus_kind (lstatus_bytes c.lwps)
        ++ section sigact_kind (sigact_bytes c.sigact) ++ section map_kind (map_bytes c.maps)
        ++ section fds_kind (words_bytes (entries_words c.fds)) ++ flat_map (section memory_kind) c.memory }
{}

/// A core has one spelling: what is read is what was written, and two cores with the same bytes are the same.
pub fn a_core_has_one_spelling()
    ensures words { (bytes : List ℕ) (words : CoreWords) → All IsByte bytes → length bytes < 2 ^ 64
        → (core_read bytes ≡ Ok words) ↔ EncodesCore bytes words }
    ensures read { (c : CoreState) → IsCore c → length (core_bytes c) < 2 ^ 64
        → core_read (core_bytes c) ≡ Ok (core_words c) }
    ensures same { (c d : CoreState) → IsCore c → IsCore d → length (core_bytes c) < 2 ^ 64
        → core_bytes c ≡ core_bytes d → c ≡ d }
{}

/// Bytes that follow a core are refused where they begin.
pub fn what_follows_a_core_is_bad()
    ensures { (c : CoreState) (byte : ℕ) (more : List ℕ) → IsCore c → length (core_bytes c ++ byte ∷ more) < 2 ^ 64
        → core_read (core_bytes c ++ byte ∷ more) ≡ Err (CoreFault.Bad (length (core_bytes c))) }
{}

/// A core that is cut off is short, and the fault stands no further than the cut.
pub fn a_core_cut_off_is_short()
    ensures { (c : CoreState) (n : ℕ) → IsCore c → length (core_bytes c) < 2 ^ 64 → n < length (core_bytes c)
        → (at : ℕ) × ((at ≤ n) × (core_read (take n (core_bytes c)) ≡ Err (CoreFault.Short at))) }
{}

/// A fault names one of the bytes, save that what is cut off may begin where they end. Want of memory is no fault of
/// theirs.
pub fn a_fault_stands_in_the_bytes()
    ensures short { (bytes : List ℕ) (at : ℕ) → core_read bytes ≡ Err (CoreFault.Short at) → at ≤ length bytes }
    ensures bad { (bytes : List ℕ) (at : ℕ) → core_read bytes ≡ Err (CoreFault.Bad at) → at < length bytes }
    ensures memory { (bytes : List ℕ) → core_read bytes ≢ Err CoreFault.NoMemory }
{}
