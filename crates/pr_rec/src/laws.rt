//! Laws of the records. Each function does nothing: its clauses are what is proved.
ghost use Rattle.std.specs.Prelude.{◌≡◌, ◌≤◌, ◌+◌, ◌*◌, ◌^◌, ◌<◌, ◌++◌, ℕ, Bool, List, Some, drop, length, replicate, slice_get, take};
ghost use Rattle.std.specs.List.{All};
ghost use Rattle.pr_num.specs.Limits.{signal_count};
ghost use Rattle.pr_num.specs.Faults.{fault_number};
ghost use Rattle.pr_num.specs.Signals.{signal_number};
ghost use Rattle.pr_num.specs.Syscalls.{syscall_number};
ghost use Rattle.pr_num.specs.declared.faults.Flt.{Flt};
ghost use Rattle.pr_num.specs.declared.signals.Sig.{Sig};
ghost use Rattle.pr_num.specs.declared.syscalls.Sysno.{Sysno};
ghost use Rattle.pr_num.specs.Records.{name_field, Range, EncodesRecord, usage_ranges, psinfo_ranges, map_entry_ranges, lwpstatus_ranges, status_ranges, watch_entry_ranges, fd_entry_ranges, list_entry_ranges, lwpstatus_size, lwpstatus_word_count};
ghost use Rattle.pr_num.specs.Words.{IsByte, word_of};
ghost use Rattle.pr_rec.specs.Fields.{lwp_flags_of, process_flags_of};
ghost use Rattle.pr_rec.specs.InRange.{HasArraySizes, IsNameField, IsLwpStatus, IsStatus, IsPsinfo, IsUsage, IsMapEntry, IsWatchEntry, IsFdEntry, IsListEntry};
ghost use Rattle.pr_rec.specs.NoLwp.{no_lwp};
ghost use Rattle.pr_rec.specs.Reading.{BeginsWith};
ghost use Rattle.pr_rec.specs.RecordBytes.{status_bytes, lwpstatus_bytes, lstatus_bytes, psinfo_bytes, map_bytes, usage_bytes, watch_bytes, fds_bytes, list_bytes};
ghost use Rattle.pr_rec.specs.RecordWords.{usage_words_of, psinfo_words_of, map_entry_words_of, lwpstatus_words_of, status_words_of, watch_entry_words_of, fd_entry_words_of, list_entry_words_of};
ghost use Rattle.pr_rec.specs.declared.entries.FdEntry.{FdEntry};
ghost use Rattle.pr_rec.specs.declared.entries.ListEntry.{ListEntry};
ghost use Rattle.pr_rec.specs.declared.entries.WatchEntry.{WatchEntry};
ghost use Rattle.pr_rec.specs.declared.lwp_flags.LwpMarks.{LwpMarks};
ghost use Rattle.pr_rec.specs.declared.lwps.LwpStatus.{LwpStatus};
ghost use Rattle.pr_rec.specs.declared.mappings.MapEntry.{MapEntry};
ghost use Rattle.pr_rec.specs.declared.processes.Psinfo.{Psinfo};
ghost use Rattle.pr_rec.specs.declared.statuses.Status.{Status};
ghost use Rattle.pr_rec.specs.declared.usages.Usage.{Usage};

/// The words of a record have one encoding, and bytes encode one record at most.
pub fn one_encoding_one_record()
    ensures encoding { (ranges : List Range) (a b words : List ℕ) → EncodesRecord ranges a words → EncodesRecord ranges b words
        → a ≡ b }
    ensures usage { (bytes : List ℕ) (x y : Usage) → EncodesRecord usage_ranges bytes (usage_words_of x)
        → EncodesRecord usage_ranges bytes (usage_words_of y) → x ≡ y }
    ensures psinfo { (bytes : List ℕ) (x y : Psinfo) → IsNameField x.program → IsNameField y.program
        → EncodesRecord psinfo_ranges bytes (psinfo_words_of x) → EncodesRecord psinfo_ranges bytes (psinfo_words_of y)
        → x ≡ y }
    ensures mapping { (bytes : List ℕ) (x y : MapEntry) → IsNameField x.name → IsNameField y.name
        → EncodesRecord map_entry_ranges bytes (map_entry_words_of x)
        → EncodesRecord map_entry_ranges bytes (map_entry_words_of y) → x ≡ y }
    ensures lwpstatus { (bytes : List ℕ) (x y : LwpStatus) → HasArraySizes x → HasArraySizes y
        → EncodesRecord lwpstatus_ranges bytes (lwpstatus_words_of x)
        → EncodesRecord lwpstatus_ranges bytes (lwpstatus_words_of y) → x ≡ y }
    ensures status { (bytes : List ℕ) (x y : Status) → HasArraySizes x.lwp → HasArraySizes y.lwp
        → EncodesRecord status_ranges bytes (status_words_of x) → EncodesRecord status_ranges bytes (status_words_of y)
        → x ≡ y }
{}

/// Of a record whose fields are in their ranges, its bytes begin with it, whatever follows them: so it is what `decode`
/// gives.
pub fn what_is_encoded_is_decoded()
    ensures status { (s : Status) (more : List ℕ) → IsStatus s
        → BeginsWith status_ranges (status_bytes s ++ more) (status_words_of s) }
    ensures lwpstatus { (l : LwpStatus) (more : List ℕ) → IsLwpStatus l
        → BeginsWith lwpstatus_ranges (lwpstatus_bytes l ++ more) (lwpstatus_words_of l) }
    ensures psinfo { (p : Psinfo) (more : List ℕ) → IsPsinfo p
        → BeginsWith psinfo_ranges (psinfo_bytes p ++ more) (psinfo_words_of p) }
    ensures usage { (u : Usage) (more : List ℕ) → IsUsage u → BeginsWith usage_ranges (usage_bytes u ++ more) (usage_words_of u) }
    ensures no_lwp { lwpstatus_words_of no_lwp ≡ replicate lwpstatus_word_count 0 }
{}

/// What a record's fields are filled with is in their ranges: flags of marks and of modes, what a stop is about, names,
/// and what stands for an lwp where there is none.
pub fn what_fills_records_is_in_range()
    ensures lwp_flags { (marks : LwpMarks) → lwp_flags_of marks < 2 ^ 6 }
    ensures process_flags { (modes : ℕ) (system lent : Bool) → modes < 2 ^ 4 → process_flags_of modes system lent < 2 ^ 6 }
    ensures signal { (s : Sig) → signal_number s < signal_count + 1 }
    ensures fault { (f : Flt) → fault_number f < signal_count + 1 }
    ensures call { (c : Sysno) → syscall_number c < signal_count + 1 }
    ensures name { (name : List ℕ) → length name ≤ 32 → All IsByte name → IsNameField (name_field name) }
    ensures no_lwp { IsLwpStatus no_lwp }
{}

/// The entries of a record that is a list stand one after the other, each as the bytes of its own record.
pub fn entries_stand_in_their_places()
    ensures number_of_lwps { (lwps : List LwpStatus) → length lwps < 2 ^ 64 → word_of (take 8 (lstatus_bytes lwps)) ≡ length lwps }
    ensures lwp { (lwps : List LwpStatus) (i : ℕ) (l : LwpStatus) → slice_get lwps i ≡ Some l → IsLwpStatus l
        → BeginsWith lwpstatus_ranges (drop (8 + lwpstatus_size * i) (lstatus_bytes lwps)) (lwpstatus_words_of l) }
    ensures mapping { (mappings : List MapEntry) (i : ℕ) (m : MapEntry) → slice_get mappings i ≡ Some m → IsMapEntry m
        → BeginsWith map_entry_ranges (drop (64 * i) (map_bytes mappings)) (map_entry_words_of m) }
    ensures area { (areas : List WatchEntry) (i : ℕ) (w : WatchEntry) → slice_get areas i ≡ Some w → IsWatchEntry w
        → BeginsWith watch_entry_ranges (drop (24 * i) (watch_bytes areas)) (watch_entry_words_of w) }
    ensures descriptor { (descriptors : List FdEntry) (i : ℕ) (d : FdEntry) → slice_get descriptors i ≡ Some d → IsFdEntry d
        → BeginsWith fd_entry_ranges (drop (64 * i) (fds_bytes descriptors)) (fd_entry_words_of d) }
    ensures process { (processes : List ListEntry) (i : ℕ) (p : ListEntry) → slice_get processes i ≡ Some p → IsListEntry p
        → BeginsWith list_entry_ranges (drop (48 * i) (list_bytes processes)) (list_entry_words_of p) }
    ensures lstatus_length { (lwps : List LwpStatus) → length (lstatus_bytes lwps) ≡ 8 + lwpstatus_size * length lwps }
    ensures map_length { (mappings : List MapEntry) → length (map_bytes mappings) ≡ 64 * length mappings }
    ensures watch_length { (areas : List WatchEntry) → length (watch_bytes areas) ≡ 24 * length areas }
    ensures fds_length { (descriptors : List FdEntry) → length (fds_bytes descriptors) ≡ 64 * length descriptors }
    ensures list_length { (processes : List ListEntry) → length (list_bytes processes) ≡ 48 * length processes }
{}
