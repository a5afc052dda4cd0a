//! What holds of histories in words.
ghost use Rattle.std.specs.Prelude.{◌≡◌, ◌↔◌, ◌⊎◌, true, false, ℕ, List, [], ◌∷◌, ◌++◌, ◌+◌, length, None, Option, Some, slice_get};
ghost use Rattle.pr_num.specs.ById.{IsRising, under};
ghost use Rattle.pr_model.specs.declared.calls.File.{File as AnyFile};
ghost use Rattle.pr_model.specs.declared.calls.Mode.{Mode as AnyMode};
ghost use Rattle.pr_model.specs.declared.events.Act.{Act as AnyAct};
ghost use Rattle.pr_model.specs.declared.events.Actor.{Actor as AnyActor};
ghost use Rattle.pr_model.specs.declared.events.Entry.{Entry as AnyEntry};
ghost use Rattle.pr_hist.specs.Acts.{ShowsSince, ends_itself, falls_asleep, goes_on, is_ended_by_another, is_made_by_another, is_own, is_there, stops_by_signal, stops_on_event, stops_on_request};
ghost use Rattle.pr_hist.specs.Charts.{row_text};
ghost use Rattle.pr_hist.specs.Drawings.{rows_from, rows_of, rows_text, sheet_of};
ghost use Rattle.pr_hist.specs.Entries.{text_of, words_of};
ghost use Rattle.pr_hist.specs.Laws.{NamesClosed, NamesOpened, OpenSince, StoodSince, is_stop, lanes_behind, names_behind, opens_or_closes, stand_behind, stands};
ghost use Rattle.pr_hist.specs.Listings.{Listing as AnyListing};
ghost use Rattle.pr_hist.specs.Names.{Handles, Names, handles_after};
ghost use Rattle.pr_hist.specs.News.{known_at_start};
ghost use Rattle.pr_hist.specs.Processes.{LastMovedIn, TellsProgram, none_moves};
ghost use Rattle.pr_hist.specs.Selections.{is_told, selected_text};
ghost use Rattle.pr_hist.specs.declared.charts.Chart.{Chart as AnyChart};
ghost use Rattle.pr_hist.specs.declared.lanes.Lane.{Lane as AnyLane};
ghost use Rattle.pr_hist.specs.declared.lanes.Stand.{Stand as AnyStand};
ghost use Rattle.pr_hist.specs.declared.lanes.Stand.TheVariants.{Asleep, Ends, JobStopped, New, OnEvent, Requested, Runs};
ghost use Rattle.pr_hist.specs.declared.names.Known.{Known as AnyKnown};
ghost use Rattle.pr_hist.specs.declared.selections.Selection.{Selection as AnySelection};

/// A history of one entry more has one block more, at its end: so there is a block for each entry, in their order. The
/// block is that of the entry's number, and of what is known before it.
#[tactic(auto, using(crate::proofs::HistoryLaws::growing_text))]
pub fn a_text_grows_by_a_block()
    ensures none { (names : Names) → text_of names [] ≡ [] }
    ensures longer { (names : Names) (es : List AnyEntry) (e : AnyEntry)
        → text_of names (es ++ e ∷ []) ≡ text_of names es ++ words_of false (length es) (names_behind names 0 es) e }
{}

/// A part of a history of one entry more has one block more, at its end, if that entry is told, and else none more. The
/// block is that of the entry's number in the whole history, and of what is known before it by all entries, whether
/// these are told or not.
pub fn a_part_grows_by_the_blocks_that_are_told()
    ensures none { (s : AnySelection) (names : Names) → selected_text s names [] ≡ [] }
    ensures told { (s : AnySelection) (names : Names) (es : List AnyEntry) (e : AnyEntry)
        → is_told s (length es) (names_behind names 0 es) e ≡ true
        → selected_text s names (es ++ e ∷ [])
        ≡ selected_text s names es ++ words_of s.full (length es) (names_behind names 0 es) e }
    ensures left_out { (s : AnySelection) (names : Names) (es : List AnyEntry) (e : AnyEntry)
        → is_told s (length es) (names_behind names 0 es) e ≡ false
        → selected_text s names (es ++ e ∷ []) ≡ selected_text s names es }
{}

/// A chart of one entry more has one row more, below the others, if that entry is told, and else none more. The row is
/// that of the entry's number in the whole history, of what is known before it by all entries, whether these are told
/// or not, and of how lanes stand behind it. What stands above the rows counts them, whatever processes run at first.
pub fn a_chart_grows_by_the_rows_that_are_told()
    ensures none { (c : AnyChart) (s : AnySelection) (names : Names) (lanes : List AnyLane)
        → rows_text c s 0 0 names lanes [] ≡ [] }
    ensures told { (c : AnyChart) (s : AnySelection) (names : Names) (lanes : List AnyLane)
        (es : List AnyEntry) (e : AnyEntry)
        → is_told s (length es) (names_behind names 0 es) e ≡ true
        → rows_text c s 0 0 names lanes (es ++ e ∷ []) ≡ rows_text c s 0 0 names lanes es
        ++ row_text (sheet_of c (rows_from s 0 0 names es) lanes) s.full (length es) (names_behind names 0 es)
        (lanes_behind lanes (es ++ e ∷ [])) e }
    ensures left_out { (c : AnyChart) (s : AnySelection) (names : Names) (lanes : List AnyLane)
        (es : List AnyEntry) (e : AnyEntry)
        → is_told s (length es) (names_behind names 0 es) e ≡ false
        → rows_text c s 0 0 names lanes (es ++ e ∷ []) ≡ rows_text c s 0 0 names lanes es }
    ensures no_row { (s : AnySelection) (names : Names) → rows_from s 0 0 names [] ≡ 0 }
    ensures one_row_more { (s : AnySelection) (names : Names) (es : List AnyEntry) (e : AnyEntry)
        → is_told s (length es) (names_behind names 0 es) e ≡ true
        → rows_from s 0 0 names (es ++ e ∷ []) ≡ rows_from s 0 0 names es + 1 }
    ensures no_row_more { (s : AnySelection) (names : Names) (es : List AnyEntry) (e : AnyEntry)
        → is_told s (length es) (names_behind names 0 es) e ≡ false
        → rows_from s 0 0 names (es ++ e ∷ []) ≡ rows_from s 0 0 names es }
    ensures counted { (s : AnySelection) (names : Names) (es : List AnyEntry)
        → names.handles ≡ [] → rows_of s es ≡ rows_from s 0 0 names es }
{}

/// A handle is named from the open that gave it to the close that was done, whatever happens to others.
pub fn handles_are_named_while_open()
    ensures opened { (names : Handles) (pid lwp : ℕ) (file : AnyFile) (mode : AnyMode) (h : ℕ)
        → NamesOpened names pid lwp file mode h }
    ensures closed { (names : Handles) (h : ℕ) → IsRising names → NamesClosed names h }
    // Any other act leaves all names as they are.
    ensures neither { (names : Handles) (a : AnyAct)
        → ((h : ℕ) → opens_or_closes a h ≡ false) → handles_after names a ≡ names }
    // Behind any entries a handle that was not open before them has the name that the last open of it gave.
    ensures since { (names : Names) (n : ℕ) (es : List AnyEntry) (h : ℕ) (k : AnyKnown)
        → IsRising names.handles → under h names.handles ≡ None
        → (under h (names_behind names n es).handles ≡ Some k) ↔ OpenSince h k es }
{}

/// A lane that shows nothing still at first shows that its lwp stands still exactly where one of the entries is a stop
/// of it, and none behind that is a turn of its own, or makes it anew, or ends it.
pub fn a_lane_stands_still_since_a_stop()
    ensures { (a : AnyActor) (s : AnyStand) (es : List AnyEntry) → stands s ≡ false
        → (stands (stand_behind a s es) ≡ true) ↔ StoodSince is_stop a es }
{}

/// A lane shows what last became of its lwp: it shows a mark exactly where an entry is one that the mark stands for,
/// and none behind it is a turn of its own, or makes it anew, or ends it; or where it showed the mark at first, and no
/// entry is such. The mark of its end it shows behind the one entry that ended it.
pub fn a_lane_shows_what_last_became_of_its_lwp()
    ensures on_event { ShowsSince OnEvent (is_own stops_on_event) }
    ensures requested { ShowsSince Requested (is_own stops_on_request) }
    ensures job_stopped { ShowsSince JobStopped (is_own stops_by_signal) }
    ensures asleep { ShowsSince Asleep (is_own falls_asleep) }
    ensures runs { ShowsSince Runs (is_own goes_on) }
    ensures made { ShowsSince New is_made_by_another }
    ensures ended { (a : AnyActor) (s : AnyStand) (es : List AnyEntry) (e : AnyEntry)
        → (stand_behind a s (es ++ e ∷ []) ≡ Ends) ↔ ((is_own ends_itself e a ≡ true)
        ⊎ ((is_ended_by_another e a ≡ true) × (is_there (stand_behind a s es) ≡ true))) }
{}

/// What is known of which program a process runs is what the last entry told that tells it, and at first what the
/// scenario says: process 1 runs the first program that it spawns, process 2 the second, and so on.
pub fn a_process_runs_what_entries_tell()
    ensures at_first { (listings : List AnyListing) (spawns : List ℕ) (i : ℕ)
        → under (i + 1) (known_at_start listings spawns).running ≡ slice_get spawns i }
    ensures rising { (listings : List AnyListing) (spawns : List ℕ)
        → IsRising (known_at_start listings spawns).running }
    ensures told { (names : Names) (n : ℕ) (es : List AnyEntry) (e : AnyEntry) (p : ℕ) (place : Option ℕ)
        → IsRising names.running → TellsProgram (names_behind names n es) e p place
        → under p (names_behind names n (es ++ e ∷ [])).running ≡ place }
    ensures untold { (names : Names) (n : ℕ) (es : List AnyEntry) (e : AnyEntry) (p : ℕ)
        → ((place : Option ℕ) → TellsProgram (names_behind names n es) e p place → ⊥)
        → under p (names_behind names n (es ++ e ∷ [])).running ≡ under p (names_behind names n es).running }
    ensures listings { (names : Names) (n : ℕ) (es : List AnyEntry)
        → (names_behind names n es).listings ≡ names.listings }
{}

/// A process last moved in the last of the entries of its lwps; where there is none, in the one that was known before.
pub fn a_process_last_moved_in_the_last_entry_of_its_lwps()
    ensures { (names : Names) (es : List AnyEntry) (p number : ℕ)
        → (under p (names_behind names 0 es).moved ≡ Some number)
        ↔ (LastMovedIn p number es ⊎ ((under p names.moved ≡ Some number) × (none_moves p es ≡ true))) }
{}
