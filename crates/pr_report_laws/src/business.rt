ghost use Rattle.std.specs.Prelude.{ℕ, List};
ghost use Rattle.pr_line.specs.declared.options.Options.{Options};
ghost use Rattle.pr_model.specs.State.{TracedState};
ghost use Rattle.pr_model.specs.declared.events.Entry.{Entry};
ghost use Rattle.pr_report_laws.specs.Asked.{
  AsksForItsLines,
  ReadsItsReplies,
  SelectsWhatIsNamed,
  TracesWhatIsAsked,
  WritesOneMessage,
};
ghost use Rattle.pr_report_laws.specs.Counted.{PrintsItsCounts};
ghost use Rattle.pr_report_laws.specs.HeldRefusals.{TellsNoRefusalOfWhatItHolds, TellsRefusalsOfOpens};
ghost use Rattle.pr_report_laws.specs.LaterSends.{SendsLittleLater};
ghost use Rattle.pr_report_laws.specs.LineReads.{ReadsForItsLines};
ghost use Rattle.pr_report_laws.specs.Looks.{LooksAtWhatItLeaves, LooksInPlace};
ghost use Rattle.pr_report_laws.specs.OwnFiles.{
  CallsItsFiles,
  ClosesAllThatEnded,
  ClosesControlsLast,
  ClosesNothingHeld,
  ClosesWhatItLeaves,
  PollsEachOnce,
};
ghost use Rattle.pr_report_laws.specs.OwnOpens.{OpensInPlace};
ghost use Rattle.pr_report_laws.specs.ShownOnce.{ShowsStopsOnce, ShowsWhatIsNew, ShowsWhatItReads};
ghost use Rattle.pr_report_laws.specs.SoonOpen.{PollsByItsFiles};
ghost use Rattle.pr_truss.specs.Trusses.{first_truss};
ghost use Rattle.pr_truss_laws.specs.Exchanges.{Exchange, Makes};
ghost use Rattle.pr_truss_laws.specs.Runs.{IsTrussRun};

/// In a legal history of a lawful state, in which a truss with nothing open makes its calls: each call of it that names
/// handles names files that it has open, and of the right kind. So none is refused with EBADF. No poll of it names a
/// file twice.
#[tactic(auto, using(crate::proofs::OwnFiles::CalledFiles::called))]
pub fn truss_calls_files_that_it_has_open()
    ensures calls { (n k : ℕ) (o : Options) (s : TracedState) (h : List Entry) → IsTrussRun n k o s h
        → CallsItsFiles k s h }
    ensures polls { (n k : ℕ) (o : Options) (s : TracedState) (h : List Entry) → IsTrussRun n k o s h
        → PollsEachOnce k h }
{}

/// In such a history truss closes no file of a process of which it has hold.
#[tactic(auto, using(crate::proofs::OwnFiles::KeptOpen::kept_open))]
pub fn truss_closes_nothing_that_it_has_hold_of()
    ensures { (n k : ℕ) (o : Options) (s : TracedState) (h : List Entry) → IsTrussRun n k o s h
        → ClosesNothingHeld k o s h }
{}

/// In such a history truss has no other file of a process open when it closes the control file of it.
#[tactic(auto, using(crate::proofs::OwnFiles::ControlsLast::controls_last))]
pub fn truss_closes_the_control_file_of_a_process_last()
    ensures { (n k : ℕ) (o : Options) (s : TracedState) (h : List Entry) → IsTrussRun n k o s h
        → ClosesControlsLast k s h }
{}

/// In such a history truss reads the status of a process, whole, right after a poll has named the process, of which it
/// has hold; and the statuses of its lwps, whole, right behind the granted wait of the opening, or, once truss was
/// interrupted and as long as it has hold of the process, right behind PCUNSET PR_FORK, behind which nothing else
/// comes, unless the reply tells that the process has ended.
#[tactic(auto, using(crate::proofs::Asking::LeavingLooks::left_looks))]
pub fn truss_looks_at_a_process_in_its_place()
    ensures places { (n k : ℕ) (o : Options) (s : TracedState) (h : List Entry) → IsTrussRun n k o s h
        → LooksInPlace k o s h }
    ensures leaves { (n k : ℕ) (o : Options) (s : TracedState) (h : List Entry) → IsTrussRun n k o s h
        → LooksAtWhatItLeaves k s h }
{}

/// In such a history truss opens a control file while it opens what it was given, before it has polled or was
/// interrupted; or, where it follows children, right after the read that told it of the child, of a process of which it
/// has hold and at a stop that is not old. Each other file of a process it opens right behind the file before it, whose
/// open was granted.
#[tactic(auto, using(crate::proofs::OwnFiles::PlacedOpens::placed_opens))]
pub fn truss_opens_each_file_in_its_place()
    ensures { (n k : ℕ) (o : Options) (s : TracedState) (h : List Entry) → IsTrussRun n k o s h
        → OpensInPlace k o s h }
{}

/// In such a history truss sends, once it has polled or a wait of it was interrupted, nothing but these: PCRUN; PCSET
/// PR_RLC right behind the granted open of the control file to which it goes; and, once it was interrupted, PCUNSET
/// PR_FORK to a process of which it has hold, which it sends at no other time. Nor does it wait for a stop then.
#[tactic(auto, using(crate::proofs::OwnFiles::SentLater::sent_later))]
pub fn truss_sends_little_once_it_has_polled()
    ensures { (n k : ℕ) (o : Options) (s : TracedState) (h : List Entry) → IsTrussRun n k o s h
        → SendsLittleLater k o s h }
{}

/// In such a history truss polls again, or has finished, after at most 38 calls, 12 more for each control file that it
/// has open, and as long as it has not polled 40 more for each process that its words name.
#[tactic(auto, using(crate::proofs::OwnFiles::SoonOpens::soon_by_files))]
pub fn truss_polls_soon_by_the_control_files_that_it_has_open()
    ensures { (n k : ℕ) (o : Options) (s : TracedState) (h : List Entry) → IsTrussRun n k o s h
        → PollsByItsFiles k o s h }
{}

/// In such a history, where a call of it to a process is refused with ENOENT, truss closes all files that it has of the
/// process before it calls anything else.
#[tactic(auto, using(crate::proofs::OwnFiles::EndedFiles::ended_files))]
pub fn truss_closes_all_that_it_has_of_what_has_ended()
    ensures { (n k : ℕ) (o : Options) (s : TracedState) (h : List Entry) → IsTrussRun n k o s h
        → ClosesAllThatEnded k s h }
{}

/// In such a history, where truss was interrupted and has looked at the lwps of a process for the last time, it closes
/// all files that it has of the process before it calls anything else; but that one read of its memory may come before,
/// or the calls that set a child free.
#[tactic(auto, using(crate::proofs::OwnFiles::LeftFiles::left_files))]
pub fn truss_closes_all_that_it_has_of_what_it_leaves()
    ensures { (n k : ℕ) (o : Options) (s : TracedState) (h : List Entry) → IsTrussRun n k o s h
        → ClosesWhatItLeaves k s h }
{}

/// In such a history truss shows what it reads, right then: in each entry nothing new of a process, whichever it is, or
/// one event more, which it reads in this entry. Between two that it shows of a process it sends PCRUN to the process.
/// Once no old stop of a process is left it shows what it reads of it and the options select.
#[tactic(auto, using(crate::proofs::Asking::ReadShown::shown_laws))]
pub fn truss_shows_what_it_reads_right_then_and_once()
    ensures read { (n k : ℕ) (o : Options) (s : TracedState) (h : List Entry) → IsTrussRun n k o s h
        → ShowsWhatItReads k o s h }
    ensures once { (n k : ℕ) (o : Options) (s : TracedState) (h : List Entry) → IsTrussRun n k o s h
        → ShowsStopsOnce k o s h }
    ensures selected { (n k : ℕ) (o : Options) (s : TracedState) (h : List Entry) → IsTrussRun n k o s h
        → ShowsWhatIsNew k o s h }
{}

/// With -c truss prints the lines of what was refused, and a table of the events that it has reported, each counted
/// once.
#[tactic(auto, using(crate::proofs::Asking::CountLaws::counts))]
pub fn truss_prints_what_it_has_counted()
    ensures { (o : Options) (xs : List Exchange) → Makes (first_truss o) xs → PrintsItsCounts o xs }
{}

/// In such a history truss does not say that it cannot trace a process of which it has hold, or gets hold in that
/// entry, but where it is refused an open of that process.
#[tactic(auto, using(crate::proofs::Asking::HeldRefused::held_refusals))]
pub fn truss_tells_no_refusal_of_what_it_has_hold_of()
    ensures { (n k : ℕ) (o : Options) (s : TracedState) (h : List Entry) → IsTrussRun n k o s h
        → TellsNoRefusalOfWhatItHolds k o s h }
{}

/// In such a history truss reports that it cannot trace a process where it is refused an open of that process, as long
/// as it is to open what it was given, or where PR_RLC is refused of a child whose control file it has just opened; by
/// no other call. So it reports no refusal of a process that it has let go, but of a new open of it.
#[tactic(auto, using(crate::proofs::Asking::RefusedOpens::refused_opens))]
pub fn truss_tells_refusals_of_what_it_opens()
    ensures { (n k : ℕ) (o : Options) (s : TracedState) (h : List Entry) → IsTrussRun n k o s h
        → TellsRefusalsOfOpens k o h }
{}

/// Where truss reads the memory of a process, the last event that it has reported is one of that process, its line asks
/// for just this memory, and the last call of truss read the event.
#[tactic(auto, using(crate::proofs::Asking::MemoryAsked::line_reads))]
pub fn truss_reads_memory_for_its_lines()
    ensures { (n k : ℕ) (o : Options) (s : TracedState) (h : List Entry) → IsTrussRun n k o s h
        → ReadsForItsLines k o s h }
{}

/// What truss has traced is what the options ask for, bit by bit: the calls, signals and faults that they choose, and
/// with -f fork and vfork. Each write of it is one message. The memory that it asks for is that of the line of the
/// event, and the text is what came of it. The lwps of a status it reads as they were written.
#[tactic(auto, using(crate::proofs::Asking::AskedLaws::asked))]
pub fn truss_traces_writes_and_asks_for_no_more_than_it_is_asked()
    ensures traces { (o : Options) → TracesWhatIsAsked o }
    ensures writes { WritesOneMessage }
    ensures reads { (o : Options) → AsksForItsLines o }
    ensures replies { ReadsItsReplies }
{}

/// What truss shows, or counts with -c, is what its options name: the signals of -s, the faults of -m, and of the calls
/// of -t exit and lwp_exit as they are entered, and each other one as it ends. A fork or vfork that gives 0 it does not
/// show: that is the child's stop at its birth (fork(2), vfork(2)).
#[tactic(auto, using(crate::proofs::Asking::SelectedLaws::selecting))]
pub fn truss_selects_what_its_options_name()
    ensures { (o : Options) → SelectsWhatIsNamed o }
{}
