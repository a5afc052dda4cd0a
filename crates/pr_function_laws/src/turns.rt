ghost use Rattle.std.specs.Prelude.{◌≡◌, ◌<◌, ◌++◌, ◌∷◌, ℕ, List, [], length};
ghost use Rattle.pr_model.specs.State.{TracedState};
ghost use Rattle.pr_model.specs.declared.events.Entry.{Entry};
ghost use Rattle.pr_model.specs.declared.events.Turned.{Turned};
ghost use Rattle.pr_truss.specs.Trusses.{TrussState};
ghost use Rattle.pr_truss.specs.declared.reports.Report.{Report};
ghost use Rattle.pr_function_laws.specs.Turns.{AreTwoReads, HasOneTurn, HasTrap, ReadsAgain, TellsItsTurn, TellsOfLwp, call_of_stop, told_again};

/// A call of a function that truss tells is a turn of the machine. Where truss read that an lwp stands at a breakpoint,
/// and the next read of its process tells of a call, it is the call of the function at whose breakpoint the lwp stood;
/// and between the two reads the lwp had one turn alone, which completed the instruction at the address of that
/// function, with the arguments of the call in r1 to r3 before it.
pub fn a_call_told_is_the_one_turn_of_its_lwp()
    ensures { (n k : ℕ) (t : TrussState) (place status pid id : ℕ) (s : TracedState) (e : Entry) (between : List Entry)
        (again : Entry) (w : ReadsAgain n k t place status pid id s e between again) (report : Report)
        → told_again n k t place status pid id s e between again w ≡ report ∷ []
        → TellsItsTurn n k t place status pid id s e between again w report }
{}

/// A turn of the machine that completes the instruction at which the lwp stood, whose trace trap truss reads, is told:
/// where the lwp had such a turn between the two reads, and the second one tells of this lwp, it tells of the call.
pub fn a_turn_whose_trap_is_read_is_told()
    ensures { (n k : ℕ) (t : TrussState) (place status pid id : ℕ) (s : TracedState) (e : Entry) (between : List Entry)
        (again : Entry) (w : ReadsAgain n k t place status pid id s e between again) → HasTrap pid id between
        → TellsOfLwp w.y.reply id
        → told_again n k t place status pid id s e between again w
        ≡ call_of_stop n k t place status pid id s e between again w ∷ [] }
{}

/// Two calls of a process have two turns, in the order in which truss met their breakpoints: where it read an lwp at a
/// breakpoint, and later one at a breakpoint again, the turn between the first two reads comes before that between the
/// other two.
pub fn calls_have_their_turns_in_order()
    ensures { (n k : ℕ) (t : TrussState) (status pid : ℕ) (s : TracedState) (h : List Entry) (place id : ℕ)
        (front : List Entry) (e : Entry) (between : List Entry) (again : Entry) (later : List Entry)
        → AreTwoReads n k t place status pid id s front e between again later h → (place2 id2 : ℕ) (front2 : List Entry)
        (e2 : Entry) (between2 : List Entry) (again2 : Entry) (later2 : List Entry)
        → AreTwoReads n k t place2 status pid id2 s front2 e2 between2 again2 later2 h → length front < length front2
        → (before rest before2 rest2 : List Entry) (did did2 : Turned)
        → HasOneTurn pid id before did rest between → HasOneTurn pid id2 before2 did2 rest2 between2
        → length (front ++ e ∷ before) < length (front2 ++ e2 ∷ before2) }
{}
