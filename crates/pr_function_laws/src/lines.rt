ghost use Rattle.std.specs.Prelude.{◌≡◌, ◌++◌, ◌≤◌, true, length, List};
ghost use Rattle.pr_line.specs.declared.options.Options.{Options};
ghost use Rattle.pr_model.specs.declared.calls.Reply.{Reply};
ghost use Rattle.pr_truss.specs.FunctionFeeding.{fed_functions};
ghost use Rattle.pr_truss.specs.Marks.{has_functions};
ghost use Rattle.pr_truss.specs.Trusses.{TrussState, first_truss};
ghost use Rattle.pr_function_laws.specs.Calls.{after_replies, call_told, calls_among, calls_told};

/// A reply adds to the calls of functions that truss reports the one of which it tells, if it tells of one, and else
/// leaves them as they are: a call is reported at the trace trap of its first instruction, never at its breakpoint, and
/// at no other reply. This is so whatever the reply is.
#[tactic(auto, using(crate::proofs::Marks::CallLemmas::told))]
pub fn each_reply_tells_at_most_one_call()
    ensures adds { (s : TrussState) (r : Reply) → has_functions s.options ≡ true
        → calls_among (fed_functions s r).reports ≡ calls_among s.reports ++ call_told s r }
    ensures one { (s : TrussState) (r : Reply) → length (call_told s r) ≤ 1 }
{}

/// The calls of functions that truss has reported are those of which its replies have told, each once and in the order
/// of the replies. This is so whatever it was replied.
#[tactic(auto, using(crate::proofs::Marks::CallLemmas::told))]
pub fn the_calls_reported_are_those_told()
    ensures { (o : Options) (rs : List Reply) → has_functions o ≡ true
        → calls_among (after_replies (first_truss o) rs).reports ≡ calls_told (first_truss o) rs }
{}
