ghost use Rattle.std.specs.Prelude.{◌≡◌, ◌∷◌, ℕ, true, List, []};
ghost use Rattle.pr_line.specs.declared.options.Options.{Options};
ghost use Rattle.pr_model.specs.declared.calls.Reply.{Reply};
ghost use Rattle.pr_truss.specs.Marks.{has_functions};
ghost use Rattle.pr_truss.specs.Trusses.{first_truss};
ghost use Rattle.pr_truss.specs.declared.reports.Report.TheVariants.{Called};
ghost use Rattle.pr_function_laws.specs.Calls.{after_replies, call_told};
ghost use Rattle.pr_function_laws.specs.Met.{IsTrapped, TellsItsCalls, WasMet};

/// A call of a function is told only where a reply before told that the lwp stands at the breakpoint of that function,
/// with the arguments of the call in r1 to r3; and the reply itself tells that this lwp stands at a trace trap. This is
/// so whatever the replies are.
#[tactic(auto, using(crate::proofs::Marks::MetLemmas::mets))]
pub fn each_call_told_was_met_at_its_breakpoint()
    ensures met { (o : Options) (replies : List Reply) (r : Reply) (pid lwp function : ℕ) (arguments : List ℕ)
        → call_told (after_replies (first_truss o) replies) r ≡ Called pid lwp function arguments ∷ []
        → WasMet o replies lwp function arguments }
    ensures trapped { (o : Options) (replies : List Reply) (r : Reply) (pid lwp function : ℕ) (arguments : List ℕ)
        → call_told (after_replies (first_truss o) replies) r ≡ Called pid lwp function arguments ∷ []
        → IsTrapped r lwp }
{}

/// Truss reports the calls of which its replies tell, in their order, each of which was met so.
#[tactic(auto, using(crate::proofs::Marks::MetLemmas::mets))]
pub fn the_calls_reported_were_met()
    ensures { (o : Options) (replies : List Reply) → has_functions o ≡ true → TellsItsCalls o replies }
{}
