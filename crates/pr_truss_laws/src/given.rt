ghost use Rattle.std.specs.Prelude.{List};
ghost use Rattle.pr_line.specs.declared.options.Options.{Options};
ghost use Rattle.pr_truss.specs.NextCalls.{next_call_of};
ghost use Rattle.pr_truss.specs.Trusses.{first_truss};
ghost use Rattle.pr_truss_laws.specs.Exchanges.{ClosesAll, Ends, Exchange, Makes, truss_after};
ghost use Rattle.pr_truss_laws.specs.Given.{IsHandled, IsHandledSoFar};

/// Truss has attached each process that it was given, in their order, or has reported its refusal, unless it was
/// interrupted before that opening was done; or it is at work on one still, and has begun none behind it. Then no call
/// of that opening was refused so far, or truss closes what it opened. A truss that has finished is at work on none.
/// This is so whatever it was replied.
#[tactic(auto, using(crate::proofs::GivenProcesses::GivenLemmas::given))]
pub fn each_given_process_is_handled()
    ensures so_far { (o : Options) (xs : List Exchange) → Makes (first_truss o) xs
        → IsHandledSoFar o (next_call_of (truss_after (first_truss o) xs)) o.program
        (truss_after (first_truss o) xs).reports xs }
    ensures finished { (o : Options) (xs : List Exchange) → Ends (first_truss o) xs
        → IsHandled o o.program (truss_after (first_truss o) xs).reports xs }
{}

/// A truss that has finished has closed each handle that it was given, whatever it was replied.
#[tactic(auto, using(crate::proofs::Files::ClosesLemmas::closings))]
pub fn each_handle_is_closed()
    ensures { (o : Options) (xs : List Exchange) → Ends (first_truss o) xs → ClosesAll xs }
{}
