//! A law of the rounds. The function does nothing: its clauses are what is proved.
ghost use Rattle.std.specs.Prelude.{◌≡◌};
ghost use Rattle.std.specs.Option.{option_or};
ghost use Rattle.pr_scen.specs.Scripts.{ScriptState, next_call_of};
ghost use Rattle.pr_world.specs.Worlds.{next_in_rounds};
ghost use Rattle.pr_drive.specs.Exchanges.{wait_of};
ghost use Rattle.pr_drive.specs.Going.{outside_of, world_of};
ghost use Rattle.pr_drive.specs.Rounds.{RoundsState, first_place, last_at, next_from, next_left};
ghost use Rattle.pr_drive.specs.Scripted.{IsBefore, beside, outside_if};

/// The outside's turn in a round is that of one more controller of a run, behind those of the scenario: next is who is
/// left in the round; then a script in the outside's place, where its call is ready; and then who comes first in a
/// whole round.
#[tactic(auto, using(crate::proofs::TurnLemmas::turns))]
pub fn the_outside_has_its_turn_behind_the_controllers()
    ensures next { (script : ScriptState) (r : RoundsState) → IsBefore (outside_of r.seats) r.place
        → next_in_rounds (beside script r.seats (last_at (outside_of r.seats) r.place))
        ≡ option_or (next_left (wait_of (next_call_of script)) r) (option_or (outside_if script r.seats)
        (next_from (world_of (wait_of (next_call_of script)) r.seats) first_place)) }
{}
