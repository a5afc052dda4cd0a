//! Laws of worlds. Each function carries laws in its contract, and does nothing.
ghost use Rattle.std.specs.Prelude.{◌≡◌, ℕ, true, false, Some, None, length, is_some};
ghost use Rattle.pr_api.specs.Views.{IsLawful};
ghost use Rattle.pr_model.specs.declared.events.Actor.{Actor as AnyActor};
ghost use Rattle.pr_world.specs.Moves.{Moves};
ghost use Rattle.pr_world.specs.Runs.{CameFrom, IsFresh, RunsFor, TellsMachine, after_moves};
ghost use Rattle.pr_world.specs.Worlds.{WorldState, can_act, next_actor};

/// A move goes on from where a world came: whoever moves, each controller has made the calls that it makes after the
/// replies that it got, and over a machine that is told the history is legal and follows the protocol.
pub fn a_move_goes_on_from_where_a_world_came()
    ensures first { (first : WorldState) → CameFrom first first }
    ensures next { (first w v : WorldState) (actor : AnyActor) → IsLawful w.kernel → CameFrom first w → Moves w actor v
        → CameFrom first v }
{}

/// The same of a run, however many steps it makes.
pub fn a_run_is_legal_and_follows_the_protocol()
    ensures { (first w : WorldState) (n : ℕ) → IsLawful first.kernel → RunsFor n first w → CameFrom first w }
{}

/// Over a machine that is told, a run is a function of the world that it began with.
pub fn a_run_over_a_machine_is_a_function()
    ensures { (first w : WorldState) (n : ℕ) → TellsMachine first → RunsFor n first w → w ≡ after_moves n first }
{}

/// Who is next can move; where none is next, no actor can move.
pub fn next_is_who_can_move()
    ensures next { (w : WorldState) (actor : AnyActor) → next_actor w ≡ Some actor → can_act w actor ≡ true }
    ensures nobody { (w : WorldState) (actor : AnyActor) → IsLawful w.kernel → next_actor w ≡ None → can_act w actor ≡ false }
{}

/// A fresh world over a machine, in which an actor can move after so many moves, has made just so many entries.
pub fn each_move_is_an_entry()
    ensures { (first : WorldState) (n : ℕ) → TellsMachine first → IsFresh first
        → is_some (next_actor (after_moves n first)) ≡ true → length (after_moves n first).kernel.history ≡ n }
{}
