//! Places in a round of those who move beside the outside.
ghost use Rattle.std.specs.Prelude.{◌≡◌};
ghost use Rattle.pr_drive.specs.Rounds.{HasNumber, place_behind};

use pr_model::Actor;

/// Who is asked next in a round.
#[derive(Clone, Copy)]
pub enum Place {
    /// The lwps after this one, or all of them; then the clock, and the controllers.
    Lwps(Option<(u32, u32)>),
    /// The controllers from a number on.
    Controllers(u32),
}

/// The place behind an actor.
#[tactic(auto, unfolding(crate::specs::Rounds::place_behind))]
pub fn place_behind(actor: Actor) -> Place
    requires { HasNumber actor }
    ensures { result ≡ place_behind actor }
{
    match actor {
        Actor::Lwp(pid, lwp) => Place::Lwps(Some((pid, lwp))),
        Actor::Clock => Place::Controllers(0),
        Actor::Controller(number) => Place::Controllers(number + 1),
    }
}
