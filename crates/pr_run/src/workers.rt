//! What the workers of a run on several threads do in a world.
ghost use Rattle.std.specs.Prelude.{◌≡◌, ◌+◌, ◌<◌, ◌≤◌, true, length, IfOk, OnErr};
ghost use Rattle.pr_run.specs.ManyRuns.{AsksMade, MakesTurn, is_done, is_finished, lwp_of, next_for, next_of_controller, next_on_processor};
ghost use Rattle.pr_world.specs.Worlds.{seen};

use pr_api::Kernel;
use pr_model::Actor;
use pr_num::NoMemory;
use pr_world::World;

/// A worker, by its number: those below `processors` share the processor, and behind them each controller has its own.
#[derive(Clone, Copy)]
pub struct Worker {
    pub processors: u32,
    pub number: u32,
}

/// What came of a worker's turn.
#[derive(Clone, Copy, Debug, PartialEq, Eq)]
pub enum Progress {
    /// An actor moved.
    Moved,
    /// None of those that it moves can move now.
    Idle,
    /// The worker has nothing more to do.
    Done,
}

/// Who a worker of the processor moves next: the first lwp after the one that it moved last, then the clock, and then
/// the first lwp of all.
#[tactic(auto, unfolding(crate::specs::ManyRuns::next_on_processor))]
fn next_on_processor<Q: Kernel>(world: &World<Q>, last: Option<(u32, u32)>) -> Option<Actor>
    requires { world.now.made ≡ true }
    ensures { result ≡ next_on_processor last (seen Q.view world.now) }
{
    match world.from_lwp(last) {
        Some(actor) => Some(actor),
        None => world.from_lwp(None),
    }
}

/// The controller of a number, if it can move.
#[tactic(auto, unfolding(crate::specs::ManyRuns::next_of_controller))]
fn next_of_controller<Q: Kernel>(world: &World<Q>, controller: u32) -> Option<Actor>
    requires { world.now.made ≡ true }
    ensures { result ≡ next_of_controller controller (seen Q.view world.now) }
{
    let actor = Actor::Controller(controller);
    if world.can_act(actor) {
        Some(actor)
    } else {
        None
    }
}

/// The lwp that an actor is.
fn lwp_of(actor: Actor) -> Option<(u32, u32)>
    ensures { result ≡ lwp_of actor }
{
    match actor {
        Actor::Lwp(pid, lwp) => Some((pid, lwp)),
        Actor::Controller(_) | Actor::Clock => None,
    }
}

impl Worker {
    /// Who it moves next, if anybody.
    #[tactic(auto, unfolding(crate::specs::ManyRuns::next_for))]
    fn next<Q: Kernel>(self, world: &World<Q>, last: Option<(u32, u32)>) -> Option<Actor>
        requires { world.now.made ≡ true }
        ensures { result ≡ next_for self.processors self.number last (seen Q.view world.now) }
    {
        if self.number < self.processors {
            next_on_processor(world, last)
        } else {
            next_of_controller(world, self.number - self.processors)
        }
    }

    /// Whether it moves a controller, and that has finished.
    fn is_finished<Q: Kernel>(self, world: &World<Q>) -> bool
        requires made { world.now.made ≡ true }
        requires number { self.number < self.processors + length world.now.controllers }
        ensures { result ≡ is_finished self.processors self.number (seen Q.view world.now) }
    {
        if self.number < self.processors {
            return false;
        }
        world.is_finished(self.number - self.processors)
    }

    /// Whether it has nothing more to do: the world has ended, or its controller has finished.
    fn is_done<Q: Kernel>(self, world: &World<Q>) -> bool
        requires made { world.now.made ≡ true }
        requires number { self.number < self.processors + length world.now.controllers }
        ensures { result ≡ is_done self.processors self.number (seen Q.view world.now) }
    {
        if self.is_finished(world) {
            return true;
        }
        world.end().is_some()
    }

    /// One turn, with at most one move. `last` is the lwp that the worker moved last. Where memory runs out, both are
    /// as they were: it is asked for the controllers' next calls at first, and in the move, and for no question. The
    /// worker looks first for who moves next, since how a world stands takes longer to find out: where somebody can
    /// move, it has ended only if its places are taken.
    pub fn make_turn<Q: Kernel>(
        self,
        world: &mut World<Q>,
        last: &mut Option<(u32, u32)>,
    ) -> Result<Progress, NoMemory>
        requires { self.number < self.processors + length world.old.controllers }
        ensures ok { IfOk result (λ progress. MakesTurn self.processors self.number last.old last.new
            (seen Q.view world.old) (seen Q.view world.new) progress) }
        ensures asked { IfOk result (λ progress. AsksMade progress world.new.made) }
        ensures err { OnErr result (seen Q.view world.new ≡ seen Q.view world.old) }
        ensures kept { OnErr result (last.new ≡ last.old) }
    {
        world.make_calls()?;
        let Some(actor) = self.next(world, *last) else {
            if self.is_done(world) {
                return Ok(Progress::Done);
            }
            return Ok(Progress::Idle);
        };
        if world.kernel().entries() >= world.kernel().places() {
            return Ok(Progress::Done);
        }
        world.turn(actor)?;
        *last = lwp_of(actor);
        Ok(Progress::Moved)
    }
}
