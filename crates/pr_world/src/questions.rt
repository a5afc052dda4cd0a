//! Who can move, and which controllers have finished. A question takes no memory once the next call of each controller
//! is made.
ghost use Rattle.std.specs.Prelude.{◌≡◌, ◌<◌, true, All, length, map, slice_get, IfOk, IsOk, OnErr, OnOk};
ghost use Rattle.std.specs.Option.{ForSome};
ghost use Rattle.std.specs.List.{list_all, list_any};
ghost use Rattle.pr_world.specs.Callers.{IsMade, core_in};
ghost use Rattle.pr_world.specs.Controllers.{awaits_clock, call_by, has_finished, is_clock_awaited};
ghost use Rattle.pr_world.specs.Worlds.{all_finished, can_act, is_answered, seen};

use crate::World;
use crate::callers::Caller;
use pr_api::Kernel;
use pr_model::Actor;
use pr_num::NoMemory;
use pr_num::limits::CLOCK_LIMIT;
use std::alloc::Global;

/// Makes the next call of each of these controllers where it is not made.
#[tactic(auto, using(crate::proofs::CallerLemmas::calls))]
fn make_calls(alloc: Global, callers: &mut [Caller]) -> Result<(), NoMemory>
    ensures cores { map core_in callers.new ≡ map core_in callers.old }
    ensures made { OnOk result (All IsMade callers.new) }
{
    for caller in callers.iter_mut() {
        caller.make_next(alloc)?;
    }
    Ok(())
}

/// Whether one of these controllers waits for a moment that is still to come.
#[tactic(auto, using(crate::proofs::CallerLemmas::cores))]
fn some_awaits_clock(clock: u64, callers: &[Caller]) -> bool
    requires { All IsMade callers.now }
    ensures { result ≡ list_any (awaits_clock clock) (map core_in callers.now) }
{
    for caller in callers {
        if caller.awaits_clock(clock) {
            return true;
        }
    }
    false
}

#[tactic(auto, using(crate::proofs::CallerLemmas::cores))]
fn all_finished(callers: &[Caller]) -> bool
    requires { All IsMade callers.now }
    ensures { result ≡ list_all has_finished (map core_in callers.now) }
{
    for caller in callers {
        if !caller.has_finished() {
            return false;
        }
    }
    true
}

impl<Q> World<Q> {
    /// Makes the next call of each controller where it is not made. Until a controller moves again, no question about
    /// the world takes memory then.
    pub fn make_calls(&mut self) -> Result<(), NoMemory>
        ensures made { OnOk result (self.new ≡ record self.old { made = true }) }
        ensures err { OnErr result (self.new ≡ self.old) }
        ensures sure { self.old.made ≡ true → IsOk result }
    {
        if !self.made {
            make_calls(self.alloc, self.callers.as_mut_slice())?;
            self.made = true;
        }
        Ok(())
    }

    /// Whether a controller has finished: it has no next call.
    #[tactic(auto, using(crate::proofs::CallerLemmas::cores))]
    pub fn is_finished(&self, controller: u32) -> bool
        requires made { self.now.made ≡ true }
        requires controller { controller < length self.now.controllers }
        ensures { ForSome (slice_get self.now.controllers controller) (λ core. result ≡ has_finished core) }
    {
        self.callers[controller as usize].has_finished()
    }

    /// The same where calls are still to be made: it makes them first.
    pub fn finished(&mut self, controller: u32) -> Result<bool, NoMemory>
        requires { controller < length self.old.controllers }
        ensures value { IfOk result
            (λ finished. ForSome (slice_get self.old.controllers controller) (λ core. finished ≡ has_finished core)) }
        ensures made { OnOk result (self.new ≡ record self.old { made = true }) }
        ensures err { OnErr result (self.new ≡ self.old) }
        ensures sure { self.old.made ≡ true → IsOk result }
    {
        self.make_calls()?;
        Ok(self.is_finished(controller))
    }
}

impl<Q: Kernel> World<Q> {
    /// Whether a controller can move: its next call is ready.
    #[tactic(auto, using(crate::proofs::CallerLemmas::cores), unfolding(crate::specs::Controllers::call_by))]
    pub(crate) fn controller_acts(&self, controller: u32) -> bool
        requires { self.now.made ≡ true }
        ensures { result ≡ is_answered (Q.view self.now.kernel) controller (call_by self.now.controllers controller) }
    {
        if controller as usize >= self.callers.len() {
            return false;
        }
        self.callers[controller as usize].can_move(&self.kern, controller)
    }

    /// Whether an actor waits for the clock: an lwp in the call sleep, or a controller.
    #[tactic(auto, unfolding(crate::specs::Controllers::is_clock_awaited))]
    pub(crate) fn is_clock_awaited(&self) -> bool
        requires { self.now.made ≡ true }
        ensures { result
            ≡ is_clock_awaited (Q.view self.now.kernel).clock
            (Q.view self.now.kernel).has_sleeper self.now.controllers }
    {
        let clock = self.kern.clock();
        if clock >= CLOCK_LIMIT {
            return false;
        }
        // The controllers are few, and are asked before all lwps are gone over.
        if some_awaits_clock(clock, self.callers.as_slice()) {
            return true;
        }
        self.kern.sleeper()
    }

    /// Whether an actor can move: a controller whose next call is ready, an lwp that can have a turn, and the clock
    /// where an lwp or a controller waits for it. An actor that there is not cannot.
    #[tactic(auto, unfolding(crate::specs::Worlds::can_act))]
    pub fn can_act(&self, actor: Actor) -> bool
        requires { self.now.made ≡ true }
        ensures { result ≡ can_act (seen Q.view self.now) actor }
    {
        match actor {
            Actor::Controller(controller) => self.controller_acts(controller),
            Actor::Lwp(pid, lwp) => self.kern.lwp_movable(pid, lwp),
            Actor::Clock => self.is_clock_awaited(),
        }
    }

    /// The same where calls are still to be made: it makes them first.
    pub fn movable(&mut self, actor: Actor) -> Result<bool, NoMemory>
        ensures value { IfOk result (λ acts. acts ≡ can_act (seen Q.view self.old) actor) }
        ensures made { OnOk result (self.new ≡ record self.old { made = true }) }
        ensures err { OnErr result (self.new ≡ self.old) }
        ensures sure { self.old.made ≡ true → IsOk result }
    {
        self.make_calls()?;
        Ok(self.can_act(actor))
    }

    /// Whether all controllers have finished.
    #[tactic(auto, unfolding(crate::specs::Worlds::all_finished))]
    pub(crate) fn all_finished(&self) -> bool
        requires { self.now.made ≡ true }
        ensures { result ≡ all_finished (seen Q.view self.now) }
    {
        all_finished(self.callers.as_slice())
    }
}
