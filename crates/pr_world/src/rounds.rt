//! Who moves next, and how a world ends. Once the next call of each controller is made, that is told without memory.
ghost use Rattle.std.specs.Prelude.{◌≡◌, ◌<◌, ◌+◌, true, [], None, Some, drop, length, nat_lt, slice_get, option_map, if◌then◌else◌, IfOk, IsOk, OnOk, OnErr};
ghost use Rattle.pr_world.specs.Worlds.{actor_of, clock_if_awaited, ended_as, first_controller, first_scheduled, from_controller, from_lwp, in_rounds, next_actor, next_in_round, next_in_rounds, next_pick, picked, seen};

use crate::{End, World};
use pr_api::Kernel;
use pr_model::Actor;
use pr_num::NoMemory;

impl<Q: Kernel> World<Q> {
    /// The first controller from a number on that can move.
    #[tactic(auto, using(crate::proofs::SearchLemmas::searches), unfolding(crate::specs::Worlds::first_controller, crate::specs::Worlds::controller_acts, crate::specs::Worlds::can_act))]
    fn first_controller(&self, from: u32) -> Option<Actor>
        requires { self.now.made ≡ true }
        ensures { result ≡ first_controller (seen Q.view self.now) from }
    {
        for controller in from..self.controllers() {
            if self.controller_acts(controller) {
                return Some(Actor::Controller(controller));
            }
        }
        None
    }

    #[tactic(auto, unfolding(crate::specs::Worlds::clock_if_awaited, crate::specs::Worlds::can_act))]
    fn clock_if_awaited(&self) -> Option<Actor>
        requires { self.now.made ≡ true }
        ensures { result ≡ clock_if_awaited (seen Q.view self.now) }
    {
        if self.is_clock_awaited() {
            Some(Actor::Clock)
        } else {
            None
        }
    }

    /// Who moves next in a round after an lwp, or from the first lwp on: an lwp, or the clock.
    #[tactic(auto, unfolding(crate::specs::Worlds::from_lwp, crate::specs::Worlds::first_lwp))]
    #[inline]
    pub fn from_lwp(&self, after: Option<(u32, u32)>) -> Option<Actor>
        requires { self.now.made ≡ true }
        ensures { result ≡ from_lwp (seen Q.view self.now) after }
    {
        match self.kern.next_lwp(after, true) {
            Some((pid, lwp)) => Some(Actor::Lwp(pid, lwp)),
            None => self.clock_if_awaited(),
        }
    }

    /// Who moves next in a round from a controller on.
    #[tactic(auto, unfolding(crate::specs::Worlds::from_controller))]
    fn from_controller(&self, controller: u32) -> Option<Actor>
        requires { self.now.made ≡ true }
        ensures { result ≡ from_controller (seen Q.view self.now) controller }
    {
        match self.first_controller(controller) {
            Some(actor) => Some(actor),
            None => self.from_lwp(None),
        }
    }

    /// Who moves next in the round in which an actor was picked last.
    #[tactic(auto, using(crate::proofs::SearchLemmas::rounds), unfolding(crate::specs::Worlds::next_in_round))]
    fn next_in_round(&self) -> Option<Actor>
        requires { self.now.made ≡ true }
        ensures { result ≡ next_in_round (seen Q.view self.now) self.now.last }
    {
        match self.last {
            None | Some(Actor::Clock) => None,
            Some(Actor::Controller(controller)) => match controller.checked_add(1) {
                Some(next) => self.from_controller(next),
                None => self.from_lwp(None),
            },
            Some(Actor::Lwp(pid, lwp)) => self.from_lwp(Some((pid, lwp))),
        }
    }

    /// Who moves next in the rounds.
    #[tactic(auto, unfolding(crate::specs::Worlds::next_in_rounds))]
    fn next_in_rounds(&self) -> Option<Actor>
        requires { self.now.made ≡ true }
        ensures { result ≡ next_in_rounds (seen Q.view self.now) }
    {
        match self.next_in_round() {
            Some(actor) => Some(actor),
            None => self.from_controller(0),
        }
    }

    /// Picks the first actor of the schedule that can move. It is spent then, and so are those before it.
    #[tactic(auto, using(crate::proofs::ScheduleLemmas::schedules), unfolding(crate::specs::Worlds::with_pick))]
    fn pick_scheduled(&mut self) -> Option<Actor>
        requires { self.old.made ≡ true }
        ensures value { result ≡ option_map actor_of (first_scheduled (seen Q.view self.old) self.old.schedule) }
        ensures place { seen Q.view self.new
            ≡ picked (first_scheduled (seen Q.view self.old) self.old.schedule) (seen Q.view self.old) }
        ensures kernel { self.new.kernel ≡ self.old.kernel }
        ensures made { self.new.made ≡ true }
    {
        for place in 0..self.scheduled() {
            let actor = self.scheduled_at(place);
            if self.can_act(actor) {
                self.spend(place);
                return Some(actor);
            }
        }
        None
    }

    /// Picks who moves next in the rounds. The schedule is at its end then.
    #[tactic(auto, unfolding(crate::specs::Worlds::with_pick))]
    fn pick_in_rounds(&mut self) -> Option<Actor>
        requires { self.old.made ≡ true }
        ensures value { result ≡ next_in_rounds (seen Q.view self.old) }
        ensures place { seen Q.view self.new ≡ picked (option_map in_rounds result) (seen Q.view self.old) }
        ensures kernel { self.new.kernel ≡ self.old.kernel }
        ensures made { self.new.made ≡ true }
    {
        let next = self.next_in_rounds();
        if let Some(actor) = next {
            self.end_schedule(actor);
        }
        next
    }

    /// Picks who moves next, whose turn comes then: the first actor of the schedule that can move, where one is left,
    /// and then the next in the rounds. The place in the schedule, or in the round, moves on to that actor; where
    /// no actor can move it stays.
    #[tactic(auto, unfolding(crate::specs::Worlds::next_pick, crate::specs::Worlds::next_actor))]
    pub fn take_next(&mut self) -> Option<Actor>
        requires { self.old.made ≡ true }
        ensures value { result ≡ next_actor (seen Q.view self.old) }
        ensures place { seen Q.view self.new ≡ picked (next_pick (seen Q.view self.old)) (seen Q.view self.old) }
        ensures kernel { self.new.kernel ≡ self.old.kernel }
        ensures made { self.new.made ≡ true }
    {
        match self.pick_scheduled() {
            Some(actor) => Some(actor),
            None => self.pick_in_rounds(),
        }
    }

    /// The same where calls are still to be made: it makes them first.
    pub fn pick(&mut self) -> Result<Option<Actor>, NoMemory>
        ensures value { IfOk result (λ next. next ≡ next_actor (seen Q.view self.old)) }
        ensures place { OnOk result (seen Q.view self.new ≡ picked (next_pick (seen Q.view self.old)) (seen Q.view self.old)) }
        ensures kernel { self.new.kernel ≡ self.old.kernel }
        ensures made { OnOk result (self.new.made ≡ true) }
        ensures err { OnErr result (self.new ≡ self.old) }
        ensures sure { self.old.made ≡ true → IsOk result }
    {
        self.make_calls()?;
        Ok(self.take_next())
    }

    /// How the world has ended: `None` exactly where an actor can move and a place of the history is free.
    pub fn end(&self) -> Option<End>
        requires { self.now.made ≡ true }
        ensures { result ≡ ended_as (seen Q.view self.now) }
    {
        if self.next_in_rounds().is_some() {
            return self.spent_places();
        }
        if self.all_finished() {
            Some(End::Quiet)
        } else {
            Some(End::Stuck)
        }
    }

    /// The same where calls are still to be made: it makes them first.
    pub fn ended(&mut self) -> Result<Option<End>, NoMemory>
        ensures value { IfOk result (λ end. end ≡ ended_as (seen Q.view self.old)) }
        ensures made { OnOk result (self.new ≡ record self.old { made = true }) }
        ensures err { OnErr result (self.new ≡ self.old) }
        ensures sure { self.old.made ≡ true → IsOk result }
    {
        self.make_calls()?;
        Ok(self.end())
    }

    /// How a world has ended in which an actor can move: all places are taken, or it goes on.
    fn spent_places(&self) -> Option<End>
        ensures { result
            ≡ (if nat_lt (length (Q.view self.now.kernel).history)
            (Q.view self.now.kernel).places then None else Some End.Spent) }
    {
        if self.kern.entries() < self.kern.places() {
            None
        } else {
            Some(End::Spent)
        }
    }
}

impl<Q> World<Q> {
    /// How many actors are left of the schedule.
    fn scheduled(&self) -> usize
        ensures { result ≡ length self.now.schedule }
    {
        self.schedule.len().saturating_sub(self.spent)
    }

    fn scheduled_at(&self, place: usize) -> Actor
        requires { place < length self.now.schedule }
        ensures { slice_get self.now.schedule place ≡ Some result }
    {
        self.schedule[self.spent + place]
    }

    /// The actors of the schedule up to a place are spent.
    fn spend(&mut self, place: usize)
        requires { place < length self.old.schedule }
        ensures { self.new ≡ record self.old { schedule = drop (place + 1) self.old.schedule } }
    {
        let last = self.spent + place;
        self.spent = last + 1;
    }

    /// The schedule is at its end, and this actor was picked in the rounds.
    fn end_schedule(&mut self, actor: Actor)
        ensures { self.new ≡ record self.old { schedule = []; last = Some actor } }
    {
        self.spent = self.schedule.len();
        self.last = Some(actor);
    }
}
