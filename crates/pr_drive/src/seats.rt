//! A kernel with the controllers of a scenario, beside which the outside has the number after theirs; and who of them
//! can move.
ghost use Rattle.std.specs.Prelude.{◌≡◌, ◌++◌, ◌<◌, ◌≤◌, ℕ, [], Some, true, false, is_some, length, map, slice_get, IfOk};
ghost use Rattle.std.specs.Prelude.{IfSome};
ghost use Rattle.std.specs.Prelude.{OnOk};
ghost use Rattle.std.specs.List.{list_all, list_any};
ghost use Rattle.std.specs.Option.{option_copied};
ghost use Rattle.pr_api.specs.Entries.{last_reply_of};
ghost use Rattle.pr_drive.specs.Exchanges.{is_answered_now, is_open, poll_of, polls_if, polls_of};
ghost use Rattle.pr_drive.specs.Going.{can_move, has_place, outside_of, world_of};
ghost use Rattle.pr_drive.specs.Rounds.{HasNumber, from_clock, from_lwps, next_from};
ghost use Rattle.pr_drive.specs.Starts.{first_seats};
ghost use Rattle.pr_model.specs.Calls.{answer_to};
ghost use Rattle.pr_num.specs.Limits.{controller_limit};
ghost use Rattle.pr_scen.specs.Scenarios.{IsWithinLimits};
ghost use Rattle.pr_world.specs.ControllerStates.{state_of};
ghost use Rattle.pr_world.specs.Controllers.{awaits_clock, call_by, has_finished};
ghost use Rattle.pr_world.specs.Worlds.{first_controller};

use crate::places::Place;
use crate::waits::wait_end_of;
use pr_actors::{Actors, actors_of};
use pr_asm::Program;
use pr_kern::Kern;
use pr_model::{Actor, Call, History, Reply};
use pr_num::limits::{CLOCK_LIMIT, HANDLE_LIMIT};
use pr_num::{Handles, NoMemory};
use pr_scen::Scenario;
use pr_world::Controller;
use std::alloc::Global;
use std::marker::Model;

/// A kernel and the controllers of a scenario.
#[derive(Drop)]
pub struct Seats {
    pub(crate) alloc: Global,
    pub(crate) kern: Kern,
    pub(crate) controllers: Vec<Controller>,
}

impl Model for Seats {
    ghost use Rattle.std.specs.Prelude.{◌<◌, length, map};
    ghost use Rattle.pr_drive.specs.Going.{SeatsState};
    ghost use Rattle.pr_num.specs.Limits.{controller_limit};
    ghost use Rattle.pr_world.specs.ControllerStates.{state_of};

    ghost Value = { SeatsState };

    ghost view = { λ a. record { kernel = a.kern; controllers = map state_of a.controllers.items } };

    ghost invariant = { λ a. length a.controllers.items < controller_limit };
}

/// The kernel and the controllers of a scenario before the first move, and who is to move first.
#[tactic(auto, using(pr_actors::proofs::ScenarioLemmas::scenarios), unfolding(crate::specs::Starts::first_seats))]
pub fn seats_of(alloc: Global, scenario: Scenario) -> Result<(Seats, Vec<Actor>), NoMemory>
    requires limits { IsWithinLimits scenario }
    requires few { length scenario.controllers < controller_limit }
    ensures seats { IfOk result (λ made. made.0 ≡ first_seats scenario) }
    ensures schedule { IfOk result (λ made. made.1.items ≡ scenario.schedule) }
{
    let Actors {
        kern,
        controllers,
        schedule,
    } = actors_of(alloc, scenario)?;
    let seats = Seats {
        alloc,
        kern,
        controllers,
    };
    Ok((seats, schedule))
}

/// Whether a controller waits for a moment that is still to come.
#[tactic(auto, unfolding(pr_world::specs::Controllers::awaits_clock))]
fn awaits_clock(alloc: Global, controller: &Controller, clock: u64) -> Result<bool, NoMemory>
    ensures { IfOk result (λ awaits. awaits ≡ awaits_clock clock (state_of controller.now)) }
{
    match controller.next_call(alloc)? {
        Some(call) => Ok(clock < wait_end_of(&call)),
        None => Ok(false),
    }
}

/// Whether a controller has finished: it makes no call any more.
#[tactic(auto, unfolding(pr_world::specs::Controllers::has_finished))]
fn has_finished(alloc: Global, controller: &Controller) -> Result<bool, NoMemory>
    ensures { IfOk result (λ finished. finished ≡ has_finished (state_of controller.now)) }
{
    Ok(controller.next_call(alloc)?.is_none())
}

/// Whether one of these controllers waits for a moment that is still to come.
#[tactic(auto, using(crate::proofs::SeatLemmas::seats))]
fn some_awaits(alloc: Global, controllers: &[Controller], clock: u64) -> Result<bool, NoMemory>
    ensures { IfOk result (λ some. some ≡ list_any (awaits_clock clock) (map state_of controllers.now)) }
{
    for controller in controllers {
        if awaits_clock(alloc, controller, clock)? {
            return Ok(true);
        }
    }
    Ok(false)
}

/// Whether all of these controllers have finished.
#[tactic(auto, using(crate::proofs::SeatLemmas::seats))]
fn have_finished(alloc: Global, controllers: &[Controller]) -> Result<bool, NoMemory>
    ensures { IfOk result (λ all. all ≡ list_all has_finished (map state_of controllers.now)) }
{
    for controller in controllers {
        if !has_finished(alloc, controller)? {
            return Ok(false);
        }
    }
    Ok(true)
}

/// A poll of one file.
fn poll_of(alloc: Global, handle: u32) -> Result<Call, NoMemory>
    ensures { IfOk result (λ call. call ≡ poll_of handle) }
{
    Ok(Call::Poll {
        handles: Handles::from_vec(Vec::from_slice(alloc, &[handle])?),
    })
}

impl Seats {
    /// The number of the outside, which counts from 0 as theirs do.
    #[tactic(auto, using(crate::proofs::SeatLemmas::seats))]
    pub fn outside(&self) -> u32
        ensures number { result ≡ outside_of self.now }
        ensures few { result < controller_limit }
    {
        self.controllers.len() as u32
    }

    /// Whether the history has a place for one more entry.
    pub fn has_place(&self) -> bool
        ensures { result ≡ has_place self.now }
    {
        self.kern.entries() < self.kern.places()
    }

    // ---- who can move

    /// The call that the controller of a number makes next, if there is such a controller and it makes one.
    #[tactic(auto, using(crate::proofs::SeatLemmas::seats), unfolding(pr_world::specs::Controllers::call_by))]
    pub(crate) fn next_call(&self, number: u32) -> Result<Option<Call>, NoMemory>
        ensures { IfOk result (λ call. call ≡ call_by self.now.controllers number) }
    {
        if number as usize >= self.controllers.len() {
            return Ok(None);
        }
        self.controllers[number as usize].next_call(self.alloc)
    }

    /// Whether a controller can move: it makes a call that is ready.
    #[tactic(auto, using(crate::proofs::SeatLemmas::asked), unfolding(crate::specs::Going::can_move))]
    fn controller_can_move(&self, number: u32) -> Result<bool, NoMemory>
        ensures { (until : ℕ) → IfOk result (λ can. can ≡ can_move until self.now (Actor.Controller number)) }
    {
        match self.next_call(number)? {
            Some(call) => Ok(self.kern.ready(number, &call)),
            None => Ok(false),
        }
    }

    /// Whether the clock can go on: an lwp sleeps, a controller waits for it, or the outside waits until a moment (0:
    /// it does not).
    #[tactic(auto, using(crate::proofs::SeatLemmas::clocks))]
    fn clock_can_move(&self, until: u64) -> Result<bool, NoMemory>
        ensures { IfOk result (λ can. can ≡ can_move until self.now Actor.Clock) }
    {
        let clock = self.kern.clock();
        if clock >= CLOCK_LIMIT {
            return Ok(false);
        }
        if clock < until {
            return Ok(true);
        }
        if self.kern.sleeper() {
            return Ok(true);
        }
        some_awaits(self.alloc, self.controllers.as_slice(), clock)
    }

    /// Whether an actor can move, while the outside waits until a moment, or 0. The outside cannot in this way.
    pub fn can_move(&self, actor: Actor, until: u64) -> Result<bool, NoMemory>
        ensures { IfOk result (λ can. can ≡ can_move until self.now actor) }
    {
        match actor {
            Actor::Controller(number) => self.controller_can_move(number),
            Actor::Lwp(pid, lwp) => Ok(self.lwp_can_move(pid, lwp)),
            Actor::Clock => self.clock_can_move(until),
        }
    }

    /// Whether an lwp can have a turn.
    #[tactic(auto, using(crate::proofs::SeatLemmas::lwps))]
    fn lwp_can_move(&self, pid: u32, lwp: u32) -> bool
        ensures { (until : ℕ) → result ≡ can_move until self.now (Actor.Lwp pid lwp) }
    {
        self.kern.lwp_movable(pid, lwp)
    }

    // ---- who moves next in a round

    /// The first controller from a number on that can move.
    fn first_controller(&self, from: u32) -> Result<Option<Actor>, NoMemory>
        ensures first { (until : ℕ) → IfOk result (λ next. next ≡ first_controller (world_of until self.now) from) }
        ensures number { IfOk result (λ next. IfSome next HasNumber) }
    {
        for number in from..self.outside() {
            let can = self.controller_can_move(number)?;
            if can {
                return Ok(Some(Actor::Controller(number)));
            }
        }
        Ok(None)
    }

    /// Who moves next in a round from the clock on: the clock, or a controller.
    fn next_from_clock(&self, until: u64) -> Result<Option<Actor>, NoMemory>
        ensures next { IfOk result (λ next. next ≡ from_clock (world_of until self.now)) }
        ensures number { IfOk result (λ next. IfSome next HasNumber) }
    {
        let can = self.clock_can_move(until)?;
        if can {
            return Ok(Some(Actor::Clock));
        }
        self.first_controller(0)
    }

    /// Who moves next in a round after an lwp, or from the first lwp on.
    fn next_from_lwps(
        &self,
        after: Option<(u32, u32)>,
        until: u64,
    ) -> Result<Option<Actor>, NoMemory>
        ensures next { IfOk result (λ next. next ≡ from_lwps (world_of until self.now) after) }
        ensures number { IfOk result (λ next. IfSome next HasNumber) }
    {
        match self.kern.next_lwp(after, true) {
            Some((pid, lwp)) => Ok(Some(Actor::Lwp(pid, lwp))),
            None => self.next_from_clock(until),
        }
    }

    /// Who moves next in a round from a place on.
    #[tactic(auto, unfolding(crate::specs::Rounds::next_from))]
    pub fn next_from(&self, place: Place, until: u64) -> Result<Option<Actor>, NoMemory>
        ensures next { IfOk result (λ next. next ≡ next_from (world_of until self.now) place) }
        ensures number { IfOk result (λ next. IfSome next HasNumber) }
    {
        match place {
            Place::Lwps(after) => self.next_from_lwps(after, until),
            Place::Controllers(from) => self.first_controller(from),
        }
    }

    // ---- what else is asked

    /// Whether a call of the outside would be answered now, and there is a place for its entry.
    pub fn is_answered(&self, call: &Call) -> bool
        ensures { result ≡ is_answered_now call.now self.now }
    {
        self.has_place() && self.kern.ready(self.outside(), call)
    }

    /// Whether one of these calls would be answered now, and there is a place for its entry.
    pub fn some_answered(&self, calls: &[Call]) -> bool
        ensures { result ≡ list_any (λ call. is_answered_now call self.now) calls.now }
    {
        calls.iter().any(|call| self.is_answered(call))
    }

    /// Whether the outside has the file of a handle open.
    fn is_open(&self, handle: u32) -> bool
        ensures { result ≡ is_open self.now handle }
    {
        self.kern
            .machine()
            .opens
            .get(self.outside(), handle)
            .is_ok()
    }

    /// Adds a poll of the file of a handle, if the outside has it open.
    fn add_poll(&self, handle: u32, polls: &mut Vec<Call>) -> Result<(), NoMemory>
        ensures { OnOk result (polls.new.items ≡ polls.old.items ++ polls_if handle (is_open self.now handle)) }
    {
        if !self.is_open(handle) {
            return Ok(());
        }
        Ok(polls.push(poll_of(self.alloc, handle)?)?)
    }

    /// A poll of each file that the outside has open, by number.
    pub fn polls(&self) -> Result<Vec<Call>, NoMemory>
        ensures { IfOk result (λ polls. polls.items ≡ polls_of self.now) }
    {
        let mut polls = Vec::new(self.alloc);
        for handle in 0..HANDLE_LIMIT as u32 {
            self.add_poll(handle, &mut polls)?;
        }
        Ok(polls)
    }

    /// Whether every controller of the scenario has finished: it makes no call any more.
    pub fn all_finished(&self) -> Result<bool, NoMemory>
        ensures { IfOk result (λ all. all ≡ list_all has_finished self.now.controllers) }
    {
        have_finished(self.alloc, self.controllers.as_slice())
    }

    /// The controller of a number.
    #[tactic(auto, using(crate::proofs::SeatLemmas::seats))]
    pub fn controller(&self, number: u32) -> &Controller
        requires { number < length self.now.controllers }
        ensures { slice_get self.now.controllers number ≡ Some (state_of result.now) }
    {
        &self.controllers[number as usize]
    }

    /// The reply of the last entry, if that is a call.
    pub fn last_reply(&self) -> Option<&Reply>
        ensures { option_copied result ≡ last_reply_of self.now.kernel.history }
    {
        self.kern.last_reply()
    }

    /// How many entries there are.
    pub fn entries(&self) -> u32
        ensures value { result ≡ length self.now.kernel.history }
        ensures places { result ≤ self.now.kernel.places }
    {
        self.kern.entries()
    }

    /// How many entries there are places for in all.
    pub fn places(&self) -> u32
        ensures { result ≡ self.now.kernel.places }
    {
        self.kern.places()
    }

    /// The entries so far.
    pub fn history(&self) -> &History
        ensures { result.now.entries ≡ self.now.kernel.history }
    {
        self.kern.history()
    }

    /// The programs that processes can run.
    pub fn programs(&self) -> &[Program]
        ensures { result.now ≡ self.now.kernel.state.system.programs }
    {
        self.kern.programs()
    }
}
