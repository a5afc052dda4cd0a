//! Moves: each is one entry.
ghost use Rattle.std.specs.Prelude.{◌≡◌, ◌<◌, ℕ, true, is_some, length, IfOk, OnOk};
ghost use Rattle.std.specs.Option.{ForSome};
ghost use Rattle.pr_api.specs.Entries.{last_reply_of};
ghost use Rattle.pr_drive.specs.Going.{Called, Moved, MovesIf, can_move, outside_of};
ghost use Rattle.pr_kern.specs.Kernels.{after_call};
ghost use Rattle.pr_model.specs.Calls.{answer_to};
ghost use Rattle.pr_num.specs.Limits.{controller_limit};
ghost use Rattle.pr_world.specs.ControllerStates.{state_of};
ghost use Rattle.pr_world.specs.Controllers.{after_reply, call_by};

use crate::seats::Seats;
use pr_kern::Kern;
use pr_model::{Actor, Call};
use pr_num::NoMemory;
use pr_world::Controller;

/// A controller makes a call that is ready, and gets the reply.
fn call_of_controller(
    kern: &mut Kern,
    controller: &mut Controller,
    by: u32,
    call: Call,
) -> Result<(), NoMemory>
    requires by { by < controller_limit }
    requires ready { is_some (answer_to kern.old.state by call) ≡ true }
    requires place { length kern.old.history < kern.old.places }
    ensures called { OnOk result (after_call by call kern.old ≡ Some kern.new) }
    ensures fed { OnOk result (ForSome (last_reply_of kern.new.history) (λ reply.
        state_of controller.new ≡ after_reply (state_of controller.old) reply)) }
{
    controller.prepare()?;
    kern.call(by, call)?;
    if let Some(reply) = kern.last_reply() {
        controller.feed(reply);
    }
    Ok(())
}

impl Seats {
    /// Makes this call of a controller, which is its next one and ready; it gets the reply.
    fn call_by(&mut self, number: u32, call: Call) -> Result<(), NoMemory>
        requires next { call_by self.old.controllers number ≡ Some call }
        requires ready { is_some (answer_to self.old.kernel.state number call) ≡ true }
        requires place { length self.old.kernel.history < self.old.kernel.places }
        ensures { (until : ℕ) → OnOk result (Moved until (Actor.Controller number) self.old self.new) }
    {
        call_of_controller(
            &mut self.kern,
            &mut self.controllers[number as usize],
            number,
            call,
        )
    }

    /// The next call of a controller is made, which gets the reply.
    fn move_controller(&mut self, number: u32) -> Result<(), NoMemory>
        requires can { can_move 0 self.old (Actor.Controller number) ≡ true }
        requires place { length self.old.kernel.history < self.old.kernel.places }
        ensures { (until : ℕ) → OnOk result (Moved until (Actor.Controller number) self.old self.new) }
    {
        match self.next_call(number)? {
            Some(call) => self.call_by(number, call),
            None => Ok(()),
        }
    }

    /// An lwp has a turn.
    fn move_lwp(&mut self, pid: u32, lwp: u32) -> Result<(), NoMemory>
        requires can { can_move 0 self.old (Actor.Lwp pid lwp) ≡ true }
        requires place { length self.old.kernel.history < self.old.kernel.places }
        ensures { (until : ℕ) → OnOk result (Moved until (Actor.Lwp pid lwp) self.old self.new) }
    {
        self.kern.lwp_turn(pid, lwp)?;
        Ok(())
    }

    /// The clock goes on by a millisecond. The outside may wait for that.
    fn move_clock(&mut self)
        requires can { (until : ℕ) × (can_move until self.old Actor.Clock ≡ true) }
        requires place { length self.old.kernel.history < self.old.kernel.places }
        ensures { (until : ℕ) → can_move until self.old Actor.Clock ≡ true → Moved until Actor.Clock self.old self.new }
    {
        self.kern.tick();
    }

    /// The move of an actor that can move.
    pub fn turn(&mut self, actor: Actor) -> Result<(), NoMemory>
        requires can { (until : ℕ) × (can_move until self.old actor ≡ true) }
        requires place { length self.old.kernel.history < self.old.kernel.places }
        ensures { (until : ℕ) → can_move until self.old actor ≡ true → OnOk result
            (Moved until actor self.old self.new) }
    {
        match actor {
            Actor::Controller(number) => self.move_controller(number),
            Actor::Lwp(pid, lwp) => self.move_lwp(pid, lwp),
            Actor::Clock => {
                self.move_clock();
                Ok(())
            }
        }
    }

    /// The move of an actor, while the outside waits until a moment, or 0. Says whether the actor could move, and there
    /// was a place; else nothing changes. The outside cannot move in this way.
    pub fn move_actor(&mut self, actor: Actor, until: u64) -> Result<bool, NoMemory>
        ensures { IfOk result (λ moved. MovesIf moved until actor self.old self.new) }
    {
        if !self.has_place() {
            return Ok(false);
        }
        let can = self.can_move(actor, until)?;
        if !can {
            return Ok(false);
        }
        self.turn(actor)?;
        Ok(true)
    }

    /// Makes a call of the outside, which is ready. The reply is the last one.
    pub fn call(&mut self, call: Call) -> Result<(), NoMemory>
        requires place { length self.old.kernel.history < self.old.kernel.places }
        requires ready { is_some (answer_to self.old.kernel.state (outside_of self.old) call) ≡ true }
        ensures { OnOk result (Called call self.old self.new) }
    {
        let outside = self.outside();
        self.kern.call(outside, call)
    }
}
