//! A controller, and the call that it makes next, which is made once after each reply.
ghost use Rattle.std.specs.Prelude.{◌≡◌, ◌<◌, true, false, length, IfOk, IsOk, OnErr, OnOk};
ghost use Rattle.pr_num.specs.Limits.{controller_limit};
ghost use Rattle.pr_world.specs.Answered.{Answered};
ghost use Rattle.pr_world.specs.Callers.{IsMade};
ghost use Rattle.pr_world.specs.Controllers.{awaits_clock, has_finished, next_call, printed, wait_end_of};
ghost use Rattle.pr_world.specs.ControllerStates.{state_of};
ghost use Rattle.pr_world.specs.Worlds.{is_answered};

use crate::Controller;
use pr_api::Kernel;
use pr_asm::Program;
use pr_model::Call;
use pr_num::{Bytes, NoMemory};
use std::alloc::Global;
use std::marker::Model;

/// A controller, seen by contracts as its core and whether its next call was made: that call is kept until the reply,
/// and what is asked of the controller is asked of the call, which takes no memory.
#[derive(Drop)]
pub struct Caller {
    controller: Controller,
    /// `None`: not made since the last reply.
    next: Option<Option<Call>>,
}

impl Model for Caller {
    ghost use Rattle.std.specs.Prelude.{◌≡◌, IfSome, is_some};
    ghost use Rattle.pr_world.specs.Callers.{CallerState};
    ghost use Rattle.pr_world.specs.Controllers.{next_call};
    ghost use Rattle.pr_world.specs.ControllerStates.{state_of};

    ghost Value = { CallerState };

    ghost view = { λ a. record { core = state_of a.controller; made = is_some a.next } };

    ghost invariant = { λ a. IfSome a.next (λ call. call ≡ next_call (state_of a.controller)) };
}

/// The moment at which the wait of a call ends in any case; 0 sets no end.
fn wait_end_of(call: &Call) -> u64
    ensures { result ≡ wait_end_of call.now }
{
    match call {
        Call::CtlWait { until, .. } => *until,
        Call::Until { moment } => *moment,
        _ => 0,
    }
}

impl Caller {
    /// A controller that has made no call yet.
    pub fn new(controller: Controller) -> Caller
        ensures { result ≡ record { core = state_of controller; made = false } }
    {
        Caller {
            controller,
            next: None,
        }
    }

    /// Makes the next call and keeps it. Where it is made already, this takes no memory.
    pub fn make_next(&mut self, alloc: Global) -> Result<(), NoMemory>
        ensures core { self.new.core ≡ self.old.core }
        ensures made { OnOk result (IsMade self.new) }
        ensures sure { IsMade self.old → IsOk result }
    {
        if self.next.is_none() {
            self.next = Some(self.controller.next_call(alloc)?);
        }
        Ok(())
    }

    /// The next call, which was made; `None` where the controller has finished.
    fn next(&self) -> &Option<Call>
        requires { IsMade self.now }
        ensures { result.now ≡ next_call self.now.core }
    {
        self.next.as_ref().unwrap()
    }

    /// Whether the controller makes a call that a kernel would answer now.
    pub fn can_move<Q: Kernel>(&self, kern: &Q, by: u32) -> bool
        requires { IsMade self.now }
        ensures { result ≡ is_answered (Q.view kern.now) by (next_call self.now.core) }
    {
        match self.next() {
            Some(call) => kern.ready(by, call),
            None => false,
        }
    }

    /// Whether the controller waits for a moment that is still to come.
    #[tactic(auto, unfolding(crate::specs::Controllers::awaits_clock))]
    pub fn awaits_clock(&self, clock: u64) -> bool
        requires { IsMade self.now }
        ensures { result ≡ awaits_clock clock self.now.core }
    {
        match self.next() {
            Some(call) => clock < wait_end_of(call),
            None => false,
        }
    }

    /// Whether the controller has finished: it has no next call.
    #[tactic(auto, unfolding(crate::specs::Controllers::has_finished))]
    pub fn has_finished(&self) -> bool
        requires { IsMade self.now }
        ensures { result ≡ has_finished self.now.core }
    {
        self.next().is_none()
    }

    /// Makes the controller's next call, which is ready, and hands it the reply. The kernel takes the call, and no copy
    /// of it is made. Where memory runs out, kernel and core are as they were, and the call may have to be made again.
    pub fn make_call<Q: Kernel>(
        &mut self,
        alloc: Global,
        kern: &mut Q,
        by: u32,
    ) -> Result<(), NoMemory>
        requires by { by < controller_limit }
        requires ready { is_answered (Q.view kern.old) by (next_call self.old.core) ≡ true }
        requires place { length (Q.view kern.old).history < (Q.view kern.old).places }
        ensures ok { OnOk result (Answered by (Q.view kern.old) (Q.view kern.new) self.old.core self.new.core) }
        ensures kernel { OnErr result (kern.new ≡ kern.old) }
        ensures err { OnErr result (self.new.core ≡ self.old.core) }
    {
        self.make_next(alloc)?;
        self.controller.prepare()?;
        let call = self.next.take().unwrap().unwrap();
        kern.call(by, call)?;
        let reply = kern.last_reply().unwrap();
        self.controller.feed(reply);
        Ok(())
    }

    /// What the controller prints at the end of a run.
    pub fn print(&self, alloc: Global, programs: &[Program]) -> Result<Bytes, NoMemory>
        ensures { IfOk result (λ text. text ≡ printed self.now.core programs.now) }
    {
        self.controller.print(alloc, programs)
    }

    /// The controller as it stands, with the replies that it was fed.
    pub fn controller(&self) -> &Controller
        ensures { state_of result.now ≡ self.now.core }
    {
        &self.controller
    }
}
