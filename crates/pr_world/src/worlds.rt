//! A world: a kernel and its controllers.
ghost use Rattle.std.specs.Prelude.{◌≡◌, ◌≤◌, ◌<◌, false, None, Some, length, map, slice_get, IfOk};
ghost use Rattle.std.specs.Option.{ForSome};
ghost use Rattle.pr_num.specs.Limits.{controller_limit};
ghost use Rattle.pr_world.specs.Callers.{core_in};
ghost use Rattle.pr_world.specs.Controllers.{printed};
ghost use Rattle.pr_world.specs.ControllerStates.{state_of};

use crate::Controller;
use crate::callers::Caller;
use pr_asm::Program;
use pr_model::Actor;
use pr_num::{Bytes, NoMemory};
use std::alloc::Global;
use std::marker::Model;

/// A kernel and its controllers, at most 64. The actors of a schedule move first, and then all in rounds: controllers
/// by number, lwps by process and lwp id, the clock. Contracts see a plain record of the kernel, the controllers, what
/// is left of the schedule, who was picked last in the rounds, and whether the next call of each controller was made.
#[derive(Drop)]
pub struct World<Q> {
    pub(crate) alloc: Global,
    pub(crate) kern: Q,
    pub(crate) callers: Vec<Caller>,
    pub(crate) schedule: Vec<Actor>,
    /// How many actors of the schedule are spent.
    pub(crate) spent: usize,
    pub(crate) last: Option<Actor>,
    /// Whether the next call of each controller was made.
    pub(crate) made: bool,
}

impl<Q> Model for World<Q> {
    ghost use Rattle.std.specs.Prelude.{◌≡◌, ◌≤◌, true, All, drop, length, map};
    ghost use Rattle.pr_num.specs.Limits.{controller_limit};
    ghost use Rattle.pr_world.specs.Callers.{IsMade, core_in};
    ghost use Rattle.pr_world.specs.Worlds.{WorldOf};

    ghost Value = { WorldOf Q };

    ghost view = { λ a. record {
      kernel = a.kern;
      controllers = map core_in a.callers.items;
      schedule =
          drop a.spent a.schedule.items;
      last = a.last;
      made = a.made;
    } };

    ghost invariant = { λ a. (length a.callers.items ≤ controller_limit) × (a.made ≡ true → All IsMade a.callers.items) };
}

/// The controllers, of which no call was made yet.
#[tactic(auto, unfolding(crate::specs::Callers::core_in))]
fn callers_of(alloc: Global, controllers: Vec<Controller>) -> Result<Vec<Caller>, NoMemory>
    ensures { IfOk result (λ callers. map core_in callers.items ≡ map state_of controllers.items) }
{
    let mut callers = Vec::with_capacity(alloc, controllers.len())?;
    for controller in controllers {
        callers.push(Caller::new(controller))?;
    }
    Ok(callers)
}

impl<Q> World<Q> {
    /// A world in which no actor has moved, and of which no call was made yet.
    pub fn new(
        alloc: Global,
        kernel: Q,
        controllers: Vec<Controller>,
        schedule: Vec<Actor>,
    ) -> Result<World<Q>, NoMemory>
    where
        Q: Drop,
        requires { length controllers.items ≤ controller_limit }
        ensures { IfOk result
            (λ world. world
            ≡ record {
              kernel = kernel;
              controllers = map state_of controllers.items;
              schedule = schedule.items;
              last =
                  None;
              made = false;
            }) }
    {
        let callers = callers_of(alloc, controllers)?;
        Ok(World {
            alloc,
            kern: kernel,
            callers,
            schedule,
            spent: 0,
            last: None,
            made: false,
        })
    }

    /// How many controllers there are.
    #[tactic(auto, using(crate::proofs::CallerLemmas::cores))]
    pub fn controllers(&self) -> u32
        ensures value { result ≡ length self.now.controllers }
        ensures limit { result ≤ controller_limit }
    {
        self.callers.len() as u32
    }

    /// The kernel that answers the calls.
    pub fn kernel(&self) -> &Q
        ensures { result.now ≡ self.now.kernel }
    {
        &self.kern
    }

    /// The kernel alone. Takes no memory.
    pub fn into_kernel(self) -> Q
        ensures { result ≡ self.kernel }
    {
        self.kern
    }

    /// The controller of a number, counted from 0.
    #[tactic(auto, using(crate::proofs::CallerLemmas::cores))]
    pub fn controller(&self, number: u32) -> &Controller
        requires { number < length self.now.controllers }
        ensures { slice_get self.now.controllers number ≡ Some (state_of result.now) }
    {
        self.callers[number as usize].controller()
    }

    /// What a controller prints, where the kernel has these programs.
    #[tactic(auto, using(crate::proofs::CallerLemmas::cores))]
    pub fn print(&self, controller: u32, programs: &[Program]) -> Result<Bytes, NoMemory>
        requires { controller < length self.now.controllers }
        ensures { IfOk result
            (λ text. ForSome (slice_get self.now.controllers controller) (λ core. text ≡ printed core programs.now)) }
    {
        self.callers[controller as usize].print(self.alloc, programs)
    }
}
