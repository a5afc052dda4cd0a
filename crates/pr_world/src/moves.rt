//! Moves: each is one entry.
ghost use Rattle.std.specs.Prelude.{◌≡◌, ◌<◌, true, false, length, OnOk, OnErr};
ghost use Rattle.pr_world.specs.Moves.{Moves};
ghost use Rattle.pr_world.specs.Worlds.{can_act, made_after, seen};

use crate::World;
use pr_api::Kernel;
use pr_model::Actor;
use pr_num::NoMemory;

impl<Q: Kernel> World<Q> {
    /// Makes the next call of a controller, which gets the reply. What it calls next is not made then; nor what it
    /// called, where memory ran out.
    #[tactic(auto, using(crate::proofs::CallerLemmas::cores))]
    #[inline(never)]
    fn move_controller(&mut self, controller: u32) -> Result<(), NoMemory>
        requires acts { can_act (seen Q.view self.old) (Actor.Controller controller) ≡ true }
        requires place { length (Q.view self.old.kernel).history < (Q.view self.old.kernel).places }
        ensures ok { OnOk result (Moves (seen Q.view self.old) (Actor.Controller controller) (seen Q.view self.new)) }
        ensures made { self.new.made ≡ false }
        ensures err { OnErr result (self.new ≡ record self.old { made = false }) }
    {
        self.made = false;
        self.callers[controller as usize].make_call(self.alloc, &mut self.kern, controller)?;
        Ok(())
    }

    fn move_lwp(&mut self, pid: u32, lwp: u32) -> Result<(), NoMemory>
        requires acts { can_act (seen Q.view self.old) (Actor.Lwp pid lwp) ≡ true }
        requires place { length (Q.view self.old.kernel).history < (Q.view self.old.kernel).places }
        ensures ok { OnOk result (Moves (seen Q.view self.old) (Actor.Lwp pid lwp) (seen Q.view self.new)) }
        ensures made { self.new.made ≡ self.old.made }
        ensures err { OnErr result (self.new ≡ self.old) }
    {
        self.kern.lwp_turn(pid, lwp)?;
        Ok(())
    }

    fn move_clock(&mut self)
        requires acts { can_act (seen Q.view self.old) Actor.Clock ≡ true }
        requires place { length (Q.view self.old.kernel).history < (Q.view self.old.kernel).places }
        ensures moves { Moves (seen Q.view self.old) Actor.Clock (seen Q.view self.new) }
        ensures made { self.new.made ≡ self.old.made }
    {
        self.kern.tick();
    }

    /// Makes the move of an actor that can move, and adds its entry; where memory runs out, the world is as it was, but
    /// that a controller's call is to be made again.
    #[inline]
    pub fn turn(&mut self, actor: Actor) -> Result<(), NoMemory>
        requires acts { can_act (seen Q.view self.old) actor ≡ true }
        requires place { length (Q.view self.old.kernel).history < (Q.view self.old.kernel).places }
        ensures ok { OnOk result (Moves (seen Q.view self.old) actor (seen Q.view self.new)) }
        ensures made { self.new.made ≡ made_after actor self.old.made }
        ensures err { OnErr result (self.new ≡ record self.old { made = made_after actor self.old.made }) }
    {
        match actor {
            Actor::Controller(controller) => self.move_controller(controller),
            Actor::Lwp(pid, lwp) => self.move_lwp(pid, lwp),
            Actor::Clock => {
                self.move_clock();
                Ok(())
            }
        }
    }
}
