//! The programs, which move beside the injector.
ghost use Rattle.std.specs.Prelude.{◌≡◌, ◌<◌, ◌≤◌, ◌+◌, true, length, IfOk, IfSome, OnOk};
ghost use Rattle.pr_model.specs.Lawful.{IsLawful};
ghost use Rattle.own_tracer.specs.Going.{Goes, Stands};
ghost use Rattle.own_tracer.specs.Rounds.{Moves, TicksIf, can_tick, next_in_turn};
ghost use Rattle.own_tracer.specs.Stances.{Keeps};

use pr_api::Kernel;
use pr_num::NoMemory;
use pr_num::limits::CLOCK_LIMIT;

/// The lwps in turn, by process and lwp, and the one that moved last.
#[derive(Clone, Copy)]
pub struct Programs {
    pub last: Option<(u32, u32)>,
}

impl Programs {
    /// The lwp that moves next: the first after the last one, or the first of all, that can have a turn.
    fn next<Q: Kernel>(&self, kern: &Q) -> Option<(u32, u32)>
        ensures next { result ≡ next_in_turn (record { kernel = Q.view kern.now; last = self.now.last }) }
        ensures can { IfSome result (λ lwp. (Q.view kern.now).can_turn lwp.0 lwp.1 ≡ true) }
    {
        match kern.next_lwp(self.last, true) {
            Some(lwp) => Some(lwp),
            None => kern.next_lwp(None, true),
        }
    }

    /// Gives the next lwp a turn; or the clock a tick, where no lwp can move and one sleeps. Says whether there was
    /// either.
    pub fn advance<Q: Kernel>(&mut self, kern: &mut Q) -> Result<bool, NoMemory>
        requires stands { Stands IsLawful (Q.view kern.old) }
        requires place { length (Q.view kern.old).history < (Q.view kern.old).places }
        ensures goes { OnOk result (Goes (Keeps (Q.view kern.old)) (Q.view kern.old) (Q.view kern.new)) }
        ensures moves { IfOk result (λ moved. Moves moved (record { kernel = Q.view kern.old; last = self.old.last })
            (record { kernel = Q.view kern.new; last = self.new.last })) }
        ensures few { OnOk result (length (Q.view kern.new).history ≤ length (Q.view kern.old).history + 1) }
        ensures places { OnOk result ((Q.view kern.new).places ≡ (Q.view kern.old).places) }
    {
        match self.next(kern) {
            Some((pid, lwp)) => {
                self.last = Some((pid, lwp));
                kern.lwp_turn(pid, lwp)?;
                Ok(true)
            }
            None => Ok(tick(kern)),
        }
    }
}

/// A tick of the clock, where an lwp sleeps. Says whether there was one: not where the clock stands at its limit.
fn tick<Q: Kernel>(kern: &mut Q) -> bool
    requires stands { Stands IsLawful (Q.view kern.old) }
    requires place { length (Q.view kern.old).history < (Q.view kern.old).places }
    ensures goes { Goes (Keeps (Q.view kern.old)) (Q.view kern.old) (Q.view kern.new) }
    ensures can { result ≡ can_tick (Q.view kern.old) }
    ensures ticks { TicksIf result (Q.view kern.old) (Q.view kern.new) }
    ensures few { length (Q.view kern.new).history ≤ length (Q.view kern.old).history + 1 }
    ensures places { (Q.view kern.new).places ≡ (Q.view kern.old).places }
{
    if !kern.sleeper() {
        return false;
    }
    let clock = kern.clock();
    if clock < CLOCK_LIMIT {
        kern.tick();
        return true;
    }
    false
}
