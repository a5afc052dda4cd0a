ghost use Rattle.std.specs.Prelude.{◌≡◌, ◌<◌, true, false, Some, length, IfOk, OnOk, OnErr};
ghost use Rattle.pr_run.specs.OneRuns.{Advanced, IsStopped, LedTo, StandsAs, end_of_run};
ghost use Rattle.pr_world.specs.Runs.{TellsMachine};
ghost use Rattle.pr_world.specs.Worlds.{ended_as, goes_on, seen};

use pr_api::Kernel;
use pr_num::NoMemory;
use pr_world::{End, World};

/// Picks who moves next and gives it its turn, and says whether there was an actor. Where memory runs out, the world is
/// as it was, or the actor was picked and did not move. Where there was none, all calls of controllers are made.
fn advance<Q: Kernel>(world: &mut World<Q>) -> Result<bool, NoMemory>
    requires place { length (Q.view world.old.kernel).history < (Q.view world.old.kernel).places }
    ensures ok { IfOk result (λ moved. Advanced moved (seen Q.view world.old) (seen Q.view world.new)) }
    ensures asked { IfOk result (λ moved. moved ≡ false → world.new.made ≡ true) }
    ensures err { OnErr result (StandsAs (seen Q.view world.old) (seen Q.view world.new)) }
{
    match world.pick()? {
        Some(actor) => {
            world.turn(actor)?;
            Ok(true)
        }
        None => Ok(false),
    }
}

/// How a world has ended that does not go on. Takes no memory.
pub(crate) fn end<Q: Kernel>(world: &World<Q>) -> End
    requires made { world.now.made ≡ true }
    requires ended { goes_on (seen Q.view world.now) ≡ false }
    ensures { ended_as (seen Q.view world.now) ≡ Some result }
{
    world.end().unwrap()
}

/// Picks actors and gives them their turns until the world has ended, and says how. Over a kernel that tells its
/// machine the world at the end is a function of the one at the beginning. Where memory runs out, the world is the one
/// after some of the steps, in which one more actor may have been picked. Waits for nobody.
pub fn run_one<Q: Kernel>(world: &mut World<Q>) -> Result<End, NoMemory>
    ensures run { OnOk result (LedTo (seen Q.view world.old) (seen Q.view world.new)) }
    ensures end { IfOk result (λ end. ended_as (seen Q.view world.new) ≡ Some end) }
    ensures told { OnOk result (TellsMachine (seen Q.view world.old)
        → seen Q.view world.new ≡ end_of_run (seen Q.view world.old)) }
    ensures err { OnErr result (IsStopped (seen Q.view world.old) (seen Q.view world.new)) }
{
    for _ in world.kernel().entries()..world.kernel().places() {
        if !advance(world)? {
            return Ok(end(world));
        }
    }
    world.make_calls()?;
    Ok(end(world))
}
