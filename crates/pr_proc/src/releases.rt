//! How a process is let go by those that traced it.
ghost use Rattle.std.specs.Prelude.{◌≡◌};
ghost use Rattle.pr_num.specs.ById.{map_each};
ghost use Rattle.pr_model.specs.Handles.{released, released_control, released_lwp};

use crate::{Lwp, Proc};
use pr_model::Control;
use pr_num::{ById, FltSet, SigSet, SysSet};
use pr_watch::Areas;

/// Clears what a controller asked of an lwp; one that stood on an event of interest runs again.
#[tactic(auto, unfolding(pr_model::specs::Handles::released_lwp))]
fn release_lwp(lwp: &mut Lwp)
    ensures { lwp.new ≡ released_lwp lwp.old }
{
    lwp.control.stop = None;
    lwp.control.directed = false;
    lwp.control.step = false;
}

#[tactic(auto, using(pr_num::proofs::ByIdLaws::by_id_laws))]
fn release_each(lwps: &mut ById<Lwp>)
    ensures { lwps.new ≡ map_each released_lwp lwps.old }
{
    for place in 0..lwps.len() {
        release_lwp(lwps.at_mut(place));
    }
}

/// Nothing is traced and nothing watched any more; the modes stay.
#[tactic(auto, unfolding(pr_model::specs::Handles::released_control))]
fn release_control(control: &mut Control<Areas>)
    ensures { control.new ≡ released_control control.old }
{
    control.traced_signals = SigSet::empty();
    control.traced_faults = FltSet::empty();
    control.traced_entries = SysSet::empty();
    control.traced_exits = SysSet::empty();
    control.areas = Areas::new();
}

/// Lets a process go: nothing of it is traced, watched, directed or stopped on an event of interest any more (proc(4),
/// "PR_RLC"). Takes no memory.
#[tactic(auto, unfolding(pr_model::specs::Handles::released))]
pub fn release(process: &mut Proc)
    ensures { process.new ≡ released process.old }
{
    release_each(&mut process.lwps);
    release_control(&mut process.control);
}
