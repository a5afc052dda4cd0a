//! Who is directed to stop (proc(4), "PCDSTOP").
ghost use Rattle.std.specs.Prelude.{◌≡◌};
ghost use Rattle.pr_num.specs.ById.{change_under, map_each};
ghost use Rattle.pr_model.specs.Points.{with_others_directed};
ghost use Rattle.pr_model.specs.Stops.{directed};
ghost use Rattle.pr_stop.specs.Classes.{with_directed};

use pr_num::{ById, Modes};
use pr_proc::{Lwp, Proc};

/// Directs an lwp to stop, unless it stands on an event of interest already.
#[tactic(auto, unfolding(pr_model::specs::Stops::directed))]
fn direct_lwp(lwp: &mut Lwp)
    ensures { lwp.new ≡ directed lwp.old }
{
    if lwp.control.stop.is_none() {
        lwp.control.directed = true;
    }
}

#[tactic(auto, using(pr_num::proofs::ByIdLaws::by_id_laws))]
fn direct_each(lwps: &mut ById<Lwp>)
    ensures { lwps.new ≡ map_each directed lwps.old }
{
    for place in 0..lwps.len() {
        direct_lwp(lwps.at_mut(place));
    }
}

/// Directs the lwp of an id, if there is one.
#[tactic(auto, using(pr_num::proofs::ByIdLaws::by_id_laws))]
fn direct_under(lwps: &mut ById<Lwp>, id: u32)
    ensures { lwps.new ≡ change_under id directed lwps.old }
{
    if let Some(lwp) = lwps.find_mut(id) {
        direct_lwp(lwp);
    }
}

/// Directs one lwp of a process to stop, or all of them, but those that stand on an event of interest (proc(4),
/// "PCDSTOP").
#[tactic(auto, unfolding(pr_model::specs::Stops::with_all_directed, pr_model::specs::State::with_lwp))]
pub fn direct(process: &mut Proc, lwp: Option<u32>)
    ensures { process.new ≡ with_directed lwp process.old }
{
    match lwp {
        None => direct_each(&mut process.lwps),
        Some(id) => direct_under(&mut process.lwps, id),
    }
}

/// Directs every other lwp of a process, as the stop of one lwp on an event of interest does, unless PR_ASYNC is set.
/// The one that stopped stands on an event.
#[tactic(auto, unfolding(pr_model::specs::Points::with_others_directed))]
pub fn direct_others(process: &mut Proc)
    ensures { process.new ≡ with_others_directed process.old }
{
    if !process.control.modes.has(Modes::ASYNC) {
        direct(process, None);
    }
}
