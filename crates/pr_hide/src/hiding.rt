//! The steps of a history without what is hidden.
ghost use Rattle.std.specs.Prelude.{◌≡◌, ◌≤◌, ◌<◌, ◌+◌, length, IfOk, OnOk};
ghost use Rattle.pr_num.specs.Limits.{controller_limit};
ghost use Rattle.pr_model.specs.Legal.{IsLegal, IsLegalEntry, after};
ghost use Rattle.pr_hidden.specs.HiddenSteps.{hidden_steps};
ghost use Rattle.pr_hide.specs.Hidings.{hiders_of};

use crate::cover_tables::CoverTable;
use crate::following::follow;
use crate::hiders::Hider;
use crate::seen_steps::push_seen;
use pr_judge::play;
use pr_kern::Kern;
use pr_model::{Entry, History, Steps};
use pr_num::NoMemory;
use pr_strip::{Past, remember};
use std::alloc::Global;

/// Makes the step of an entry that is legal.
#[tactic(auto, using(crate::proofs::PlayLemmas::plays), unfolding(pr_api::specs::Views::kernel_of))]
fn play_legal(
    alloc: Global,
    kern: &mut Kern,
    controllers: u32,
    entry: &Entry,
) -> Result<(), NoMemory>
    requires controllers { controllers ≤ controller_limit }
    requires place { length kern.old.history < kern.old.places }
    requires legal { IsLegalEntry controllers kern.old.state entry.now }
    ensures state { OnOk result (kern.new.state ≡ after kern.old.state entry.now) }
    ensures history { OnOk result (length kern.new.history ≡ length kern.old.history + 1) }
    ensures places { OnOk result (kern.new.places ≡ kern.old.places) }
{
    let played = play(alloc, kern, controllers, entry)?;
    prove!(played);
    Ok(())
}

/// The untraced steps of a history without what controllers hide: their breakpoints, the faults of stepping over these,
/// and their agents. `who` says of each controller by its number what it hides. The history is a legal one from the
/// state of the kernel, which is made to play it, and has this many controllers. Each entry is read once, and costs
/// time in the logarithm of the processes of which something is hidden; a fault of a controller's looks besides at the
/// 1,024 handles that can be open.
pub fn strip_hidden(
    alloc: Global,
    who: &[Hider],
    mut kern: Kern,
    controllers: u32,
    history: &History,
) -> Result<Steps, NoMemory>
    requires controllers { controllers ≤ controller_limit }
    requires places { length kern.history + length history.now.entries ≤ kern.places }
    requires legal { IsLegal controllers kern.state history.now.entries }
    ensures { IfOk result (λ steps. steps ≡ hidden_steps (hiders_of who.now) kern.state history.now.entries) }
{
    let mut past = Past::new(alloc);
    let mut table = CoverTable::new(alloc);
    let mut steps = Vec::new(alloc);
    for i in 0..history.len() {
        let entry = history.get(i).unwrap();
        push_seen(&mut steps, who, &table, kern.machine(), &past, entry)?;
        follow(alloc, &mut table, who, kern.machine(), entry)?;
        remember(&mut past, entry)?;
        play_legal(alloc, &mut kern, controllers, entry)?;
    }
    Ok(Steps::from_vec(steps))
}
