//! The children of a process, and how one that has ended is reaped.
ghost use Rattle.std.specs.Prelude.{◌≡◌};
ghost use Rattle.pr_model.specs.Lives.{with_reaped};
ghost use Rattle.pr_model.specs.Readers.{children_among, children_of};
ghost use Rattle.pr_proc.specs.Families.{children_as};

use crate::{Children, Processes, Sys};

fn children_among(parent: u32, processes: &Processes) -> Children
    ensures { children_as result ≡ children_among parent processes.now }
{
    processes.ids_rise();
    if let Some((child, status)) = processes.next_zombie(parent, 0) {
        return Children::Zombie(child, status);
    }
    match processes.next_child(parent, 0) {
        Some(_) => Children::Living,
        None => Children::Nobody,
    }
}

/// What there is of the children of a process. Looks at none but those in the first block of ids in which one of its
/// children has ended, or else in the first in which one stands; takes no memory.
#[tactic(auto, unfolding(pr_model::specs::Readers::children_of))]
pub fn children(sys: &Sys, pid: u32) -> Children
    ensures { children_as result ≡ children_of sys.now pid }
{
    children_among(pid, &sys.processes)
}

/// Takes away what is left of a process that has ended; where nothing is left of it, the system stays as it is. Takes
/// no memory.
#[tactic(auto, using(pr_num::proofs::ByIdLaws::by_id_laws), unfolding(pr_model::specs::Lives::with_reaped))]
pub fn reap(sys: &mut Sys, child: u32)
    ensures { sys.new ≡ with_reaped child sys.old }
{
    if sys.processes.contains(child) {
        sys.processes.remove(child);
    }
}
