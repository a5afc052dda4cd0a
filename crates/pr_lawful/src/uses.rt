ghost use Rattle.std.specs.Prelude.{◌≡◌, ◌≤◌, ℕ, All, None, Some, false, length};
ghost use Rattle.pr_parts.specs.FileTables.{AreOpenIn, HasRoom};
ghost use Rattle.pr_model.specs.Handles.{has_writer};
ghost use Rattle.pr_model.specs.Lawful.{IsLawful, IsLawfulLwp, IsLawfulProcess, IsLawfulSystem};
ghost use Rattle.pr_model.specs.Records.{lstatus_of};
ghost use Rattle.pr_num.specs.Limits.{last_lwp, descriptor_limit};
ghost use Rattle.pr_model.specs.Statuses.{lwpstatus_of, status_of};
ghost use Rattle.pr_rec.specs.InRange.{IsInfo};
ghost use Rattle.pr_model.specs.State.{TracedLwp, TracedProcess, TracedState, TracedSystem, live_process, lwp_of, process_of};

/// What follows of a lawful system: the descriptors of a process stand for open files; an open file has room for all
/// descriptors of one process more, and so for one more; the next id of a process and that of an lwp are free; and no
/// more processes stand than were made.
#[tactic(auto, using(crate::proofs::Following::UseLemmas::uses))]
pub fn lawful_systems_have_room()
    ensures descriptors { (s : TracedSystem) (pid : ℕ) (p : TracedProcess) → IsLawfulSystem s → process_of s pid ≡ Some p
        → AreOpenIn p.fds s.files }
    ensures files { (s : TracedSystem) → IsLawfulSystem s → HasRoom s.files descriptor_limit }
    ensures one_more { (s : TracedSystem) → IsLawfulSystem s → HasRoom s.files 1 }
    ensures process_id { (s : TracedSystem) → IsLawfulSystem s → process_of s s.made ≡ None }
    ensures lwp_id { (s : TracedSystem) (pid : ℕ) (p : TracedProcess) → IsLawfulSystem s → process_of s pid ≡ Some p
        → p.next_lwp ≤ last_lwp → lwp_of p p.next_lwp ≡ None }
    ensures processes { (s : TracedSystem) → IsLawfulSystem s → length s.processes ≤ s.made }
{}

/// No controller has a process open for writing that was just made: its first handle for writing is not refused.
#[tactic(auto, using(crate::proofs::Following::UseLemmas::uses))]
pub fn new_processes_are_unopened()
    ensures { (s : TracedState) → IsLawful s → has_writer s.system.made s.opens ≡ false }
{}

/// The processes of a lawful system are lawful, and so are their lwps.
pub fn parts_of_lawful_systems_are_lawful()
    ensures process { (s : TracedSystem) (pid : ℕ) (p : TracedProcess) → IsLawfulSystem s → process_of s pid ≡ Some p
        → IsLawfulProcess (pid, p) }
    ensures live { (s : TracedSystem) (pid : ℕ) (p : TracedProcess) → IsLawfulSystem s → live_process s pid ≡ Some p
        → IsLawfulProcess (pid, p) }
    ensures lwp { (pid id : ℕ) (p : TracedProcess) (l : TracedLwp) → IsLawfulProcess (pid, p) → lwp_of p id ≡ Some l
        → IsLawfulLwp p.next_lwp (id, l) }
{}

/// Records can hold what came with the signals of a lawful process: of the representative, of each lwp, and of the lwp
/// of an id.
pub fn infos_of_lawful_processes_are_in_range()
    ensures status { (s : TracedSystem) (pid : ℕ) (p : TracedProcess) → IsLawfulProcess (pid, p)
        → IsInfo (status_of s pid p).lwp.info }
    ensures lstatus { (pid : ℕ) (p : TracedProcess) → IsLawfulProcess (pid, p) → All (λ l. IsInfo l.info) (lstatus_of p) }
    ensures lwpstatus { (pid id : ℕ) (p : TracedProcess) (l : TracedLwp) → IsLawfulProcess (pid, p) → lwp_of p id ≡ Some l
        → IsInfo (lwpstatus_of p id l).info }
{}
