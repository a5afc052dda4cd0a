use pr_file::Fds;
use pr_mem::Space;
use pr_model::{Control, ProcessOf};
use pr_num::ById;
use pr_sig::Pendings;
use pr_watch::Areas;

/// An lwp with its pending signals.
pub type Lwp = pr_model::Lwp<Pendings>;

/// A process with its address space, descriptors, pending signals, lwps and watched areas. Contracts see it as the traced
/// process of the definitions.
pub type Proc = ProcessOf<Space, Fds, Pendings, ById<Lwp>, Control<Areas>>;
