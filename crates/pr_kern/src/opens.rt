//! Opening the files of a process (proc(4), "PROGRAMMING NOTES").
ghost use Rattle.std.specs.Prelude.{◌≡◌, ◌==◌, ◌&&◌, ◌||◌, not};
ghost use Rattle.std.specs.Option.{option_copied};
ghost use Rattle.pr_model.specs.Calls.{Answer, open_answer};
ghost use Rattle.pr_model.specs.Handles.{fits_file, has_file};
ghost use Rattle.pr_kern.specs.Openings.{errno_of};

use crate::Machine;
use pr_ctl::{is_control, is_of_lwp};
use pr_model::{File, Held, Mode, Reply};
use pr_num::Errno;
use pr_open::{OpenNo, Opens};
use pr_proc::Proc;
use pr_view::outlives;

/// Whether a file can be opened in this mode, with this lwp named for it; 0 names none.
pub fn fits_file(file: File, mode: Mode, lwp: u32) -> bool
    ensures { result ≡ fits_file file mode lwp }
{
    is_control(file) == mode.is_writable() && is_of_lwp(file) == (lwp != 0)
}

/// Whether a process, if there is one, has the file that is asked for.
pub fn has_file(process: Option<&Proc>, file: File, lwp: u32) -> bool
    ensures { result ≡ has_file (option_copied process.entry) file lwp }
{
    match process {
        None => false,
        Some(process) => {
            (process.ended.is_none() || outlives(file))
                && (!is_of_lwp(file) || process.lwps.contains(lwp))
        }
    }
}

/// The errno of an open that the open handles refuse.
fn errno_of(refusal: OpenNo) -> Errno
    ensures { result ≡ errno_of refusal }
{
    match refusal {
        OpenNo::Busy => Errno::Busy,
        OpenNo::Full => Errno::Mfile,
        OpenNo::BadHandle => Errno::Badf,
    }
}

/// Opens a file of a process for a controller, with the least free number (EINVAL, ENOENT, EBUSY, EMFILE in this
/// order). Takes no memory.
#[tactic(auto, unfolding(pr_model::specs::Calls::open_answer, pr_model::specs::Handles::open_refusal, pr_model::specs::Handles::with_opened, pr_open::specs::Opening::open_answer))]
pub fn open(state: &mut Machine, held: Held) -> Reply
    ensures { (record { state = state.new; reply = result })
        ≡ open_answer state.old held.controller held.pid held.lwp held.file held.mode }
{
    if !fits_file(held.file, held.mode, held.lwp) {
        return Reply::Fail(Errno::Inval);
    }
    if !has_file(state.system.processes.get(held.pid), held.file, held.lwp) {
        return Reply::Fail(Errno::Noent);
    }
    match state.opens.open(held) {
        Ok(number) => Reply::Handle(number),
        Err(refusal) => Reply::Fail(errno_of(refusal)),
    }
}
