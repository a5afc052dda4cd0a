//! Reading the files of a process (proc(4)).
ghost use Rattle.std.specs.Prelude.{◌≡◌, ◌==◌, ◌||◌, nat_lt, IfOk};
ghost use Rattle.pr_num.specs.Limits.{read_limit};
ghost use Rattle.pr_model.specs.Handles.{handle_of};
ghost use Rattle.pr_model.specs.Reads.{read_reply, readable};

use crate::Machine;
use pr_ctl::{is_control, own};
use pr_model::{Held, Reply};
use pr_num::limits::READ_LIMIT;
use pr_num::{Errno, NoMemory};
use pr_open::Opens;
use pr_view::view_record;
use std::alloc::Global;

/// The handle of a number, if this controller has it open and it can be read.
fn readable(opens: &Opens, by: u32, handle: u32) -> Option<Held>
    ensures { result ≡ readable (handle_of opens.now by handle) }
{
    let held = own(opens, by, handle)?;
    if is_control(held.file) {
        None
    } else {
        Some(held)
    }
}

/// Whether a read of so many bytes is refused for its length.
fn bad_length(len: u64) -> bool
    ensures { result ≡ ((len == 0) || nat_lt read_limit len) }
{
    len == 0 || len > READ_LIMIT
}

/// Reads at most `len` bytes of a file from byte `at` on. The refusals come in the order: EBADF, EINVAL for a length of
/// 0 or above 20,480, ENOENT.
#[tactic(auto, unfolding(pr_model::specs::Reads::read_reply, pr_model::specs::Reads::file_read))]
pub fn read(
    state: &Machine,
    alloc: Global,
    by: u32,
    handle: u32,
    at: u64,
    len: u64,
) -> Result<Reply, NoMemory>
    ensures { IfOk result (λ reply. reply ≡ read_reply state.now by handle at len) }
{
    let Some(held) = readable(&state.opens, by, handle) else {
        return Ok(Reply::Fail(Errno::Badf));
    };
    if bad_length(len) {
        return Ok(Reply::Fail(Errno::Inval));
    }
    view_record(alloc, &state.system, held.pid, held.lwp, held.file, at, len)
}
