//! The text of pwait.
ghost use Rattle.std.specs.Prelude.{◌≡◌, ◌++◌, OnOk};
ghost use Rattle.pr_tools.specs.Pwait.{end_line, pwait_text};

use crate::texts::end_line;
use pr_num::NoMemory;
use pr_rec::Psinfo;
use pr_text::Text;

/// The line of a process with its wait status.
#[tactic(auto, unfolding(crate::specs::Pwait::end_line))]
fn push_end(text: &mut Text, pid: u32, status: u64) -> Result<(), NoMemory>
    ensures { OnOk result (text.new ≡ text.old ++ end_line pid status) }
{
    text.decimal(u64::from(pid))?;
    text.text(b": terminated, wait status ")?;
    text.hex8(status)?;
    end_line(text)
}

/// What pwait(1) prints of a process that has ended, of the bytes of its `psinfo` (proc(4)): a line with its id and its
/// wait status, as eight hexadecimal digits; nothing where the bytes are no such record.
#[tactic(auto, unfolding(crate::specs::Pwait::pwait_text))]
pub fn push_pwait(text: &mut Text, pid: u32, bytes: &[u8]) -> Result<(), NoMemory>
    ensures { OnOk result (text.new ≡ text.old ++ pwait_text pid bytes.now) }
{
    match Psinfo::decode(bytes) {
        Err(_) => Ok(()),
        Ok(psinfo) => push_end(text, pid, psinfo.wait_status),
    }
}
