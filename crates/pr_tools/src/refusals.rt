ghost use Rattle.std.specs.Prelude.{◌≡◌, ◌++◌, OnOk};
ghost use Rattle.pr_tools.specs.Refusals.{cannot_examine, refusal_line};

use crate::texts::end_line;
use pr_num::{Errno, NoMemory};
use pr_text::Text;

/// The name of the tool, and the process that it cannot examine.
#[tactic(auto, unfolding(crate::specs::Refusals::cannot_examine))]
fn push_cannot(text: &mut Text, tool: &[u8], pid: u32) -> Result<(), NoMemory>
    ensures { OnOk result (text.new ≡ text.old ++ cannot_examine tool.now pid) }
{
    text.text(tool)?;
    text.text(b": cannot examine ")?;
    text.decimal(u64::from(pid))
}

/// The line of a tool of this name whose call was refused.
#[tactic(auto, unfolding(crate::specs::Refusals::refusal_line))]
pub fn push_refusal(text: &mut Text, tool: &[u8], pid: u32, errno: Errno) -> Result<(), NoMemory>
    ensures { OnOk result (text.new ≡ text.old ++ refusal_line tool.now pid errno) }
{
    push_cannot(text, tool, pid)?;
    text.text(b": ")?;
    text.text(errno.name().as_bytes())?;
    end_line(text)
}
