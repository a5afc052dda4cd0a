//! What the texts of several tools have in common, written at the end of a text.
ghost use Rattle.std.specs.Prelude.{◌≡◌, ◌++◌, OnOk};
ghost use Rattle.pr_tools.specs.Texts.{header, lwp_label, line_end};

use pr_num::NoMemory;
use pr_text::Text;

/// Ends a line.
pub fn end_line(text: &mut Text) -> Result<(), NoMemory>
    ensures { OnOk result (text.new ≡ text.old ++ line_end) }
{
    text.text(b"\n")
}

/// Appends the line with which the text of a process begins.
#[tactic(auto, unfolding(crate::specs::Texts::header))]
pub fn push_header(text: &mut Text, pid: u32) -> Result<(), NoMemory>
    ensures { OnOk result (text.new ≡ text.old ++ header pid) }
{
    text.decimal(u64::from(pid))?;
    text.text(b":")?;
    end_line(text)
}

/// Appends an lwp's id before what is said of it.
#[tactic(auto, unfolding(crate::specs::Texts::lwp_label))]
pub fn push_label(text: &mut Text, lwp: u64) -> Result<(), NoMemory>
    ensures { OnOk result (text.new ≡ text.old ++ lwp_label lwp) }
{
    text.text(b" /")?;
    text.decimal(lwp)?;
    text.text(b":")
}
