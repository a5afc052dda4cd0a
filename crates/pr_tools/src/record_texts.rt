//! The text of a tool that shows one record.
ghost use Rattle.std.specs.Prelude.{◌≡◌, ◌++◌, OnOk, IfOk};
ghost use Rattle.pr_tools.specs.Pmap.{HasTotal};
ghost use Rattle.pr_tools.specs.RecordTexts.{text_of_record};

use crate::descriptor_lines::push_pfiles;
use crate::dispositions::push_psig;
use crate::ends::push_pwait;
use crate::lwp_lines::push_pflags;
use crate::mapping_lines::push_pmap;
use crate::process_lines::push_ptree;
use pr_model::ToolKind;
use pr_num::{Bytes, NoMemory};
use pr_text::Text;
use std::alloc::Global;

/// Appends the text of a tool of a process, of the bytes of the record that it shows. `pstop` and `prun` show nothing,
/// and `pstack` shows more than a record.
#[tactic(auto, unfolding(crate::specs::RecordTexts::text_of_record))]
pub fn push_record(
    alloc: Global,
    text: &mut Text,
    kind: ToolKind,
    pid: u32,
    bytes: &[u8],
) -> Result<(), NoMemory>
    requires { kind ≡ ToolKind.Pmap → HasTotal bytes.now }
    ensures { OnOk result (text.new ≡ text.old ++ text_of_record kind pid bytes.now) }
{
    match kind {
        ToolKind::Pflags => push_pflags(alloc, text, pid, bytes),
        ToolKind::Psig => push_psig(text, pid, bytes),
        ToolKind::Pmap => push_pmap(alloc, text, pid, bytes),
        ToolKind::Pfiles => push_pfiles(alloc, text, pid, bytes),
        ToolKind::Pstack | ToolKind::Pstop | ToolKind::Prun => Ok(()),
        ToolKind::Pwait => push_pwait(text, pid, bytes),
        ToolKind::Ptree => push_ptree(alloc, text, bytes),
    }
}

/// The text of a tool of a process, of the bytes of the record that it shows, as the tool prints it of what it read.
pub fn text_of_record(
    alloc: Global,
    kind: ToolKind,
    pid: u32,
    bytes: &[u8],
) -> Result<Bytes, NoMemory>
    requires { kind ≡ ToolKind.Pmap → HasTotal bytes.now }
    ensures { IfOk result (λ text. text ≡ text_of_record kind pid bytes.now) }
{
    let mut text = Text::new(alloc)?;
    push_record(alloc, &mut text, kind, pid, bytes)?;
    Ok(text.into_bytes())
}
