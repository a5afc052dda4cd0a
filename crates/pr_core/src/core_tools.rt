//! The proc tools over a core.
ghost use Rattle.std.specs.Prelude.{◌≡◌, ◌<◌, ◌^◌, length, IfOk};
ghost use Rattle.pr_core.specs.CoreBytes.{core_bytes};
ghost use Rattle.pr_core.specs.CoreMemory.{space_in};
ghost use Rattle.pr_core.specs.CoreRanges.{IsCore};
ghost use Rattle.pr_core.specs.CoreTools.{core_space, record_of, tool_over_core};
ghost use Rattle.pr_tools.specs.SpaceStacks.{lwps_stacks};

use crate::Core;
use crate::core_memory::CoreSpace;
use crate::core_stacks::push_stacks;
use crate::encoding::write_fds;
use pr_asm::Program;
use pr_model::ToolKind;
use pr_num::{Bytes, NoMemory};
use pr_rec::{LwpStatus, encode_sigact, write_lstatus, write_map};
use pr_text::Text;
use pr_tools::text_of_record;
use std::alloc::Global;

/// The text of the stacks of lwps in a memory.
fn stacks_in(
    alloc: Global,
    pid: u32,
    programs: &[Program],
    space: &CoreSpace<'_>,
    lwps: &[LwpStatus],
) -> Result<Bytes, NoMemory>
    ensures { IfOk result (λ text. text ≡ lwps_stacks pid programs.now (space_in space.now) lwps.now) }
{
    let mut text = Text::new(alloc)?;
    push_stacks(alloc, &mut text, pid, programs, space, lwps)?;
    Ok(text.into_bytes())
}

/// The text of the stacks of the lwps of a core.
fn stacks(alloc: Global, core: &Core, programs: &[Program]) -> Result<Bytes, NoMemory>
    requires { core.now.pid < 2 ^ 32 }
    ensures { IfOk result (λ text. text ≡ lwps_stacks core.now.pid programs.now (core_space core.now) core.now.lwps) }
{
    let space = CoreSpace {
        maps: &core.maps,
        memory: &core.memory,
    };
    stacks_in(alloc, core.pid as u32, programs, &space, &core.lwps)
}

/// The bytes of the record of a core that a tool shows; of a tool that shows none of them, or more, none.
#[tactic(auto, unfolding(crate::specs::CoreTools::record_of))]
fn record_of(alloc: Global, kind: ToolKind, core: &Core) -> Result<Bytes, NoMemory>
    ensures { IfOk result (λ bytes. bytes ≡ record_of kind core.now) }
{
    match kind {
        ToolKind::Pflags => write_lstatus(alloc, &core.lwps),
        ToolKind::Psig => Ok(Bytes::from_vec(Vec::from_slice(
            alloc,
            &encode_sigact(&core.sigact),
        )?)),
        ToolKind::Pmap => write_map(alloc, &core.maps),
        ToolKind::Pfiles => write_fds(alloc, &core.fds),
        ToolKind::Pstack | ToolKind::Pstop | ToolKind::Prun | ToolKind::Pwait | ToolKind::Ptree => {
            Ok(Bytes::from_vec(Vec::new(alloc)))
        }
    }
}

/// The text that a tool prints of a core, with the labels of these programs. That of `pflags`, `psig`, `pstack`, `pmap`
/// and `pfiles` is the one of the live process, as it was when the core was made. What the others show is no part of a
/// core, and they have no text.
#[tactic(auto, unfolding(crate::specs::CoreTools::tool_over_core))]
pub fn tool_over_core(
    alloc: Global,
    kind: ToolKind,
    core: &Core,
    programs: &[Program],
) -> Result<Bytes, NoMemory>
    requires core { IsCore core.now }
    requires fits { length (core_bytes core.now) < 2 ^ 64 }
    ensures { IfOk result (λ text. text ≡ tool_over_core kind core.now programs.now) }
{
    match kind {
        ToolKind::Pflags | ToolKind::Psig | ToolKind::Pmap | ToolKind::Pfiles => {
            let bytes = record_of(alloc, kind, core)?;
            text_of_record(alloc, kind, core.pid as u32, bytes.as_slice())
        }
        ToolKind::Pstack => stacks(alloc, core, programs),
        ToolKind::Pstop | ToolKind::Prun | ToolKind::Pwait | ToolKind::Ptree => {
            Ok(Bytes::from_vec(Vec::new(alloc)))
        }
    }
}
