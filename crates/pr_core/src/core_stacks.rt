//! The stacks of the lwps of a core.
ghost use Rattle.std.specs.Prelude.{◌≡◌, ◌++◌, IfOk, OnOk};
ghost use Rattle.std.specs.List.{flat_map};
ghost use Rattle.std.specs.Option.{option_copied};
ghost use Rattle.pr_tools.specs.Pstack.{frame_line, program_of};
ghost use Rattle.pr_tools.specs.SpaceStacks.{first_instruction, lwp_stack, lwps_stacks, returns_from};
ghost use Rattle.pr_tools.specs.Steps.{read_frames};
ghost use Rattle.pr_core.specs.CoreMemory.{space_in};

use crate::core_memory::{CoreSpace, SHORT_READ};
use crate::memory_walks::word_at;
use pr_asm::Program;
use pr_codec::WORD;
use pr_model::PC;
use pr_num::NoMemory;
use pr_num::layout::TEXT_BASE;
use pr_rec::LwpStatus;
use pr_text::Text;
use pr_tools::{
    READ_FRAMES, end_line, instruction_in, program_of, push_frame, push_header, push_label,
};
use std::alloc::Global;

/// The place of the frame pointer among the registers.
const FP: usize = 9;

/// The lines of the frames of a stack, from a frame pointer on.
fn push_frames(
    alloc: Global,
    text: &mut Text,
    program: Option<&Program>,
    space: &CoreSpace<'_>,
    pointer: u64,
) -> Result<(), NoMemory>
    ensures { OnOk result (text.new ≡ text.old ++ flat_map (frame_line (option_copied program.entry))
        (returns_from (space_in space.now) read_frames pointer)) }
{
    let mut frame = pointer;
    let mut left = READ_FRAMES;
    while left > 0 && frame != 0 {
        let bytes = space.short(alloc, frame)?;
        if bytes.len() < SHORT_READ {
            return Ok(());
        }
        push_frame(text, program, word_at(&bytes, WORD))?;
        frame = word_at(&bytes, 0);
        left -= 1;
    }
    Ok(())
}

/// The stack of an lwp: its pc, and its frames.
#[tactic(auto, unfolding(pr_tools::specs::SpaceStacks::lwp_stack))]
fn push_stack(
    alloc: Global,
    text: &mut Text,
    program: Option<&Program>,
    space: &CoreSpace<'_>,
    lwp: &LwpStatus,
) -> Result<(), NoMemory>
    ensures { OnOk result
        (text.new ≡ text.old ++ lwp_stack (option_copied program.entry) (space_in space.now) lwp.now) }
{
    push_label(text, u64::from(lwp.id))?;
    end_line(text)?;
    push_frame(text, program, lwp.regs[PC])?;
    push_frames(alloc, text, program, space, lwp.regs[FP])
}

/// The stacks of lwps.
fn push_all(
    alloc: Global,
    text: &mut Text,
    program: Option<&Program>,
    space: &CoreSpace<'_>,
    lwps: &[LwpStatus],
) -> Result<(), NoMemory>
    ensures { OnOk result (text.new ≡ text.old
        ++ flat_map (lwp_stack (option_copied program.entry) (space_in space.now)) lwps.now) }
{
    for lwp in lwps {
        push_stack(alloc, text, program, space, lwp)?;
    }
    Ok(())
}

/// The first of these programs that begins as the text in a memory does.
fn program_in<'a>(
    alloc: Global,
    programs: &'a [Program],
    space: &CoreSpace<'_>,
) -> Result<Option<&'a Program>, NoMemory>
    ensures { IfOk result (λ program. option_copied program
        ≡ program_of programs.now (first_instruction (space_in space.now))) }
{
    let bytes = space.short(alloc, TEXT_BASE)?;
    Ok(program_of(programs, instruction_in(&bytes)))
}

/// The text of a process with these lwps and this memory: the stacks of its lwps, with the labels of the first of the
/// programs that begins as the text in its memory does.
#[tactic(auto, unfolding(pr_tools::specs::SpaceStacks::lwps_stacks))]
pub(crate) fn push_stacks(
    alloc: Global,
    text: &mut Text,
    pid: u32,
    programs: &[Program],
    space: &CoreSpace<'_>,
    lwps: &[LwpStatus],
) -> Result<(), NoMemory>
    ensures { OnOk result (text.new ≡ text.old ++ lwps_stacks pid programs.now (space_in space.now) lwps.now) }
{
    push_header(text, pid)?;
    let program = program_in(alloc, programs, space)?;
    push_all(alloc, text, program, space, lwps)
}
