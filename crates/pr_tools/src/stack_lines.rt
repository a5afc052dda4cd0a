//! The text of pstack.
ghost use Rattle.std.specs.Prelude.{◌≡◌, ◌++◌, map, find, option_map, OnOk};
ghost use Rattle.std.specs.List.{flat_map};
ghost use Rattle.std.specs.Option.{option_copied};
ghost use Rattle.pr_num.specs.Programs.{Program as Plain};
ghost use Rattle.pr_rec.specs.RecordWords.{lwpstatus_words_of};
ghost use Rattle.pr_tools.specs.Pstack.{begins_with, program_of, distance_text, symbol_text, frame_line, frame_line_of, stack_text, pstack_text};

use crate::entries::lwps_in;
use crate::stacks::CallFrame;
use crate::texts::{end_line, push_header, push_label};
use pr_asm::Program;
use pr_model::PC;
use pr_num::{Instruction, NoMemory};
use pr_rec::LwpStatus;
use pr_text::Text;
use std::alloc::Global;

/// Whether a program's text begins with these 16 bytes.
#[tactic(auto, unfolding(crate::specs::Pstack::begins_with))]
fn begins_with(bytes: &[u8; Instruction::SIZE], code: &[Instruction]) -> bool
    ensures { result ≡ begins_with bytes.now code.now }
{
    match code {
        [] => false,
        [first, ..] => first.encode().as_slice() == bytes.as_slice(),
    }
}

/// The first program that begins with the first instruction of a process.
fn find_program<'a>(programs: &'a [Program], bytes: &[u8; Instruction::SIZE]) -> Option<&'a Program>
    ensures { option_copied result ≡ find (λ (p : Plain). begins_with bytes.now p.code) programs.now }
{
    programs
        .iter()
        .find(|program| begins_with(bytes, program.code()))
}

/// The first program that begins with the first instruction of a process, where that was read.
#[tactic(auto, unfolding(crate::specs::Pstack::program_of))]
pub fn program_of<'a>(
    programs: &'a [Program],
    first: Option<[u8; Instruction::SIZE]>,
) -> Option<&'a Program>
    ensures { option_copied result ≡ program_of programs.now first }
{
    match first {
        None => None,
        Some(bytes) => find_program(programs, &bytes),
    }
}

/// A label of a program, and how far behind it an address lies.
fn push_distance(text: &mut Text, symbol: Option<(&[u8], u64)>) -> Result<(), NoMemory>
    ensures { OnOk result (text.new ≡ text.old ++ distance_text (option_map (λ s. (s.0.now, s.1)) symbol.entry)) }
{
    match symbol {
        None => text.text(b"?"),
        Some((name, distance)) => {
            text.text(name)?;
            text.text(b"+")?;
            text.hex(distance)
        }
    }
}

/// The label to which an address belongs, where there is one.
#[tactic(auto, unfolding(crate::specs::Pstack::symbol_text))]
fn push_symbol(text: &mut Text, program: Option<&Program>, pc: u64) -> Result<(), NoMemory>
    ensures { OnOk result (text.new ≡ text.old ++ symbol_text (option_copied program.entry) pc) }
{
    match program {
        None => text.text(b"?"),
        Some(program) => push_distance(text, program.symbol_at(pc)),
    }
}

/// The line of a frame.
#[tactic(auto, unfolding(crate::specs::Pstack::frame_line))]
pub fn push_frame(text: &mut Text, program: Option<&Program>, pc: u64) -> Result<(), NoMemory>
    ensures { OnOk result (text.new ≡ text.old ++ frame_line (option_copied program.entry) pc) }
{
    text.text(b"  ")?;
    text.hex8(pc)?;
    text.text(b" ")?;
    push_symbol(text, program, pc)?;
    end_line(text)
}

/// The lines of those frames that are an lwp's.
#[tactic(auto, unfolding(crate::specs::Pstack::frame_line_of))]
fn push_frames(
    text: &mut Text,
    program: Option<&Program>,
    frames: &[CallFrame],
    lwp: u64,
) -> Result<(), NoMemory>
    ensures { OnOk result
        (text.new ≡ text.old ++ flat_map (frame_line_of (option_copied program.entry) lwp) frames.now) }
{
    for frame in frames {
        if frame.lwp == lwp {
            push_frame(text, program, frame.pc)?;
        }
    }
    Ok(())
}

/// The stack of an lwp: its pc, and the frames of it that were read.
#[tactic(auto, unfolding(crate::specs::Pstack::stack_text))]
fn push_stack(
    text: &mut Text,
    program: Option<&Program>,
    frames: &[CallFrame],
    lwp: &LwpStatus,
) -> Result<(), NoMemory>
    ensures { OnOk result
        (text.new ≡ text.old ++ stack_text (option_copied program.entry) frames.now (lwpstatus_words_of lwp.now)) }
{
    let id = u64::from(lwp.id);
    push_label(text, id)?;
    end_line(text)?;
    push_frame(text, program, lwp.regs[PC])?;
    push_frames(text, program, frames, id)
}

/// The stacks of the lwps.
fn push_stacks(
    text: &mut Text,
    program: Option<&Program>,
    frames: &[CallFrame],
    lwps: &[LwpStatus],
) -> Result<(), NoMemory>
    ensures { OnOk result
        (text.new
        ≡ text.old
        ++ flat_map (stack_text (option_copied program.entry) frames.now) (map lwpstatus_words_of lwps.now)) }
{
    for lwp in lwps {
        push_stack(text, program, frames, lwp)?;
    }
    Ok(())
}

/// The text of a process, of the status of all its lwps, its first instruction, and the frames of their stacks.
#[tactic(auto, unfolding(crate::specs::Pstack::pstack_text))]
pub fn push_pstack(
    alloc: Global,
    text: &mut Text,
    pid: u32,
    bytes: &[u8],
    first: Option<[u8; Instruction::SIZE]>,
    frames: &[CallFrame],
    programs: &[Program],
) -> Result<(), NoMemory>
    ensures { OnOk result (text.new ≡ text.old ++ pstack_text pid bytes.now first frames.now programs.now) }
{
    push_header(text, pid)?;
    match lwps_in(alloc, bytes)? {
        None => Ok(()),
        Some(lwps) => push_stacks(text, program_of(programs, first), frames, &lwps),
    }
}
