//! The text of apfiles: a line for each descriptor that is open.
ghost use Rattle.std.specs.Prelude.{◌≡◌, ◌++◌, OnOk};
ghost use Rattle.std.specs.List.{flat_map};
ghost use Rattle.pr_probe.specs.DescriptorLines.{kind_of_word, kind_in, kind_text, descriptor_line, apfiles_text};

use pr_codec::word;
use pr_num::{FdKind, NoMemory};
use pr_text::Text;
use pr_tools::{end_line, push_header};

/// A descriptor that is open, and what it stands for.
#[derive(Clone, Copy)]
pub struct OpenDescriptor {
    pub descriptor: u32,
    pub kind: FdKind,
}

/// What a word of fstat(2) says of its descriptor.
#[tactic(auto, unfolding(crate::specs::DescriptorLines::kind_of_word))]
fn kind_of_word(word: u64) -> Option<FdKind>
    ensures { result ≡ kind_of_word word }
{
    match word {
        1 => Some(FdKind::File),
        2 => Some(FdKind::PipeReader),
        3 => Some(FdKind::PipeWriter),
        _ => None,
    }
}

/// The same of the first word of an answer; `None` where the answer has no whole word, or that says nothing.
#[tactic(auto, unfolding(crate::specs::DescriptorLines::kind_in))]
pub(crate) fn kind_in(answer: &[u8]) -> Option<FdKind>
    ensures { result ≡ kind_in answer.now }
{
    match word(answer, 0) {
        Err(_) => None,
        Ok(word) => kind_of_word(word),
    }
}

/// What a descriptor stands for.
#[tactic(auto, unfolding(crate::specs::DescriptorLines::kind_text))]
fn push_kind(text: &mut Text, kind: FdKind) -> Result<(), NoMemory>
    ensures { OnOk result (text.new ≡ text.old ++ kind_text kind) }
{
    match kind {
        FdKind::File => text.text(b"file"),
        FdKind::PipeReader => text.text(b"pipe read"),
        FdKind::PipeWriter => text.text(b"pipe write"),
    }
}

/// The line of a descriptor.
#[tactic(auto, unfolding(crate::specs::DescriptorLines::descriptor_line))]
fn push_line(text: &mut Text, line: OpenDescriptor) -> Result<(), NoMemory>
    ensures { OnOk result (text.new ≡ text.old ++ descriptor_line line) }
{
    text.text(b" ")?;
    text.decimal(u64::from(line.descriptor))?;
    text.text(b": ")?;
    push_kind(text, line.kind)?;
    end_line(text)
}

/// The lines of descriptors.
fn push_lines(text: &mut Text, lines: &[OpenDescriptor]) -> Result<(), NoMemory>
    ensures { OnOk result (text.new ≡ text.old ++ flat_map descriptor_line lines.now) }
{
    for line in lines {
        push_line(text, *line)?;
    }
    Ok(())
}

/// The text of a process, of its open descriptors.
#[tactic(auto, unfolding(crate::specs::DescriptorLines::apfiles_text))]
pub(crate) fn push_apfiles(
    text: &mut Text,
    pid: u32,
    lines: &[OpenDescriptor],
) -> Result<(), NoMemory>
    ensures { OnOk result (text.new ≡ text.old ++ apfiles_text pid lines.now) }
{
    push_header(text, pid)?;
    push_lines(text, lines)
}
