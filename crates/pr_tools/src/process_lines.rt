//! The text of ptree.
ghost use Rattle.std.specs.Prelude.{◌≡◌, ◌≤◌, ◌++◌, map, OnOk};
ghost use Rattle.pr_rec.specs.RecordWords.{list_entry_words_of};
ghost use Rattle.pr_tools.specs.Ptree.{ids_rise, process_line, lines_below, tree_text, ptree_text};

use crate::entries::entries_in;
use crate::names::name_in;
use crate::texts::end_line;
use pr_num::NoMemory;
use pr_rec::ListEntry;
use pr_text::Text;
use std::alloc::Global;

/// The greatest depth that is shown.
const DEEPEST: usize = 32;

/// Whether processes stand by rising id, each above this one.
#[tactic(auto, unfolding(crate::specs::Ptree::ids_rise))]
fn ids_rise(least: u32, processes: &[ListEntry]) -> bool
    ensures { result ≡ ids_rise least (map list_entry_words_of processes.now) }
{
    let mut last = least;
    for process in processes {
        if process.id <= last {
            return false;
        }
        last = process.id;
    }
    true
}

/// The line of a process.
#[tactic(auto, unfolding(crate::specs::Ptree::process_line))]
fn push_process(text: &mut Text, depth: usize, process: &ListEntry) -> Result<(), NoMemory>
    requires { depth ≤ 32 }
    ensures { OnOk result (text.new ≡ text.old ++ process_line depth (list_entry_words_of process.now)) }
{
    text.times(b' ', 2 * depth)?;
    text.decimal(u64::from(process.id))?;
    text.text(b" ")?;
    text.text(name_in(&process.program))?;
    end_line(text)
}

/// The lines of the children of a process, each with those of its own children after it, so many levels deep.
#[tactic(auto, using(crate::proofs::TreeLemmas::levels), unfolding(crate::specs::Ptree::branch_lines))]
fn push_below(
    text: &mut Text,
    levels: usize,
    depth: usize,
    processes: &[ListEntry],
    parent: u32,
) -> Result<(), NoMemory>
    requires { depth ≤ 32 }
    ensures { OnOk result
        (text.new ≡ text.old ++ lines_below levels depth (map list_entry_words_of processes.now) parent) }
{
    if levels == 0 {
        return Ok(());
    }
    let deeper = (depth + 1).min(DEEPEST);
    for process in processes {
        if process.parent == parent {
            push_process(text, depth, process)?;
            push_below(text, levels - 1, deeper, processes, process.id)?;
        }
    }
    Ok(())
}

/// The lines of all processes by rising id.
fn push_tree(text: &mut Text, processes: &[ListEntry]) -> Result<(), NoMemory>
    ensures { OnOk result (text.new ≡ text.old ++ tree_text (map list_entry_words_of processes.now)) }
{
    if !ids_rise(0, processes) {
        return Ok(());
    }
    push_below(text, processes.len(), 0, processes, 0)
}

/// The text of a list of processes.
#[tactic(auto, unfolding(crate::specs::Ptree::ptree_text))]
pub fn push_ptree(alloc: Global, text: &mut Text, bytes: &[u8]) -> Result<(), NoMemory>
    ensures { OnOk result (text.new ≡ text.old ++ ptree_text bytes.now) }
{
    match entries_in::<ListEntry>(alloc, bytes)? {
        None => Ok(()),
        Some(processes) => push_tree(text, &processes),
    }
}
