//! Histories, told from their first entry to their last.
ghost use Rattle.std.specs.Prelude.{◌≡◌, ◌++◌, IfOk, OnOk};
ghost use Rattle.pr_hist.specs.Entries.{text_of};
ghost use Rattle.pr_hist.specs.Selections.{selected_text};

use crate::entries::words_of;
use crate::names::{Names, note};
use crate::selections::{Selection, write_selected};
use pr_model::History;
use pr_num::{Bytes, NoMemory};
use pr_text::Text;
use std::alloc::Global;

/// A history in words, before which this is known: a block for each entry, in their order, none left out.
///
/// Goes over the history once; the whole text is in memory.
pub fn text_of(alloc: Global, names: Names, history: &History) -> Result<Bytes, NoMemory>
    ensures { IfOk result (λ text. text ≡ text_of names history.now.entries) }
{
    let mut text = Text::new(alloc)?;
    write_history(&mut text, names, history)?;
    Ok(text.into_bytes())
}

fn write_history(text: &mut Text, names: Names, history: &History) -> Result<(), NoMemory>
    ensures { OnOk result (text.new ≡ text.old ++ text_of names history.now.entries) }
{
    let mut names = names;
    for at in 0..history.len() {
        let entry = history.get(at).unwrap();
        words_of(text, false, &names, at, entry)?;
        note(&mut names, at, entry)?;
    }
    Ok(())
}

/// A part of a history in words, before which this is known: a block for each entry that is told, in their order.
/// Entries keep their numbers, and handles their names.
///
/// Goes over the history once; the whole text is in memory.
pub fn selected_text(
    alloc: Global,
    selection: Selection,
    names: Names,
    history: &History,
) -> Result<Bytes, NoMemory>
    ensures { IfOk result (λ text. text ≡ selected_text selection names history.now.entries) }
{
    let mut text = Text::new(alloc)?;
    write_part(&mut text, selection, names, history)?;
    Ok(text.into_bytes())
}

fn write_part(
    text: &mut Text,
    selection: Selection,
    names: Names,
    history: &History,
) -> Result<(), NoMemory>
    ensures { OnOk result (text.new ≡ text.old ++ selected_text selection names history.now.entries) }
{
    let mut names = names;
    for at in 0..history.len() {
        let entry = history.get(at).unwrap();
        write_selected(text, selection, &names, at, entry)?;
        note(&mut names, at, entry)?;
    }
    Ok(())
}
