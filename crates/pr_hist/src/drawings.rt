//! Whole charts: the lanes of a history, and a row for each entry that is told.
ghost use Rattle.std.specs.Prelude.{◌≡◌, ◌++◌, ◌+◌, ◌<◌, ◌≤◌, ◌^◌, [], IfOk, OnOk};
ghost use Rattle.pr_hist.specs.Drawings.{chart_of, drawn, drawn_row, is_too_long, row_after, rows_from, rows_of, rows_text, sheet_of};

use crate::charts::{Chart, Sheet, write_foot, write_head, write_row};
use crate::lanes::{Lane, lanes_of, move_lanes};
use crate::names::{Names, note};
use crate::selections::{Selection, is_told};
use pr_model::{Entry, History};
use pr_num::{Bytes, NoMemory};
use pr_text::Text;
use std::alloc::Global;

fn sheet_of(chart: Chart, row: u64, lanes: &[Lane]) -> Sheet
    ensures { result ≡ sheet_of chart row lanes.now }
{
    Sheet {
        chart,
        row,
        lanes: lanes.len() as u64,
    }
}

/// How many rows there are with an entry, where it is told.
#[tactic(auto, unfolding(crate::specs::Drawings::row_after))]
fn row_after(selection: Selection, number: usize, row: u64, names: &Names, entry: &Entry) -> u64
    requires { row + 1 < 2 ^ 64 }
    ensures value { result ≡ row_after selection number row names.now entry.now }
    ensures range { result ≤ row + 1 }
{
    if is_told(selection, number, names, entry) {
        row + 1
    } else {
        row
    }
}

/// The row of an entry, where it is told.
#[tactic(auto, unfolding(crate::specs::Drawings::drawn_row))]
fn write_told(
    alloc: Global,
    text: &mut Text,
    chart: Chart,
    selection: Selection,
    number: usize,
    row: u64,
    names: &Names,
    lanes: &[Lane],
    entry: &Entry,
) -> Result<(), NoMemory>
    ensures { OnOk result (text.new ≡ text.old
        ++ drawn_row chart selection number row names.now lanes.now entry.now) }
{
    if !is_told(selection, number, names, entry) {
        return Ok(());
    }
    let sheet = sheet_of(chart, row, lanes);
    write_row(
        alloc,
        text,
        sheet,
        selection.full,
        number,
        names,
        lanes,
        entry,
    )
}

/// The rows of the entries that are told.
fn write_rows(
    alloc: Global,
    text: &mut Text,
    chart: Chart,
    selection: Selection,
    names: Names,
    lanes: &mut [Lane],
    history: &History,
) -> Result<(), NoMemory>
    ensures { OnOk result (text.new ≡ text.old ++ rows_text chart selection 0 0 names lanes.old history.now.entries) }
{
    let mut names = names;
    let mut row = 0;
    for at in 0..history.len() {
        let entry = history.get(at).unwrap();
        move_lanes(lanes, entry);
        write_told(alloc, text, chart, selection, at, row, &names, lanes, entry)?;
        row = row_after(selection, at, row, &names, entry);
        note(&mut names, at, entry)?;
    }
    Ok(())
}

/// How many entries are told.
fn rows_of(alloc: Global, selection: Selection, history: &History) -> Result<u64, NoMemory>
    ensures { IfOk result (λ rows. rows ≡ rows_of selection history.now.entries) }
{
    let mut names = Names::new(alloc);
    let mut row = 0;
    for at in 0..history.len() {
        let entry = history.get(at).unwrap();
        row = row_after(selection, at, row, &names, entry);
        note(&mut names, at, entry)?;
    }
    Ok(row)
}

/// Whether a chart has too many rows.
#[tactic(auto, unfolding(crate::specs::Drawings::is_too_long))]
fn is_too_long(chart: Chart, rows: u64) -> bool
    ensures { result ≡ is_too_long chart rows }
{
    match chart {
        Chart::Lanes(_) => false,
        Chart::Picture => rows > 5_000,
    }
}

/// A chart with these lanes and so many rows, before which this is known.
#[tactic(auto, unfolding(crate::specs::Drawings::drawn))]
fn drawn(
    alloc: Global,
    chart: Chart,
    selection: Selection,
    names: Names,
    lanes: &mut [Lane],
    rows: u64,
    history: &History,
) -> Result<Bytes, NoMemory>
    ensures { IfOk result (λ text. text ≡ drawn chart selection names lanes.old rows history.now.entries) }
{
    let mut text = Text::new(alloc)?;
    write_head(alloc, &mut text, sheet_of(chart, rows, lanes), lanes)?;
    write_rows(alloc, &mut text, chart, selection, names, lanes, history)?;
    write_foot(&mut text, chart)?;
    Ok(text.into_bytes())
}

/// The chart of a history, or of a part of it, before which this is known: a row for each entry that is told, in their
/// order. `None` where it has too many rows: a picture of more than 5,000.
///
/// Goes over the history five times, and in each row over the lanes; the whole text is in memory.
#[tactic(auto, unfolding(crate::specs::Drawings::chart_of))]
pub fn chart_of(
    alloc: Global,
    chart: Chart,
    selection: Selection,
    names: Names,
    history: &History,
) -> Result<Option<Bytes>, NoMemory>
    ensures { IfOk result (λ text. text ≡ chart_of chart selection names history.now.entries) }
{
    let rows = rows_of(alloc, selection, history)?;
    if is_too_long(chart, rows) {
        return Ok(None);
    }
    let mut lanes = lanes_of(alloc, selection.who, history)?;
    let text = drawn(alloc, chart, selection, names, &mut lanes, rows, history)?;
    Ok(Some(text))
}
