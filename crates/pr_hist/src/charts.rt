//! Charts of a history: a row an entry, in it a cell a lane, and between cells the messages and the births.
ghost use Rattle.std.specs.Prelude.{◌≡◌, ◌++◌, ◌+◌, ◌-◌, ◌≤◌, ◌<◌, ◌^◌, [], false, decimal, drop, OnOk};
ghost use Rattle.std.specs.List.{list_any};
ghost use Rattle.pr_hist.specs.Charts.{act_aims, call_aims, cell, cell_width, cells, fill, first_cell, first_name, fitted, foot_text, has_passed, head_text, is_absent, is_first_target, is_refusal, is_target, known_aims, label_text, lanes_cell, legend, line_text, mark, marks_above, marks_besides, marks_of, name_cell, name_cells, row_text, tip};
ghost use Rattle.pr_hist.specs.Entries.{words_of};
ghost use Rattle.pr_hist.specs.Pictures.{picture_row};

use crate::briefs::write_brief;
use crate::entries::{words_of, write_actor};
use crate::lanes::{Lane, Stand, is_born, is_lane_of, is_lwp_of, is_same};
use crate::names::{Known, Names};
use crate::pictures::{
    write_picture_cell, write_picture_foot, write_picture_head, write_picture_name,
    write_picture_row,
};
use crate::texts::end_line;
use pr_model::{Act, Actor, Call, Entry, Reply};
use pr_num::NoMemory;
use pr_text::{Text, front};
use std::alloc::Global;

/// The kinds of charts.
#[derive(Clone, Copy, Debug, PartialEq, Eq)]
pub enum Chart {
    /// Lines of text, of so many columns.
    Lanes(u64),
    /// A picture in SVG.
    Picture,
}

/// A row of a chart: its number, and how many lanes it has.
#[derive(Clone, Copy)]
pub struct Sheet {
    pub chart: Chart,
    pub row: u64,
    pub lanes: u64,
}

/// What a cell has besides how its lane stands.
#[derive(Clone, Copy)]
pub struct Marks {
    /// The words of the entry.
    pub acts: bool,
    /// A part of an arrow.
    pub arrow: bool,
    /// The tip of an arrow, to the next lane.
    pub tip: bool,
}

/// Whether a control file is an lwp's: that of its process, or its own.
fn known_aims(known: Option<Known>, actor: Actor) -> bool
    ensures { result ≡ known_aims known actor }
{
    match known {
        None => false,
        Some(known) => {
            is_lwp_of(known.pid, actor)
                && (known.lwp == 0 || is_same(Actor::Lwp(known.pid, known.lwp), actor))
        }
    }
}

/// Whether a call sends something to an actor: a message, a signal, an interrupt.
#[tactic(auto, unfolding(crate::specs::Charts::call_aims))]
fn call_aims(names: &Names, call: &Call, actor: Actor) -> bool
    ensures { result ≡ call_aims names.now call.now actor }
{
    match call {
        Call::Ctl { handle, .. } => known_aims(names.get(*handle).copied(), actor),
        Call::Kill { pid, .. } => is_lwp_of(*pid, actor),
        Call::Interrupt { controller } => is_same(Actor::Controller(*controller), actor),
        _ => false,
    }
}

#[tactic(auto, unfolding(crate::specs::Charts::is_refusal))]
fn is_refusal(reply: &Reply) -> bool
    ensures { result ≡ is_refusal reply.now }
{
    match reply {
        Reply::Fail(_) => true,
        _ => false,
    }
}

#[tactic(auto, unfolding(crate::specs::Charts::act_aims))]
fn act_aims(names: &Names, act: &Act, actor: Actor) -> bool
    ensures { result ≡ act_aims names.now act.now actor }
{
    match act {
        Act::Call(call, reply) => !is_refusal(reply) && call_aims(names, call, actor),
        Act::Turn(_) => false,
        Act::Tick(_) => false,
    }
}

#[tactic(auto, unfolding(crate::specs::Charts::is_absent))]
fn is_absent(stand: Stand) -> bool
    ensures { result ≡ is_absent stand }
{
    match stand {
        Stand::Absent => true,
        _ => false,
    }
}

/// Whether an entry comes to a lane: it made its lwp, or sent it something.
#[tactic(auto, unfolding(crate::specs::Charts::is_target))]
fn is_target(names: &Names, entry: &Entry, lane: &Lane) -> bool
    ensures { result ≡ is_target names.now entry.now lane.now }
{
    !is_absent(lane.stand)
        && (is_born(entry, lane.actor) || act_aims(names, &entry.act, lane.actor))
}

fn is_first_target(names: &Names, entry: &Entry, lanes: &[Lane]) -> bool
    ensures { result ≡ is_first_target names.now entry.now lanes.now }
{
    match lanes {
        [] => false,
        [lane, ..] => is_target(names, entry, lane),
    }
}

fn has_target(names: &Names, entry: &Entry, lanes: &[Lane]) -> bool
    ensures { result ≡ list_any (is_target names.now entry.now) lanes.now }
{
    lanes.iter().any(|lane| is_target(names, entry, lane))
}

/// What a cell has besides how its lane stands.
#[tactic(auto, unfolding(crate::specs::Charts::marks_of))]
fn marks_of(names: &Names, entry: &Entry, passed: bool, lane: &Lane, rest: &[Lane]) -> Marks
    ensures { result ≡ marks_of names.now entry.now passed lane.now rest.now }
{
    let acts = is_lane_of(entry.actor, lane);
    Marks {
        acts,
        arrow: (passed || acts) && has_target(names, entry, rest),
        tip: (passed || acts) && is_first_target(names, entry, rest),
    }
}

/// How a lane stands.
#[tactic(auto, unfolding(crate::specs::Charts::mark))]
fn mark(stand: Stand) -> &'static [u8]
    ensures { result.now ≡ mark stand }
{
    match stand {
        Stand::Absent => b" ",
        Stand::New => b"+",
        Stand::Runs => b"|",
        Stand::OnEvent => b"#",
        Stand::Requested => b"=",
        Stand::Asleep => b"z",
        Stand::JobStopped => b"T",
        Stand::Ends => b"x",
    }
}

/// A text in so many columns: cut, or with a byte behind it as often as needed.
#[tactic(auto, unfolding(crate::specs::Charts::fitted))]
fn write_fitted(text: &mut Text, fill: u8, width: usize, bytes: &[u8]) -> Result<(), NoMemory>
    requires { width < 2 ^ 63 }
    ensures { OnOk result (text.new ≡ text.old ++ fitted fill width bytes.now) }
{
    text.text(front(bytes, width))?;
    text.times(fill, width.saturating_sub(bytes.len()))
}

/// How wide a cell is where so many lanes share a line.
#[tactic(auto, unfolding(crate::specs::Charts::cell_width))]
fn cell_width(width: u64, lanes: u64) -> usize
    ensures value { result ≡ cell_width width lanes }
    ensures range { (8 ≤ result) × (result ≤ 1000) }
{
    if lanes == 0 {
        return 8;
    }
    let share = width.saturating_sub(8) / lanes;
    share.max(8).min(1_000) as usize
}

#[tactic(auto, unfolding(crate::specs::Charts::fill))]
fn fill(marks: Marks) -> u8
    ensures { result ≡ fill marks }
{
    if marks.arrow { b'-' } else { b' ' }
}

#[tactic(auto, unfolding(crate::specs::Charts::tip))]
fn tip(marks: Marks) -> &'static [u8]
    ensures { result.now ≡ tip marks }
{
    if marks.tip {
        b">"
    } else if marks.arrow {
        b"-"
    } else {
        b" "
    }
}

/// The words of the entry, with room for an arrow behind them.
#[tactic(auto, unfolding(crate::specs::Charts::label_text))]
fn write_label(text: &mut Text, width: usize, marks: Marks, label: &[u8]) -> Result<(), NoMemory>
    requires { 8 ≤ width }
    ensures { OnOk result (text.new ≡ text.old ++ label_text width marks label.now) }
{
    if !marks.acts {
        return Ok(());
    }
    text.text(b" ")?;
    text.text(front(label, width - 4))?;
    text.text(b" ")
}

/// The words of the entry, and what fills the cell behind them.
#[tactic(auto, using(crate::proofs::LineLemmas::filled))]
fn write_filled(text: &mut Text, width: usize, marks: Marks, label: &[u8]) -> Result<(), NoMemory>
    requires { (8 ≤ width) × (width < 2 ^ 63) }
    ensures { OnOk result (text.new ≡ text.old ++ fitted (fill marks) (width - 2) (label_text width marks label.now)) }
{
    let start = text.len();
    write_label(text, width, marks, label)?;
    let room = (width - 2).saturating_sub(text.len() - start);
    text.times(fill(marks), room)
}

/// A cell of a line.
#[tactic(auto, unfolding(crate::specs::Charts::lanes_cell))]
fn write_lanes_cell(
    text: &mut Text,
    width: usize,
    marks: Marks,
    stand: Stand,
    label: &[u8],
) -> Result<(), NoMemory>
    requires { (8 ≤ width) × (width < 2 ^ 63) }
    ensures { OnOk result (text.new ≡ text.old ++ lanes_cell width marks stand label.now) }
{
    text.text(mark(stand))?;
    write_filled(text, width, marks, label)?;
    text.text(tip(marks))
}

/// A cell, by the kind of chart.
#[tactic(auto, unfolding(crate::specs::Charts::cell))]
fn write_cell(
    text: &mut Text,
    sheet: Sheet,
    marks: Marks,
    lane: &Lane,
    behind: usize,
    label: &[u8],
) -> Result<(), NoMemory>
    requires { behind + 1 < 2 ^ 63 }
    ensures { OnOk result (text.new ≡ text.old ++ cell sheet marks lane.now behind label.now) }
{
    match sheet.chart {
        Chart::Lanes(width) => {
            let width = cell_width(width, sheet.lanes);
            write_lanes_cell(text, width, marks, lane.stand, label)
        }
        Chart::Picture => {
            let column = sheet.lanes.saturating_sub(behind as u64 + 1);
            write_picture_cell(text, sheet.row, column, marks, lane.stand, label)
        }
    }
}

/// The cell of the first of these lanes; `passed`: the lane of who acted stands before them.
#[tactic(auto, unfolding(crate::specs::Charts::first_cell))]
fn write_first_cell(
    text: &mut Text,
    sheet: Sheet,
    names: &Names,
    entry: &Entry,
    label: &[u8],
    passed: bool,
    lanes: &[Lane],
) -> Result<(), NoMemory>
    ensures { OnOk result (text.new ≡ text.old
        ++ first_cell sheet names.now entry.now label.now passed lanes.now) }
{
    match lanes {
        [] => Ok(()),
        [lane, rest @ ..] => {
            let marks = marks_of(names, entry, passed, lane, rest);
            write_cell(text, sheet, marks, lane, rest.len(), label)
        }
    }
}

/// Whether the lane of who acted stands before the second of these lanes.
#[tactic(auto, unfolding(crate::specs::Charts::has_passed))]
fn has_passed(entry: &Entry, passed: bool, lanes: &[Lane]) -> bool
    ensures { result ≡ has_passed entry.now passed lanes.now }
{
    match lanes {
        [] => passed,
        [lane, ..] => passed || is_lane_of(entry.actor, lane),
    }
}

/// The lanes from a place on.
#[tactic(auto, using(std::proofs::lemmas::List::drop_min))]
fn lanes_from(lanes: &[Lane], place: usize) -> &[Lane]
    ensures { result.now ≡ drop place lanes.now }
{
    &lanes[place.min(lanes.len())..]
}

/// The cells of lanes.
fn write_cells(
    text: &mut Text,
    sheet: Sheet,
    names: &Names,
    entry: &Entry,
    label: &[u8],
    lanes: &[Lane],
) -> Result<(), NoMemory>
    ensures { OnOk result (text.new ≡ text.old ++ cells sheet names.now entry.now label.now false lanes.now) }
{
    let mut passed = false;
    for at in 0..lanes.len() {
        let left = lanes_from(lanes, at);
        write_first_cell(text, sheet, names, entry, label, passed, left)?;
        passed = has_passed(entry, passed, left);
    }
    Ok(())
}

/// The name of a lane above its cells.
#[tactic(auto, unfolding(crate::specs::Charts::name_cell))]
fn write_name_cell(
    alloc: Global,
    text: &mut Text,
    sheet: Sheet,
    lane: &Lane,
    behind: usize,
) -> Result<(), NoMemory>
    requires { behind + 1 < 2 ^ 63 }
    ensures { OnOk result (text.new ≡ text.old ++ name_cell sheet lane.now behind) }
{
    let mut name = Text::new(alloc)?;
    write_actor(&mut name, lane.actor)?;
    match sheet.chart {
        Chart::Lanes(width) => {
            write_fitted(text, b' ', cell_width(width, sheet.lanes), name.as_slice())
        }
        Chart::Picture => {
            let column = sheet.lanes.saturating_sub(behind as u64 + 1);
            write_picture_name(text, column, name.as_slice())
        }
    }
}

/// The name of the first of these lanes.
#[tactic(auto, unfolding(crate::specs::Charts::first_name))]
fn write_first_name(
    alloc: Global,
    text: &mut Text,
    sheet: Sheet,
    lanes: &[Lane],
) -> Result<(), NoMemory>
    ensures { OnOk result (text.new ≡ text.old ++ first_name sheet lanes.now) }
{
    match lanes {
        [] => Ok(()),
        [lane, rest @ ..] => write_name_cell(alloc, text, sheet, lane, rest.len()),
    }
}

/// The names of lanes.
fn write_names(alloc: Global, text: &mut Text, sheet: Sheet, lanes: &[Lane]) -> Result<(), NoMemory>
    ensures { OnOk result (text.new ≡ text.old ++ name_cells sheet lanes.now) }
{
    for at in 0..lanes.len() {
        write_first_name(alloc, text, sheet, lanes_from(lanes, at))?;
    }
    Ok(())
}

/// The row of an entry as a line.
#[tactic(auto, using(crate::proofs::LineLemmas::ended))]
fn write_lanes_row(
    text: &mut Text,
    sheet: Sheet,
    number: usize,
    names: &Names,
    lanes: &[Lane],
    entry: &Entry,
    label: &[u8],
) -> Result<(), NoMemory>
    ensures { OnOk result (text.new ≡ text.old
        ++ line_text (decimal number) (cells sheet names.now entry.now label.now false lanes.now)) }
{
    let start = text.len();
    let mut digits = itoa::Buffer::new();
    write_fitted(text, b' ', 8, digits.format(number as u64).as_bytes())?;
    write_cells(text, sheet, names, entry, label, lanes)?;
    end_line(text, start)
}

/// The row of an entry in a picture.
fn write_drawn_row(
    alloc: Global,
    text: &mut Text,
    sheet: Sheet,
    full: bool,
    number: usize,
    names: &Names,
    lanes: &[Lane],
    entry: &Entry,
    label: &[u8],
) -> Result<(), NoMemory>
    ensures { OnOk result (text.new ≡ text.old
        ++ picture_row sheet.row number (words_of full number names.now entry.now)
        (cells sheet names.now entry.now label.now false lanes.now)) }
{
    let mut words = Text::new(alloc)?;
    words_of(&mut words, full, names, number, entry)?;
    let mut drawn = Text::new(alloc)?;
    write_cells(&mut drawn, sheet, names, entry, label, lanes)?;
    write_picture_row(
        text,
        sheet.row,
        number as u64,
        words.as_slice(),
        drawn.as_slice(),
    )
}

/// The row of the entry of a number.
#[tactic(auto, unfolding(crate::specs::Charts::row_text))]
pub fn write_row(
    alloc: Global,
    text: &mut Text,
    sheet: Sheet,
    full: bool,
    number: usize,
    names: &Names,
    lanes: &[Lane],
    entry: &Entry,
) -> Result<(), NoMemory>
    ensures { OnOk result (text.new ≡ text.old ++ row_text sheet full number names.now lanes.now entry.now) }
{
    let mut label = Text::new(alloc)?;
    write_brief(&mut label, names, &entry.act)?;
    let label = label.as_slice();
    match sheet.chart {
        Chart::Lanes(_) => write_lanes_row(text, sheet, number, names, lanes, entry, label),
        Chart::Picture => {
            write_drawn_row(alloc, text, sheet, full, number, names, lanes, entry, label)
        }
    }
}

#[tactic(auto, unfolding(crate::specs::Charts::marks_above))]
fn marks_above() -> &'static [u8]
    ensures { result.now ≡ marks_above }
{
    b"| runs  + made, no turn yet  # stopped on an event  = stopped on request"
}

#[tactic(auto, unfolding(crate::specs::Charts::marks_besides))]
fn marks_besides() -> &'static [u8]
    ensures { result.now ≡ marks_besides }
{
    b"  z asleep  T stopped by a signal  x ends\n"
}

#[tactic(auto, unfolding(crate::specs::Charts::legend))]
fn write_legend(text: &mut Text) -> Result<(), NoMemory>
    ensures { OnOk result (text.new ≡ text.old ++ legend) }
{
    text.text(marks_above())?;
    text.text(marks_besides())
}

/// The names of lanes as a line.
#[tactic(auto, using(crate::proofs::LineLemmas::ended))]
fn write_names_line(
    alloc: Global,
    text: &mut Text,
    sheet: Sheet,
    lanes: &[Lane],
) -> Result<(), NoMemory>
    ensures { OnOk result (text.new ≡ text.old ++ line_text [] (name_cells sheet lanes.now)) }
{
    let start = text.len();
    write_fitted(text, b' ', 8, b"")?;
    write_names(alloc, text, sheet, lanes)?;
    end_line(text, start)
}

/// What stands above the rows, of which there are so many.
#[tactic(auto, unfolding(crate::specs::Charts::head_text))]
pub fn write_head(
    alloc: Global,
    text: &mut Text,
    sheet: Sheet,
    lanes: &[Lane],
) -> Result<(), NoMemory>
    ensures { OnOk result (text.new ≡ text.old ++ head_text sheet lanes.now) }
{
    match sheet.chart {
        Chart::Lanes(_) => {
            write_legend(text)?;
            write_names_line(alloc, text, sheet, lanes)
        }
        Chart::Picture => {
            write_picture_head(text, sheet.row, sheet.lanes)?;
            write_names(alloc, text, sheet, lanes)
        }
    }
}

/// What stands below the last row: nothing under lanes, the end of the picture in SVG.
#[tactic(auto, unfolding(crate::specs::Charts::foot_text))]
pub fn write_foot(text: &mut Text, chart: Chart) -> Result<(), NoMemory>
    ensures { OnOk result (text.new ≡ text.old ++ foot_text chart) }
{
    match chart {
        Chart::Lanes(_) => Ok(()),
        Chart::Picture => write_picture_foot(text),
    }
}
