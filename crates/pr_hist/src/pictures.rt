//! The picture of a history in SVG 1.1.
ghost use Rattle.std.specs.Prelude.{◌≡◌, ◌++◌, OnOk};
ghost use Rattle.std.specs.List.{flat_map};
ghost use Rattle.pr_hist.specs.Pictures.{across, act_if, arrow, arrow_if, arrow_tip, bar, bar_kind, bar_of, dot, down, escaped, escaped_byte, label, label_place, label_words, picture_cell, picture_foot, picture_head, picture_name, picture_row, piece_text, point, row_number, row_title};

use crate::charts::Marks;
use crate::lanes::Stand;
use pr_num::NoMemory;
use pr_text::{Text, front};

/// A fixed text between what is drawn, by its name.
#[derive(Clone, Copy)]
pub enum Piece {
    Open,
    Height,
    Font,
    StyleText,
    StyleRuns,
    StyleStops,
    StyleOthers,
    StyleEnds,
    Page,
    LegendRuns,
    LegendNew,
    LegendEvent,
    LegendRequested,
    LegendAsleep,
    LegendJob,
    LegendEnds,
    Close,
    RowTitle,
    RowNumber,
    RowEnd,
    Bar,
    From,
    Down,
    Arrow,
    Across,
    Tip,
    Head,
    Dot,
    DotRow,
    Shut,
    Label,
    LabelRow,
    TextOpen,
    TextEnd,
    Name,
}

#[tactic(auto, unfolding(crate::specs::Pictures::piece_text))]
fn bytes_of(piece: Piece) -> &'static [u8]
    ensures { result.now ≡ piece_text piece }
{
    match piece {
        Piece::Open =>
            b"<svg class='phist' xmlns='http://www.w3.org/2000/svg' version='1.1' width='",
        Piece::Height => b"' height='",
        Piece::Font => b"' font-family='monospace' font-size='11'>\n<style>\n",
        Piece::StyleText => b".phist text,.phist circle{fill:#222}path.t{fill:#2d6a4f}\n",
        Piece::StyleRuns =>
            b"path.r,path.n{stroke:#8a8f98;stroke-width:2}path.n{stroke-dasharray:2 3}\n",
        Piece::StyleStops =>
            b"path.e{stroke:#c0392b;stroke-width:8}path.q{stroke:#e09f1f;stroke-width:8}\n",
        Piece::StyleOthers =>
            b"path.j{stroke:#7d3c98;stroke-width:8}path.s{stroke:#3f7fbf;stroke-width:4;stroke-dasharray:3}\n",
        Piece::StyleEnds =>
            b"path.x{stroke:#222;stroke-width:5;stroke-dasharray:2 2}path.m{stroke:#2d6a4f}\n</style>\n",
        Piece::Page => b"<rect width='100%' height='100%' fill='#fdfcf8'/>\n",
        Piece::LegendRuns => b"<path class='r' d='M12 10v18'/><text x='22' y='23'>runs</text>\n",
        Piece::LegendNew =>
            b"<path class='n' d='M72 10v18'/><text x='82' y='23'>made, no turn yet</text>\n",
        Piece::LegendEvent =>
            b"<path class='e' d='M208 10v18'/><text x='218' y='23'>stopped on an event</text>\n",
        Piece::LegendRequested =>
            b"<path class='q' d='M364 10v18'/><text x='374' y='23'>stopped on request</text>\n",
        Piece::LegendAsleep =>
            b"<path class='s' d='M514 10v18'/><text x='524' y='23'>asleep</text>\n",
        Piece::LegendJob =>
            b"<path class='j' d='M586 10v18'/><text x='596' y='23'>stopped by a signal</text>\n",
        Piece::LegendEnds => b"<path class='x' d='M742 10v18'/><text x='752' y='23'>ends</text>\n",
        Piece::Close => b"</svg>\n",
        Piece::RowTitle => b"<g><title>",
        Piece::RowNumber => b"</title><text x='8' dy='4' y='",
        Piece::RowEnd => b"</g>\n",
        Piece::Bar => b"<path class='",
        Piece::From => b"' d='M",
        Piece::Down => b"v22'/>",
        Piece::Arrow => b"<path class='m' d='M",
        Piece::Across => b"h180'/>",
        Piece::Tip => b"<path class='t' d='M",
        Piece::Head => b"m176 0l-9-4v8z'/>",
        Piece::Dot => b"<circle r='4' cx='",
        Piece::DotRow => b"' cy='",
        Piece::Shut => b"'/>",
        Piece::Label => b"<text dx='9' dy='-6' x='",
        Piece::LabelRow => b"' y='",
        Piece::TextOpen => b"'>",
        Piece::TextEnd => b"</text>",
        Piece::Name => b"<text y='58' font-weight='bold' text-anchor='middle' x='",
    }
}

/// Appends a fixed text.
fn write_piece(text: &mut Text, piece: Piece) -> Result<(), NoMemory>
    ensures { OnOk result (text.new ≡ text.old ++ piece_text piece) }
{
    text.text(bytes_of(piece))
}

#[tactic(auto, unfolding(crate::specs::Pictures::escaped_byte))]
fn write_escaped_byte(text: &mut Text, byte: u8) -> Result<(), NoMemory>
    ensures { OnOk result (text.new ≡ text.old ++ escaped_byte byte) }
{
    if byte == b'&' {
        text.text(b"&amp;")
    } else if byte == b'<' {
        text.text(b"&lt;")
    } else if byte == b'>' {
        text.text(b"&gt;")
    } else {
        text.text(&[byte])
    }
}

/// Appends text in XML.
#[tactic(auto, unfolding(crate::specs::Pictures::escaped))]
fn write_escaped(text: &mut Text, bytes: &[u8]) -> Result<(), NoMemory>
    ensures { OnOk result (text.new ≡ text.old ++ escaped bytes.now) }
{
    for byte in bytes {
        write_escaped_byte(text, *byte)?;
    }
    Ok(())
}

/// Appends where a column stands.
#[tactic(auto, unfolding(crate::specs::Pictures::across))]
fn write_across(text: &mut Text, column: u64) -> Result<(), NoMemory>
    ensures { OnOk result (text.new ≡ text.old ++ across column) }
{
    text.decimal(80 + 180 * column.min(10_000))
}

/// Appends where a row stands.
#[tactic(auto, unfolding(crate::specs::Pictures::down))]
fn write_down(text: &mut Text, row: u64) -> Result<(), NoMemory>
    ensures { OnOk result (text.new ≡ text.old ++ down row) }
{
    text.decimal(84 + 22 * row.min(5_000))
}

#[tactic(auto, unfolding(crate::specs::Pictures::point))]
fn write_point(text: &mut Text, row: u64, column: u64) -> Result<(), NoMemory>
    ensures { OnOk result (text.new ≡ text.old ++ point row column) }
{
    write_across(text, column)?;
    text.text(b" ")?;
    write_down(text, row)
}

/// The kind of a bar, by how its lane stands.
#[tactic(auto, unfolding(crate::specs::Pictures::bar_kind))]
fn bar_kind(stand: Stand) -> &'static [u8]
    ensures { result.now ≡ bar_kind stand }
{
    match stand {
        Stand::Absent => b"",
        Stand::New => b"n",
        Stand::Runs => b"r",
        Stand::OnEvent => b"e",
        Stand::Requested => b"q",
        Stand::Asleep => b"s",
        Stand::JobStopped => b"j",
        Stand::Ends => b"x",
    }
}

#[tactic(auto, unfolding(crate::specs::Pictures::bar_of))]
fn write_bar_of(text: &mut Text, row: u64, column: u64, kind: &[u8]) -> Result<(), NoMemory>
    ensures { OnOk result (text.new ≡ text.old ++ bar_of row column kind.now) }
{
    write_piece(text, Piece::Bar)?;
    text.text(kind)?;
    write_piece(text, Piece::From)?;
    write_point(text, row, column)?;
    write_piece(text, Piece::Down)
}

/// A bar, where there is an lwp.
#[tactic(auto, unfolding(crate::specs::Pictures::bar))]
fn write_bar(text: &mut Text, row: u64, column: u64, stand: Stand) -> Result<(), NoMemory>
    ensures { OnOk result (text.new ≡ text.old ++ bar row column stand) }
{
    match stand {
        Stand::Absent => Ok(()),
        _ => write_bar_of(text, row, column, bar_kind(stand)),
    }
}

/// The part of an arrow behind a lane.
#[tactic(auto, unfolding(crate::specs::Pictures::arrow))]
fn write_arrow(text: &mut Text, row: u64, column: u64) -> Result<(), NoMemory>
    ensures { OnOk result (text.new ≡ text.old ++ arrow row column) }
{
    write_piece(text, Piece::Arrow)?;
    write_point(text, row, column)?;
    write_piece(text, Piece::Across)
}

#[tactic(auto, unfolding(crate::specs::Pictures::arrow_tip))]
fn write_arrow_tip(text: &mut Text, row: u64, column: u64) -> Result<(), NoMemory>
    ensures { OnOk result (text.new ≡ text.old ++ arrow_tip row column) }
{
    write_piece(text, Piece::Tip)?;
    write_point(text, row, column)?;
    write_piece(text, Piece::Head)
}

#[tactic(auto, unfolding(crate::specs::Pictures::dot))]
fn write_dot(text: &mut Text, row: u64, column: u64) -> Result<(), NoMemory>
    ensures { OnOk result (text.new ≡ text.old ++ dot row column) }
{
    write_piece(text, Piece::Dot)?;
    write_across(text, column)?;
    write_piece(text, Piece::DotRow)?;
    write_down(text, row)?;
    write_piece(text, Piece::Shut)
}

#[tactic(auto, unfolding(crate::specs::Pictures::label_place))]
fn write_label_place(text: &mut Text, row: u64, column: u64) -> Result<(), NoMemory>
    ensures { OnOk result (text.new ≡ text.old ++ label_place row column) }
{
    write_piece(text, Piece::Label)?;
    write_across(text, column)?;
    write_piece(text, Piece::LabelRow)?;
    write_down(text, row)
}

#[tactic(auto, unfolding(crate::specs::Pictures::label_words))]
fn write_label_words(text: &mut Text, words: &[u8]) -> Result<(), NoMemory>
    ensures { OnOk result (text.new ≡ text.old ++ label_words words.now) }
{
    write_piece(text, Piece::TextOpen)?;
    write_escaped(text, front(words, 25))?;
    write_piece(text, Piece::TextEnd)
}

#[tactic(auto, unfolding(crate::specs::Pictures::label))]
fn write_label(text: &mut Text, row: u64, column: u64, words: &[u8]) -> Result<(), NoMemory>
    ensures { OnOk result (text.new ≡ text.old ++ label row column words.now) }
{
    write_label_place(text, row, column)?;
    write_label_words(text, words)
}

#[tactic(auto, unfolding(crate::specs::Pictures::arrow_if))]
fn write_arrow_if(text: &mut Text, row: u64, column: u64, marks: Marks) -> Result<(), NoMemory>
    ensures { OnOk result (text.new ≡ text.old ++ arrow_if row column marks) }
{
    if !marks.arrow {
        return Ok(());
    }
    write_arrow(text, row, column)?;
    if marks.tip {
        write_arrow_tip(text, row, column)
    } else {
        Ok(())
    }
}

#[tactic(auto, unfolding(crate::specs::Pictures::act_if))]
fn write_act_if(
    text: &mut Text,
    row: u64,
    column: u64,
    marks: Marks,
    words: &[u8],
) -> Result<(), NoMemory>
    ensures { OnOk result (text.new ≡ text.old ++ act_if row column marks words.now) }
{
    if !marks.acts {
        return Ok(());
    }
    write_dot(text, row, column)?;
    write_label(text, row, column, words)
}

/// A cell: a bar by how its lane stands, a part of an arrow, and who acted.
#[tactic(auto, unfolding(crate::specs::Pictures::picture_cell))]
pub fn write_picture_cell(
    text: &mut Text,
    row: u64,
    column: u64,
    marks: Marks,
    stand: Stand,
    words: &[u8],
) -> Result<(), NoMemory>
    ensures { OnOk result (text.new ≡ text.old ++ picture_cell row column marks stand words.now) }
{
    write_bar(text, row, column, stand)?;
    write_arrow_if(text, row, column, marks)?;
    write_act_if(text, row, column, marks, words)
}

#[tactic(auto, unfolding(crate::specs::Pictures::row_title))]
fn write_row_title(text: &mut Text, words: &[u8]) -> Result<(), NoMemory>
    ensures { OnOk result (text.new ≡ text.old ++ row_title words.now) }
{
    write_piece(text, Piece::RowTitle)?;
    write_escaped(text, words)
}

#[tactic(auto, unfolding(crate::specs::Pictures::row_number))]
fn write_row_number(text: &mut Text, row: u64, number: u64) -> Result<(), NoMemory>
    ensures { OnOk result (text.new ≡ text.old ++ row_number row number) }
{
    write_piece(text, Piece::RowNumber)?;
    write_down(text, row)?;
    write_piece(text, Piece::TextOpen)?;
    text.decimal(number)?;
    write_piece(text, Piece::TextEnd)
}

/// A row: its title, the number of the entry, and the cells.
#[tactic(auto, unfolding(crate::specs::Pictures::picture_row))]
pub fn write_picture_row(
    text: &mut Text,
    row: u64,
    number: u64,
    words: &[u8],
    drawn: &[u8],
) -> Result<(), NoMemory>
    ensures { OnOk result (text.new ≡ text.old ++ picture_row row number words.now drawn.now) }
{
    write_row_title(text, words)?;
    write_row_number(text, row, number)?;
    text.text(drawn)?;
    write_piece(text, Piece::RowEnd)
}

/// The name of a lane.
#[tactic(auto, unfolding(crate::specs::Pictures::picture_name))]
pub fn write_picture_name(text: &mut Text, column: u64, name: &[u8]) -> Result<(), NoMemory>
    ensures { OnOk result (text.new ≡ text.old ++ picture_name column name.now) }
{
    write_piece(text, Piece::Name)?;
    write_across(text, column)?;
    write_piece(text, Piece::TextOpen)?;
    text.text(name)?;
    write_piece(text, Piece::TextEnd)
}

/// What stands behind the size of a picture: its styles, its ground and the legend.
const PAGE: [Piece; 14] = [
    Piece::Font,
    Piece::StyleText,
    Piece::StyleRuns,
    Piece::StyleStops,
    Piece::StyleOthers,
    Piece::StyleEnds,
    Piece::Page,
    Piece::LegendRuns,
    Piece::LegendNew,
    Piece::LegendEvent,
    Piece::LegendRequested,
    Piece::LegendAsleep,
    Piece::LegendJob,
    Piece::LegendEnds,
];

/// Fixed texts, one after another.
fn write_pieces(text: &mut Text, pieces: &[Piece]) -> Result<(), NoMemory>
    ensures { OnOk result (text.new ≡ text.old ++ flat_map piece_text pieces.now) }
{
    for piece in pieces {
        write_piece(text, *piece)?;
    }
    Ok(())
}

/// The head of a picture of so many rows and lanes.
#[tactic(auto, unfolding(crate::specs::Pictures::picture_head))]
pub fn write_picture_head(text: &mut Text, rows: u64, lanes: u64) -> Result<(), NoMemory>
    ensures { OnOk result (text.new ≡ text.old ++ picture_head rows lanes) }
{
    write_piece(text, Piece::Open)?;
    write_across(text, lanes.max(4))?;
    write_piece(text, Piece::Height)?;
    write_down(text, rows)?;
    write_pieces(text, &PAGE)
}

/// The end of a picture, behind its last row.
#[tactic(auto, unfolding(crate::specs::Pictures::picture_foot))]
pub fn write_picture_foot(text: &mut Text) -> Result<(), NoMemory>
    ensures { OnOk result (text.new ≡ text.old ++ picture_foot) }
{
    write_piece(text, Piece::Close)
}
