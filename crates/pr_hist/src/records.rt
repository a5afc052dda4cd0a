//! What was read of a file: a record field by field, or bytes.
ghost use Rattle.std.specs.Prelude.{◌≡◌, ◌++◌, ◌+◌, ◌*◌, ◌≤◌, ◌<◌, ◌^◌, drop, length, OnOk};
ghost use Rattle.std.specs.Option.{option_copied};
ghost use Rattle.pr_num.specs.Messages.{nth_word};
ghost use Rattle.pr_hist.specs.Records.{field_text, has_fields, is_raw, line_start, raw_text, record_text, word_before, word_text, words_text};

use crate::fields::{Kind, Layout, field_kind, field_name, starts_record};
use crate::listings::Listing;
use crate::texts::write_hex_and_text;
use crate::values::{is_shown, write_value};
use pr_codec::{WORD, word};
use pr_num::NoMemory;
use pr_text::{Text, behind};

/// The word at a place, counted in words.
#[tactic(auto, unfolding(pr_num::specs::Messages::nth_word))]
fn nth_word(bytes: &[u8], place: usize) -> u64
    requires { 8 * place + 8 ≤ length bytes.now }
    ensures { result ≡ nth_word bytes.now place }
{
    word(bytes, WORD * place).unwrap()
}

/// A field by name, where its word says something, or all fields are told.
#[tactic(auto, unfolding(crate::specs::Records::field_text))]
fn write_field(
    text: &mut Text,
    full: bool,
    source: Option<&Listing>,
    name: &[u8],
    kind: Kind,
    before: u64,
    w: u64,
    bytes: &[u8],
) -> Result<(), NoMemory>
    ensures { OnOk result (text.new ≡ text.old
        ++ field_text full (option_copied source.entry) name.now kind before w bytes.now) }
{
    if is_shown(full, kind, w) {
        text.text(b" ")?;
        text.text(name)?;
        write_value(text, source, kind, before, w, bytes)?;
        text.text(b";")
    } else {
        Ok(())
    }
}

/// The line on which a record stands.
#[tactic(auto, unfolding(crate::specs::Records::line_start))]
fn write_line_start(text: &mut Text, first: bool) -> Result<(), NoMemory>
    ensures { OnOk result (text.new ≡ text.old ++ line_start first) }
{
    if first { text.text(b"\n   ") } else { Ok(()) }
}

/// The word before the one at a place.
#[tactic(auto, unfolding(crate::specs::Records::word_before))]
fn word_before(bytes: &[u8], i: usize) -> u64
    requires { 8 * i + 8 ≤ length bytes.now }
    ensures { result ≡ word_before bytes.now i }
{
    if i == 0 { 0 } else { nth_word(bytes, i - 1) }
}

/// The word at a place of what was read, which begins with the word `from` of its file.
#[tactic(auto, unfolding(crate::specs::Records::word_text))]
fn write_word(
    text: &mut Text,
    full: bool,
    source: Option<&Listing>,
    layout: Layout,
    from: u64,
    bytes: &[u8],
    i: usize,
) -> Result<(), NoMemory>
    requires within { 8 * i + 8 ≤ length bytes.now }
    requires place { from + i < 2 ^ 62 }
    ensures { OnOk result (text.new ≡ text.old ++ word_text full (option_copied source.entry) layout from bytes.now i) }
{
    let place = from + i as u64;
    write_line_start(text, i == 0 || starts_record(layout, place))?;
    write_field(
        text,
        full,
        source,
        field_name(layout, place),
        field_kind(layout, place),
        word_before(bytes, i),
        nth_word(bytes, i),
        behind(bytes, WORD * i),
    )
}

/// The words of what was read.
fn write_words(
    text: &mut Text,
    full: bool,
    source: Option<&Listing>,
    layout: Layout,
    from: u64,
    bytes: &[u8],
    count: usize,
) -> Result<(), NoMemory>
    requires within { 8 * count ≤ length bytes.now }
    requires place { from + count < 2 ^ 62 }
    ensures { OnOk result (text.new ≡ text.old
        ++ words_text full (option_copied source.entry) layout from bytes.now count) }
{
    for i in 0..count {
        write_word(text, full, source, layout, from, bytes, i)?;
    }
    Ok(())
}

/// Bytes on a line of their own.
#[tactic(auto, unfolding(crate::specs::Records::raw_text))]
pub fn write_raw(text: &mut Text, bytes: &[u8]) -> Result<(), NoMemory>
    ensures { OnOk result (text.new ≡ text.old ++ raw_text bytes.now) }
{
    if bytes.len() == 0 {
        return Ok(());
    }
    text.text(b"\n    ")?;
    write_hex_and_text(text, bytes)
}

fn is_raw(layout: Layout) -> bool
    ensures { result ≡ is_raw layout }
{
    match layout {
        Layout::Raw => true,
        _ => false,
    }
}

/// Whether what was read is told field by field.
#[tactic(auto, unfolding(crate::specs::Records::has_fields))]
fn has_fields(layout: Layout, at: u64, bytes: &[u8]) -> bool
    ensures { result ≡ has_fields layout at bytes.now }
{
    !is_raw(layout) && (at % 8 == 0 && bytes.len() % 8 == 0)
}

/// What was read of a file from a byte on, of a process that runs this program.
#[tactic(auto, unfolding(crate::specs::Records::record_text))]
pub fn write_record(
    text: &mut Text,
    full: bool,
    source: Option<&Listing>,
    layout: Layout,
    at: u64,
    bytes: &[u8],
) -> Result<(), NoMemory>
    ensures { OnOk result (text.new ≡ text.old ++ record_text full (option_copied source.entry) layout at bytes.now) }
{
    if has_fields(layout, at, bytes) {
        write_words(text, full, source, layout, at / 8, bytes, bytes.len() / 8)
    } else {
        write_raw(text, bytes)
    }
}
