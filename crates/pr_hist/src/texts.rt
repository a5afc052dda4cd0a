//! Numbers, times and bytes in words, written at the end of a text.
ghost use Rattle.std.specs.Prelude.{◌≡◌, ◌++◌, ◌≤◌, codes, drop, length, take, OnOk};
ghost use Rattle.std.specs.List.{before_first, flat_map};
ghost use Rattle.pr_num.specs.Limits.{shown_limit};
ghost use Rattle.pr_num.specs.Padding.{is_zero};
ghost use Rattle.pr_text.specs.HexWords.{byte_digits, digits_of_bytes};
ghost use Rattle.pr_text.specs.LwpWords.{lwp_text};
ghost use Rattle.pr_hist.specs.Texts.{bytes_text, digits_text, name_in, number_text, plus_as_blank, size_text, spaced_text, time_text, trimmed};

use pr_num::NoMemory;
use pr_num::limits::SHOWN_LIMIT;
use pr_text::{Text, before_zero, behind, front, hex_digit};

/// A name in its 32 bytes.
#[tactic(auto, unfolding(crate::specs::Texts::name_in))]
pub fn name_in(bytes: &[u8]) -> &[u8]
    ensures { result.now ≡ name_in bytes.now }
{
    before_zero(front(bytes, 32))
}

/// Bytes without the blanks at their end.
#[tactic(auto, unfolding(crate::specs::Texts::trimmed))]
fn trimmed(bytes: &[u8]) -> &[u8]
    ensures { result.now ≡ trimmed bytes.now }
{
    bytes.trim_ascii_end()
}

/// The first bytes, as many as a quoted text shows.
fn shown(bytes: &[u8]) -> &[u8]
    ensures { result.now ≡ take shown_limit bytes.now }
{
    front(bytes, SHOWN_LIMIT)
}

/// Ends the line that begins at a place, without the blanks at its end.
pub fn end_line(text: &mut Text, start: usize) -> Result<(), NoMemory>
    requires { start ≤ length text.old }
    ensures { OnOk result (text.new ≡ take start text.old ++ (trimmed (drop start text.old) ++ codes "\n")) }
{
    let kept = trimmed(behind(text.as_slice(), start)).len();
    text.truncate(start + kept);
    text.text(b"\n")
}

/// Appends a number that may be an address.
#[tactic(auto, unfolding(crate::specs::Texts::number_text))]
pub fn write_number(text: &mut Text, n: u64) -> Result<(), NoMemory>
    ensures { OnOk result (text.new ≡ text.old ++ number_text n) }
{
    if n < 65_536 {
        text.decimal(n)
    } else {
        text.hex(n)
    }
}

/// Appends a moment of the clock, or a time.
#[tactic(auto, unfolding(crate::specs::Texts::time_text))]
pub fn write_time(text: &mut Text, n: u64) -> Result<(), NoMemory>
    ensures { OnOk result (text.new ≡ text.old ++ time_text n) }
{
    text.decimal(n)?;
    text.text(b" ms")
}

/// Appends an lwp, by its process and its own id.
#[tactic(auto, unfolding(pr_text::specs::LwpWords::lwp_text))]
pub fn write_lwp(text: &mut Text, pid: u32, lwp: u32) -> Result<(), NoMemory>
    ensures { OnOk result (text.new ≡ text.old ++ lwp_text pid lwp) }
{
    text.decimal(u64::from(pid))?;
    text.text(b"/")?;
    text.decimal(u64::from(lwp))
}

/// Appends how many bytes there are.
#[tactic(auto, unfolding(crate::specs::Texts::size_text))]
pub fn write_size(text: &mut Text, n: u64) -> Result<(), NoMemory>
    ensures { OnOk result (text.new ≡ text.old ++ size_text n) }
{
    text.decimal(n)?;
    if n == 1 {
        text.text(b" byte")
    } else {
        text.text(b" bytes")
    }
}

/// Appends a byte in hex.
#[tactic(auto, unfolding(pr_text::specs::HexWords::byte_digits))]
fn write_hex_byte(text: &mut Text, byte: u8) -> Result<(), NoMemory>
    ensures { OnOk result (text.new ≡ text.old ++ byte_digits byte) }
{
    text.text(&[hex_digit(byte / 16), hex_digit(byte % 16)])
}

/// Appends bytes in hex.
pub fn write_hex_bytes(text: &mut Text, bytes: &[u8]) -> Result<(), NoMemory>
    ensures { OnOk result (text.new ≡ text.old ++ digits_of_bytes bytes.now) }
{
    for byte in bytes {
        write_hex_byte(text, *byte)?;
    }
    Ok(())
}

/// Appends a byte of a word.
#[tactic(auto, unfolding(crate::specs::Texts::plus_as_blank))]
fn write_plus_as_blank(text: &mut Text, byte: u8) -> Result<(), NoMemory>
    ensures { OnOk result (text.new ≡ text.old ++ plus_as_blank byte) }
{
    if byte == b'+' {
        text.text(b" ")
    } else {
        text.text(&[byte])
    }
}

fn write_plus_as_blanks(text: &mut Text, bytes: &[u8]) -> Result<(), NoMemory>
    ensures { OnOk result (text.new ≡ text.old ++ flat_map plus_as_blank bytes.now) }
{
    for byte in bytes {
        write_plus_as_blank(text, *byte)?;
    }
    Ok(())
}

/// Appends a word behind a blank; `+` parts it as a blank does.
#[tactic(auto, unfolding(crate::specs::Texts::spaced_text))]
pub fn write_spaced(text: &mut Text, word: &[u8]) -> Result<(), NoMemory>
    ensures { OnOk result (text.new ≡ text.old ++ spaced_text word.now) }
{
    text.text(b" ")?;
    write_plus_as_blanks(text, word)
}

/// Appends bytes in hex, as many as a quoted text shows.
#[tactic(auto, unfolding(crate::specs::Texts::digits_text))]
fn write_digits(text: &mut Text, bytes: &[u8]) -> Result<(), NoMemory>
    ensures { OnOk result (text.new ≡ text.old ++ digits_text bytes.now) }
{
    write_hex_bytes(text, shown(bytes))?;
    if bytes.len() > SHOWN_LIMIT {
        text.text(b"..")
    } else {
        Ok(())
    }
}

/// Appends bytes in hex and as text.
#[tactic(auto, unfolding(crate::specs::Texts::bytes_text))]
pub fn write_hex_and_text(text: &mut Text, bytes: &[u8]) -> Result<(), NoMemory>
    ensures { OnOk result (text.new ≡ text.old ++ bytes_text bytes.now) }
{
    write_digits(text, bytes)?;
    text.text(b" ")?;
    text.quoted(bytes)
}
