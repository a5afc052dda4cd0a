//! The bytes of a core in lines of hex.
ghost use Rattle.std.specs.Prelude.{◌≡◌, ◌+◌, ◌*◌, ◌<◌, ◌≤◌, ◌^◌, ◌++◌, [], length, map, IfOk, IfSome, OnOk};
ghost use Rattle.pr_core_text.specs.CoreTexts.{Answers, bytes_after, bytes_on, if_many, or_line};

use crate::CoreTextRefusal;
use pr_num::{Bytes, NoMemory};
use pr_text::bytes_of_digits;
use std::alloc::Global;
use std::marker::Model;

/// How many bytes a line has; the last has the rest.
pub const LINE: usize = 1_024;

/// The bytes of a text, and the number of the line behind it.
#[derive(Drop)]
pub struct HexBytes {
    pub bytes: Vec<u8>,
    pub behind: u32,
}

impl Model for HexBytes {
    ghost use Rattle.pr_core_text.specs.CoreTexts as plain;

    ghost Value = { plain.Bytes };

    ghost view = { λ b. record { bytes = b.bytes.items; behind = b.behind } };
}

/// Bytes, where they are so many.
fn if_many(size: usize, bytes: Option<Bytes>) -> Option<Bytes>
    ensures value { result ≡ if_many size bytes }
    ensures many { IfSome result (λ found. length found ≡ size) }
{
    let bytes = bytes?;
    if bytes.as_slice().len() == size {
        Some(bytes)
    } else {
        None
    }
}

/// The bytes that a line tells in hex, where they are so many.
#[tactic(auto, unfolding(crate::specs::CoreTexts::bytes_on))]
fn bytes_on(alloc: Global, size: usize, line: &[u8]) -> Result<Option<Bytes>, NoMemory>
    ensures value { IfOk result (λ bytes. bytes ≡ bytes_on size line.now) }
    ensures many { IfOk result (λ bytes. IfSome bytes (λ found. length found ≡ size)) }
{
    Ok(if_many(size, bytes_of_digits(alloc, line)?))
}

/// The same, or the number of the line where it is damaged.
fn bytes_at(alloc: Global, number: u32, size: usize, line: &[u8]) -> Result<Bytes, CoreTextRefusal>
    ensures read { Answers (λ bytes. bytes) result (or_line number (bytes_on size line.now)) }
    ensures many { IfOk result (λ bytes. length bytes ≡ size) }
{
    match bytes_on(alloc, size, line)? {
        Some(bytes) => Ok(bytes),
        None => Err(CoreTextRefusal::Line(number)),
    }
}

/// Adds bytes to others.
fn add(bytes: &mut Vec<u8>, more: &[u8]) -> Result<(), NoMemory>
    ensures { OnOk result (bytes.new.items ≡ bytes.old.items ++ more.now) }
{
    bytes.extend_from_slice(more)?;
    Ok(())
}

/// So many bytes in lines that count from `first`.
pub fn read_bytes(
    alloc: Global,
    first: u32,
    size: u64,
    lines: &[&[u8]],
) -> Result<HexBytes, CoreTextRefusal>
    requires { first + length lines.now < 2 ^ 32 }
    ensures read { Answers (λ b. b) result (bytes_after [] first size (map (λ line. line.now) lines.now)) }
    ensures few { IfOk result (λ b. 1024 * first + length b.bytes ≤ 1024 * b.behind) }
    ensures small { IfOk result (λ b. b.behind < 2 ^ 32) }
{
    let mut bytes = Vec::new(alloc);
    let mut place = 0;
    let mut left = size;
    while left > 0 {
        let number = first + place as u32;
        let Some(line) = lines.get(place) else {
            return Err(CoreTextRefusal::Line(number));
        };
        let many = left.min(LINE as u64);
        let more = bytes_at(alloc, number, many as usize, line)?;
        add(&mut bytes, more.as_slice())?;
        left -= many;
        place += 1;
    }
    Ok(HexBytes {
        bytes,
        behind: first + place as u32,
    })
}
