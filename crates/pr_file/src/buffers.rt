ghost use Rattle.std.specs.Prelude.{◌≡◌, ◌≤◌, ◌+◌, ◌-◌, ◌++◌, length, replicate, take, drop, is_ok, OnOk, OnErr, if◌then◌else◌};
ghost use Rattle.pr_num.specs.Limits.{file_size_limit};
ghost use Rattle.pr_parts.specs.FileTransfers.{after_write};

use pr_num::{Bytes, NoMemory};

/// Copies the first bytes of a string to the front of a buffer, as many as it has or as fit, and answers their number.
pub(crate) fn copy_front(out: &mut [u8], from: &[u8]) -> usize
    ensures count { result ≡ length (take (length out.old) from.now) }
    ensures out { out.new ≡ take (length out.old) from.now ++ drop (length (take (length out.old) from.now)) out.old }
{
    let count = out.len().min(from.len());
    out[..count].copy_from_slice(&from[..count]);
    count
}

/// The bytes behind the first ones. Takes no memory.
pub(crate) fn without_front(bytes: Bytes, count: usize) -> Bytes
    requires { count ≤ length bytes }
    ensures { result ≡ drop count bytes }
{
    let mut items = bytes.into_vec();
    let rest = items.len() - count;
    items.rotate_left(count);
    items.truncate(rest);
    Bytes::from_vec(items)
}

/// The bytes with others behind them, or as they were where memory runs out.
pub(crate) fn extended(bytes: Bytes, more: &[u8]) -> (Bytes, Result<(), NoMemory>)
    ensures { result.0 ≡ (if is_ok result.1 then bytes ++ more.now else bytes) }
{
    let mut items = bytes.into_vec();
    match append(&mut items, more) {
        Ok(()) => (Bytes::from_vec(items), Ok(())),
        Err(error) => (Bytes::from_vec(items), Err(error)),
    }
}

/// Puts bytes behind others.
fn append(items: &mut Vec<u8>, more: &[u8]) -> Result<(), NoMemory>
    ensures ok { OnOk result (items.new.items ≡ items.old.items ++ more.now) }
    ensures err { OnErr result (items.new.items ≡ items.old.items) }
{
    items.extend_from_slice(more)?;
    Ok(())
}

/// The bytes with others written over them from an offset on, or as they were where memory runs out. What lies between
/// their end and the offset becomes zeros, unless nothing is written.
pub(crate) fn written_over(
    bytes: Bytes,
    offset: usize,
    others: &[u8],
) -> (Bytes, Result<(), NoMemory>)
    requires { offset + length others.now ≤ file_size_limit }
    ensures { result.0 ≡ (if is_ok result.1 then after_write bytes offset others.now else bytes) }
{
    let mut items = bytes.into_vec();
    match write_over(&mut items, offset, others) {
        Ok(()) => (Bytes::from_vec(items), Ok(())),
        Err(error) => (Bytes::from_vec(items), Err(error)),
    }
}

/// Puts zeros behind bytes, so that there are so many of them or more.
fn grow(items: &mut Vec<u8>, len: usize) -> Result<(), NoMemory>
    ensures ok { OnOk result (items.new.items ≡ items.old.items ++ replicate (len - length items.old.items) 0) }
    ensures err { OnErr result (items.new.items ≡ items.old.items) }
{
    if items.len() < len {
        items.resize(len, 0)?;
    }
    Ok(())
}

/// Writes bytes over those from an offset on.
fn paste(items: &mut [u8], offset: usize, others: &[u8])
    requires { offset + length others.now ≤ length items.old }
    ensures { items.new ≡ take offset items.old ++ others.now ++ drop (offset + length others.now) items.old }
{
    let end = offset + others.len();
    items[offset..end].copy_from_slice(others);
}

/// Writes bytes over others, and grows them where they end before.
fn write_over(items: &mut Vec<u8>, offset: usize, others: &[u8]) -> Result<(), NoMemory>
    requires { offset + length others.now ≤ file_size_limit }
    ensures ok { OnOk result (items.new.items ≡ after_write items.old.items offset others.now) }
    ensures err { OnErr result (items.new.items ≡ items.old.items) }
{
    if others.is_empty() {
        return Ok(());
    }
    grow(items, offset + others.len())?;
    paste(items, offset, others);
    Ok(())
}
