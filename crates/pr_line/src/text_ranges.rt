//! Which bytes of memory the line of an event asks for.
ghost use Rattle.std.specs.Prelude.{◌≡◌, ◌≤◌, length};
ghost use Rattle.pr_line.specs.TextRanges.{text_range};
ghost use Rattle.pr_model.specs.ShownBytes.{transferable, buffer_size, buffer_range, range_from};

use crate::Event;
use pr_num::limits::{ASKED_LIMIT, TRANSFER_LIMIT};
use pr_num::{ArgKind, Sysno};

/// A number of bytes that one call can move.
fn transferable(size: u64) -> Option<u64>
    ensures { result ≡ transferable size }
{
    if size <= TRANSFER_LIMIT {
        Some(size)
    } else {
        None
    }
}

/// How many bytes of its buffer a call shows that gave this value, or none; `None` where it shows the address.
#[tactic(auto, unfolding(pr_model::specs::ShownBytes::buffer_size))]
pub fn buffer_size(call: Sysno, arguments: &[u64; 6], value: Option<u64>) -> Option<u64>
    ensures { result ≡ buffer_size call arguments.now value }
{
    match call {
        Sysno::Read => value,
        Sysno::Write => transferable(arguments[2]),
        _ => None,
    }
}

/// The memory of a buffer at an address that is asked for.
fn buffer_range(address: u64, size: Option<u64>) -> Option<(u64, u64)>
    ensures { result ≡ buffer_range address size }
{
    match size {
        None | Some(0) => None,
        Some(size) => Some((address, size.min(ASKED_LIMIT as u64))),
    }
}

/// The memory that the first text or buffer among arguments asks for.
#[tactic(auto, unfolding(pr_model::specs::ShownBytes::range_from))]
fn range_of(arguments: &[u64; 6], size: Option<u64>, kinds: &[ArgKind]) -> Option<(u64, u64)>
    requires { length kinds.now ≤ 6 }
    ensures { result ≡ range_from arguments.now size kinds.now 0 }
{
    for (i, kind) in kinds.iter().enumerate() {
        match *kind {
            ArgKind::Dec | ArgKind::Hex => {}
            ArgKind::Text => return Some((arguments[i], ASKED_LIMIT as u64)),
            ArgKind::Buf => return buffer_range(arguments[i], size),
        }
    }
    None
}

/// The address of the memory that the line of an event asks for, and how many bytes.
#[tactic(auto, unfolding(crate::specs::TextRanges::text_range), using(crate::proofs::LengthLemmas::few_arguments))]
pub fn text_range(event: &Event) -> Option<(u64, u64)>
    ensures { result ≡ text_range event.now }
{
    match event {
        Event::Left {
            call,
            arguments,
            result,
        } => {
            let size = buffer_size(*call, arguments, result.ok());
            range_of(arguments, size, call.args())
        }
        _ => None,
    }
}
