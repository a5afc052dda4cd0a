ghost use Rattle.std.specs.Prelude.{◌≡◌, ◌≤◌, position, length};
ghost use Rattle.pr_num.specs.Padding.{is_zero};
ghost use Rattle.pr_num.specs.Spaces.{IsSpace};
ghost use Rattle.pr_parts.specs.AddressSpaces.{text_at};
ghost use Rattle.pr_mem.specs.Answers.{length_read, with_text};
ghost use Rattle.pr_mem.specs.Places.{IsPlace};

use crate::mappings::Mapping;
use crate::{accesses, ranges};
use pr_num::{BadByte, PROT_READ, zero_in};

// Texts that end with a zero byte.

/// How long the text at an address is, of which `first` is the place. At most `most` of its bytes are read, its zero
/// byte too; `None` where these have no zero.
fn length_at(
    mappings: &[Mapping],
    first: usize,
    at: u64,
    most: usize,
) -> Result<Option<usize>, BadByte>
    requires space { IsSpace mappings.now }
    requires place { IsPlace mappings.now at first }
    ensures { result ≡ length_read (text_at mappings.now at most) }
{
    let mut place = first;
    let mut done = 0;
    while done < most {
        let run = accesses::run_at(mappings, place, PROT_READ, at + done as u64, most - done)?;
        if let Some(end) = zero_in(run) {
            return Ok(Some(done + end));
        }
        done += run.len();
        place = ranges::next_place(mappings, at + done as u64, most - done);
    }
    Ok(None)
}

/// Reads a text into the front of a buffer; where there is none the buffer stays as it is.
pub fn read_text(
    mappings: &[Mapping],
    at: u64,
    most: usize,
    out: &mut [u8],
) -> Result<Option<usize>, BadByte>
    requires space { IsSpace mappings.now }
    requires room { most ≤ length out.old }
    ensures answer { result ≡ length_read (text_at mappings.now at most) }
    ensures text { out.new ≡ with_text (text_at mappings.now at most) out.old }
{
    let first = ranges::place_at(mappings, at);
    let Some(len) = length_at(mappings, first, at, most)? else {
        return Ok(None);
    };
    accesses::fill(mappings, first, PROT_READ, at, &mut out[..len])?;
    Ok(Some(len))
}
