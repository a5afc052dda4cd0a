ghost use Rattle.std.specs.Prelude.{◌≡◌, ◌≤◌, ◌<◌, ◌+◌, ◌^◌, length, Ok, Err, IfOk, IfErr, IfSome, OnOk, OnErr};
ghost use Rattle.pr_num.specs.Spaces.{IsSpace, byte_for, bytes_for};
ghost use Rattle.pr_parts.specs.Accesses.{checked};
ghost use Rattle.pr_mem.specs.Answers.{IsRun};
ghost use Rattle.pr_mem.specs.Places.{IsPlace};

use crate::mappings::Mapping;
use crate::ranges;
use pr_num::BadByte;

// The bytes that an access gets. Each step takes those that one page has, and the next step goes on behind them. The
// place of the first is passed in, since the steps of a call share it.

/// Bytes from an address on, of which this is the place, that one page has, at least one and at most `most`; or why the
/// first of them cannot be accessed.
pub fn run_at(
    mappings: &[Mapping],
    place: usize,
    need: u8,
    at: u64,
    most: usize,
) -> Result<&[u8], BadByte>
    requires space { IsSpace mappings.now }
    requires place { IsPlace mappings.now at place }
    requires some { 0 < most }
    ensures ok { IfOk result (λ run. IsRun need mappings.now at most run.now) }
    ensures err { IfErr result (λ bad. byte_for need mappings.now at ≡ Err bad) }
{
    let Some(mapping) = ranges::mapping_at(mappings, place, at) else {
        return Err(BadByte::Hole(at));
    };
    if !ranges::allows(mapping, need) {
        return Err(BadByte::NotAllowed(at));
    }
    let run = mapping.run(at);
    Ok(&run[..run.len().min(most)])
}

/// Whether an access can be made from an address on, of which `first` is the place; or the first byte at which it
/// fails.
pub fn check(
    mappings: &[Mapping],
    first: usize,
    need: u8,
    at: u64,
    len: usize,
) -> Result<(), BadByte>
    requires space { IsSpace mappings.now }
    requires place { IsPlace mappings.now at first }
    ensures answer { result ≡ checked (bytes_for need mappings.now at len) }
    ensures end { OnOk result (at + len < 2 ^ 64) }
{
    let mut place = first;
    let mut done = 0;
    while done < len {
        let run = run_at(mappings, place, need, at + done as u64, len - done)?;
        done += run.len();
        place = ranges::next_place(mappings, at + done as u64, len - done);
    }
    Ok(())
}

/// Gives the bytes of an access from an address on, of which `first` is the place; or the first byte at which it fails,
/// and then what the buffer holds is not said.
pub fn fill(
    mappings: &[Mapping],
    first: usize,
    need: u8,
    at: u64,
    out: &mut [u8],
) -> Result<(), BadByte>
    requires space { IsSpace mappings.now }
    requires place { IsPlace mappings.now at first }
    ensures answer { result ≡ checked (bytes_for need mappings.now at (length out.old)) }
    ensures ok { OnOk result (bytes_for need mappings.now at (length out.old) ≡ Ok out.new) }
{
    let mut place = first;
    let mut done = 0;
    while done < out.len() {
        let run = run_at(mappings, place, need, at + done as u64, out.len() - done)?;
        out[done..done + run.len()].copy_from_slice(run);
        done += run.len();
        place = ranges::next_place(mappings, at + done as u64, out.len() - done);
    }
    Ok(())
}

/// The bytes of an access from an address on, of which `place` is the place, where one page has all of them. `None`
/// also where the access fails.
fn whole_run(mappings: &[Mapping], place: usize, need: u8, at: u64, len: usize) -> Option<&[u8]>
    requires space { IsSpace mappings.now }
    requires place { IsPlace mappings.now at place }
    ensures bytes { IfSome result (λ run. bytes_for need mappings.now at len ≡ Ok run.now) }
    ensures len { IfSome result (λ run. length run.now ≡ len) }
{
    if len == 0 {
        return None;
    }
    match run_at(mappings, place, need, at, len) {
        Ok(run) if run.len() == len => Some(run),
        _ => None,
    }
}

/// Gives the bytes of an access from an address on, of which `first` is the place; or the first byte at which it fails,
/// and then the buffer stays as it is. Most accesses are to bytes that one page has, which is looked at once.
pub fn read(
    mappings: &[Mapping],
    first: usize,
    need: u8,
    at: u64,
    out: &mut [u8],
) -> Result<(), BadByte>
    requires space { IsSpace mappings.now }
    requires place { IsPlace mappings.now at first }
    ensures answer { result ≡ checked (bytes_for need mappings.now at (length out.old)) }
    ensures ok { OnOk result (bytes_for need mappings.now at (length out.old) ≡ Ok out.new) }
    ensures err { OnErr result (out.new ≡ out.old) }
{
    if let Some(run) = whole_run(mappings, first, need, at, out.len()) {
        out.copy_from_slice(run);
        return Ok(());
    }
    check(mappings, first, need, at, out.len())?;
    fill(mappings, first, need, at, out)?;
    Ok(())
}
