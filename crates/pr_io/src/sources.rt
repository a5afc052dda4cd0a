ghost use Rattle.std.specs.Prelude.{◌≡◌, ◌≢◌, ℕ, ◌+◌, ◌++◌, ◌<◌, ◌≤◌, List, [], length, take, Option, OnOk, IfOk, OnErr, IsErrOf, Err};
ghost use Rattle.std.specs.Io.KnownBytes.{IsAtEnd};
ghost use Rattle.pr_io.specs.Known.{with_front};
ghost use Rattle.pr_io.specs.Faults.{Rose, raised};
ghost use Rattle.pr_io.specs.Reading.{ReadsAll, Came, CameWithin, CameAbove};
ghost use Rattle.pr_io.specs.declared.sources.ReadEnd.TheVariants as variants;

use crate::Failed;
use pr_num::{Bytes, NoMemory};
use std::alloc::Global;
use thiserror::Error;

/// Where bytes come from.
pub trait Source {
    /// The bytes that are still to come, where the source tells them.
    ghost left: { Self → Option (List ℕ) };

    /// The faults so far. The count never falls, and stays at 2^64 - 1.
    ghost faults: { Self → ℕ };

    /// The reads so far, where the source counts them: each adds one at most.
    ghost reads: { Self → ℕ } = { λ _. 0 };

    /// Moves the next bytes to the front of `buf`, and answers how many: 0 only at the end.
    /// A read that fails leaves what is to come as it was, and it alone raises the count, by one. What
    /// stands in `buf` then, and after the bytes that came, is not said.
    fn read(&mut self, buf: &mut [u8]) -> Result<usize, Failed>
        requires { 0 < length buf.old }
        ensures fits { IfOk result (λ n. n ≤ length buf.new) }
        ensures moved { IfOk result
            (λ n. left self.old ≡ with_front (take n buf.new) (left self.new)) }
        ensures end { IfOk result (λ n. n ≡ 0 → IsAtEnd (left self.new)) }
        ensures kept { OnErr result (left self.new ≡ left self.old) }
        ensures failed { OnErr result (Rose (faults self.old) (faults self.new)) }
        ensures by_one { OnErr result (faults self.new ≡ raised (faults self.old)) }
        ensures no_fault { OnOk result (faults self.new ≡ faults self.old) }
        ensures never_falls { faults self.old ≤ faults self.new }
        ensures counted { reads self.new ≤ reads self.old + 1 };
}

/// Why not all bytes were read.
#[derive(Clone, Copy, Debug, PartialEq, Eq, Error)]
pub enum ReadEnd {
    /// A read failed.
    #[error("{}", Failed)]
    Failed,
    /// More bytes came than were allowed.
    #[error("the input is too long")]
    TooLong,
    /// Memory ran out.
    #[error("out of memory")]
    NoMemory,
}

impl From<Failed> for ReadEnd {
    ghost from_gives = { λ _ e. e ≡ variants.Failed };

    fn from(_failed: Failed) -> ReadEnd {
        ReadEnd::Failed
    }
}

impl From<NoMemory> for ReadEnd {
    ghost from_gives = { λ _ e. e ≡ variants.NoMemory };

    fn from(_error: NoMemory) -> ReadEnd {
        ReadEnd::NoMemory
    }
}

// Appends what came to what came before.
fn keep(bytes: &mut Vec<u8>, more: &[u8]) -> Result<(), NoMemory>
    ensures { OnOk result (bytes.new.items ≡ bytes.old.items ++ more.now) }
{
    Ok(bytes.extend_from_slice(more)?)
}

/// The bytes that one read asks for.
const PIECE: usize = 65_536;

// What one read is to fill. It lies on the heap, so that a call does not have to make room for it on its stack.
fn new_piece(alloc: Global) -> Result<Vec<u8>, NoMemory>
    ensures { IfOk result (λ piece. 0 < length piece.items) }
{
    Ok(vec![in alloc; 0; PIECE]?)
}

/// Reads all bytes up to the end, of which at most `limit` are allowed, in at most
/// `limit + 1` reads. An error loses the bytes that came before it.
#[tactic(auto, using(crate::proofs::Counts::counts, crate::proofs::Known::known))]
pub fn read_all<S: Source>(alloc: Global, source: &mut S, limit: usize) -> Result<Bytes, ReadEnd>
    ensures all { IfOk result (λ bytes. ReadsAll (S.left source.old) (S.left source.new) bytes) }
    ensures allowed { IfOk result (λ bytes. length bytes ≤ limit) }

    // More than the limit came.
    ensures too_long { IsErrOf result ReadEnd.TooLong
        → CameAbove limit (S.left source.old) (S.left source.new) }

    // No more than the limit came, and then a read failed.
    ensures failed { IsErrOf result ReadEnd.Failed
        → Rose (S.faults source.old) (S.faults source.new) }
    ensures by_one { IsErrOf result ReadEnd.Failed
        → S.faults source.new ≡ raised (S.faults source.old) }
    ensures failed_within { IsErrOf result ReadEnd.Failed
        → CameWithin limit (S.left source.old) (S.left source.new) }
    ensures out_of_memory { IsErrOf result ReadEnd.NoMemory
        → Came (S.left source.old) (S.left source.new) }

    // No other end raises the count.
    ensures no_fault { result ≢ Err ReadEnd.Failed → S.faults source.new ≡ S.faults source.old }
    ensures never_falls { S.faults source.old ≤ S.faults source.new }
    ensures counted { S.reads source.new ≤ S.reads source.old + (limit + 1) }
{
    let mut bytes = Vec::new(alloc);
    let mut room = new_piece(alloc)?;
    let piece = room.as_mut_slice();
    while bytes.len() <= limit {
        let n = source.read(piece)?;
        if n == 0 {
            return Ok(Bytes::from_vec(bytes));
        }
        keep(&mut bytes, &piece[..n])?;
    }
    Err(ReadEnd::TooLong)
}
