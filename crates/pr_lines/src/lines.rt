ghost use Rattle.std.specs.Prelude.{◌≡◌, ◌≢◌, ◌+◌, ◌-◌, ◌^◌, ◌++◌, ◌<◌, ◌≤◌, [], length, drop, take, true, false};
ghost use Rattle.std.specs.Prelude.{Err, IfOk, IfSome, IsErrOf, OnErr, OnOk};
ghost use Rattle.std.specs.Io.KnownBytes.{IsAtEnd};
ghost use Rattle.std.specs.List.{list_any, position};
ghost use Rattle.pr_io.specs.Faults.{Rose};
ghost use Rattle.pr_io.specs.Known.{with_front};
ghost use Rattle.pr_io.specs.Reading.{CameAbove, CameWithin};
ghost use Rattle.pr_lines.specs.Lines.{ReadNoNewline, ReadsToNewline, TakesLine, TookHeld, line_bytes, piece_bytes};
ghost use Rattle.pr_text.specs.TextLines.{is_newline};

use pr_io::{ReadEnd, Source};
use pr_num::NoMemory;
use std::alloc::Global;
use std::marker::Model;

/// The bytes that one read asks for.
const PIECE: usize = 65_536;

/// A line has at most so many bytes; of a longer one a byte more is kept, which tells that it is longer.
pub const LINE_BYTES: usize = 1_048_576;

/// The lines of a source. It holds the bytes that were read and were not taken yet, which contracts see.
#[derive(Drop)]
pub struct Lines {
    bytes: Vec<u8>,
    /// How many of them were taken.
    at: usize,
    /// What a read fills. It lies on the heap, so that no call has to make room for it on its stack.
    piece: Vec<u8>,
}

impl Model for Lines {
    ghost use Rattle.std.specs.Prelude.{◌≡◌, drop, length};
    ghost use Rattle.pr_lines.specs.Lines.{Held, piece_bytes};

    ghost Value = { Held };

    ghost view = { λ a. record { held = drop a.at a.bytes.items } };

    ghost invariant = { λ a. length a.piece.items ≡ piece_bytes };
}

/// The place of the first newline.
fn newline_in(bytes: &[u8]) -> Option<usize>
    ensures place { result ≡ position is_newline bytes.now }
    ensures within { IfSome result (λ place. place < length bytes.now) }
{
    bytes.iter().position(|byte| *byte == b'\n')
}

/// Adds bytes to a line, up to one more than a line may have.
#[tactic(auto, using(std::proofs::lemmas::List::take_min))]
fn extend_line(line: &mut Vec<u8>, more: &[u8]) -> Result<(), NoMemory>
    ensures { OnOk result (line.new.items ≡ line.old.items ++ take (line_bytes + 1 - length line.old.items) more.now) }
{
    let room = (LINE_BYTES + 1).saturating_sub(line.len());
    Ok(line.extend_from_slice(&more[..room.min(more.len())])?)
}

fn new_piece(alloc: Global) -> Result<Vec<u8>, NoMemory>
    ensures { IfOk result (λ piece. length piece.items ≡ piece_bytes) }
{
    Ok(vec![in alloc; 0; PIECE]?)
}

/// The same bytes in place of others.
fn replace(bytes: &mut Vec<u8>, new: &[u8]) -> Result<(), NoMemory>
    ensures { OnOk result (bytes.new.items ≡ new.now) }
{
    bytes.clear();
    Ok(bytes.extend_from_slice(new)?)
}

impl Lines {
    /// The lines of a source of which nothing was read.
    pub fn new(alloc: Global) -> Result<Lines, NoMemory>
        ensures { IfOk result (λ lines. lines.held ≡ []) }
    {
        Ok(Lines {
            bytes: Vec::new(alloc),
            at: 0,
            piece: new_piece(alloc)?,
        })
    }

    /// The bytes that are held.
    fn held(&self) -> &[u8]
        ensures { result.now ≡ self.now.held }
    {
        if self.at < self.bytes.len() {
            &self.bytes[self.at..]
        } else {
            &[]
        }
    }

    /// So many bytes that are held were taken.
    fn pass(&mut self, count: usize)
        requires { count ≤ length self.old.held }
        ensures { self.new.held ≡ drop count self.old.held }
    {
        self.at += count;
    }

    /// Takes what is held up to a newline, or all of it, and says whether there was a newline.
    fn take_held(&mut self, line: &mut Vec<u8>) -> Result<bool, NoMemory>
        ensures { IfOk result (λ ended. TookHeld ended line.old.items line.new.items self.old.held self.new.held) }
    {
        let held = self.held();
        match newline_in(held) {
            Some(place) => {
                extend_line(line, &held[..place])?;
                self.pass(place + 1);
                Ok(true)
            }
            None => {
                let count = held.len();
                extend_line(line, held)?;
                self.pass(count);
                Ok(false)
            }
        }
    }

    /// Reads more bytes, where none are held. Says whether there were any.
    fn refill<S: Source>(&mut self, source: &mut S) -> Result<bool, ReadEnd>
        requires { self.old.held ≡ [] }
        ensures came { OnOk result (S.left source.old ≡ with_front self.new.held (S.left source.new)) }
        ensures some { IfOk result (λ more. more ≡ true → 0 < length self.new.held) }
        ensures none { IfOk result (λ more. more ≡ false → self.new.held ≡ []) }
        ensures most { OnOk result (length self.new.held ≤ piece_bytes) }
        ensures end { IfOk result (λ more. more ≡ false → IsAtEnd (S.left source.new)) }
        ensures failed { IsErrOf result ReadEnd.Failed → Rose (S.faults source.old) (S.faults source.new) }
        ensures no_fault { result ≢ Err ReadEnd.Failed → S.faults source.new ≡ S.faults source.old }
        ensures lost { OnErr result (CameWithin piece_bytes (S.left source.old) (S.left source.new)) }
        ensures kept { IsErrOf result ReadEnd.Failed → S.left source.new ≡ S.left source.old }
        ensures short { result ≢ Err ReadEnd.TooLong }
    {
        let count = source.read(self.piece.as_mut_slice())?;
        replace(&mut self.bytes, &self.piece[..count])?;
        self.at = 0;
        Ok(count > 0)
    }

    /// Takes the next line, without its newline; the last one may lack it. Says whether there was a line. Of one with
    /// more bytes than a line may have one byte more than that is kept. Nothing is read where a whole line is held, nor
    /// once its end has come, also where this fails; and a read that fails is one before which no end has come.
    pub fn next<S: Source>(&mut self, source: &mut S, line: &mut Vec<u8>) -> Result<bool, ReadEnd>
        ensures takes { IfOk result (λ there. TakesLine there line.new.items
            (with_front self.old.held (S.left source.old)) (with_front self.new.held (S.left source.new))) }
        ensures read { ReadsToNewline self.old.held (S.left source.old) (S.left source.new) }
        ensures unread { list_any is_newline self.old.held ≡ true → source.new ≡ source.old }
        // More bytes came than can be counted.
        ensures long { IsErrOf result ReadEnd.TooLong
            → CameAbove (2 ^ 64 - 2) (with_front self.old.held (S.left source.old)) (S.left source.new) }
        ensures unended { IsErrOf result ReadEnd.Failed
            → ReadNoNewline self.old.held (S.left source.old) (S.left source.new) }
        ensures failed { IsErrOf result ReadEnd.Failed → Rose (S.faults source.old) (S.faults source.new) }
        ensures no_fault { result ≢ Err ReadEnd.Failed → S.faults source.new ≡ S.faults source.old }
    {
        line.clear();
        if self.take_held(line)? {
            return Ok(true);
        }
        for _ in 0..u64::MAX {
            if !self.refill(source)? {
                let bytes = line.as_slice();
                return Ok(!bytes.is_empty());
            }
            if self.take_held(line)? {
                return Ok(true);
            }
        }
        Err(ReadEnd::TooLong)
    }
}
