ghost use Rattle.std.specs.Prelude.{◌≡◌, ℕ, ◌+◌, ◌-◌, ◌<◌, ◌≤◌, ◌↔◌, ◌⊎◌, List, [], length, take, drop, min, Some, IsErr, OnOk, IfOk, OnErr, Contains};
ghost use Rattle.pr_io.specs.InMemory.{free_room, after_read, after_failed_read, after_write, after_failed_write};

use crate::failures::raised;
use crate::{Failed, Sink, Source};
use pr_num::{Bytes, NoMemory};
use std::alloc::Global;
use std::marker::Model;

/// A source whose bytes lie in memory. Its calls are counted from 0, and those whose numbers are
/// listed fail. Contracts see the bytes that are left, the list, the calls made and the faults
/// among them.
#[derive(Drop)]
pub struct MemSource {
    bytes: Bytes,
    at: usize,
    fails: Vec<u64>,
    calls: u64,
    count: u64,
}

impl Model for MemSource {
    ghost use Rattle.std.specs.Prelude.{◌≤◌, length, drop};
    ghost use Rattle.pr_io.specs.InMemory.{Supply};

    ghost Value = { Supply };

    ghost view = { λ s. record {
      left = drop s.at s.bytes;
      fails = s.fails.items;
      calls = s.calls;
      faults = s.count;
    } };

    ghost invariant = { λ s. s.at ≤ length s.bytes };
}

impl MemSource {
    /// A source of these bytes, of which no call was made yet. Takes no memory.
    pub fn new(bytes: Bytes, fails: Vec<u64>) -> MemSource
        ensures { result ≡ record { left = bytes; fails = fails.items; calls = 0; faults = 0 } }
    {
        MemSource {
            bytes,
            at: 0,
            fails,
            calls: 0,
            count: 0,
        }
    }

    /// The bytes that are still to come.
    pub fn left(&self) -> &[u8]
        ensures { result.now ≡ self.now.left }
    {
        &self.bytes.as_slice()[self.at..]
    }

    /// How many reads were asked of it, up to 2^64 - 1.
    pub fn calls(&self) -> u64
        ensures { result ≡ self.now.calls }
    {
        self.calls
    }

    /// How many of them failed, up to 2^64 - 1.
    pub fn faults(&self) -> u64
        ensures { result ≡ self.now.faults }
    {
        self.count
    }
}

#[tactic(auto, using(crate::proofs::Known::parts))]
impl Source for MemSource {
    ghost use Rattle.std.specs.Prelude.{Some};

    ghost left = { λ s. Some s.left };

    ghost faults = { λ s. s.faults };

    ghost reads = { λ s. s.calls };

    /// Fails exactly where the number of the call is listed; else it moves as many bytes as
    /// there are and `buf` takes.
    fn read(&mut self, buf: &mut [u8]) -> Result<usize, Failed>
        requires { 0 < length buf.old }
        ensures exact { IsErr result ↔ Contains self.old.fails self.old.calls }
        ensures many { IfOk result (λ n. n ≡ min (length buf.old) (length self.old.left)) }
        ensures fits { IfOk result (λ n. n ≤ length buf.new) }
        ensures bytes { IfOk result (λ n. take n buf.new ≡ take n self.old.left) }
        ensures ok { IfOk result (λ n. self.new ≡ after_read self.old n) }
        ensures err { OnErr result (self.new ≡ after_failed_read self.old) }
    {
        let call = self.calls;
        self.calls = raised(call);
        if self.fails.contains(&call) {
            self.count = raised(self.count);
            return Err(Failed);
        }
        let n = copy_front(buf, &self.bytes.as_slice()[self.at..]);
        self.at += n;
        Ok(n)
    }
}

// Copies to the front of `to` as many bytes of `from` as it takes, and says how many.
fn copy_front(to: &mut [u8], from: &[u8]) -> usize
    ensures many { result ≡ min (length to.old) (length from.now) }
    ensures bytes { take result to.new ≡ take result from.now }
{
    let n = to.len().min(from.len());
    to[..n].copy_from_slice(&from[..n]);
    n
}

/// A sink whose bytes lie in memory, with room for so many. Its calls are counted from 0, and
/// those whose numbers are listed fail, as each one that finds no room. Contracts see the bytes,
/// the room, the list, the calls made and the faults among them.
#[derive(Drop)]
pub struct MemSink {
    bytes: Vec<u8>,
    room: usize,
    fails: Vec<u64>,
    calls: u64,
    count: u64,
}

impl Model for MemSink {
    ghost use Rattle.std.specs.Prelude.{◌≤◌, vec_len, vec_capacity};
    ghost use Rattle.pr_io.specs.InMemory.{Store};

    ghost Value = { Store };

    ghost view = { λ s. record {
      written = s.bytes.items;
      room = s.room;
      fails = s.fails.items;
      calls = s.calls;
      faults = s.count;
    } };

    ghost invariant = { λ s. (vec_len s.bytes ≤ s.room) × (s.room ≤ vec_capacity s.bytes) };
}

impl MemSink {
    /// An empty sink with room for `room` bytes, which is all the memory that it ever takes.
    pub fn new(alloc: Global, room: usize, fails: Vec<u64>) -> Result<MemSink, NoMemory>
        ensures { IfOk result (λ sink. sink ≡ record {
          written = [];
          room = room;
          fails = fails.items;
          calls = 0;
          faults = 0;
        }) }
    {
        Ok(MemSink {
            bytes: Vec::with_capacity(alloc, room)?,
            room,
            fails,
            calls: 0,
            count: 0,
        })
    }

    /// The bytes that were written.
    pub fn bytes(&self) -> &[u8]
        ensures { result.now ≡ self.now.written }
    {
        &self.bytes
    }

    /// How many writes were asked of it, up to 2^64 - 1.
    pub fn calls(&self) -> u64
        ensures { result ≡ self.now.calls }
    {
        self.calls
    }

    /// How many of them failed, up to 2^64 - 1.
    pub fn faults(&self) -> u64
        ensures { result ≡ self.now.faults }
    {
        self.count
    }
}

impl Sink for MemSink {
    ghost use Rattle.std.specs.Prelude.{Some};

    ghost written = { λ s. Some s.written };

    ghost faults = { λ s. s.faults };

    /// Fails exactly where the number of the call is listed or no room is left; else it takes as
    /// much as there is room for. Takes no memory.
    fn write(&mut self, part: &[u8]) -> Result<usize, Failed>
        requires { 0 < length part.now }
        ensures exact { IsErr result
            ↔ (Contains self.old.fails self.old.calls ⊎ (free_room self.old ≡ 0)) }
        ensures many { IfOk result (λ n. n ≡ min (length part.now) (free_room self.old)) }
        ensures ok { IfOk result (λ n. self.new ≡ after_write self.old part.now n) }
        ensures err { OnErr result (self.new ≡ after_failed_write self.old) }
    {
        let call = self.calls;
        self.calls = raised(call);
        let free = self.room - self.bytes.len();
        if free == 0 || self.fails.contains(&call) {
            self.count = raised(self.count);
            return Err(Failed);
        }
        let n = part.len().min(free);
        self.bytes.extend_from_slice(&part[..n]).unwrap();
        Ok(n)
    }
}
