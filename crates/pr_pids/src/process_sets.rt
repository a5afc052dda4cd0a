ghost use Rattle.std.specs.Prelude.{◌≡◌, ◌≢◌, ◌==◌, ◌||◌, ◌&&◌, ◌<◌, ◌*◌, ℕ, List, not, replicate, slice_index, IfSome, IfNone};
ghost use Rattle.std.specs.Int.{bit_at};
ghost use Rattle.pr_num.specs.Limits.{process_limit};
ghost use Rattle.pr_pids.specs.Members.{HasNoneFrom, IsNextFrom, IsSummed, has_pid};

use crate::bits::first_bit;
use std::marker::Model;

/// How many words hold a bit for each process id.
const WORDS: u32 = 64;

/// A set of process ids below 4,096, seen by contracts as its words. It stands in place, and takes no memory.
#[derive(Drop)]
pub struct ProcessSet {
    words: [u64; 64],
    /// A bit for each word: it is 1 where the word has an id, so that a walk passes over the other words at once.
    some: u64,
}

impl Model for ProcessSet {
    ghost use Rattle.std.specs.Prelude.{ℕ, List};

    ghost Value = { List ℕ };

    ghost use Rattle.pr_pids.specs.Members.{IsSummed};

    ghost view = { λ set. set.words };

    ghost invariant = { λ set. IsSummed set.some set.words };
}

/// The bits that tell which words have an id, where this is the word at a place now.
fn mark(some: u64, at: u32, word: u64) -> u64
    requires { at < 64 }
    ensures { (words : List ℕ) → slice_index words at ≡ word
        → ((i : ℕ) → i < 64 → i ≢ at → bit_at some i ≡ 0 → slice_index words i ≡ 0) → IsSummed result words }
{
    if word == 0 {
        some & !(1 << at)
    } else {
        some | 1 << at
    }
}

/// The least id from the beginning of a word on, where each bit of `some` that is 0 tells a word without an id.
fn next_from_word(words: &[u64; 64], some: u64, from: u32) -> Option<u32>
    requires { IsSummed some words.now }
    ensures next { IfSome result (λ pid. IsNextFrom words.now (from * 64) pid) }
    ensures within { IfSome result (λ pid. pid < process_limit) }
    ensures none { IfNone result (HasNoneFrom words.now (from * 64)) }
{
    let mut at = from;
    while at < WORDS {
        let Some(word) = first_bit(some, at) else {
            return None;
        };
        if let Some(bit) = first_bit(words[word as usize], 0) {
            return Some(word * 64 + bit);
        }
        at = word + 1;
    }
    None
}

impl ProcessSet {
    /// The set without any id.
    pub fn empty() -> ProcessSet
        ensures { result ≡ replicate 64 0 }
    {
        ProcessSet {
            words: [0; 64],
            some: 0,
        }
    }

    /// Puts an id into the set.
    pub fn insert(&mut self, pid: u32)
        requires { pid < process_limit }
        ensures { (other : ℕ) → has_pid self.new other ≡ (has_pid self.old other || (other == pid)) }
    {
        self.words[(pid / 64) as usize] |= 1 << (pid % 64);
        self.some = mark(self.some, pid / 64, self.words[(pid / 64) as usize]);
    }

    /// Takes an id out of the set.
    pub fn remove(&mut self, pid: u32)
        requires { pid < process_limit }
        ensures { (other : ℕ) → has_pid self.new other ≡ (has_pid self.old other && not (other == pid)) }
    {
        self.words[(pid / 64) as usize] &= !(1 << (pid % 64));
        self.some = mark(self.some, pid / 64, self.words[(pid / 64) as usize]);
    }

    /// The least id of the set from one on. Words without an id are skipped.
    pub fn next_from(&self, from: u32) -> Option<u32>
        ensures next { IfSome result (λ pid. IsNextFrom self.now from pid) }
        ensures within { IfSome result (λ pid. pid < process_limit) }
        ensures none { IfNone result (HasNoneFrom self.now from) }
    {
        let words = &self.words;
        if from / 64 >= WORDS {
            return None;
        }
        match first_bit(words[(from / 64) as usize], from % 64) {
            Some(bit) => Some(from / 64 * 64 + bit),
            None => next_from_word(words, self.some, from / 64 + 1),
        }
    }
}
