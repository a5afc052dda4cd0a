ghost use Rattle.std.specs.Prelude.{◌≡◌, ◌==◌, ◌||◌, ◌&&◌, ◌≤◌, ◌<◌, ℕ, false, true, not, replicate, IfOk, IfSome, IfNone};
ghost use Rattle.pr_num.specs.Limits.{process_limit};
ghost use Rattle.pr_pids.specs.Blocks.{has_block};

use crate::bits::first_bit;
use pr_num::NoMemory;
use pr_num::limits::PROCESS_LIMIT;
use std::alloc::Global;
use std::marker::Model;

/// For each process id below 4,096 a set of blocks, which are numbered from 0 to 63, seen by contracts as a word for
/// each id. The words are made with it, and nothing else takes memory.
#[derive(Drop)]
pub struct BlockSets {
    words: Vec<u64>,
}

impl Model for BlockSets {
    ghost use Rattle.std.specs.Prelude.{◌≡◌, ℕ, List, length};
    ghost use Rattle.pr_num.specs.Limits.{process_limit};

    ghost Value = { List ℕ };

    ghost view = { λ sets. sets.words.items };

    ghost invariant = { λ sets. length sets.words.items ≡ process_limit };
}

impl BlockSets {
    /// No block for any id.
    pub fn empty(alloc: Global) -> Result<BlockSets, NoMemory>
        ensures { IfOk result (λ sets. sets ≡ replicate process_limit 0) }
    {
        let words = vec![in alloc; 0; PROCESS_LIMIT]?;
        Ok(BlockSets { words })
    }

    /// Puts a block into the set of an id.
    pub fn insert(&mut self, pid: u32, block: u32)
        requires pid { pid < process_limit }
        requires block { block < 64 }
        ensures { (p b : ℕ) → has_block self.new p b ≡ (has_block self.old p b || ((p == pid) && (b == block))) }
    {
        self.words[pid as usize] |= 1 << block;
    }

    /// Takes a block out of the set of an id.
    pub fn remove(&mut self, pid: u32, block: u32)
        requires pid { pid < process_limit }
        requires block { block < 64 }
        ensures { (p b : ℕ) → b < 64
            → has_block self.new p b ≡ (has_block self.old p b && not ((p == pid) && (b == block))) }
    {
        self.words[pid as usize] &= !(1 << block);
    }

    /// The least block from one on in the set of an id.
    #[tactic(auto, unfolding(crate::specs::Blocks::has_block))]
    pub fn next_from(&self, pid: u32, low: u32) -> Option<u32>
        requires { pid < process_limit }
        ensures member { IfSome result (λ block. has_block self.now pid block ≡ true) }
        ensures behind { IfSome result (λ block. low ≤ block) }
        ensures within { IfSome result (λ block. block < 64) }
        ensures least { IfSome result (λ block. (b : ℕ) → low ≤ b → b < block → has_block self.now pid b ≡ false) }
        ensures none { IfNone result ((b : ℕ) → low ≤ b → b < 64 → has_block self.now pid b ≡ false) }
    {
        if low >= 64 {
            return None;
        }
        first_bit(self.words[pid as usize], low)
    }
}
