//! Where the names of a program stand.
ghost use Rattle.std.specs.Prelude.{◌≡◌, ◌+◌, ◌<◌, ◌≤◌, ◌^◌, ℕ, List, None, Some, length, OnOk, IfOk, bytes_eq, if◌then◌else◌};
ghost use Rattle.std.specs.Option.{option_or};
ghost use Rattle.pr_num.specs.Limits.{code_limit, data_limit};
ghost use Rattle.pr_asm.specs.Placing.{found, place_in, SeesLine};

use crate::AsmKind;
use crate::layouts::Layout;
use crate::statements::Statement;
use pr_num::{Name, NoMemory};
use pr_text::Key;
use std::alloc::Global;
use std::collections::BTreeMap;

/// Where a name is placed first: the line, and the value that it stands for.
#[derive(Clone, Copy)]
pub struct Place {
    pub line: u32,
    pub value: u64,
}

/// Where each name of a program is placed first. A name is found in logarithmic time.
#[derive(Drop)]
pub struct Places {
    map: BTreeMap<Key, Place>,
}

impl Places {
    #[tactic(auto, unfolding(crate::specs::Placing::found))]
    fn new(alloc: Global) -> Places
        ensures { (name : List ℕ) → found result name ≡ None }
    {
        Places {
            map: BTreeMap::new(alloc),
        }
    }

    /// Where a name is placed, if it is.
    #[tactic(auto, unfolding(crate::specs::Placing::found))]
    pub fn find(&self, name: Name) -> Option<Place>
        ensures { result ≡ found self.now name }
    {
        self.map.get(&Key { name }).copied()
    }

    /// Keeps the place of a name, unless it has one.
    fn add(&mut self, name: Name, place: Place) -> Result<(), NoMemory>
        ensures { OnOk result ((other : List ℕ) → found self.new other
            ≡ option_or (found self.old other) (if bytes_eq other name then Some place else None)) }
    {
        if self.find(name).is_none() {
            self.map.insert(Key { name }, place)?;
        }
        Ok(())
    }

    /// Keeps the name that a line places, and answers what stands above the next line.
    fn add_line(
        &mut self,
        above: Layout,
        line: u32,
        read: &Result<Statement, AsmKind>,
    ) -> Result<Layout, NoMemory>
        requires code { above.code ≤ code_limit }
        requires bytes { above.bytes ≤ data_limit }
        ensures layout { IfOk result (λ below. (below.code ≤ code_limit) × (below.bytes ≤ data_limit)) }
        ensures names { IfOk result (λ below. SeesLine self.old self.new above below line read.now) }
    {
        let Ok(statement) = read else {
            return Ok(above);
        };
        if let Some((name, place)) = above.placed(line, statement) {
            self.add(name, place)?;
        }
        Ok(above.after(statement))
    }

    /// The places of the names that well formed lines place, where the lines count from `first`.
    pub fn of(
        alloc: Global,
        reads: &[Result<Statement, AsmKind>],
        first: u32,
    ) -> Result<Places, NoMemory>
        requires { first + length reads.now ≤ 2 ^ 32 }
        ensures { IfOk result (λ places. (name : List ℕ) → found places name ≡ place_in first reads.now name) }
    {
        let mut places = Places::new(alloc);
        let mut above = Layout { code: 0, bytes: 0 };
        for (i, read) in reads.iter().enumerate() {
            above = places.add_line(above, first + i as u32, read)?;
        }
        Ok(places)
    }
}
