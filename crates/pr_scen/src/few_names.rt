//! The names of programs and of files, which have one limit.
ghost use Rattle.std.specs.Prelude.{◌≡◌, ◌≤◌, ◌<◌, ◌++◌, [], ◌∷◌, None, OnOk, IfSome, length};
ghost use Rattle.pr_num.specs.Limits.{program_limit};
ghost use Rattle.pr_scen.specs.Names.{place_of};

use crate::name_indexes::Names;
use pr_num::{Name, NoMemory};
use std::alloc::Global;
use std::marker::Model;

/// At most as many names as a scenario can have programs, each once, seen by contracts as their list.
#[derive(Drop)]
pub struct FewNames {
    names: Names,
}

impl Model for FewNames {
    ghost use Rattle.std.specs.Prelude.{ℕ, ◌≤◌, List, length};
    ghost use Rattle.pr_num.specs.Limits.{program_limit};

    ghost Value = { List (List ℕ) };

    ghost view = { λ few. few.names };

    ghost invariant = { λ few. length few.names ≤ program_limit };
}

impl FewNames {
    /// No name.
    pub fn new(alloc: Global) -> FewNames
        ensures { result ≡ [] }
    {
        FewNames {
            names: Names::new(alloc),
        }
    }

    /// How many names there are.
    pub fn len(&self) -> usize
        ensures value { result ≡ length self.now }
        ensures most { result ≤ program_limit }
    {
        self.names.len()
    }

    /// The place of a name, counted from 0, if it is one of them.
    pub fn place_of(&self, name: Name) -> Option<usize>
        ensures value { result ≡ place_of self.now name }
        ensures within { IfSome result (λ place. place < program_limit) }
    {
        self.names.place_of(name)
    }

    /// Adds a name that is not one of them yet.
    pub fn add(&mut self, name: Name) -> Result<(), NoMemory>
        requires fresh { place_of self.old name ≡ None }
        requires room { length self.old < program_limit }
        ensures { OnOk result (self.new ≡ self.old ++ name ∷ []) }
    {
        self.names.add(name)
    }
}
