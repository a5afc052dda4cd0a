//! Names in the order in which they were given, each of which is found without a walk.
ghost use Rattle.std.specs.Prelude.{◌≡◌, ◌≤◌, ◌<◌, ◌+◌, ◌++◌, [], ◌∷◌, None, OnOk, IfSome, length};
ghost use Rattle.pr_scen.specs.Names.{place_of};

use pr_num::{Name, NoMemory};
use pr_text::Key;
use std::alloc::Global;
use std::collections::BTreeMap;
use std::marker::Model;

/// Names, each once, seen by contracts as their list. A name is found in logarithmic time.
#[derive(Drop)]
pub struct Names {
    items: Vec<Name>,
    places: BTreeMap<Key, usize>,
}

impl Model for Names {
    ghost use Rattle.std.specs.Prelude.{ℕ, List};
    ghost use Rattle.pr_scen.specs.Names.{IsIndex};

    ghost Value = { List (List ℕ) };

    ghost view = { λ names. names.items.items };

    ghost invariant = { λ names. IsIndex names.items.items names.places };
}

impl Names {
    /// No name.
    pub fn new(alloc: Global) -> Names
        ensures { result ≡ [] }
    {
        Names {
            items: Vec::new(alloc),
            places: BTreeMap::new(alloc),
        }
    }

    /// The place of a name, counted from 0, if it is one of them.
    #[tactic(auto, using(crate::proofs::NameLemmas::place_inside))]
    pub fn place_of(&self, name: Name) -> Option<usize>
        ensures value { result ≡ place_of self.now name }
        ensures within { IfSome result (λ place. place < length self.now) }
    {
        self.places.get(&Key { name }).copied()
    }

    /// How many names there are.
    pub fn len(&self) -> usize
        ensures { result ≡ length self.now }
    {
        self.items.len()
    }

    /// Adds a name that is not one of them yet.
    pub fn add(&mut self, name: Name) -> Result<(), NoMemory>
        requires { place_of self.old name ≡ None }
        ensures ok { OnOk result (self.new ≡ self.old ++ name ∷ []) }
        ensures len { length self.new ≤ length self.old + 1 }
    {
        let place = self.len();
        self.items.reserve(1)?;
        self.places.insert(Key { name }, place)?;
        match self.items.push(name) {
            Ok(()) => Ok(()),
            Err(_) => unreachable!(),
        }
    }
}
