ghost use Rattle.std.specs.Prelude.{◌≡◌, ◌==◌, ◌<◌, ◌≤◌, [], ℕ, List, length, slice_get, is_some, IsSome, IfSome, IfNone, IsNone, OnOk, OnErr, Some, None};
ghost use Rattle.std.specs.Option.{option_copied, option_copied_mut};
ghost use Rattle.std.specs.Borrow.{sem};
ghost use Rattle.std.specs.Slice.Iter.{iter_rest};
ghost use Rattle.std.specs.Iterator.Adapters.{IterYieldsInOrder};
ghost use Rattle.pr_num.specs.ById.{IsRising, under, thing_at, id_at, place_from, place_after, inserted, without_id};

use crate::memory::NoMemory;
use std::alloc::Global;
use std::marker::Model;
use std::slice::Iter;

/// Things under ids that rise strictly, seen by contracts as the list of pairs of an id and its thing. The id is a
/// key and no part of the thing, so a thing may be lent and changed. An id is found by halves.
#[derive(Drop)]
pub struct ById<T> {
    items: Vec<(u32, T)>,
}

impl<T> Model for ById<T> {
    ghost use Rattle.std.specs.Prelude.{List, ℕ};
    ghost use Rattle.pr_num.specs.ById.{IsRising};

    ghost Value = { List (ℕ × T) };

    ghost view = { λ table. table.items.items };

    ghost invariant = { λ table. IsRising table.items.items };
}

/// The place of the first id that is not below this one, or the number of ids where each is.
#[tactic(auto, using(crate::proofs::ByIdLemmas::place_laws))]
fn place_from<T>(items: &[(u32, T)], low: u64) -> usize
    requires { IsRising items.now }
    ensures place { result ≡ place_from low items.now }
    ensures within { result ≤ length items.now }
{
    let mut at_least = 0;
    let mut at_most = items.len();
    while at_least < at_most {
        let middle = at_least + (at_most - at_least) / 2;
        let entry = &items[middle];
        if (entry.0 as u64) < low {
            at_least = middle + 1;
        } else {
            at_most = middle;
        }
    }
    at_least
}

/// The place of an id.
#[tactic(auto, using(crate::proofs::ByIdLemmas::place_laws))]
fn place_of<T>(items: &[(u32, T)], id: u64) -> Option<usize>
    requires { IsRising items.now }
    ensures some { IfSome result (λ place. id_at place items.now ≡ Some id) }
    ensures within { IfSome result (λ place. place < length items.now) }
    ensures none { IfNone result (under id items.now ≡ None) }
{
    let place = place_from(items, id);
    if place == items.len() {
        return None;
    }
    let entry = &items[place];
    if entry.0 as u64 == id {
        Some(place)
    } else {
        None
    }
}

impl<T> ById<T> {
    ghost use Rattle.pr_num.specs.ByIdLending.{lends_at, lends_under, lends_found};

    /// An empty table. Takes no memory.
    pub fn new(alloc: Global) -> ById<T>
        ensures { result ≡ [] }
    {
        ById {
            items: Vec::new(alloc),
        }
    }

    /// The ids of every table rise strictly.
    pub fn ids_rise(&self)
        ensures { IsRising self.now }
    {
        let _ = &self.items;
    }

    /// How many ids stand.
    pub fn len(&self) -> usize
        ensures { result ≡ length self.now }
    {
        self.items.len()
    }

    /// Whether no id stands.
    pub fn is_empty(&self) -> bool
        ensures { result ≡ (length self.now == 0) }
    {
        self.items.len() == 0
    }

    /// The ids, each with its thing, by rising id.
    pub fn as_slice(&self) -> &[(u32, T)]
        ensures pairs { result.now ≡ self.now }
        ensures rising { IsRising self.now }
    {
        &self.items
    }

    /// Goes over the ids, each with its thing, by rising id.
    pub fn iter(&self) -> Iter<'_, (u32, T)>
        ensures rest { iter_rest result ≡ self.now }
        ensures len { length (iter_rest result) ≡ length self.now }
        ensures runs { IterYieldsInOrder (ℕ × T) }
    {
        self.items.iter()
    }

    /// The thing under an id.
    pub fn get(&self, id: u32) -> Option<&T>
        ensures { option_copied result ≡ under id self.now }
    {
        self.get_u64(id as u64)
    }

    /// The thing under an id that a program names by a whole word: none stands under a number of more than 32 bits.
    pub fn get_u64(&self, id: u64) -> Option<&T>
        ensures { option_copied result ≡ under id self.now }
    {
        let place = place_of(&self.items, id)?;
        let entry = &self.items[place];
        Some(&entry.1)
    }

    /// Whether an id stands.
    pub fn contains(&self, id: u32) -> bool
        ensures { result ≡ is_some (under id self.now) }
    {
        self.get(id).is_some()
    }

    /// Whether the id of a whole word stands, as in `get_u64`.
    pub fn contains_u64(&self, id: u64) -> bool
        ensures { result ≡ is_some (under id self.now) }
    {
        self.get_u64(id).is_some()
    }

    /// The place of the first id above one, or of the first id of all, counted from 0; the number of ids where none
    /// is above it.
    pub fn place_after(&self, id: Option<u32>) -> usize
        ensures place { result ≡ place_after id self.now }
        ensures within { result ≤ length self.now }
    {
        match id {
            None => 0,
            Some(id) => place_from(&self.items, id as u64 + 1),
        }
    }

    /// The id and the thing at a place, counted from 0.
    pub fn at(&self, place: usize) -> (u32, &T)
        requires { place < length self.now }
        ensures { slice_get self.now place ≡ Some (result.0, result.1.now) }
    {
        let entry = &self.items[place];
        (entry.0, &entry.1)
    }

    /// The thing at a place. Its id stays.
    pub fn at_mut(&mut self, place: usize) -> &mut T
        requires { place < length self.old }
        ensures* writes_back { sem 𝓛 (lends_at T.row self.entry place result) }
        ensures value { thing_at place self.old ≡ Some result.now }
    {
        &mut self.items[place].1
    }

    /// The thing under an id, to be changed; `None` exactly where the id does not stand. The ids stay.
    pub fn find_mut(&mut self, id: u32) -> Option<&mut T>
        ensures* writes_back { sem 𝓛 (lends_found T.row self.entry id result) }
        ensures value { option_copied_mut result ≡ under id self.old }
    {
        let place = place_of(&self.items, id as u64)?;
        Some(self.at_mut(place))
    }

    /// The thing under an id that stands. Its id stays.
    pub fn get_mut(&mut self, id: u32) -> &mut T
        requires { IsSome (under id self.old) }
        ensures* writes_back { sem 𝓛 (lends_under T.row self.entry id result) }
        ensures value { under id self.old ≡ Some result.now }
    {
        let place = place_of(&self.items, id as u64).unwrap();
        self.at_mut(place)
    }

    /// Adds a thing under an id that does not stand, behind those of lower ids. Where memory runs out, the table stays
    /// as it is.
    pub fn insert(&mut self, id: u32, thing: T) -> Result<(), NoMemory>
    where
        T: Drop,
        requires { IsNone (under id self.old) }
        ensures ok { OnOk result (self.new ≡ inserted id thing self.old) }
        ensures err { OnErr result (self.new ≡ self.old) }
    {
        let place = place_from(&self.items, id as u64);
        self.items.insert(place, (id, thing))?;
        Ok(())
    }

    /// Takes out the thing under an id that stands. Takes no memory.
    pub fn remove(&mut self, id: u32) -> T
        requires { IsSome (under id self.old) }
        ensures value { under id self.old ≡ Some result }
        ensures rest { self.new ≡ without_id id self.old }
    {
        let place = place_of(&self.items, id as u64).unwrap();
        let (_, thing) = self.items.remove(place);
        thing
    }

    /// Takes out everything. Takes no memory.
    pub fn clear(&mut self)
    where
        T: Drop,
        ensures { self.new ≡ [] }
    {
        self.items.clear();
    }
}
