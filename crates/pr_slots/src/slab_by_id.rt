ghost use Rattle.std.specs.Prelude.{◌≡◌, ◌+◌, ◌<◌, ◌≤◌, ◌^◌, [], ◌∷◌, length, is_some, IsSome, IsNone, IfOk, IfSome, IfNone, OnOk, OnErr, Some, None};
ghost use Rattle.std.specs.Option.{option_copied};
ghost use Rattle.std.specs.Borrow.{sem};
ghost use Rattle.pr_num.specs.ById.{IsRising, under, inserted, without_id, first_from};
ghost use Rattle.pr_slots.specs.Walks.{rest_from};
ghost use Rattle.slab.specs.Slab.{entries_from};

use crate::Slots;
use pr_num::NoMemory;
use std::alloc::Global;
use std::marker::Model;

/// Things under ids, in a slab, seen by contracts as the list of pairs of an id and its thing, by rising id. The id is
/// a key and no part of the thing, so a thing may be lent and changed.
///
/// A thing is found by its id at once, and no other one moves when it comes or goes. There is a place of a few words
/// for each id up to the highest that ever stood, so ids are to be small numbers.
#[derive(Drop)]
pub struct SlabById<T> {
    slots: Slots<T>,
}

impl<T> Model for SlabById<T> {
    ghost use Rattle.std.specs.Prelude.{List, ℕ, ◌≤◌, ◌^◌, length};
    ghost use Rattle.slab.specs.Slab.{entries_from};

    ghost Value = { List (ℕ × T) };

    ghost view = { λ table. entries_from 0 table.slots };

    // each id is a word of 32 bits
    ghost invariant = { λ table. length table.slots ≤ 2 ^ 32 };
}

/// Makes free places up to that of an id. Where memory runs out, there are perhaps more than there were.
fn widen<T: Drop>(slots: &mut Slots<T>, id: u32) -> Result<(), NoMemory>
    ensures pairs { entries_from 0 slots.new ≡ entries_from 0 slots.old }
    ensures limit { length slots.old ≤ 2 ^ 32 → length slots.new ≤ 2 ^ 32 }
    ensures ok { OnOk result (id < length slots.new) }
{
    while slots.places() <= id as usize {
        slots.add_place()?;
    }
    Ok(())
}

impl<T> SlabById<T> {
    ghost use Rattle.pr_slots.specs.ByIdLending.{lends_under};

    /// An empty table, with room for things under the ids below this one: to put one there takes no memory.
    pub fn new(alloc: Global, ids: u32) -> Result<SlabById<T>, NoMemory>
    where
        T: Drop,
        ensures { IfOk result (λ table. table ≡ []) }
    {
        let slots = Slots::with_room(alloc, ids as usize)?;
        Ok(SlabById { slots })
    }

    /// The ids of every table rise strictly.
    #[tactic(auto, using(crate::proofs::PairLemmas::rising))]
    pub fn ids_rise(&self)
        ensures { IsRising self.now }
    {
        let _ = &self.slots;
    }

    /// The thing under an id.
    pub fn get(&self, id: u32) -> Option<&T>
        ensures { option_copied result ≡ under id self.now }
    {
        self.slots.get(id as usize)
    }

    /// Whether an id stands.
    pub fn contains(&self, id: u32) -> bool
        ensures { result ≡ is_some (under id self.now) }
    {
        self.get(id).is_some()
    }

    /// The id that is this number, if a thing stands under it: none stands under a number of more than 32 bits.
    pub fn id_of(&self, number: u64) -> Option<u32>
        ensures id { IfSome result (λ id. id ≡ number) }
        ensures some { is_some result ≡ is_some (under number self.now) }
    {
        if number >= self.slots.places() as u64 {
            return None;
        }
        let id = number as u32;
        if self.contains(id) { Some(id) } else { None }
    }

    /// There are no more things than ids.
    #[tactic(auto, using(crate::proofs::PairLemmas::few))]
    pub fn are_few(&self)
        ensures { length self.now ≤ 2 ^ 32 }
    {
        let _ = &self.slots;
    }

    /// The first id at or behind a number, with its thing: a walk over all goes on behind it. Looks at the places from
    /// that number on, up to the first that is taken.
    pub fn next_from(&self, low: u64) -> Option<(u32, &T)>
        ensures next { IfSome result (λ next. first_from low self.now ≡ Some (next.0, next.1.now)) }
        ensures rest { IfSome result (λ next. rest_from low self.now ≡ (next.0, next.1.now) ∷ rest_from (next.0 + 1) self.now) }
        ensures behind { IfSome result (λ next. low ≤ next.0) }
        ensures none { IfNone result (first_from low self.now ≡ None) }
        ensures end { IfNone result (rest_from low self.now ≡ []) }
    {
        for number in low..self.slots.places() as u64 {
            if let Some(thing) = self.slots.get(number as usize) {
                return Some((number as u32, thing));
            }
        }
        None
    }

    /// The thing under an id that stands. Its id stays.
    pub fn get_mut(&mut self, id: u32) -> &mut T
        requires { IsSome (under id self.old) }
        ensures* writes_back { sem 𝓛 (lends_under T.row self.entry id result) }
        ensures value { under id self.old ≡ Some result.now }
    {
        self.slots.get_mut(id as usize)
    }

    /// Adds a thing under an id that does not stand, behind those of lower ids. Where memory runs out, the table stays
    /// as it is.
    pub fn insert(&mut self, id: u32, thing: T) -> Result<(), NoMemory>
    where
        T: Drop,
        requires { IsNone (under id self.old) }
        ensures ok { OnOk result (self.new ≡ inserted id thing self.old) }
        ensures err { OnErr result (self.new ≡ self.old) }
    {
        widen(&mut self.slots, id)?;
        self.slots.put(id as usize, thing);
        Ok(())
    }

    /// Takes out the thing under an id that stands. Takes no memory.
    pub fn remove(&mut self, id: u32) -> T
        requires { IsSome (under id self.old) }
        ensures value { under id self.old ≡ Some result }
        ensures rest { self.new ≡ without_id id self.old }
    {
        self.slots.remove(id as usize)
    }
}
