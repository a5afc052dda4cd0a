ghost use Rattle.std.specs.Prelude.{◌≡◌, ◌<◌, ◌++◌, [], ◌∷◌, ℕ, length, replicate, is_none, position, None, Some, IsSome, IfOk, IfSome, OnOk, OnErr, slice_set, slice_index_or};
ghost use Rattle.std.specs.Option.{option_copied, option_copied_mut};
ghost use Rattle.std.specs.Borrow.{sem};

use pr_num::NoMemory;
use slab::Slab;
use std::alloc::Global;
use std::marker::Model;

/// Things by number, seen by contracts as the list of the places for them: place 0 first, a free one `None`.
///
/// Room for all places is there, so that nothing but a constructor and `add_place` takes memory. No other thing moves
/// when a place is filled or freed.
#[derive(Drop)]
pub struct Slots<T> {
    things: Slab<T>,
    // The key of each number.
    keys: Vec<Option<usize>>,
}

impl<T> Model for Slots<T> {
    ghost use Rattle.std.specs.Prelude.{List, Option};
    ghost use Rattle.pr_slots.specs.Keys.{places_of, IsKeyed};

    ghost Value = { List (Option T) };

    ghost view = { λ slots. places_of slots.things slots.keys.items };

    ghost invariant = { λ slots. IsKeyed slots.things slots.keys.items };
}

impl<T> Slots<T> {
    ghost use Rattle.pr_slots.specs.Lending.{lends_thing};

    /// So many places, all of them free, and room for as many things.
    pub fn new(alloc: Global, places: usize) -> Result<Slots<T>, NoMemory>
    where
        T: Drop,
        ensures { IfOk result (λ slots. slots ≡ replicate places None) }
    {
        let things = Slab::with_capacity(alloc, places)?;
        let keys = no_keys(alloc, places)?;
        Ok(Slots { things, keys })
    }

    /// No place, and room for so many places and things: until there are as many, none takes memory.
    pub fn with_room(alloc: Global, room: usize) -> Result<Slots<T>, NoMemory>
    where
        T: Drop,
        ensures { IfOk result (λ slots. slots ≡ []) }
    {
        let things = Slab::with_capacity(alloc, room)?;
        let keys = Vec::with_capacity(alloc, room)?;
        Ok(Slots { things, keys })
    }

    /// How many places there are, free or not.
    pub fn places(&self) -> usize
        ensures { result ≡ length self.now }
    {
        self.keys.len()
    }

    /// The least number whose place is free.
    pub fn least_free(&self) -> Option<usize>
        ensures least { result ≡ position is_none self.now }
        ensures within { IfSome result (λ number. number < length self.now) }
        ensures free { IfSome result (λ number. slice_index_or self.now number None ≡ None) }
    {
        least_free(&self.keys)
    }

    /// The thing of a number. There is none where its place is free, or where there is no such place.
    pub fn get(&self, number: usize) -> Option<&T>
        ensures { option_copied result ≡ slice_index_or self.now number None }
    {
        let key = key_of(&self.keys, number)?;
        self.things.get(key)
    }

    /// The thing of a number that has one, to be changed.
    pub fn get_mut(&mut self, number: usize) -> &mut T
        requires { IsSome (slice_index_or self.old number None) }
        ensures* writes_back { sem 𝓛 (lends_thing T.row self.entry number result) }
        ensures value { slice_index_or self.old number None ≡ Some result.now }
    {
        let key = key_of(&self.keys, number).unwrap();
        self.things.get_mut(key).unwrap()
    }

    /// One more place behind the last, which is free. Where memory runs out, the places stay as they are.
    pub fn add_place(&mut self) -> Result<(), NoMemory>
    where
        T: Drop,
        ensures ok { OnOk result (self.new ≡ self.old ++ None ∷ []) }
        ensures err { OnErr result (self.new ≡ self.old) }
    {
        let more = self.keys.len() + 1 - self.things.len();
        self.things.reserve(more)?;
        self.keys.push(None)?;
        Ok(())
    }

    /// Puts a thing at a number whose place is free. Takes no memory.
    pub fn put(&mut self, number: usize, thing: T)
        requires inside { number < length self.old }
        requires free { slice_index_or self.old number None ≡ None }
        ensures { self.new ≡ slice_set self.old number (Some thing) }
    {
        let key = self.things.insert_reserved(thing);
        self.keys[number] = Some(key);
    }

    /// Takes the thing of a number, whose place is free then. There is none where it was free already, or where there
    /// is no such place.
    pub fn take(&mut self, number: usize) -> Option<T>
        ensures value { result ≡ slice_index_or self.old number None }
        ensures rest { self.new ≡ slice_set self.old number None }
    {
        let key = key_of(&self.keys, number)?;
        self.keys[number] = None;
        self.things.try_remove(key)
    }

    /// Takes the thing of a number whose place is filled; it is free then.
    pub fn remove(&mut self, filled: usize) -> T
        requires { IsSome (slice_index_or self.old filled None) }
        ensures value { slice_index_or self.old filled None ≡ Some result }
        ensures rest { self.new ≡ slice_set self.old filled None }
    {
        let key = key_of(&self.keys, filled).unwrap();
        self.keys[filled] = None;
        self.things.remove(key)
    }
}

/// Keys of so many numbers, none of which has one.
#[tactic(auto, using(crate::proofs::KeyLemmas::more_none))]
fn no_keys(alloc: Global, places: usize) -> Result<Vec<Option<usize>>, NoMemory>
    ensures { IfOk result (λ keys. keys.items ≡ replicate places None) }
{
    let mut keys = Vec::with_capacity(alloc, places)?;
    for _ in 0..places {
        keys.push(None)?;
    }
    Ok(keys)
}

/// The least number that has no key.
fn least_free(keys: &[Option<usize>]) -> Option<usize>
    ensures { result ≡ position is_none keys.now }
{
    keys.iter().position(|key| key.is_none())
}

/// The key of a number.
fn key_of(keys: &[Option<usize>], number: usize) -> Option<usize>
    ensures { result ≡ slice_index_or keys.now number None }
{
    match keys.get(number) {
        Some(key) => *key,
        None => None,
    }
}
