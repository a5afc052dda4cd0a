//! The calls of the lock. Word 0 of the table says whether a seat has the value, word 1 whether the first seat was
//! made.
ghost use Rattle.std.specs.Prelude.{◌≡◌, ◌+◌, ◌≤◌, ◌||◌, true, false, [], ◌∷◌, ◌++◌, IfOk, IsOkUnless};
ghost use Rattle.pr_lock.specs.History.{StartsWith, StandIn, IsInOrder, AreAll, added, longer};
ghost use Rattle.pr_lock.specs.Seats.{first_of, seats_of, seen_of, own_of, saw_over, shares_of, entered_of, IsOutside, IsInside};

use crate::views::{Begin, Leave, Origin, Share, TakeIn, Try};
use crate::{Logged, NewNo, Seat, Shared};
use atomic_table::Table;
use pr_num::NoMemory;
use std::alloc::{AllocError, Global};
use std::snapshot::Snapshot;
use std::sync::Wait;
use std::thread;

// Whether a seat has the value.
const HELD: usize = 0;

// Whether the first seat was made.
const BEGUN: usize = 1;

// Where the value lies while no seat has it.
const SLOT: usize = 0;

impl<V: Logged + Send> Shared<V> {
    /// A lock over a value without entries, and a seat that has all its shares, of which there are `seats`. No other
    /// call takes memory. The refusal is `NoMemory`: no run reaches `Taken`.
    pub fn new(alloc: Global, value: V, seats: u32) -> Result<(Shared<V>, Seat<V>), NewNo>
        requires empty { V.entries value ≡ [] }
        requires source { V.comes value value }
        requires some { 1 ≤ seats }
        ensures lock { IfOk result (λ made. IsOutside made.1 made.0 × (first_of made.0 ≡ value) × (seats_of made.0 ≡ seats)) }
        ensures seat { IfOk result (λ made. (seen_of made.1 ≡ []) × (own_of made.1 ≡ []) × (shares_of made.1 ≡ seats)) }
        ensures over { IfOk result (λ made. saw_over made.1 ≡ false) }
        ensures refused { IsOkUnless result NewNo.NoMemory }
    {
        let origin = Origin {
            first: Snapshot::of(&value),
            seats,
        };
        let slots = one_slot(alloc, value)?;
        // A table that finds no memory hands its slots back, and says no more.
        let Ok(made) = Table::new(alloc, &[0, 0], slots, &origin) else {
            return Err(NewNo::from(NoMemory::from(AllocError)));
        };
        let (table, mut seat) = made;
        match table.shared.swap::<Begin>(&mut seat, BEGUN, 1) {
            0 => Ok((Shared { table }, Seat { seat })),
            found => Err(NewNo::Taken { found }),
        }
    }

    /// Takes the value, once no other seat has it: it may wait for ever. The value's history begins with all that the
    /// seat had seen, and the seat's own entries stand in it; and it is over, if the seat had seen one that was.
    pub fn enter<R: Wait>(&self, rt: &R, seat: &mut Seat<V>) -> V
        requires { IsOutside seat.old self.now }
        ensures lock { IsInside seat.new self.now × (entered_of seat.new ≡ V.entries result) }
        ensures begins { StartsWith (V.entries result) (seen_of seat.old) }
        ensures stand { StandIn (V.entries result) (own_of seat.old) }
        ensures stays { saw_over seat.old ≡ true → V.over result ≡ true }
        ensures over { saw_over seat.new ≡ V.over result }
        ensures source { V.comes result (first_of self.now) }
        ensures kept { (seen_of seat.new ≡ seen_of seat.old) × (own_of seat.new ≡ own_of seat.old)
            × (shares_of seat.new ≡ shares_of seat.old) }
    {
        let table = &self.table.shared;
        for _ in rt.forever() {
            if table.swap::<Try>(&mut seat.seat, HELD, 1) == 0 {
                let Some(value) = table.exchange(&mut seat.seat, SLOT, None) else {
                    unreachable!()
                };
                return value;
            }
            thread::yield_now();
        }
        unreachable!()
    }

    /// Gives the value back, with what was added to it: the seat has then seen it, and what was added is among the
    /// seat's own entries, behind the earlier ones. It waits for nobody.
    pub fn leave(&self, seat: &mut Seat<V>, value: V)
        requires lock { IsInside seat.old self.now }
        requires grown { StartsWith (V.entries value) (entered_of seat.old) }
        requires stays { saw_over seat.old ≡ true → V.over value ≡ true }
        requires source { V.comes value (first_of self.now) }
        ensures lock { IsOutside seat.new self.now }
        ensures seen { seen_of seat.new ≡ V.entries value }
        ensures over { saw_over seat.new ≡ V.over value }
        ensures own { own_of seat.new ≡ own_of seat.old ++ added (entered_of seat.old) (V.entries value) }
        ensures order { IsInOrder (own_of seat.old) → IsInOrder (own_of seat.new) }
        ensures shares { shares_of seat.new ≡ shares_of seat.old }
    {
        let table = &self.table.shared;
        table.exchange(&mut seat.seat, SLOT, Some(value));
        table.swap::<Leave>(&mut seat.seat, HELD, 0);
    }

    /// A new seat with one of the seat's shares, of which it has two at least. The new seat has seen what the seat has
    /// seen, and added nothing.
    pub fn split(&self, seat: &mut Seat<V>) -> Seat<V>
        requires lock { IsOutside seat.old self.now }
        requires shares { 2 ≤ shares_of seat.old }
        ensures kept { IsOutside seat.new self.now × (seen_of seat.new ≡ seen_of seat.old) × (own_of seat.new ≡ own_of seat.old)
            × (shares_of seat.new + 1 ≡ shares_of seat.old) }
        ensures given { IsOutside result self.now × (seen_of result ≡ seen_of seat.old) × (own_of result ≡ [])
            × (shares_of result ≡ 1) }
        ensures over { (saw_over seat.new ≡ saw_over seat.old) × (saw_over result ≡ saw_over seat.old) }
    {
        Seat {
            seat: self.table.shared.split_seat::<Share>(&mut seat.seat),
        }
    }

    /// The seat takes in another, with its shares and its entries, and has seen the longer of what both have; and that
    /// the value is over, if one of them has.
    pub fn join(&self, seat: &mut Seat<V>, other: Seat<V>)
        requires lock { IsOutside seat.old self.now }
        requires other { IsOutside other self.now }
        ensures lock { IsOutside seat.new self.now }
        ensures seen { seen_of seat.new ≡ longer (seen_of seat.old) (seen_of other) }
        ensures own { own_of seat.new ≡ own_of seat.old ++ own_of other }
        ensures over { saw_over seat.new ≡ saw_over seat.old || saw_over other }
        ensures shares { shares_of seat.new ≡ shares_of seat.old + shares_of other }
    {
        let table = &self.table.shared;
        table.join_seat::<TakeIn>(&mut seat.seat, other.seat);
    }

    /// The value, once all seats are joined into this one. The entries of the seat and of those that it took in are the
    /// value's history: each place of it is one entry of one of them. It is over, if one of them has seen that it was.
    pub fn close(self, seat: Seat<V>) -> V
        requires lock { IsOutside seat self }
        requires all { shares_of seat ≡ seats_of self }
        ensures seen { V.entries result ≡ seen_of seat }
        ensures all { AreAll (V.entries result) (own_of seat) }
        ensures stays { saw_over seat ≡ true → V.over result ≡ true }
        ensures source { V.comes result (first_of self) }
    {
        let mut closed = self.table.close_with(seat.seat);
        let last = closed.take(SLOT);
        closed.free();
        let Some(value) = last else { unreachable!() };
        value
    }
}

fn one_slot<V: Drop>(alloc: Global, value: V) -> Result<Vec<Option<V>>, NoMemory>
    ensures { IfOk result (λ slots. slots.items ≡ Some value ∷ []) }
{
    let mut slots = Vec::new(alloc);
    slots.push(Some(value))?;
    Ok(slots)
}
