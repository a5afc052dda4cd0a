//! Who moves next beside the outside. The rounds are those of a run: controllers by number, lwps by process and lwp,
//! the clock. The outside has its turn after the controllers of the scenario, so others come in the order: lwps, the
//! clock, controllers; and then it is the outside's turn.
ghost use Rattle.std.specs.Prelude.{◌≡◌, ◌<◌, true, false, length, IfOk, OnOk};
ghost use Rattle.pr_drive.specs.Going.{NoneCanMove, SomeCanMove};
ghost use Rattle.pr_drive.specs.Rounds.{FinishesRound, GoesBySchedule, GoesOnIf, GoesRound, IsAtRest, Rests, StepsIf};
ghost use Rattle.pr_drive.specs.Rounds.{first_controllers};

use crate::places::{Place, place_behind};
use crate::seats::Seats;
use pr_model::Actor;
use pr_num::NoMemory;
use std::marker::Model;

/// The kernel with the scenario's controllers, and who is asked next.
#[derive(Drop)]
pub struct Rounds {
    pub(crate) seats: Seats,
    place: Place,
}

impl Model for Rounds {
    ghost use Rattle.pr_drive.specs.Rounds.{RoundsState};

    ghost Value = { RoundsState };

    ghost view = { λ a. record { seats = a.seats; place = a.place } };
}

impl Rounds {
    /// Before the first move: the controllers come first.
    pub fn new(seats: Seats) -> Rounds
        ensures { result ≡ record { seats = seats; place = first_controllers } }
    {
        Rounds {
            seats,
            place: Place::Controllers(0),
        }
    }

    /// The actors of a schedule move, each if it can.
    pub fn follow(&mut self, schedule: &[Actor]) -> Result<(), NoMemory>
        ensures follows { OnOk result (GoesBySchedule schedule.now self.old.seats self.new.seats) }
        ensures place { self.new.place ≡ self.old.place }
    {
        for actor in schedule {
            self.seats.move_actor(*actor, 0)?;
        }
        Ok(())
    }

    /// Who is next in the round moves, and where nobody is left in it, nobody: then it is the outside's turn. Says
    /// whether somebody moved. The outside waits until a moment, or 0.
    pub fn step(&mut self, until: u64) -> Result<bool, NoMemory>
        ensures { IfOk result (λ moved. StepsIf moved until self.old self.new) }
    {
        if !self.seats.has_place() {
            return Ok(false);
        }
        let next = self.seats.next_from(self.place, until)?;
        let Some(actor) = next else {
            self.place = Place::Lwps(None);
            return Ok(false);
        };
        self.place = place_behind(actor);
        self.seats.turn(actor)?;
        Ok(true)
    }

    /// What is left of the round, up to the outside's turn. Says whether somebody moved.
    pub fn finish_round(&mut self, until: u64) -> Result<bool, NoMemory>
        ensures round { OnOk result (FinishesRound until self.old self.new) }
        ensures more { IfOk result (λ moved.
            moved ≡ true → length self.old.seats.kernel.history < length self.new.seats.kernel.history) }
        ensures rests { IfOk result (λ moved. moved ≡ false → Rests until self.old self.new) }
    {
        let mut moved = false;
        for _at in self.seats.entries()..self.seats.places() {
            let stepped = self.step(until)?;
            if !stepped {
                return Ok(moved);
            }
            moved = true;
        }
        Ok(moved)
    }

    /// What is left of the round, or where nobody in it can move, a whole one. Says whether somebody moved; else nobody
    /// can.
    pub fn go_round(&mut self, until: u64) -> Result<bool, NoMemory>
        ensures round { IfOk result (λ moved. moved ≡ true → GoesRound until self.old self.new) }
        ensures rests { IfOk result (λ moved. moved ≡ false → IsAtRest until self.old self.new) }
    {
        let moved = self.finish_round(until)?;
        if moved {
            return Ok(true);
        }
        self.finish_round(until)
    }

    /// Who is next moves, also past the outside's turn. Says whether somebody did; else nobody can.
    pub fn step_on(&mut self, until: u64) -> Result<bool, NoMemory>
        ensures { IfOk result (λ moved. GoesOnIf moved until self.old self.new) }
    {
        let moved = self.step(until)?;
        if moved {
            return Ok(true);
        }
        self.step(until)
    }

    /// Whether one of the others can move, were there a place for the entry.
    pub fn some_can_move(&self) -> Result<bool, NoMemory>
        ensures some { IfOk result (λ some. some ≡ true → SomeCanMove 0 self.now.seats) }
        ensures none { IfOk result (λ some. some ≡ false → NoneCanMove 0 self.now.seats) }
    {
        let next = self.seats.next_from(Place::Lwps(None), 0)?;
        Ok(next.is_some())
    }
}
