//! A session: what the outside asks for is done, and the reply is written into a buffer.
ghost use Rattle.std.specs.Prelude.{◌≡◌, ◌++◌, ◌⊎◌, drop, length, IfOk, OnOk};
ghost use Rattle.std.specs.Option.{ForSome};
ghost use Rattle.pr_api.specs.Entries.{last_reply_of};
ghost use Rattle.pr_asks.specs.Replies.{count_line, reply_line};
ghost use Rattle.pr_drive.specs.Exchanges.{Answers, AnswersCall, AnswersMessages, AnswersNext, GoesFor, GoesUntil};
ghost use Rattle.pr_drive.specs.Exchanges.{CallsIf, MovesNot, MovesOne, MovesOthers, RunsOthers, WaitsIf, Writes};
ghost use Rattle.pr_drive.specs.Exchanges.{wait_of};
ghost use Rattle.pr_drive.specs.Going.{SomeCanMove};
ghost use Rattle.pr_drive.specs.Rounds.{FinishesRound};
ghost use Rattle.pr_drive.specs.Statuses.{EndsAs};
ghost use Rattle.pr_plain.specs.HistoryText.{entries_text};
ghost use Rattle.pr_scen.specs.Scripts.{fed, next_call_of};

use crate::ends::Status;
use crate::rounds::Rounds;
use crate::waits::wait_end_of;
use pr_asks::{Ask, write_count, write_entries, write_reply};
use pr_model::{Actor, Call};
use pr_num::NoMemory;
use pr_scen::Script;
use std::alloc::Global;
use std::marker::Model;

/// A session, seen by contracts as the kernel with the scenario's controllers, and the place in the round.
#[derive(Drop)]
pub struct Session {
    pub(crate) alloc: Global,
    pub(crate) rounds: Rounds,
}

impl Model for Session {
    ghost use Rattle.pr_drive.specs.Rounds.{RoundsState};

    ghost Value = { RoundsState };

    ghost view = { λ a. a.rounds };
}

impl Session {
    /// A session of which nothing was asked yet.
    pub fn new(alloc: Global, rounds: Rounds) -> Session
        ensures { result ≡ rounds }
    {
        Session { alloc, rounds }
    }

    // ---- calls

    /// Others move, a round after the other, until a call is ready. Says whether it is; else nobody can move any more.
    fn wait_for(&mut self, call: &Call) -> Result<bool, NoMemory>
        ensures { IfOk result (λ ready. WaitsIf ready call.now self.old self.new) }
    {
        let until = wait_end_of(call);
        for _at in self.rounds.seats.entries()..self.rounds.seats.places() {
            if self.rounds.seats.is_answered(call) {
                return Ok(true);
            }
            let moved = self.rounds.go_round(until)?;
            if !moved {
                return Ok(false);
            }
        }
        Ok(false)
    }

    /// Makes a call, after a wait where it is not ready. Says whether it was made.
    fn make_call(&mut self, call: Call) -> Result<bool, NoMemory>
        ensures { IfOk result (λ made. CallsIf made call self.old self.new) }
    {
        let ready = self.wait_for(&call)?;
        if !ready {
            return Ok(false);
        }
        self.rounds.seats.call(call)?;
        Ok(true)
    }

    /// Writes the reply of the last entry, if that is a call.
    fn write_last(&self, out: &mut Vec<u8>) -> Result<(), NoMemory>
        ensures { OnOk result
            (ForSome (last_reply_of self.now.seats.kernel.history)
            (λ reply. out.new.items ≡ out.old.items ++ reply_line reply)) }
    {
        match self.rounds.seats.last_reply() {
            Some(reply) => write_reply(self.alloc, out, reply),
            None => Ok(()),
        }
    }

    /// Makes a call, and writes its reply; or `never` where it is never ready. Says whether it was made.
    fn answer_call(&mut self, call: Call, out: &mut Vec<u8>) -> Result<bool, NoMemory>
        ensures { IfOk result (λ made. Writes out.old.items out.new.items (AnswersCall made call self.old self.new)) }
    {
        let made = self.make_call(call)?;
        if !made {
            out.extend_from_slice(b"never\n")?;
            return Ok(false);
        }
        self.write_last(out)?;
        Ok(true)
    }

    // ---- messages by words

    /// A script gets the reply of the last entry, if that is a call.
    fn feed_last(&self, script: &mut Script)
        ensures { ForSome (last_reply_of self.now.seats.kernel.history) (λ reply. script.new ≡ fed script.old reply) }
    {
        if let Some(reply) = self.rounds.seats.last_reply() {
            script.feed(reply);
        }
    }

    /// Makes the next call of a script that writes messages, which gets the reply. Says whether it made one.
    fn answer_message(&mut self, script: &mut Script, out: &mut Vec<u8>) -> Result<bool, NoMemory>
        ensures { IfOk result (λ made.
            Writes out.old.items out.new.items (AnswersNext made script.old script.new self.old self.new)) }
    {
        let next = script.next_call(self.alloc)?;
        let Some(call) = next else {
            return Ok(false);
        };
        let made = self.answer_call(call, out)?;
        if !made {
            return Ok(false);
        }
        self.feed_last(script);
        Ok(true)
    }

    /// The moment until which the next call of a script waits; 0 where it makes none, or waits for no moment.
    fn next_wait(&self, script: &Script) -> Result<u64, NoMemory>
        ensures { IfOk result (λ until. until ≡ wait_of (next_call_of script.now)) }
    {
        match script.next_call(self.alloc)? {
            Some(call) => Ok(wait_end_of(&call)),
            None => Ok(0),
        }
    }

    /// Makes the calls of a script that writes messages, each in a turn of its own, and writes their replies.
    fn answer_messages(&mut self, mut script: Script, out: &mut Vec<u8>) -> Result<(), NoMemory>
        ensures { OnOk result (Writes out.old.items out.new.items (AnswersMessages script self.old self.new)) }
    {
        for _at in self.rounds.seats.entries()..self.rounds.seats.places() {
            let made = self.answer_message(&mut script, out)?;
            if !made {
                return Ok(());
            }
            let until = self.next_wait(&script)?;
            self.rounds.finish_round(until)?;
        }
        // There is no place for one more.
        self.answer_message(&mut script, out)?;
        Ok(())
    }

    // ---- moves of others

    /// Writes the entries that came, and how many there are.
    fn tell_moves(&self, from: u32, out: &mut Vec<u8>) -> Result<(), NoMemory>
        ensures { OnOk result
            (out.new.items ≡ out.old.items ++ (entries_text from
            (drop from self.now.seats.kernel.history) ++ count_line (length self.now.seats.kernel.history))) }
    {
        write_entries(out, self.rounds.seats.history(), from as usize)?;
        write_count(out, self.rounds.seats.entries())
    }

    /// Others move so many times, or until nobody can.
    fn go_for(&mut self, times: u64) -> Result<(), NoMemory>
        ensures { OnOk result (GoesFor times self.old self.new) }
    {
        for _at in 0..times {
            let moved = self.rounds.step_on(0)?;
            if !moved {
                return Ok(());
            }
        }
        Ok(())
    }

    /// The same, and it is told.
    fn move_others(&mut self, times: u64, out: &mut Vec<u8>) -> Result<(), NoMemory>
        ensures { OnOk result (Writes out.old.items out.new.items (MovesOthers times self.old self.new)) }
    {
        let from = self.rounds.seats.entries();
        self.go_for(times)?;
        self.tell_moves(from, out)
    }

    /// One actor moves, if it can.
    fn move_one(&mut self, actor: Actor, out: &mut Vec<u8>) -> Result<(), NoMemory>
        ensures { OnOk result
            (Writes out.old.items out.new.items
            (λ text. MovesOne actor self.old self.new text ⊎ MovesNot actor self.old self.new text)) }
    {
        let from = self.rounds.seats.entries();
        let moved = self.rounds.seats.move_actor(actor, 0)?;
        if moved {
            return self.tell_moves(from, out);
        }
        Ok(out.extend_from_slice(b"no\n")?)
    }

    /// Others move until a poll of a file that the outside has open is ready, or nobody can. Which files it has open
    /// does not change by that.
    fn go_until_ready(&mut self) -> Result<(), NoMemory>
        ensures { OnOk result (GoesUntil self.old self.new) }
    {
        let polls = self.rounds.seats.polls()?;
        for _at in self.rounds.seats.entries()..self.rounds.seats.places() {
            let ready = self.rounds.seats.some_answered(&polls);
            if ready {
                return Ok(());
            }
            let moved = self.rounds.step_on(0)?;
            if !moved {
                return Ok(());
            }
        }
        Ok(())
    }

    /// The same, and it is told.
    fn run_others(&mut self, out: &mut Vec<u8>) -> Result<(), NoMemory>
        ensures { OnOk result (Writes out.old.items out.new.items (RunsOthers self.old self.new)) }
    {
        let from = self.rounds.seats.entries();
        self.go_until_ready()?;
        self.tell_moves(from, out)
    }

    // ---- lines

    /// Does what a line asks for, and writes the reply. Says whether the outside's turn is over.
    pub fn answer(&mut self, ask: Ask, out: &mut Vec<u8>) -> Result<bool, NoMemory>
        ensures { IfOk result (λ over. Writes out.old.items out.new.items (Answers ask over self.old self.new)) }
    {
        match ask {
            Ask::Call(call) => self.answer_call(call, out),
            Ask::Messages(script) => {
                self.answer_messages(script, out)?;
                Ok(false)
            }
            Ask::Moves(times) => {
                self.move_others(times, out)?;
                Ok(false)
            }
            Ask::Move(actor) => {
                self.move_one(actor, out)?;
                Ok(false)
            }
            Ask::Run => {
                self.run_others(out)?;
                Ok(false)
            }
            Ask::End => Ok(false),
        }
    }

    /// Others move up to the outside's turn.
    pub fn pass_turn(&mut self) -> Result<(), NoMemory>
        ensures { OnOk result (FinishesRound 0 self.old self.new) }
    {
        self.rounds.finish_round(0)?;
        Ok(())
    }

    /// How the session has ended: as a run does, but that others may still be able to move.
    pub fn status(&self) -> Result<Status, NoMemory>
        ensures { IfOk result (λ status. EndsAs self.now.seats status) }
    {
        let some = self.rounds.some_can_move()?;
        if some {
            return Ok(self.status_in_mid_run());
        }
        let all = self.rounds.seats.all_finished()?;
        if all {
            Ok(Status::Done)
        } else {
            Ok(Status::Stuck)
        }
    }

    /// How it has ended where one of the others can move still.
    fn status_in_mid_run(&self) -> Status
        requires { SomeCanMove 0 self.now.seats }
        ensures { EndsAs self.now.seats result }
    {
        if self.rounds.seats.has_place() {
            Status::Done
        } else {
            Status::Spent
        }
    }
}
