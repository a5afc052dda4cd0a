//! A machine that is made to play entries one after another, and keeps none of them.
ghost use Rattle.std.specs.Prelude.{◌≡◌, ◌≤◌, ◌<◌, ◌+◌, ◌^◌, All, length, slice_get, sum_by, true, IfOk, OnErr};
ghost use Rattle.pr_api.specs.Entries.{call_entry, tick_entry, turn_entry};
ghost use Rattle.pr_judge.specs.Players.{HasTried};
ghost use Rattle.pr_kern.specs.Starts.{stored};
ghost use Rattle.pr_model.specs.FirstState.{first_state, size_at_start};
ghost use Rattle.pr_num.specs.Limits.{all_mappings_limit, controller_limit, file_limit, file_size_limit, process_limit, program_limit};
ghost use Rattle.pr_parts.specs.FileTables.{names_differ};

use crate::replies::same_reply;
use crate::turns::same_turn;
use pr_asm::Program;
use pr_kern::{Machine, answer, first_machine, keep_limits, ready};
use pr_model::{Act, Actor, Call, Entry, Reply, Turned};
use pr_num::limits::CLOCK_LIMIT;
use pr_num::{Bytes, Name, NoMemory};
use pr_turn::{movable, turn};
use std::alloc::Global;
use std::marker::Model;

/// A machine that is made to play entries. Contracts see the state that it is in, and how many steps it has made at
/// most.
#[derive(Drop)]
pub struct Player {
    machine: Machine,
    steps: u32,
}

impl Model for Player {
    ghost use Rattle.pr_judge.specs.Players.{IsSoundState, Played};

    ghost Value = { Played };

    ghost view = { λ a. record { state = a.machine; steps = a.steps } };

    ghost invariant = { λ a. IsSoundState a.steps a.machine };
}

impl Player {
    /// A machine with these programs and files, in the state before the first step, with a process of each program that
    /// is spawned, by its place among the programs.
    pub fn new(
        alloc: Global,
        programs: Vec<Program>,
        files: Vec<(Name, Bytes)>,
        spawns: &[u32],
    ) -> Result<Player, NoMemory>
        requires programs { length programs.items ≤ program_limit }
        requires spawns { length spawns.now + 1 ≤ process_limit }
        requires mapped { sum_by (λ place. size_at_start (slice_get programs.items place)) spawns.now ≤ all_mappings_limit }
        requires few { length files.items ≤ file_limit }
        requires short { All (λ f. length f.1 ≤ file_size_limit) files.items }
        requires own_names { names_differ (stored files.items) ≡ true }
        ensures state { IfOk result (λ player. player.state ≡ first_state programs.items (stored files.items) spawns.now) }
        ensures steps { IfOk result (λ player. player.steps ≡ 0) }
    {
        // their type keeps the programs within their limits, so that the first state is lawful
        keep_limits(&programs);
        let machine = first_machine(alloc, programs, files, spawns)?;
        Ok(Player { machine, steps: 0 })
    }

    /// Makes a call of a controller, where it is one of the controllers and the call is ready.
    fn play_call(
        &mut self,
        alloc: Global,
        controllers: u32,
        by: u32,
        call: &Call,
        reply: &Reply,
    ) -> Result<bool, NoMemory>
        requires { controllers ≤ controller_limit }
        ensures tried { IfOk result
            (λ legal. HasTried controllers (call_entry by call.now reply.now) self.old.state self.new.state legal) }
        ensures steps { self.new.steps ≡ self.old.steps }
        ensures err { OnErr result (self.new ≡ self.old) }
    {
        if by >= controllers {
            return Ok(false);
        }
        if !ready(&self.machine, by, call) {
            return Ok(false);
        }
        let given = answer(&mut self.machine, alloc, by, call)?;
        Ok(same_reply(&given, reply))
    }

    /// Gives an lwp its turn, where it can have one.
    fn play_turn(
        &mut self,
        alloc: Global,
        controllers: u32,
        pid: u32,
        lwp: u32,
        turned: Turned,
    ) -> Result<bool, NoMemory>
        requires { self.old.steps + 1 < 2 ^ 32 }
        ensures tried { IfOk result
            (λ legal. HasTried controllers (turn_entry pid lwp turned) self.old.state self.new.state legal) }
        ensures steps { self.new.steps ≤ self.old.steps + 1 }
        ensures err { OnErr result (self.new ≡ self.old) }
    {
        if !movable(&self.machine.system, pid, lwp) {
            return Ok(false);
        }
        let made = turn(alloc, &mut self.machine.system, pid, lwp)?;
        self.steps += 1;
        Ok(same_turn(made, turned))
    }

    /// Moves the clock on, where it goes on.
    fn play_tick(&mut self, controllers: u32, clock: u64) -> bool
        requires { self.old.steps + 1 < 2 ^ 32 }
        ensures tried { HasTried controllers (tick_entry clock) self.old.state self.new.state result }
        ensures steps { self.new.steps ≤ self.old.steps + 1 }
    {
        if self.machine.system.clock >= CLOCK_LIMIT {
            return false;
        }
        self.machine.system.clock += 1;
        self.steps += 1;
        clock == self.machine.system.clock
    }

    /// Makes the step of an entry, and says whether that was to be made and gave what the entry says. Where it was not,
    /// the machine has come to some other state; where memory runs out, it is as it was.
    pub fn play(&mut self, alloc: Global, controllers: u32, entry: &Entry) -> Result<bool, NoMemory>
        requires controllers { controllers ≤ controller_limit }
        requires few { self.old.steps + 1 < 2 ^ 32 }
        ensures tried { IfOk result (λ legal. HasTried controllers entry.now self.old.state self.new.state legal) }
        ensures steps { self.new.steps ≤ self.old.steps + 1 }
        ensures err { OnErr result (self.new ≡ self.old) }
    {
        match (entry.actor, &entry.act) {
            (Actor::Controller(by), Act::Call(call, reply)) => {
                self.play_call(alloc, controllers, by, call, reply)
            }
            (Actor::Lwp(pid, lwp), Act::Turn(turned)) => {
                self.play_turn(alloc, controllers, pid, lwp, *turned)
            }
            (Actor::Clock, Act::Tick(clock)) => Ok(self.play_tick(controllers, *clock)),
            _ => Ok(false),
        }
    }
}
