ghost use Rattle.std.specs.Prelude.{◌≡◌, ◌≤◌, ◌<◌, ◌+◌, [], false, true, length, slice_get, sum_by, All, Some, IsOk, OnOk, IfOk, OnErr, is_some};
ghost use Rattle.std.specs.Option.{ForSome, option_copied};
ghost use Rattle.pr_model.specs.Calls.{answer_to};
ghost use Rattle.pr_model.specs.FirstState.{first_state, size_at_start};
ghost use Rattle.pr_model.specs.Lawful.{IsLawful};
ghost use Rattle.pr_kern.specs.Faults.{fault_pc};
ghost use Rattle.pr_kern.specs.Kernels.{after_call, after_tick, after_turn, last_reply_of, some_sleeper, takes_no_memory};
ghost use Rattle.pr_model.specs.LwpTurns.{can_move};
ghost use Rattle.pr_kern.specs.Memory.{may_lack_memory};
ghost use Rattle.pr_kern.specs.Orders.{next_of};
ghost use Rattle.pr_kern.specs.Starts.{stored};
ghost use Rattle.pr_num.specs.Limits.{all_mappings_limit, process_limit, program_limit, clock_limit, file_limit, file_size_limit, controller_limit};
ghost use Rattle.pr_parts.specs.FileTables.{names_differ};
ghost use Rattle.pr_turn.specs.CallTurns.{may_take_memory};

use crate::Machine;
use crate::calls::{answer, ready};
use crate::faults::fault_pc;
use crate::following::{around_call, call_changes_files};
use crate::starts::{first_machine, keep_limits};
use crate::turns::{CanMove, first_ready, make_turn, next_movable};
use pr_asm::Program;
use pr_model::{Act, Actor, Call, Entry, History, Reply, Turned};
use pr_num::{Bytes, Name, NoMemory};
use pr_proc::next_lwp;
use pr_ready::{Ready, after_call, after_tick, some_sleeper};
use pr_turn::movable;
use std::alloc::Global;
use std::marker::Model;

/// The kernel with its history, seen by contracts as a record of the state that the machine is in, the entries of its
/// history, and how many entries it has places for. Each step adds one entry. The places are reserved from the start.
#[derive(Drop)]
pub struct Kern {
    alloc: Global,
    state: Machine,
    history: History,
    places: u32,
    /// Which processes are looked at for a turn. Nothing that contracts see depends on it.
    ready: Ready,
}

impl Model for Kern {
    ghost use Rattle.pr_kern.specs.Kernels.{Kernel};
    ghost use Rattle.pr_kern.specs.Soundness.{IsReadyKernel};

    ghost Value = { Kernel };

    ghost view = { λ a. record { state = a.state; history = a.history.entries; places = a.places } };

    ghost invariant = { λ a. IsReadyKernel a.state a.history a.places a.ready };
}

impl Kern {
    /// A kernel with these programs, at most 256, and files, in the state before the first step, with a process of each
    /// program that is spawned, by its place among the programs: 4,095 at most, which together map 64 MiB at most. That
    /// state is lawful. It has places for so many entries.
    pub fn new(
        alloc: Global,
        programs: Vec<Program>,
        files: Vec<(Name, Bytes)>,
        spawns: &[u32],
        places: u32,
    ) -> Result<Kern, NoMemory>
        requires programs { length programs.items ≤ program_limit }
        requires spawns { length spawns.now + 1 ≤ process_limit }
        requires mapped { sum_by (λ place. size_at_start (slice_get programs.items place)) spawns.now ≤ all_mappings_limit }
        requires few { length files.items ≤ file_limit }
        requires short { All (λ f. length f.1 ≤ file_size_limit) files.items }
        requires own_names { names_differ (stored files.items) ≡ true }
        ensures state { IfOk result (λ kernel. kernel.state ≡ first_state programs.items (stored files.items) spawns.now) }
        ensures history { IfOk result (λ kernel. kernel.history ≡ []) }
        ensures places { IfOk result (λ kernel. kernel.places ≡ places) }
        ensures lawful { IfOk result (λ kernel. IsLawful kernel.state) }
    {
        // their type keeps the programs within their limits, so that the first state is lawful
        keep_limits(&programs);
        let state = first_machine(alloc, programs, files, spawns)?;
        let mut history = History::new(alloc);
        history.reserve(places as usize)?;
        let ready = first_ready(&state.system);
        Ok(Kern {
            alloc,
            state,
            history,
            places,
            ready,
        })
    }

    /// Whether a call of a controller is ready. Takes no memory.
    pub fn ready(&self, by: u32, call: &Call) -> bool
        ensures { result ≡ is_some (answer_to self.now.state by call.now) }
    {
        ready(&self.state, by, call)
    }

    /// Makes a call of a controller: the machine answers it, and its entry is added. Reads, lists, the making of
    /// processes, PCREAD, PCWRITE and PCAGENT alone take memory, and a spawn that is refused takes none, but where too
    /// much would be mapped; where memory runs out, the kernel is as it was. The state that it finds is lawful.
    #[tactic(auto, unfolding(crate::specs::Kernels::after_call))]
    pub fn call(&mut self, by: u32, call: Call) -> Result<(), NoMemory>
        requires by { by < controller_limit }
        requires ready { is_some (answer_to self.old.state by call) ≡ true }
        requires place { length self.old.history < self.old.places }
        ensures ok { OnOk result (after_call by call self.old ≡ Some self.new) }
        ensures err { OnErr result (self.new ≡ self.old) }
        ensures sure { takes_no_memory call ≡ true → IsOk result }
        ensures memory { OnErr result (ForSome (answer_to self.old.state by call) (λ a. may_lack_memory call a.reply ≡ true)) }
        ensures lawful { IsLawful self.old.state }
    {
        let around = around_call(&self.state, by, &call);
        let reply = answer(&mut self.state, self.alloc, by, &call)?;
        let sys = &self.state.system;
        let files = call_changes_files(&call);
        after_call(&mut self.ready, sys, around, files, &CanMove(sys));
        self.history.push(Entry {
            actor: Actor::Controller(by),
            act: Act::Call(call, reply),
        });
        Ok(())
    }

    /// The reply of the last entry: `None` exactly where there is no entry or the last one is no call. Takes no memory.
    #[tactic(auto, unfolding(crate::specs::Kernels::last_reply_of))]
    pub fn last_reply(&self) -> Option<&Reply>
        ensures { option_copied result ≡ last_reply_of self.now.history }
    {
        let last = self.history.len().checked_sub(1)?;
        match &self.history.get(last)?.act {
            Act::Call(_, reply) => Some(reply),
            Act::Turn(_) | Act::Tick(_) => None,
        }
    }

    /// Whether an lwp can have a turn: false for an lwp that is not live. Takes no memory.
    pub fn lwp_movable(&self, pid: u32, lwp: u32) -> bool
        ensures { result ≡ can_move self.now.state.system pid lwp }
    {
        movable(&self.state.system, pid, lwp)
    }

    /// The least live lwp above another one, or of all, by process and then by lwp; only one that can have a turn,
    /// where that is asked. Takes no memory.
    pub fn next_lwp(&self, after: Option<(u32, u32)>, movable: bool) -> Option<(u32, u32)>
        ensures { result ≡ next_of movable self.now.state.system after }
    {
        match movable {
            true => next_movable(&self.state.system, &self.ready.movable, after),
            false => next_lwp(&self.state.system, after),
        }
    }

    /// Gives an lwp a turn, and adds its entry. A turn may take memory where it runs an instruction, which may store
    /// bytes, or performs a call that does; where memory runs out, the kernel is as it was.
    #[tactic(auto, unfolding(crate::specs::Kernels::after_turn))]
    pub fn lwp_turn(&mut self, pid: u32, lwp: u32) -> Result<Turned, NoMemory>
        requires movable { can_move self.old.state.system pid lwp ≡ true }
        requires place { length self.old.history < self.old.places }
        ensures ok { IfOk result
            (λ turned. after_turn pid lwp self.old ≡ Some (record { kernel = self.new; turned = turned })) }
        ensures err { OnErr result (self.new ≡ self.old) }
        ensures sure { may_take_memory self.old.state.system pid lwp ≡ false → IsOk result }
    {
        let sys = &mut self.state.system;
        let turned = make_turn(self.alloc, sys, &mut self.ready, pid, lwp)?;
        self.history.push(Entry {
            actor: Actor::Lwp(pid, lwp),
            act: Act::Turn(turned),
        });
        Ok(turned)
    }

    /// Moves the clock on by a millisecond, and adds the entry. Takes no memory.
    #[tactic(auto, unfolding(crate::specs::Kernels::after_tick))]
    pub fn tick(&mut self)
        requires clock { self.old.state.system.clock < clock_limit }
        requires place { length self.old.history < self.old.places }
        ensures { self.new ≡ after_tick self.old }
    {
        self.state.system.clock += 1;
        let sys = &self.state.system;
        after_tick(&mut self.ready, sys, &CanMove(sys));
        let clock = self.state.system.clock;
        self.history.push(Entry {
            actor: Actor::Clock,
            act: Act::Tick(clock),
        });
    }

    /// The clock, in milliseconds. It is never above the number of entries.
    pub fn clock(&self) -> u64
        ensures value { result ≡ self.now.state.system.clock }
        ensures entries { result ≤ length self.now.history }
    {
        self.state.system.clock
    }

    /// Whether some lwp sleeps in the call sleep with a later moment. Takes no memory.
    pub fn sleeper(&self) -> bool
        ensures { result ≡ some_sleeper self.now.state.system }
    {
        some_sleeper(&self.state.system, &self.ready.dozing)
    }

    /// The pc of a live lwp that incurred a fault whose signal is not posted yet; `None` exactly for any other. Takes
    /// no memory.
    pub fn fault_pc(&self, pid: u32, lwp: u32) -> Option<u64>
        ensures { result ≡ fault_pc self.now.state.system pid lwp }
    {
        fault_pc(&self.state.system, pid, lwp)
    }

    /// The state that the machine is in.
    pub fn machine(&self) -> &Machine
        ensures { result.now ≡ self.now.state }
    {
        &self.state
    }

    /// How many entries the history has.
    pub fn entries(&self) -> u32
        ensures value { result ≡ length self.now.history }
        ensures places { result ≤ self.now.places }
    {
        self.history.len() as u32
    }

    /// How many entries there are places for in all.
    pub fn places(&self) -> u32
        ensures { result ≡ self.now.places }
    {
        self.places
    }

    /// The history so far: an entry for each call, turn and tick that was made.
    pub fn history(&self) -> &History
        ensures { result.now.entries ≡ self.now.history }
    {
        &self.history
    }

    /// The programs that processes can run.
    pub fn programs(&self) -> &[Program]
        ensures { result.now ≡ self.now.state.system.programs }
    {
        self.state.system.programs.as_slice()
    }

    /// The history alone. Takes no memory.
    pub fn into_history(self) -> History
        ensures { result.entries ≡ self.history }
    {
        self.history
    }
}
