//! What was read of a scenario so far, and what one line or block more makes of it.
ghost use Rattle.std.specs.Prelude.{◌≡◌, ◌+◌, ◌≤◌, ◌<◌, ◌++◌, ◌^◌, None, length, option_map, slice_get, IfOk, IfSome, OnOk, nat_le, replicate};
ghost use Rattle.pr_num.specs.Limits.{mapping_limit, program_limit, schedule_limit};
ghost use Rattle.pr_text.specs.Reads.{Gives};
ghost use Rattle.pr_model.specs.FirstState.{first_size};
ghost use Rattle.pr_scen.specs.Drafts.{nothing, with_turns, with_file, with_process, with_spawn, with_controller, has_program, knows_program, with_truss, with_schedule, with_item, may_begin, with_program, with_line, call_added, script_line_added, with_script, made};
ghost use Rattle.pr_scen.specs.Functions.{functions_of};
ghost use Rattle.pr_scen.specs.Names.{place_of};
ghost use Rattle.pr_scen.specs.Schedules.{turn_count, actors_of};

use crate::few_names::FewNames;
use crate::functions::functions_of;
use crate::items::Item;
use crate::schedules::Turns;
use crate::script_blocks::InScript;
use crate::script_lines::Lines;
use crate::{Plan, ScenKind, Scenario, Script, ScriptLine};
use pr_asm::Program;
use pr_line::{Asked, FunctionNames, Functions, Options};
use pr_model::Actor;
use pr_num::layout::{PAGE_SIZE, rounded};
use pr_num::limits::{
    ALL_MAPPINGS_LIMIT, CONTROLLER_LIMIT, DEFAULT_TURNS, FILE_LIMIT, FILE_SIZE_LIMIT,
    LIST_LINE_LIMIT, PROGRAM_LIMIT, SCHEDULE_LIMIT, SPAWN_LIMIT, TURN_LIMIT,
};
use pr_num::{Bytes, Instruction, Name, NoMemory, Table};
use pr_text::Refused;
use std::alloc::Global;
use std::mem;

/// What was read of a scenario so far.
#[derive(Drop)]
pub struct Draft {
    /// How many entries the history may have, where a line said so.
    pub turns: Option<u32>,
    /// The programs whose blocks have ended, and their names.
    pub program_names: FewNames,
    pub programs: Table<Program>,
    pub file_names: FewNames,
    pub files: Table<(Name, Bytes)>,
    pub spawns: Table<u32>,
    /// How many bytes the spawned processes have mapped when they begin.
    pub mapped: u64,
    pub controllers: Table<Plan>,
    /// How many `list` lines there are so far.
    pub lists: u32,
    pub schedule: Table<Actor>,
    /// The lines of the script block so far; none outside one.
    pub lines: Lines,
}

/// How many bytes a process of a program has mapped when it begins: its text and its data, each of whole pages, and its
/// stack.
#[tactic(auto, using(crate::proofs::SizeLemmas::size_at_first))]
fn first_size(program: &Program) -> u64
    ensures value { result ≡ first_size program.now }
    ensures small { result ≤ mapping_limit }
{
    let text = program.code().len() * Instruction::SIZE;
    let data = program.data().len();
    rounded(text as u64) + rounded(data as u64) + PAGE_SIZE
}

impl Draft {
    /// Before the first line. Takes no memory.
    pub fn new(alloc: Global) -> Draft
        ensures { result ≡ nothing }
    {
        Draft {
            turns: None,
            program_names: FewNames::new(alloc),
            programs: Table::new(alloc),
            file_names: FewNames::new(alloc),
            files: Table::new(alloc),
            spawns: Table::new(alloc),
            mapped: 0,
            controllers: Table::new(alloc),
            lists: 0,
            schedule: Table::new(alloc),
            lines: Table::new(alloc),
        }
    }

    #[tactic(auto, unfolding(crate::specs::Drafts::with_turns))]
    fn set_turns(&mut self, n: u64) -> Result<(), Refused<ScenKind>>
        ensures { Gives (λ _. self.new) result (with_turns self.old n) }
    {
        if self.turns.is_some() {
            return Err(Refused::Kind(ScenKind::Double));
        }
        if n > TURN_LIMIT {
            return Err(Refused::Kind(ScenKind::TooMany));
        }
        self.turns = Some(n as u32);
        Ok(())
    }

    #[tactic(auto, unfolding(crate::specs::Drafts::with_file))]
    fn add_file(&mut self, name: Name, bytes: Bytes) -> Result<(), Refused<ScenKind>>
        ensures { Gives (λ _. self.new) result (with_file self.old name bytes) }
    {
        if self.file_names.place_of(name).is_some() {
            return Err(Refused::Kind(ScenKind::Double));
        }
        if self.file_names.len() >= FILE_LIMIT {
            return Err(Refused::Kind(ScenKind::TooMany));
        }
        if bytes.as_slice().len() as u64 > FILE_SIZE_LIMIT {
            return Err(Refused::Kind(ScenKind::TooBig));
        }
        self.file_names.add(name)?;
        self.files.push((name, bytes))?;
        Ok(())
    }

    /// Adds a process of the program at a place, which begins with so many bytes mapped.
    fn add_process(&mut self, place: usize, size: u64) -> Result<(), Refused<ScenKind>>
        requires place { place < 2 ^ 32 }
        requires size { size ≤ mapping_limit }
        ensures { Gives (λ _. self.new) result (with_process self.old place size) }
    {
        if self.spawns.len() >= SPAWN_LIMIT {
            return Err(Refused::Kind(ScenKind::TooMany));
        }
        if self.mapped > ALL_MAPPINGS_LIMIT - size {
            return Err(Refused::Kind(ScenKind::TooBig));
        }
        self.spawns.push(place as u32)?;
        self.mapped += size;
        Ok(())
    }

    /// How many bytes a process of the program at a place has mapped when it begins.
    fn size_at(&self, place: usize) -> Option<u64>
        ensures value { result ≡ option_map first_size (slice_get self.now.programs place) }
        ensures small { IfSome result (λ size. size ≤ mapping_limit) }
    {
        let program = self.programs.as_slice().get(place)?;
        Some(first_size(program))
    }

    #[tactic(auto, unfolding(crate::specs::Drafts::with_spawn))]
    fn add_spawn(&mut self, name: Name) -> Result<(), Refused<ScenKind>>
        ensures { Gives (λ _. self.new) result (with_spawn self.old name) }
    {
        let place = self
            .program_names
            .place_of(name)
            .ok_or(ScenKind::UnknownName)?;
        let size = self.size_at(place).ok_or(ScenKind::UnknownName)?;
        self.add_process(place, size)
    }

    /// Adds a controller.
    #[tactic(auto, unfolding(crate::specs::Drafts::with_controller))]
    fn add_controller(&mut self, plan: Plan) -> Result<(), Refused<ScenKind>>
        ensures { Gives (λ _. self.new) result (with_controller self.old plan) }
    {
        if self.controllers.len() >= CONTROLLER_LIMIT {
            return Err(Refused::Kind(ScenKind::TooMany));
        }
        self.controllers.push(plan)?;
        Ok(())
    }

    /// Whether a program of this name has ended above.
    pub fn has_program(&self, name: Name) -> bool
        ensures { result ≡ has_program self.now name }
    {
        self.program_names.place_of(name).is_some()
    }

    fn knows_program(&self, program: Option<Name>) -> bool
        ensures { result ≡ knows_program self.now program }
    {
        match program {
            None => true,
            Some(name) => self.has_program(name),
        }
    }

    /// The functions that a truss line names, `None` exactly where their program is not known or has not all of them.
    #[tactic(auto, unfolding(crate::specs::Functions::functions_of))]
    fn functions_of(
        &self,
        alloc: Global,
        names: Option<FunctionNames>,
    ) -> Result<Option<Functions>, NoMemory>
        ensures { IfOk result (λ functions. functions ≡ functions_of self.now.program_names self.now.programs names) }
    {
        let Some(names) = names else {
            return Ok(Some(Functions::new(alloc)));
        };
        let Some(place) = self.program_names.place_of(names.program) else {
            return Ok(None);
        };
        let Some(program) = self.programs.as_slice().get(place) else {
            return Ok(None);
        };
        functions_of(alloc, program, names.labels.as_slice())
    }

    #[tactic(auto, unfolding(crate::specs::Drafts::with_truss))]
    fn add_truss(&mut self, alloc: Global, asked: Asked) -> Result<(), Refused<ScenKind>>
        ensures { Gives (λ _. self.new) result (with_truss self.old asked) }
    {
        let Asked { options, functions } = asked;
        let functions = self
            .functions_of(alloc, functions)?
            .ok_or(ScenKind::UnknownName)?;
        if !self.knows_program(options.program) {
            return Err(Refused::Kind(ScenKind::UnknownName));
        }
        self.add_controller(Plan::Truss(Options {
            functions,
            ..options
        }))
    }

    #[tactic(auto, unfolding(crate::specs::Drafts::with_schedule))]
    fn add_schedule(&mut self, turns: &[Turns]) -> Result<(), Refused<ScenKind>>
        ensures { Gives (λ _. self.new) result (with_schedule self.old turns.now) }
    {
        let len = self.schedule.len();
        if len > SCHEDULE_LIMIT || !are_within(turns, (SCHEDULE_LIMIT - len) as u64) {
            return Err(Refused::Kind(ScenKind::TooMany));
        }
        put_turns(&mut self.schedule, turns)?;
        Ok(())
    }

    /// Adds a line outside blocks. Those that begin a block are read with it.
    #[tactic(auto, unfolding(crate::specs::Drafts::with_item))]
    pub fn add_item(&mut self, alloc: Global, item: Item) -> Result<(), Refused<ScenKind>>
        ensures { Gives (λ _. self.new) result (with_item self.old item) }
    {
        match item {
            Item::Blank | Item::Program(_) | Item::Script => Ok(()),
            Item::Turns(n) => self.set_turns(n),
            Item::File(name, bytes) => self.add_file(name, bytes),
            Item::Spawn(name) => self.add_spawn(name),
            Item::Truss(asked) => self.add_truss(alloc, asked),
            Item::Tool(kind, pid) => self.add_controller(Plan::Tool(kind, pid)),
            Item::Gcore(pid) => self.add_controller(Plan::Gcore(pid)),
            Item::Probe(pid) => self.add_controller(Plan::Probe(pid)),
            Item::Schedule(turns) => self.add_schedule(turns.as_slice()),
        }
    }

    /// Whether a line that begins a block can: a program has a name of its own, and a script is within the limit.
    #[tactic(auto, unfolding(crate::specs::Drafts::may_begin))]
    pub fn may_begin(&self, item: &Item) -> Result<(), ScenKind>
        ensures { result ≡ may_begin self.now item.now }
    {
        match item {
            Item::Program(name) => self.may_begin_program(*name),
            Item::Script => self.may_begin_script(),
            _ => Ok(()),
        }
    }

    #[tactic(auto, unfolding(crate::specs::Drafts::may_begin))]
    fn may_begin_program(&self, name: Name) -> Result<(), ScenKind>
        ensures { result ≡ may_begin self.now (Item.Program name) }
    {
        if self.has_program(name) {
            return Err(ScenKind::Double);
        }
        if self.program_names.len() >= PROGRAM_LIMIT {
            return Err(ScenKind::TooMany);
        }
        Ok(())
    }

    #[tactic(auto, unfolding(crate::specs::Drafts::may_begin))]
    fn may_begin_script(&self) -> Result<(), ScenKind>
        ensures { result ≡ may_begin self.now Item.Script }
    {
        if self.controllers.len() >= CONTROLLER_LIMIT {
            return Err(ScenKind::TooMany);
        }
        Ok(())
    }

    /// Adds a program, whose name is its own.
    #[tactic(auto, unfolding(crate::specs::Drafts::with_program))]
    pub fn add_program(&mut self, name: Name, program: Program) -> Result<(), NoMemory>
        requires fresh { place_of self.old.program_names name ≡ None }
        requires few { length self.old.program_names < program_limit }
        ensures { OnOk result (self.new ≡ with_program self.old name program) }
    {
        self.program_names.add(name)?;
        self.programs.push(program)
    }

    /// Adds a line of a script.
    fn add_line(&mut self, line: ScriptLine) -> Result<(), NoMemory>
        ensures { OnOk result (self.new ≡ with_line self.old line) }
    {
        self.lines.push(line)
    }

    /// Adds a `list` line of a script.
    #[tactic(auto, unfolding(crate::specs::Drafts::call_added))]
    fn add_list(&mut self) -> Result<(), Refused<ScenKind>>
        ensures { Gives (λ _. self.new) result (call_added self.old ScriptLine.List) }
    {
        if self.lists >= LIST_LINE_LIMIT {
            return Err(Refused::Kind(ScenKind::TooMany));
        }
        self.add_line(ScriptLine::List)?;
        self.lists += 1;
        Ok(())
    }

    /// Adds a call of a script, which spawns a program whose block has ended above, if it spawns one.
    #[tactic(auto, unfolding(crate::specs::Drafts::call_added))]
    fn add_call(&mut self, line: ScriptLine) -> Result<(), Refused<ScenKind>>
        ensures { Gives (λ _. self.new) result (call_added self.old line) }
    {
        if let ScriptLine::Spawn { program, .. } = &line {
            if !self.has_program(*program) {
                return Err(Refused::Kind(ScenKind::UnknownName));
            }
        }
        if let ScriptLine::List = &line {
            return self.add_list();
        }
        self.add_line(line)?;
        Ok(())
    }

    /// Adds what a line of a script block says.
    #[tactic(auto, unfolding(crate::specs::Drafts::script_line_added))]
    pub fn add_script_line(&mut self, line: InScript) -> Result<(), Refused<ScenKind>>
        ensures { Gives (λ _. self.new) result (script_line_added self.old line) }
    {
        let InScript::Line(line) = line else {
            return Ok(());
        };
        self.add_call(line)
    }

    /// The script block ends, and the script is whole.
    #[tactic(auto, unfolding(crate::specs::Drafts::with_script))]
    pub fn end_script(&mut self, alloc: Global) -> Result<(), NoMemory>
        ensures { OnOk result (self.new ≡ with_script self.old) }
    {
        let lines = mem::replace(&mut self.lines, Table::new(alloc));
        let script = Script::new(alloc, lines)?;
        self.controllers.push(Plan::Script(script))
    }

    /// What was read, as a scenario.
    #[tactic(auto, unfolding(crate::specs::Drafts::made))]
    pub fn make(self) -> Scenario
        ensures { result ≡ made self }
    {
        Scenario {
            turns: self.turns.unwrap_or(DEFAULT_TURNS),
            programs: self.programs.into_vec(),
            files: self.files.into_vec(),
            spawns: self.spawns.into_vec(),
            controllers: self.controllers.into_vec(),
            schedule: self.schedule.into_vec(),
        }
    }
}

/// Whether these are so many turns at most.
fn are_within(turns: &[Turns], most: u64) -> bool
    ensures { result ≡ nat_le (turn_count turns.now) most }
{
    let mut left = most;
    for t in turns {
        if t.times > left {
            return false;
        }
        left -= t.times;
    }
    true
}

/// Adds so many turns of an actor.
fn put_times(schedule: &mut Table<Actor>, actor: Actor, times: u64) -> Result<(), NoMemory>
    ensures { OnOk result (schedule.new ≡ schedule.old ++ replicate times actor) }
{
    for _turn in 0..times {
        schedule.push(actor)?;
    }
    Ok(())
}

/// Adds the actors of turns. They were counted before, so that the schedule never grows past its limit.
fn put_turns(schedule: &mut Table<Actor>, turns: &[Turns]) -> Result<(), NoMemory>
    requires { length schedule.old + turn_count turns.now ≤ schedule_limit }
    ensures { OnOk result (schedule.new ≡ schedule.old ++ actors_of turns.now) }
{
    for t in turns {
        put_times(schedule, t.actor, t.times)?;
    }
    Ok(())
}
