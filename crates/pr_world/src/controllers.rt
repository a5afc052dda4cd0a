ghost use Rattle.std.specs.Prelude.{◌≡◌, IfOk, OnOk};
ghost use Rattle.pr_world.specs.Controllers.{after_reply, next_call, printed};
ghost use Rattle.pr_world.specs.ControllerStates.{state_of, IsReady};

use pr_asm::Program;
use pr_bpt::FnTruss;
use pr_core::Gcore;
use pr_model::{Call, Reply};
use pr_num::{Bytes, NoMemory};
use pr_probe::Probe;
use pr_scen::Script;
use pr_tools::Tool;
use pr_truss::Truss;
use std::alloc::Global;

/// A controller of a world: a core that says which call it makes next and is fed the reply.
#[derive(Drop)]
pub enum Controller {
    /// The lines of a scenario.
    Script(Script),
    /// truss(1).
    Truss(Truss),
    /// truss(1) with calls of functions.
    FnTruss(FnTruss),
    /// A tool of proc(1) or pmap(1).
    Tool(Tool),
    /// gcore(1).
    Gcore(Gcore),
    /// pfiles by an agent.
    Probe(Probe),
}

impl Controller {
    /// The call that it makes next; `None` exactly where it has finished.
    #[tactic(auto, unfolding(crate::specs::Controllers::next_call, crate::specs::ControllerStates::state_of))]
    pub fn next_call(&self, alloc: Global) -> Result<Option<Call>, NoMemory>
        ensures { IfOk result (λ call. call ≡ next_call (state_of self.now)) }
    {
        match self {
            Controller::Script(script) => script.next_call(alloc),
            Controller::Truss(truss) => truss.next_call(alloc),
            Controller::FnTruss(truss) => truss.next_call(alloc),
            Controller::Tool(tool) => tool.next_call(alloc),
            Controller::Gcore(gcore) => gcore.next_call(alloc),
            Controller::Probe(probe) => probe.next_call(alloc),
        }
    }

    /// Makes one `feed` possible without memory.
    #[tactic(auto, unfolding(crate::specs::ControllerStates::state_of, crate::specs::ControllerStates::IsReady))]
    pub fn prepare(&mut self) -> Result<(), NoMemory>
        ensures same { state_of self.new ≡ state_of self.old }
        ensures ready { OnOk result (IsReady self.new) }
    {
        match self {
            Controller::Script(script) => script.prepare(),
            Controller::Truss(truss) => truss.prepare(),
            Controller::FnTruss(truss) => truss.prepare(),
            Controller::Tool(tool) => tool.prepare(),
            Controller::Gcore(gcore) => gcore.prepare(),
            Controller::Probe(probe) => probe.prepare(),
        }
    }

    /// Takes the reply to the call that `next_call` gave. Takes no memory.
    #[tactic(auto, unfolding(crate::specs::Controllers::after_reply, crate::specs::ControllerStates::state_of, crate::specs::ControllerStates::IsReady))]
    pub fn feed(&mut self, reply: &Reply)
        requires { IsReady self.old }
        ensures { state_of self.new ≡ after_reply (state_of self.old) reply.now }
    {
        match self {
            Controller::Script(script) => script.feed(reply),
            Controller::Truss(truss) => truss.feed(reply),
            Controller::FnTruss(truss) => truss.feed(reply),
            Controller::Tool(tool) => tool.feed(reply),
            Controller::Gcore(gcore) => gcore.feed(reply),
            Controller::Probe(probe) => probe.feed(reply),
        }
    }

    /// What it prints at the end of a run, where the kernel has these programs.
    #[tactic(auto, unfolding(crate::specs::Controllers::printed, crate::specs::ControllerStates::state_of))]
    pub fn print(&self, alloc: Global, programs: &[Program]) -> Result<Bytes, NoMemory>
        ensures { IfOk result (λ text. text ≡ printed (state_of self.now) programs.now) }
    {
        match self {
            Controller::Script(script) => script.print(alloc, programs),
            Controller::Truss(truss) => truss.print(alloc, programs),
            Controller::FnTruss(truss) => truss.print(alloc, programs),
            Controller::Tool(tool) => tool.print(alloc, programs),
            Controller::Gcore(gcore) => gcore.print(alloc),
            Controller::Probe(probe) => probe.print(alloc),
        }
    }
}
