//! truss(1) with calls of functions.
ghost use Rattle.std.specs.Prelude.{◌≡◌, IfOk, OnOk};
ghost use Rattle.pr_truss.specs.FunctionCalls.{next_function_call_of};
ghost use Rattle.pr_truss.specs.FunctionFeeding.{fed_functions};
ghost use Rattle.pr_truss.specs.Printing.{printed};
ghost use Rattle.pr_truss.specs.Trusses.{IsReady, first_truss};

use pr_asm::Program;
use pr_line::Options;
use pr_model::{Call, Reply};
use pr_num::{Bytes, NoMemory};
use pr_truss::Truss;
use std::alloc::Global;
use std::marker::Model;

/// truss(1) on its way, which shows calls of functions besides events: it says which call it makes next, and is fed the
/// reply. Contracts see what they see of a `Truss`.
#[derive(Drop)]
pub struct FnTruss {
    truss: Truss,
}

impl Model for FnTruss {
    ghost use Rattle.pr_truss.specs.Trusses.{TrussView};

    ghost Value = { TrussView };

    ghost view = { λ a. a.truss };
}

impl FnTruss {
    /// Truss before its first call, for options that name 1 to 16 functions, and neither follow children nor count.
    pub fn new(alloc: Global, options: Options) -> Result<FnTruss, NoMemory>
        ensures { IfOk result (λ truss. truss.state ≡ first_truss options) }
    {
        Ok(FnTruss {
            truss: Truss::new(alloc, options)?,
        })
    }

    /// Makes one `feed` possible without memory.
    pub fn prepare(&mut self) -> Result<(), NoMemory>
        ensures state { self.new.state ≡ self.old.state }
        ensures room { OnOk result (IsReady self.new) }
    {
        self.truss.prepare()
    }

    /// The call that truss makes next; `None` exactly where it has finished.
    pub fn next_call(&self, alloc: Global) -> Result<Option<Call>, NoMemory>
        ensures { IfOk result (λ call. call ≡ next_function_call_of self.now.state) }
    {
        self.truss.next_function_call(alloc)
    }

    /// Takes the reply to the call that `next_call` gave, any reply at all. Takes no memory.
    pub fn feed(&mut self, reply: &Reply)
        requires { IsReady self.old }
        ensures { self.new.state ≡ fed_functions self.old.state reply.now }
    {
        self.truss.feed_functions(reply);
    }

    /// What truss prints: its lines, with those of the calls of functions.
    pub fn print(&self, alloc: Global, programs: &[Program]) -> Result<Bytes, NoMemory>
        ensures { IfOk result (λ text. text ≡ printed self.now.state) }
    {
        self.truss.print(alloc, programs)
    }
}
