//! truss(1) as a controller of the kernel.
ghost use Rattle.std.specs.Prelude.{◌≡◌, OnOk, IfOk, ◌<◌, length, map};
ghost use Rattle.pr_truss.specs.Trusses.{IsReady, first_truss, idle, traced_at, with_stage, with_traced, with_opened, without_traced, with_report};

use crate::asides::Aside;
use crate::processes::Traced;
use crate::reports::Report;
use crate::stages::Stage;
use crate::texts::MemoryRead;
use pr_line::Options;
use pr_num::NoMemory;
use std::alloc::Global;
use std::marker::Model;

/// truss(1) on its way: it says which call it makes next, and is fed the reply. Contracts see its state, and how much
/// more there is room for.
#[derive(Drop)]
pub struct Truss {
    pub(crate) options: Options,
    /// How many of the processes that the options name it has begun to open.
    pub(crate) begun: usize,
    /// The processes that it traces, in the order of opening.
    pub(crate) traced: Vec<Traced>,
    pub(crate) stage: Stage,
    /// What it does about breakpoints before the call of its stage (`-u`).
    pub(crate) aside: Aside,
    /// Whether it was interrupted, and leaves its processes.
    pub(crate) leaving: bool,
    pub(crate) reports: Vec<Report>,
}

impl Model for Truss {
    ghost use Rattle.std.specs.Prelude.{vec_len, vec_capacity, ◌-◌};
    ghost use Rattle.pr_truss.specs.Trusses.{TrussView};

    ghost Value = { TrussView };

    ghost view = { λ a. record {
      state = record { options = a.options; begun = a.begun; traced = a.traced.items; stage = a.stage; aside = a.aside; leaving = a.leaving; reports = a.reports.items };
      traced_room = vec_capacity a.traced - vec_len a.traced;
      report_room = vec_capacity a.reports - vec_len a.reports;
    } };
}

/// How many processes are begun to be opened at first, and the first step.
#[tactic(auto, unfolding(crate::specs::Trusses::first_truss))]
fn first_step(options: &Options) -> (usize, Stage)
    ensures begun { result.0 ≡ (first_truss options.now).begun }
    ensures stage { result.1 ≡ (first_truss options.now).stage }
{
    if let Some(program) = options.program {
        return (0, Stage::Spawning { program });
    }
    match options.pids.as_slice().get(0) {
        Some(pid) => (1, Stage::OpeningControl { pid: *pid }),
        None => (0, Stage::Finished),
    }
}

impl Truss {
    /// Truss before its first call, for options that name processes or else a program.
    #[tactic(auto, unfolding(crate::specs::Trusses::first_truss))]
    pub fn new(alloc: Global, options: Options) -> Result<Truss, NoMemory>
        ensures { IfOk result (λ truss. truss.state ≡ first_truss options) }
    {
        let (begun, stage) = first_step(&options);
        Ok(Truss {
            options,
            begun,
            traced: Vec::new(alloc),
            stage,
            aside: Aside::Nothing,
            leaving: false,
            reports: Vec::new(alloc),
        })
    }

    /// Makes one `feed` possible without memory.
    pub fn prepare(&mut self) -> Result<(), NoMemory>
        ensures state { self.new.state ≡ self.old.state }
        ensures room { OnOk result (IsReady self.new) }
    {
        self.traced.reserve(1)?;
        self.reports.reserve(1)?;
        Ok(())
    }

    /// The process at a place.
    pub(crate) fn traced_at(&self, place: usize) -> Traced
        ensures { result ≡ traced_at self.now.state place }
    {
        match self.traced.get(place) {
            Some(traced) => *traced,
            None => Traced::new(0, 0),
        }
    }

    /// Goes to a step, whose reply comes next.
    pub(crate) fn go_to(&mut self, stage: Stage)
        ensures { self.new ≡ record self.old { state = with_stage self.old.state stage } }
    {
        self.stage = stage;
    }

    /// The process at a place becomes this one.
    pub(crate) fn set_traced(&mut self, place: usize, traced: Traced)
        ensures { self.new ≡ record self.old { state = with_traced self.old.state place traced } }
    {
        if place < self.traced.len() {
            self.traced[place] = traced;
        }
    }

    /// One process more is traced.
    pub(crate) fn add_traced(&mut self, traced: Traced)
        requires { 0 < self.old.traced_room }
        ensures state { self.new.state ≡ with_opened self.old.state traced }
        ensures room { self.new.report_room ≡ self.old.report_room }
    {
        self.traced.push_reserved(traced);
    }

    /// The process at a place is no longer traced.
    pub(crate) fn remove_traced(&mut self, place: usize)
        ensures state { self.new.state ≡ without_traced self.old.state place }
        ensures room { self.new.report_room ≡ self.old.report_room }
    {
        if place < self.traced.len() {
            self.traced.remove(place);
        }
    }

    /// Something is reported.
    pub(crate) fn report(&mut self, report: &Report)
        requires { 0 < self.old.report_room }
        ensures state { self.new.state ≡ with_report self.old.state report.now }
        ensures room { self.new.traced_room ≡ self.old.traced_room }
    {
        // The check of borrows knows the types that a function names, and not those inside the variants of an enum.
        let _named: Option<MemoryRead> = None;
        self.reports.push_reserved(*report);
    }
}
