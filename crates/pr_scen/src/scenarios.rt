use crate::Plan;
use pr_asm::Program;
use pr_model::Actor;
use pr_num::{Bytes, Name};
use std::marker::Model;

/// What a scenario asks for, seen by contracts as a plain record.
#[derive(Drop)]
pub struct Scenario {
    /// How many entries the history may have, 1 to 100,000.
    pub turns: u32,
    pub programs: Vec<Program>,
    pub files: Vec<(Name, Bytes)>,
    /// The processes that are made before the first turn, in order: the place of each one's program in `programs`,
    /// counted from 0.
    pub spawns: Vec<u32>,
    pub controllers: Vec<Plan>,
    /// Who moves first.
    pub schedule: Vec<Actor>,
}

impl Model for Scenario {
    ghost use Rattle.pr_scen.specs.Scenarios as plain;

    ghost Value = { plain.Scenario };

    ghost view = { λ s. record {
      turns = s.turns;
      programs = s.programs.items;
      files = s.files.items;
      spawns = s.spawns.items;
      controllers = s.controllers.items;
      schedule = s.schedule.items;
    } };
}
