//! The programs that processes can run.
ghost use Rattle.std.specs.Prelude.{◌≡◌, ◌<◌, ◌≤◌, [], IfOk, IfSome, Some, length, map, position, slice_get, option_and_then};
ghost use Rattle.pr_num.specs.Limits.{program_limit};
ghost use Rattle.pr_num.specs.Spaces.{first_space};
ghost use Rattle.pr_model.specs.ProcessCalls.{is_program_of, program_named};

use crate::Sys;
use pr_asm::Program;
use pr_mem::Space;
use pr_num::NoMemory;
use std::alloc::Global;
use std::marker::Model;

/// Programs at places that count from 0, seen by contracts as their list: at most 256, as many as a scenario has, so
/// that a place is a `u32`.
#[derive(Drop)]
pub struct Programs {
    programs: Vec<Program>,
    /// The address space in which each begins, for processes to copy.
    spaces: Vec<Space>,
    /// The address space of no process: nothing is mapped in it.
    empty: Space,
}

impl Model for Programs {
    ghost use Rattle.std.specs.Prelude.{◌≡◌, ◌≤◌, List, [], length, map};
    ghost use Rattle.pr_num.specs.Limits.{program_limit};
    ghost use Rattle.pr_num.specs.Programs.{Program as ProgramValue};
    ghost use Rattle.pr_num.specs.Spaces.{first_space};

    ghost Value = { List ProgramValue };

    ghost view = { λ all. all.programs.items };

    ghost invariant = { λ all. (length all.programs.items ≤ program_limit) × (all.spaces.items ≡ map first_space all.programs.items)
        × (all.empty ≡ []) };
}

/// The address space in which a program begins.
#[tactic(auto, using(crate::proofs::SpaceLemmas::first_space_laws))]
fn first_space(alloc: Global, program: &Program) -> Result<Space, NoMemory>
    ensures { IfOk result (λ space. space ≡ first_space program.now) }
{
    prove!(program.code().len() <= Program::MAX_CODE);
    let text = program.text(alloc)?;
    Space::first(alloc, &text, program.data())
}

/// The same of each program.
fn first_spaces(alloc: Global, programs: &[Program]) -> Result<Vec<Space>, NoMemory>
    ensures { IfOk result (λ spaces. spaces.items ≡ map first_space programs.now) }
{
    let mut spaces = Vec::new(alloc);
    for program in programs {
        spaces.push(first_space(alloc, program)?)?;
    }
    Ok(spaces)
}

impl Programs {
    /// The programs of a vector.
    pub fn from_vec(programs: Vec<Program>) -> Result<Programs, NoMemory>
        requires { length programs.items ≤ program_limit }
        ensures { IfOk result (λ all. all ≡ programs.items) }
    {
        let alloc = *programs.allocator();
        let spaces = first_spaces(alloc, &programs)?;
        let empty = Space::new(alloc);
        Ok(Programs {
            programs,
            spaces,
            empty,
        })
    }

    /// What the programs took their memory from.
    pub(crate) fn alloc(&self) -> Global {
        *self.programs.allocator()
    }

    /// A space in which nothing is mapped.
    pub(crate) fn empty_space(&self) -> &Space
        ensures { result.now ≡ [] }
    {
        &self.empty
    }

    /// How many programs there are, at most 256.
    pub fn len(&self) -> u32
        ensures { result ≡ length self.now }
    {
        self.programs.len() as u32
    }

    /// The programs, each at its place.
    pub fn as_slice(&self) -> &[Program]
        ensures { result.now ≡ self.now }
    {
        &self.programs
    }

    /// The program at a place.
    pub fn at(&self, place: u32) -> &Program
        requires { place < length self.now }
        ensures { slice_get self.now place ≡ Some result.now }
    {
        &self.programs[place as usize]
    }

    /// The program at a place, and the address space in which it begins: a copy of that shares its bytes with all
    /// others, until one of them is written to.
    pub fn start(&self, place: u32) -> (&Program, &Space)
        requires { place < length self.now }
        ensures program { slice_get self.now place ≡ Some result.0.now }
        ensures space { result.1.now ≡ first_space result.0.now }
    {
        let place = place as usize;
        (&self.programs[place], &self.spaces[place])
    }

    /// The place of the first program of this name.
    fn place_named(&self, name: &[u8]) -> Option<u32>
        ensures place { result ≡ position (is_program_of name.now) self.now }
        ensures within { IfSome result (λ place. place < length self.now) }
    {
        let place = first_named(&self.programs, name)?;
        Some(place as u32)
    }
}

#[tactic(auto, using(crate::proofs::ProgramLemmas::naming))]
fn first_named(programs: &[Program], name: &[u8]) -> Option<usize>
    ensures place { result ≡ position (is_program_of name.now) programs.now }
    ensures within { IfSome result (λ place. place < length programs.now) }
{
    programs
        .iter()
        .position(|program| program.name().as_slice() == name)
}

/// The place of the first program of this name.
#[tactic(auto, using(crate::proofs::ProgramLemmas::naming), unfolding(pr_model::specs::ProcessCalls::program_named))]
pub fn program_named(sys: &Sys, name: &[u8]) -> Option<u32>
    ensures program { option_and_then (slice_get sys.now.programs) result ≡ program_named sys.now.programs name.now }
    ensures within { IfSome result (λ place. place < length sys.now.programs) }
{
    sys.programs.place_named(name)
}
