//! How much of a program stands above a line.
ghost use Rattle.std.specs.Prelude.{◌≡◌, ◌≤◌};
ghost use Rattle.pr_num.specs.Limits.{code_limit, data_limit};
ghost use Rattle.pr_asm.specs.Placing.{aligned, has_room, fits, grown, layout_after, placed};

use crate::places::Place;
use crate::programs::Program;
use crate::statements::Statement;
use pr_num::layout::{DATA_BASE, TEXT_BASE};
use pr_num::{Instruction, Name};

/// How many instructions and bytes of data a part of a program has.
#[derive(Clone, Copy)]
pub struct Layout {
    pub code: usize,
    pub bytes: usize,
}

/// Where data begins after so many bytes: at a multiple of 8.
pub fn aligned(bytes: usize) -> usize
    requires { bytes ≤ data_limit }
    ensures value { result ≡ aligned bytes }
    ensures range { (bytes ≤ result) × (result ≤ data_limit) }
{
    bytes.next_multiple_of(8)
}

impl Layout {
    /// Whether so many bytes of data and zeros after them stay within the limit of a program.
    pub fn has_room(self, len: usize, zeros: u64) -> bool
        requires { self.bytes ≤ data_limit }
        ensures { result ≡ has_room self.bytes len zeros }
    {
        let room = Program::MAX_DATA - aligned(self.bytes);
        len <= room && zeros <= (room - len) as u64
    }

    /// Whether a statement below it stays within the limits of a program.
    #[tactic(auto, unfolding(crate::specs::Placing::fits))]
    pub fn fits(self, statement: &Statement) -> bool
        requires { self.bytes ≤ data_limit }
        ensures { result ≡ fits self statement.now }
    {
        match statement {
            Statement::Blank | Statement::Label { .. } => true,
            Statement::Data { bytes, zeros, .. } => self.has_room(bytes.as_slice().len(), *zeros),
            Statement::Code { .. } => self.code < Program::MAX_CODE,
        }
    }

    /// What stands above the next line. A statement past a limit takes no room.
    #[tactic(auto, unfolding(crate::specs::Placing::layout_after, crate::specs::Placing::fits, crate::specs::Placing::grown))]
    pub fn after(self, statement: &Statement) -> Layout
        requires code { self.code ≤ code_limit }
        requires bytes { self.bytes ≤ data_limit }
        ensures value { result ≡ layout_after self statement.now }
        ensures code { result.code ≤ code_limit }
        ensures bytes { result.bytes ≤ data_limit }
    {
        if !self.fits(statement) {
            return self;
        }
        match statement {
            Statement::Blank | Statement::Label { .. } => self,
            Statement::Data { bytes, zeros, .. } => Layout {
                code: self.code,
                bytes: aligned(self.bytes) + bytes.as_slice().len() + *zeros as usize,
            },
            Statement::Code { .. } => Layout {
                code: self.code + 1,
                bytes: self.bytes,
            },
        }
    }

    /// The name that a statement on this line places, and its place.
    #[tactic(auto, unfolding(crate::specs::Placing::placed))]
    pub fn placed(self, line: u32, statement: &Statement) -> Option<(Name, Place)>
        requires code { self.code ≤ code_limit }
        requires bytes { self.bytes ≤ data_limit }
        ensures { result ≡ placed self line statement.now }
    {
        match statement {
            Statement::Blank | Statement::Code { .. } => None,
            Statement::Label { name } => {
                let value = TEXT_BASE + (Instruction::SIZE * self.code) as u64;
                Some((*name, Place { line, value }))
            }
            Statement::Data { name, .. } => {
                let value = DATA_BASE + aligned(self.bytes) as u64;
                Some((*name, Place { line, value }))
            }
        }
    }
}
