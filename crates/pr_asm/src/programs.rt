ghost use Rattle.std.specs.Prelude.{◌≡◌, ◌≤◌, ◌<◌, ◌+◌, [], length, slice_get, Some, IfOk, OnOk};
ghost use Rattle.std.specs.List.{All};
ghost use Rattle.std.specs.Option.{ForSome};
ghost use Rattle.pr_num.specs.Limits.{code_limit, data_limit};
ghost use Rattle.pr_num.specs.Instructions.{instruction_bytes};
ghost use Rattle.pr_num.specs.Programs.{text_of};
ghost use Rattle.pr_asm.specs.Limits.{program, IsWithinLimits};
ghost use Rattle.pr_asm.specs.Placing.{aligned, found};
ghost use Rattle.pr_text.specs.Reads.{Answers};
ghost use Rattle.pr_text.specs.Reads.{Gives};
ghost use Rattle.pr_asm.specs.Assembly.{layout_of, with_label, with_data, with_code, label_added, data_added, code_added, with_statement, read_added, numbered};

use crate::assembly::{at_line, filled, is_first};
use crate::layouts::{Layout, aligned};
use crate::places::Places;
use crate::statements::Statement;
use crate::{AsmKind, AsmRefusal, Label};
use pr_num::limits::{CODE_LIMIT, DATA_LIMIT};
use pr_num::{Instruction, Name, NoMemory};
use pr_text::Refused;
use std::alloc::Global;
use std::marker::Model;

/// A program for the machine, seen by contracts as pr_num's plain record: its name, at most 4,096 instructions, at most
/// 65,536 bytes of data, and its labels in the order of their lines, each before an instruction or after the last one.
#[derive(Drop)]
pub struct Program {
    name: Name,
    code: Vec<Instruction>,
    bytes: Vec<u8>,
    labels: Vec<Label>,
}

impl Model for Program {
    ghost use Rattle.pr_num.specs.Programs as plain;
    ghost use Rattle.pr_asm.specs.Limits.{program, IsWithinLimits};

    ghost Value = { plain.Program };

    ghost view = { λ p. program p.name p.code.items p.bytes.items p.labels.items };

    ghost invariant = { λ p. IsWithinLimits (program p.name p.code.items p.bytes.items p.labels.items) };
}

impl Program {
    /// The most instructions of a program.
    pub const MAX_CODE: usize = CODE_LIMIT;

    /// The most bytes of data of a program.
    pub const MAX_DATA: usize = DATA_LIMIT;

    /// The program of these parts. Takes no memory.
    pub fn new(name: Name, code: Vec<Instruction>, bytes: Vec<u8>, labels: Vec<Label>) -> Program
        requires { IsWithinLimits (program name code.items bytes.items labels.items) }
        ensures { result ≡ program name code.items bytes.items labels.items }
    {
        Program {
            name,
            code,
            bytes,
            labels,
        }
    }

    /// A program of nothing.
    pub(crate) fn empty(alloc: Global, name: Name) -> Program
        ensures { result ≡ program name [] [] [] }
    {
        Program::new(name, Vec::new(alloc), Vec::new(alloc), Vec::new(alloc))
    }

    /// The name of the program.
    pub fn name(&self) -> Name
        ensures { result ≡ self.now.name }
    {
        self.name
    }

    /// Its instructions, in the order of their addresses.
    pub fn code(&self) -> &[Instruction]
        ensures value { result.now ≡ self.now.code }
        ensures most { length result.now ≤ code_limit }
    {
        &self.code
    }

    /// The bytes of its data, from their first address on.
    pub fn data(&self) -> &[u8]
        ensures value { result.now ≡ self.now.bytes }
        ensures most { length result.now ≤ data_limit }
    {
        &self.bytes
    }

    /// The labels, in the order of their lines.
    pub fn labels(&self) -> &[Label]
        ensures value { result.now ≡ self.now.labels }
        ensures places { All (λ l. l.place ≤ length self.now.code) result.now }
        ensures most { All (λ l. l.place ≤ code_limit) result.now }
    {
        &self.labels
    }

    /// The 16 bytes of the instruction at `index`, counted from 0. Takes no memory.
    pub fn encode(&self, index: usize) -> [u8; Instruction::SIZE]
        requires { index < length self.now.code }
        ensures { ForSome (slice_get self.now.code index) (λ i. result ≡ instruction_bytes i) }
    {
        self.code[index].encode()
    }

    /// The bytes of all instructions, 16 each: what lies in the text mapping.
    pub fn text(&self, alloc: Global) -> Result<Vec<u8>, NoMemory>
        ensures { IfOk result (λ text. text.items ≡ text_of self.now) }
    {
        let mut text = Vec::with_capacity(alloc, self.code.len() * Instruction::SIZE)?;
        for instruction in &self.code {
            text.extend_from_slice(&instruction.encode())?;
        }
        Ok(text)
    }

    /// How much the program has.
    fn layout(&self) -> Layout
        ensures value { result ≡ layout_of self.now }
        ensures code { result.code ≤ code_limit }
        ensures bytes { result.bytes ≤ data_limit }
    {
        Layout {
            code: self.code.len(),
            bytes: self.bytes.len(),
        }
    }

    fn add_label(&mut self, name: Name) -> Result<(), NoMemory>
        ensures { OnOk result (self.new ≡ with_label self.old name) }
    {
        self.labels.push(Label::new(name, self.code.len()))?;
        Ok(())
    }

    fn add_data(&mut self, bytes: &[u8], zeros: usize) -> Result<(), NoMemory>
        requires { aligned (length self.old.bytes) + length bytes.now + zeros ≤ data_limit }
        ensures { OnOk result (self.new ≡ with_data self.old bytes.now zeros) }
    {
        self.bytes.resize(aligned(self.bytes.len()), 0)?;
        self.bytes.extend_from_slice(bytes)?;
        self.bytes.resize(self.bytes.len() + zeros, 0)?;
        Ok(())
    }

    fn add_code(&mut self, instruction: Instruction) -> Result<(), NoMemory>
        requires { length self.old.code < code_limit }
        ensures { OnOk result (self.new ≡ with_code self.old instruction) }
    {
        self.code.push(instruction)?;
        Ok(())
    }

    /// Adds a label, where its name is placed first.
    #[tactic(auto, unfolding(crate::specs::Assembly::label_added))]
    fn place_label(
        &mut self,
        places: &Places,
        line: u32,
        name: Name,
    ) -> Result<(), Refused<AsmKind>>
        ensures { Gives (λ _. self.new) result (label_added (found places.now) line self.old name) }
    {
        if !is_first(places, line, name) {
            return Err(Refused::Kind(AsmKind::Double));
        }
        self.add_label(name)?;
        Ok(())
    }

    /// Adds data, where its name is placed first and there is room.
    #[tactic(auto, unfolding(crate::specs::Assembly::data_added))]
    fn place_data(
        &mut self,
        places: &Places,
        line: u32,
        name: Name,
        bytes: &[u8],
        zeros: u64,
    ) -> Result<(), Refused<AsmKind>>
        ensures { Gives (λ _. self.new) result (data_added (found places.now) line self.old name bytes.now zeros) }
    {
        if !is_first(places, line, name) {
            return Err(Refused::Kind(AsmKind::Double));
        }
        if !self.layout().has_room(bytes.len(), zeros) {
            return Err(Refused::Kind(AsmKind::TooBig));
        }
        self.add_data(bytes, zeros as usize)?;
        Ok(())
    }

    /// Adds an instruction, where there is room.
    #[tactic(auto, unfolding(crate::specs::Assembly::code_added))]
    fn place_code(
        &mut self,
        places: &Places,
        instruction: Instruction,
        name: Option<Name>,
    ) -> Result<(), Refused<AsmKind>>
        ensures { Gives (λ _. self.new) result (code_added (found places.now) self.old instruction name) }
    {
        let instruction = filled(places, instruction, name)?;
        if self.code.len() >= Program::MAX_CODE {
            return Err(Refused::Kind(AsmKind::TooBig));
        }
        self.add_code(instruction)?;
        Ok(())
    }

    /// Adds the statement of a line.
    #[tactic(auto, unfolding(crate::specs::Assembly::with_statement))]
    fn add(
        &mut self,
        places: &Places,
        line: u32,
        statement: &Statement,
    ) -> Result<(), Refused<AsmKind>>
        ensures { Gives (λ _. self.new) result (with_statement (found places.now) line self.old statement.now) }
    {
        match statement {
            Statement::Blank => Ok(()),
            Statement::Label { name } => self.place_label(places, line, *name),
            Statement::Data { name, bytes, zeros } => {
                self.place_data(places, line, *name, bytes.as_slice(), *zeros)
            }
            Statement::Code { instruction, name } => self.place_code(places, *instruction, *name),
        }
    }

    /// Adds what was read on a line, or names the line that is refused.
    pub(crate) fn add_line(
        &mut self,
        places: &Places,
        line: u32,
        read: &Result<Statement, AsmKind>,
    ) -> Result<(), AsmRefusal>
        ensures { Answers (λ _. self.new) result
            (numbered line (read_added (found places.now) line self.old read.now)) }
    {
        let added = match read {
            Ok(statement) => self.add(places, line, statement),
            Err(kind) => Err(Refused::Kind(*kind)),
        };
        at_line(line, added)
    }
}
