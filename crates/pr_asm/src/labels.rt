ghost use Rattle.std.specs.Prelude.{◌≡◌, ◌≤◌};
ghost use Rattle.pr_num.specs.Limits.{code_limit};
ghost use Rattle.pr_asm.specs.Symbols.{label_address};

use pr_num::layout::TEXT_BASE;
use pr_num::{Instruction, Name};
use std::marker::Model;

/// A label of a program, seen by contracts as pr_num's plain record: it stands before the instruction at its place, or
/// after the last one.
#[derive(Drop)]
pub struct Label {
    name: Name,
    place: usize,
}

impl Model for Label {
    ghost use Rattle.pr_num.specs.Programs as plain;

    ghost Value = { plain.Label };

    ghost view = { λ l. record { name = l.name; place = l.place } };
}

impl Label {
    /// A label before the instruction at this place, counted from 0. Takes no memory.
    pub fn new(name: Name, place: usize) -> Label
        ensures { result ≡ record { name = name; place = place } }
    {
        Label { name, place }
    }

    /// The name of the label, 1 to 31 bytes.
    pub fn name(&self) -> &[u8]
        ensures { result.now ≡ self.now.name }
    {
        self.name.as_slice()
    }

    /// How many instructions stand before the label.
    pub fn place(&self) -> usize
        ensures { result ≡ self.now.place }
    {
        self.place
    }

    /// The address of the label: that of the instruction that it stands before.
    pub fn address(&self) -> u64
        requires { self.now.place ≤ code_limit }
        ensures { result ≡ label_address self.now }
    {
        TEXT_BASE + (Instruction::SIZE * self.place) as u64
    }
}
