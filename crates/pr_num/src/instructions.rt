ghost use Rattle.std.specs.Prelude.{◌≡◌};
ghost use Rattle.pr_num.specs.Instructions.{register_number, register_of, fields, fields_of, immediate_alone, one_register, two_registers, registers_alone, with_no_field, instruction_bytes, instruction_with, instruction_in};

use crate::Sysno;
use crate::limits::INSTRUCTION_SIZE;
use crate::texts::are_zeros;

/// A general register of the machine.
#[derive(Clone, Copy, Debug, PartialEq, Eq)]
pub enum Reg {
    R0 = 0,
    R1 = 1,
    R2 = 2,
    R3 = 3,
    R4 = 4,
    R5 = 5,
    R6 = 6,
    R7 = 7,
}

impl Reg {
    /// Every register, in the order of its number, which counts from 0.
    pub const ALL: [Reg; 8] = [
        Reg::R0,
        Reg::R1,
        Reg::R2,
        Reg::R3,
        Reg::R4,
        Reg::R5,
        Reg::R6,
        Reg::R7,
    ];

    /// The register of a number, `None` exactly where it is above 7.
    pub fn from_number(n: u8) -> Option<Reg>
        ensures { result ≡ register_of n }
    {
        Reg::ALL.get(n as usize).copied()
    }

    /// The register's number, 0 to 7.
    #[tactic(auto, unfolding(crate::specs::Instructions::register_number))]
    pub fn number(self) -> u8
        ensures { result ≡ register_number self }
    {
        self as u8
    }
}

/// An instruction of the machine, which fills 16 bytes. Addresses wrap at 2^64; an offset and a target are words.
#[derive(Clone, Copy, Debug, PartialEq, Eq)]
pub enum Instruction {
    /// Stops the lwp at a breakpoint: incurs FLTBPT.
    Bpt,
    /// Does nothing.
    Nop,
    /// `to` = a number.
    Set { to: Reg, imm: u64 },
    /// `to` = `from`.
    Mov { to: Reg, from: Reg },
    /// `to` = `to` + `from`, wrapping to 64 bits.
    Add { to: Reg, from: Reg },
    /// `to` = `to` - `from`, wrapping to 64 bits.
    Sub { to: Reg, from: Reg },
    /// `to` = `to` * `from`, wrapping to 64 bits.
    Mul { to: Reg, from: Reg },
    /// `to` = `to` / `from`, unsigned; a divisor of 0 incurs FLTIZDIV.
    Div { to: Reg, from: Reg },
    /// `to` = the word at `base` + `offset`.
    Ld { to: Reg, base: Reg, offset: u64 },
    /// The word at `base` + `offset` = `from`.
    St { from: Reg, base: Reg, offset: u64 },
    /// `to` = the byte at `base` + `offset`.
    Ldb { to: Reg, base: Reg, offset: u64 },
    /// The byte at `base` + `offset` = the low byte of `from`.
    Stb { from: Reg, base: Reg, offset: u64 },
    /// Goes on at `target`.
    Jmp { target: u64 },
    /// Goes on at `target` if `test` is 0.
    Jz { test: Reg, target: u64 },
    /// Goes on at `target` if `test` is not 0.
    Jnz { test: Reg, target: u64 },
    /// Goes on at `target` if `left` is below `right`, unsigned.
    Jlt { left: Reg, right: Reg, target: u64 },
    /// Keeps fp and the next address on the stack, and goes on at `target`.
    Call { target: u64 },
    /// Goes back to where the stack says.
    Ret,
    /// A system call.
    Sys { call: Sysno },
}

impl Instruction {
    /// How many bytes an instruction fills.
    pub const SIZE: usize = INSTRUCTION_SIZE;

    /// The instruction's bytes: an operation code, two register bytes, five zero bytes, and an immediate word, the
    /// least byte first. A field that the instruction does not use is 0.
    pub fn encode(&self) -> [u8; INSTRUCTION_SIZE]
        ensures { result ≡ instruction_bytes self.now }
    {
        let fields = Fields::of(self);
        let mut bytes = [0; Instruction::SIZE];
        bytes[0] = fields.op;
        bytes[1] = fields.a;
        bytes[2] = fields.b;
        bytes[8..].copy_from_slice(&fields.immediate.to_le_bytes());
        bytes
    }

    /// The instruction that 16 bytes spell, `None` exactly where they spell none: the operation code is unknown, a
    /// used register byte is above 7, a field that is not used is not 0, or no system call has the number.
    #[tactic(auto, unfolding(crate::specs::Instructions::instruction_in))]
    pub fn decode(bytes: &[u8; INSTRUCTION_SIZE]) -> Option<Instruction>
        ensures { result ≡ instruction_in bytes.now }
    {
        if !are_zeros(&bytes[3..8]) {
            return None;
        }
        let mut immediate = [0; 8];
        immediate.copy_from_slice(&bytes[8..]);
        Fields {
            op: bytes[0],
            a: bytes[1],
            b: bytes[2],
            immediate: u64::from_le_bytes(immediate),
        }
        .instruction()
    }
}

/// The fields of an instruction's bytes.
#[derive(Clone, Copy)]
struct Fields {
    op: u8,
    a: u8,
    b: u8,
    immediate: u64,
}

impl Fields {
    #[tactic(auto, unfolding(crate::specs::Instructions::fields_of))]
    fn of(instruction: &Instruction) -> Fields
        ensures { fields result.op result.a result.b result.immediate ≡ fields_of instruction.now }
    {
        match *instruction {
            Instruction::Bpt => Fields::new(1, 0, 0, 0),
            Instruction::Nop => Fields::new(2, 0, 0, 0),
            Instruction::Set { to, imm } => Fields::new(3, to.number(), 0, imm),
            Instruction::Mov { to, from } => Fields::new(4, to.number(), from.number(), 0),
            Instruction::Add { to, from } => Fields::new(5, to.number(), from.number(), 0),
            Instruction::Sub { to, from } => Fields::new(6, to.number(), from.number(), 0),
            Instruction::Mul { to, from } => Fields::new(7, to.number(), from.number(), 0),
            Instruction::Div { to, from } => Fields::new(8, to.number(), from.number(), 0),
            Instruction::Ld { to, base, offset } => Fields::new(
                9,
                to.number(),
                base.number(),
                offset,
            ),
            Instruction::St { from, base, offset } => Fields::new(
                10,
                from.number(),
                base.number(),
                offset,
            ),
            Instruction::Ldb { to, base, offset } => Fields::new(
                11,
                to.number(),
                base.number(),
                offset,
            ),
            Instruction::Stb { from, base, offset } => Fields::new(
                12,
                from.number(),
                base.number(),
                offset,
            ),
            Instruction::Jmp { target } => Fields::new(13, 0, 0, target),
            Instruction::Jz { test, target } => Fields::new(14, test.number(), 0, target),
            Instruction::Jnz { test, target } => Fields::new(15, test.number(), 0, target),
            Instruction::Jlt {
                left,
                right,
                target,
            } => Fields::new(16, left.number(), right.number(), target),
            Instruction::Call { target } => Fields::new(17, 0, 0, target),
            Instruction::Ret => Fields::new(18, 0, 0, 0),
            Instruction::Sys { call } => Fields::new(19, 0, 0, call.number()),
        }
    }

    fn new(op: u8, a: u8, b: u8, immediate: u64) -> Fields
        ensures { fields result.op result.a result.b result.immediate ≡ fields op a b immediate }
    {
        Fields {
            op,
            a,
            b,
            immediate,
        }
    }

    /// The instruction with these fields, if there is one.
    #[tactic(auto, unfolding(crate::specs::Instructions::instruction_with))]
    fn instruction(self) -> Option<Instruction>
        ensures { result ≡ instruction_with (fields self.op self.a self.b self.immediate) }
    {
        let immediate = self.immediate;
        match self.op {
            1 => self.with_no_field(Instruction::Bpt),
            2 => self.with_no_field(Instruction::Nop),
            3 => self
                .one_register()
                .map(|to| Instruction::Set { to, imm: immediate }),
            4 => self
                .registers_alone()
                .map(|(to, from)| Instruction::Mov { to, from }),
            5 => self
                .registers_alone()
                .map(|(to, from)| Instruction::Add { to, from }),
            6 => self
                .registers_alone()
                .map(|(to, from)| Instruction::Sub { to, from }),
            7 => self
                .registers_alone()
                .map(|(to, from)| Instruction::Mul { to, from }),
            8 => self
                .registers_alone()
                .map(|(to, from)| Instruction::Div { to, from }),
            9 => self.two_registers().map(|(to, base)| Instruction::Ld {
                to,
                base,
                offset: immediate,
            }),
            10 => self.two_registers().map(|(from, base)| Instruction::St {
                from,
                base,
                offset: immediate,
            }),
            11 => self.two_registers().map(|(to, base)| Instruction::Ldb {
                to,
                base,
                offset: immediate,
            }),
            12 => self.two_registers().map(|(from, base)| Instruction::Stb {
                from,
                base,
                offset: immediate,
            }),
            13 => self
                .immediate_alone()
                .map(|target| Instruction::Jmp { target }),
            14 => self.one_register().map(|test| Instruction::Jz {
                test,
                target: immediate,
            }),
            15 => self.one_register().map(|test| Instruction::Jnz {
                test,
                target: immediate,
            }),
            16 => self.two_registers().map(|(left, right)| Instruction::Jlt {
                left,
                right,
                target: immediate,
            }),
            17 => self
                .immediate_alone()
                .map(|target| Instruction::Call { target }),
            18 => self.with_no_field(Instruction::Ret),
            19 => self
                .immediate_alone()
                .and_then(Sysno::from_number)
                .map(|call| Instruction::Sys { call }),
            _ => None,
        }
    }

    /// An instruction that uses no field.
    fn with_no_field(self, instruction: Instruction) -> Option<Instruction>
        ensures { result ≡ with_no_field (fields self.op self.a self.b self.immediate) instruction }
    {
        (self.a == 0 && self.b == 0 && self.immediate == 0).then_some(instruction)
    }

    /// The immediate, where no register is used.
    fn immediate_alone(self) -> Option<u64>
        ensures { result ≡ immediate_alone (fields self.op self.a self.b self.immediate) }
    {
        (self.a == 0 && self.b == 0).then_some(self.immediate)
    }

    /// The register of the first byte alone.
    fn one_register(self) -> Option<Reg>
        ensures { result ≡ one_register (fields self.op self.a self.b self.immediate) }
    {
        if self.b == 0 {
            Reg::from_number(self.a)
        } else {
            None
        }
    }

    /// The registers of both bytes.
    fn two_registers(self) -> Option<(Reg, Reg)>
        ensures { result ≡ two_registers (fields self.op self.a self.b self.immediate) }
    {
        Some((Reg::from_number(self.a)?, Reg::from_number(self.b)?))
    }

    /// The registers of both bytes, where no immediate is used.
    fn registers_alone(self) -> Option<(Reg, Reg)>
        ensures { result ≡ registers_alone (fields self.op self.a self.b self.immediate) }
    {
        if self.immediate == 0 {
            self.two_registers()
        } else {
            None
        }
    }
}
