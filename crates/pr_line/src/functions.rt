use pr_num::limits::INSTRUCTION_SIZE;
use pr_num::{Name, Table};

/// A function whose calls truss(1) shows (`-u`).
#[derive(Clone, Copy)]
pub struct Function {
    /// The label that names it.
    pub name: Name,
    /// The address of its first instruction.
    pub at: u64,
    /// The bytes of that instruction.
    pub code: [u8; INSTRUCTION_SIZE],
}

/// How many functions there can be.
pub const FUNCTION_LIMIT: usize = 16;

/// Functions in the order in which they were named, seen by contracts as their list.
pub type Functions = Table<Function>;
