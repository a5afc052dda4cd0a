ghost use Rattle.std.specs.Prelude.{◌≡◌, find};
ghost use Rattle.pr_asm.specs.Mnemonics.{mnemonics, mnemonic_name, is_spelled};

/// The word that an instruction's line begins with.
#[derive(Clone, Copy, Debug, PartialEq, Eq)]
pub enum Mnemonic {
    Bpt,
    Nop,
    Set,
    Mov,
    Add,
    Sub,
    Mul,
    Div,
    Ld,
    St,
    Ldb,
    Stb,
    Jmp,
    Jz,
    Jnz,
    Jlt,
    Call,
    Ret,
    Sys,
}

impl Mnemonic {
    /// Every mnemonic, in the order of the operation codes.
    const ALL: [Mnemonic; 19] = [
        Mnemonic::Bpt,
        Mnemonic::Nop,
        Mnemonic::Set,
        Mnemonic::Mov,
        Mnemonic::Add,
        Mnemonic::Sub,
        Mnemonic::Mul,
        Mnemonic::Div,
        Mnemonic::Ld,
        Mnemonic::St,
        Mnemonic::Ldb,
        Mnemonic::Stb,
        Mnemonic::Jmp,
        Mnemonic::Jz,
        Mnemonic::Jnz,
        Mnemonic::Jlt,
        Mnemonic::Call,
        Mnemonic::Ret,
        Mnemonic::Sys,
    ];

    /// The mnemonic of a word, as `b"set"`, if it is one.
    pub fn from_word(word: &[u8]) -> Option<Mnemonic>
        ensures { result ≡ find (is_spelled word.now) mnemonics }
    {
        Mnemonic::ALL
            .iter()
            .copied()
            .find(|m| word == m.name().as_bytes())
    }

    #[tactic(auto, unfolding(crate::specs::Mnemonics::mnemonic_name))]
    fn name(self) -> &'static str
        ensures { result.now ≡ mnemonic_name self }
    {
        match self {
            Mnemonic::Bpt => "bpt",
            Mnemonic::Nop => "nop",
            Mnemonic::Set => "set",
            Mnemonic::Mov => "mov",
            Mnemonic::Add => "add",
            Mnemonic::Sub => "sub",
            Mnemonic::Mul => "mul",
            Mnemonic::Div => "div",
            Mnemonic::Ld => "ld",
            Mnemonic::St => "st",
            Mnemonic::Ldb => "ldb",
            Mnemonic::Stb => "stb",
            Mnemonic::Jmp => "jmp",
            Mnemonic::Jz => "jz",
            Mnemonic::Jnz => "jnz",
            Mnemonic::Jlt => "jlt",
            Mnemonic::Call => "call",
            Mnemonic::Ret => "ret",
            Mnemonic::Sys => "sys",
        }
    }
}
