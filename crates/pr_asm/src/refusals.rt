use pr_text::{LineFault, LineRefusal, Refused};

/// Why a line of a program is refused. Of several kinds in one line the first is named.
#[derive(Clone, Copy, Debug, PartialEq, Eq)]
pub enum AsmKind {
    /// The first word is no label and no instruction.
    UnknownWord,
    /// The operands are too many or too few, or one of them has not the form that it needs.
    BadOperand,
    /// An operand is a name that the program does not place, or no system call has the name.
    UnknownName,
    /// The line places a name that an earlier line places.
    Double,
    /// The line goes past 4,096 instructions or 65,536 bytes of data.
    TooBig,
}

/// The first line of a program that is refused and why.
pub type AsmFault = LineFault<AsmKind>;

/// Why a program was not read.
pub type AsmRefusal = LineRefusal<AsmKind>;

impl From<AsmKind> for Refused<AsmKind> {
    ghost use Rattle.std.specs.Prelude.{◌≡◌};
    ghost use Rattle.pr_text.specs.declared.refusals.Refused.TheVariants as variants;

    ghost from_gives = { λ kind e. e ≡ variants.Kind kind };

    fn from(kind: AsmKind) -> Refused<AsmKind> {
        Refused::Kind(kind)
    }
}
