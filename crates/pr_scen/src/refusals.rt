use pr_text::{LineFault, LineRefusal, Refused};

/// Why a line of a scenario is refused. Of several kinds of one line the first is named.
#[derive(Clone, Copy, Debug, PartialEq, Eq)]
pub enum ScenKind {
    /// The line has more than 4,096 bytes.
    TooLong,
    /// The line has a byte that is not of ASCII.
    NotAscii,
    /// The first word begins no line of this place.
    UnknownWord,
    /// The operands are too many or too few, or one of them has not the form that it needs.
    BadOperand,
    /// An operand is a name that stands for nothing.
    UnknownName,
    /// A name is given twice, or `turns` is.
    Double,
    /// The line goes past a limit on how many there may be.
    TooMany,
    /// The line goes past a limit on size.
    TooBig,
    /// The line begins a block that has no end.
    NoEnd,
}

/// The first line of a scenario that is refused, counted from 1, and why.
pub type ScenFault = LineFault<ScenKind>;

/// Why a scenario was not read.
pub type ScenRefusal = LineRefusal<ScenKind>;

impl From<ScenKind> for Refused<ScenKind> {
    ghost use Rattle.std.specs.Prelude.{◌≡◌};
    ghost use Rattle.pr_text.specs.declared.refusals.Refused.TheVariants as variants;

    ghost from_gives = { λ kind e. e ≡ variants.Kind kind };

    fn from(kind: ScenKind) -> Refused<ScenKind> {
        Refused::Kind(kind)
    }
}
