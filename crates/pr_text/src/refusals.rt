use pr_num::NoMemory;
use std::fmt::Debug;
use thiserror::Error;

/// Why one line was not read: it is refused for a kind of its language, or memory ran out.
#[derive(Clone, Copy)]
pub enum Refused<K> {
    Kind(K),
    NoMemory(NoMemory),
}

impl<K> From<NoMemory> for Refused<K> {
    ghost use Rattle.std.specs.Prelude.{◌≡◌};
    ghost use Rattle.pr_text.specs.declared.refusals.Refused.TheVariants as variants;

    ghost from_gives = { λ error e. e ≡ variants.NoMemory error };

    fn from(error: NoMemory) -> Refused<K> {
        Refused::NoMemory(error)
    }
}

/// The first line of a text that is refused, counted as the reader's docstring says, and why.
#[derive(Clone, Copy, Debug, PartialEq, Eq)]
pub struct LineFault<K> {
    pub line: u32,
    pub kind: K,
}

/// Why a text of several lines was not read.
#[derive(Clone, Copy, Debug, PartialEq, Eq, Error)]
pub enum LineRefusal<K: Debug> {
    #[error("line {}: {:?}", .0.line, .0.kind)]
    Fault(LineFault<K>),
    #[error("out of memory")]
    NoMemory,
}

impl<K: Debug> From<NoMemory> for LineRefusal<K> {
    ghost use Rattle.std.specs.Prelude.{◌≡◌};
    ghost use Rattle.pr_text.specs.declared.refusals.LineRefusal.TheVariants as variants;

    ghost from_gives = { λ _ e. e ≡ variants.NoMemory };

    fn from(_error: NoMemory) -> LineRefusal<K> {
        LineRefusal::NoMemory
    }
}

impl<K: Debug> From<LineFault<K>> for LineRefusal<K> {
    ghost use Rattle.std.specs.Prelude.{◌≡◌};
    ghost use Rattle.pr_text.specs.declared.refusals.LineRefusal.TheVariants as variants;

    ghost from_gives = { λ fault e. e ≡ variants.Fault fault };

    fn from(fault: LineFault<K>) -> LineRefusal<K> {
        LineRefusal::Fault(fault)
    }
}
