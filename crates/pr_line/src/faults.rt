use pr_num::NoMemory;
use pr_text::Refused;
use thiserror::Error;

/// Why the words of truss(1) are refused. Words count from 0 after `truss`.
#[derive(Clone, Copy, Debug, PartialEq, Eq, Error)]
pub enum OptFault {
    /// The word is no option, or does not fit where it stands.
    #[error("word {word}: bad option")]
    BadOption { word: u32 },
    /// The word is a list, and a part of it stands for no entry of its table.
    #[error("word {word}: bad name")]
    BadName { word: u32 },
    #[error("out of memory")]
    NoMemory,
}

impl From<NoMemory> for OptFault {
    ghost use Rattle.std.specs.Prelude.{◌≡◌};
    ghost use Rattle.pr_line.specs.declared.faults.OptFault.TheVariants as variants;

    ghost from_gives = { λ _ e. e ≡ variants.NoMemory };

    fn from(_error: NoMemory) -> OptFault {
        OptFault::NoMemory
    }
}

/// The word at fault, where memory does not run out.
#[derive(Clone, Copy)]
pub enum WordFault {
    BadOption { word: u32 },
    BadName { word: u32 },
}

impl From<WordFault> for Refused<WordFault> {
    ghost use Rattle.std.specs.Prelude.{◌≡◌};
    ghost use Rattle.pr_text.specs.declared.refusals.Refused.TheVariants as variants;

    ghost from_gives = { λ fault e. e ≡ variants.Kind fault };

    fn from(fault: WordFault) -> Refused<WordFault> {
        Refused::Kind(fault)
    }
}
