ghost use Rattle.std.specs.Prelude.{◌≡◌, ◌==◌, ◌-◌, ◌^◌, ◌<◌, ℕ};
ghost use Rattle.bitflags.specs.Sets.{known_bits};
ghost use Rattle.pr_num.specs.Sets.{union_word, minus_word, set_of_word};
ghost use Rattle.pr_num.specs.Control.{has_flags};

use bitflags::Flags;
use std::marker::{Model, PhantomData};

/// Any bits of a word, also such as are no flag: what `bitflags` works on. The flags are the lowest bits.
pub trait FlagBits: Flags<Bits = u64> + Copy {
    /// How many flags there are.
    ghost width: { ℕ };

    ghost is_exact: { Self.Flags.exact };

    ghost lowest: { known_bits Self.Flags.table ≡ 2 ^ width - 1 };
}

/// Flags that are all known, seen by contracts as their word. The module of each kind writes its constants.
#[derive(Clone, Copy, Debug, PartialEq, Eq)]
pub struct KnownFlags<B: FlagBits> {
    pub(crate) word: u64,
    pub(crate) of: PhantomData<B>,
}

impl<B: FlagBits> Model for KnownFlags<B> {
    ghost use Rattle.std.specs.Prelude.{ℕ, ◌<◌, ◌^◌};

    ghost Value = { ℕ };

    ghost view = { λ flags. flags.word };

    ghost invariant = { λ flags. flags.word < 2 ^ B.width };

    ghost inverse = { λ word. record { word = word; of = record {} } };
}

/// The flag of these bits alone. A macro, since the value of a constant calls no function.
macro_rules! flag {
    ($bits:expr) => {
        $crate::flags::KnownFlags {
            word: $bits.0,
            of: std::marker::PhantomData,
        }
    };
}

pub(crate) use flag;

impl<B: FlagBits> KnownFlags<B> {
    fn new(bits: B) -> KnownFlags<B>
        requires { B.Flags.set_of bits < 2 ^ B.width }
        ensures { result ≡ B.Flags.set_of bits }
    {
        KnownFlags::of_word(bits.bits())
    }

    fn bits(self) -> B
        ensures value { B.Flags.set_of result ≡ self }
        ensures range { B.Flags.set_of result < 2 ^ B.width }
    {
        B::from_bits_retain(self.word)
    }

    /// No flag.
    pub fn empty() -> KnownFlags<B>
        ensures { result ≡ 0 }
    {
        KnownFlags::new(B::empty())
    }

    /// The flags of a word, `None` exactly where a bit that is no flag is set.
    pub fn from_word(w: u64) -> Option<KnownFlags<B>>
        ensures { result ≡ set_of_word B.width w }
    {
        let bits = B::from_bits(w)?;
        Some(KnownFlags::new(bits))
    }

    /// The flags of a word that has no other bit.
    pub fn of_word(word: u64) -> KnownFlags<B>
        requires { word < 2 ^ B.width }
        ensures { result ≡ word }
    {
        KnownFlags {
            word,
            of: PhantomData,
        }
    }

    /// The word of the flags, below the lowest bit that is none.
    pub fn word(self) -> u64
        ensures value { result ≡ self }
        ensures range { result < 2 ^ B.width }
    {
        self.word
    }

    /// Whether no flag is set.
    pub fn is_empty(self) -> bool
        ensures { result ≡ (self == 0) }
    {
        self.bits().is_empty()
    }

    /// Whether all these flags are set.
    #[tactic(auto, unfolding(crate::specs::Control::has_flags, crate::specs::Sets::common_word))]
    pub fn has(self, flags: KnownFlags<B>) -> bool
        ensures { result ≡ has_flags self flags }
    {
        self.bits().contains(flags.bits())
    }

    /// The flags of either.
    #[tactic(auto, unfolding(crate::specs::Sets::union_word))]
    pub fn union(self, flags: KnownFlags<B>) -> KnownFlags<B>
        ensures { result ≡ union_word self flags }
    {
        KnownFlags::new(self.bits().union(flags.bits()))
    }

    /// These flags without the others.
    #[tactic(auto, unfolding(crate::specs::Sets::minus_word))]
    pub fn minus(self, flags: KnownFlags<B>) -> KnownFlags<B>
        ensures { result ≡ minus_word self flags }
    {
        KnownFlags::new(self.bits().difference(flags.bits()))
    }
}
