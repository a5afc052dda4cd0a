ghost use Rattle.std.specs.Prelude.{⊤, ◌≡◌, [], ◌∷◌, codes};
ghost use Rattle.pr_num.specs.Flags.{known_bits-five};

use crate::flags::{FlagBits, KnownFlags, flag};
use bitflags::{Flag, Flags, bitflag_items};

/// Any bits of a word, also such as are no run flag: what `bitflags` works on.
#[derive(Clone, Copy, Debug, PartialEq, Eq)]
pub struct RunBits(u64);

bitflag_items! {
    impl RunBits: u64 {
        const CSIG = 1;
        const CFAULT = 2;
        const STEP = 4;
        const SABORT = 8;
        const STOP = 16;
    }
}

impl Flags for RunBits {
    type Bits = u64;

    ghost exact = { ⊤ };

    ghost table = { (codes "CSIG", 1) ∷ (codes "CFAULT", 2) ∷ (codes "STEP", 4)
        ∷ (codes "SABORT", 8) ∷ (codes "STOP", 16) ∷ [] };

    ghost set_of = { λ flags. flags.0 };

    fn flags<'a>() -> &'a [Flag<RunBits>] {
        RunBits::FLAGS
    }

    fn bits(&self) -> u64 {
        self.0
    }

    fn from_bits_retain(bits: u64) -> RunBits {
        RunBits(bits)
    }
}

impl FlagBits for RunBits {
    ghost width = { 5 };

    ghost is_exact = { tt };

    ghost lowest = { known_bits-five _ _ _ _ _ };
}

/// How a stopped lwp is run (proc(4), "PCRUN"). Seen by contracts as the word of its flags.
pub type RunFlags = KnownFlags<RunBits>;

impl KnownFlags<RunBits> {
    /// The current signal is cleared (PRCSIG).
    pub const CSIG: RunFlags = flag!(RunBits::CSIG);

    /// The current fault is cleared (PRCFAULT).
    pub const CFAULT: RunFlags = flag!(RunBits::CFAULT);

    /// It stops again after one instruction (PRSTEP).
    pub const STEP: RunFlags = flag!(RunBits::STEP);

    /// The system call that it is in is aborted (PRSABORT).
    pub const SABORT: RunFlags = flag!(RunBits::SABORT);

    /// It is directed to stop again (PRSTOP).
    pub const STOP: RunFlags = flag!(RunBits::STOP);
}
