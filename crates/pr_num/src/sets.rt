ghost use Rattle.std.specs.Prelude.{◌≡◌, ◌==◌, ◌-◌, ◌^◌, ◌<◌, ◌≤◌, ◌↔◌, IsNone};
ghost use Rattle.pr_num.specs.Signals.{holdable_word};
ghost use Rattle.pr_num.specs.Sets.{has_number, union_word, common_word, minus_word, with_number, without_number, set_of_word, least_entry};

use crate::faults::Flt;
use crate::numbered::Numbered;
use crate::signals::Sig;
use crate::syscalls::Sysno;
use std::marker::{Model, PhantomData};

/// A set of entries of a table, seen by contracts as its word: the entry of number n is bit n - 1.
#[derive(Clone, Copy, Debug, PartialEq, Eq)]
pub struct SetOf<T: Numbered> {
    word: u64,
    of: PhantomData<T>,
}

impl<T: Numbered> Model for SetOf<T> {
    ghost use Rattle.std.specs.Prelude.{ℕ, ◌<◌, ◌^◌};

    ghost Value = { ℕ };

    ghost view = { λ set. set.word };

    ghost invariant = { λ set. set.word < 2 ^ T.COUNT };

    ghost inverse = { λ word. record { word = word; of = record {} } };
}

/// A set of signals (proc(4), "sigset_t").
pub type SigSet = SetOf<Sig>;

/// A set of faults (proc(4), "fltset_t").
pub type FltSet = SetOf<Flt>;

/// A set of calls (proc(4), "sysset_t").
pub type SysSet = SetOf<Sysno>;

/// The word of the entry of a number.
#[tactic(auto, using(std::proofs::lemmas::Nat::one_shl))]
fn bit_of(n: u64) -> u64
    requires least { 1 ≤ n }
    requires most { n ≤ 64 }
    ensures { result ≡ 2 ^ (n - 1) }
{
    1 << (n - 1)
}

impl<T: Numbered> SetOf<T> {
    /// The set of a word in which no bit beyond the last entry is set.
    pub fn of_word(word: u64) -> SetOf<T>
        requires { word < 2 ^ T.COUNT }
        ensures { result ≡ word }
    {
        SetOf {
            word,
            of: PhantomData,
        }
    }

    /// The lowest bit that stands for no entry.
    fn beyond() -> u64
        ensures { result ≡ 2 ^ T.COUNT }
    {
        1 << T::COUNT
    }

    /// No entry.
    pub fn empty() -> SetOf<T>
        ensures { result ≡ 0 }
    {
        SetOf::of_word(0)
    }

    /// One entry.
    fn one(entry: T) -> SetOf<T>
        ensures { result ≡ 2 ^ (T.number_of entry - 1) }
    {
        SetOf::of_word(bit_of(entry.number()))
    }

    /// Every entry.
    pub fn all() -> SetOf<T>
        ensures { result ≡ 2 ^ T.COUNT - 1 }
    {
        SetOf::of_word(SetOf::<T>::beyond() - 1)
    }

    /// The set of a word, `None` exactly where a bit beyond the last entry is set.
    pub fn from_word(w: u64) -> Option<SetOf<T>>
        ensures { result ≡ set_of_word T.COUNT w }
    {
        if w < SetOf::<T>::beyond() {
            Some(SetOf::of_word(w))
        } else {
            None
        }
    }

    /// The word of the set: bit n - 1 for the entry of number n.
    pub fn word(self) -> u64
        ensures value { result ≡ self }
        ensures range { result < 2 ^ T.COUNT }
    {
        self.word
    }

    /// Whether no entry is in the set.
    pub fn is_empty(self) -> bool
        ensures { result ≡ (self == 0) }
    {
        self.word == 0
    }

    /// Whether an entry is in the set.
    pub fn has(self, entry: T) -> bool
        ensures { result ≡ has_number self (T.number_of entry) }
    {
        self.has_number(entry.number())
    }

    /// Whether the set has the entry of a number.
    #[tactic(auto, unfolding(crate::specs::Sets::has_number), using(std::proofs::lemmas::Nat::Bits::shr_and_one))]
    pub fn has_number(self, n: u64) -> bool
        requires least { 1 ≤ n }
        requires most { n ≤ T.COUNT }
        ensures { result ≡ has_number self n }
    {
        (self.word >> (n - 1)) & 1 == 1
    }

    /// The set with an entry, which may be in it already.
    #[tactic(auto, unfolding(crate::specs::Sets::with_number))]
    pub fn with(self, entry: T) -> SetOf<T>
        ensures { result ≡ with_number self (T.number_of entry) }
    {
        self.union(SetOf::one(entry))
    }

    /// The set without an entry, which need not be in it.
    #[tactic(auto, unfolding(crate::specs::Sets::without_number))]
    pub fn without(self, entry: T) -> SetOf<T>
        ensures { result ≡ without_number self (T.number_of entry) }
    {
        self.minus(SetOf::one(entry))
    }

    /// The entries of either set.
    #[tactic(auto, unfolding(crate::specs::Sets::union_word))]
    pub fn union(self, other: SetOf<T>) -> SetOf<T>
        ensures { result ≡ union_word self other }
    {
        SetOf::of_word(self.word | other.word)
    }

    /// The entries of both sets.
    #[tactic(auto, unfolding(crate::specs::Sets::common_word), using(crate::proofs::SetLemmas::set_bounds))]
    pub fn intersection(self, other: SetOf<T>) -> SetOf<T>
        ensures { result ≡ common_word self other }
    {
        SetOf::of_word(self.word & other.word)
    }

    /// The entries of this set that the other has not.
    #[tactic(auto, unfolding(crate::specs::Sets::minus_word), using(crate::proofs::SetLemmas::set_bounds))]
    pub fn minus(self, other: SetOf<T>) -> SetOf<T>
        ensures { result ≡ minus_word self other }
    {
        SetOf::of_word(self.word & !other.word)
    }

    /// The entry of least number, `None` exactly where the set is empty.
    pub fn first(self) -> Option<T>
        ensures value { result ≡ least_entry T.number_of T.table self }
        ensures none { IsNone result ↔ (self ≡ 0) }
    {
        // most sets that are asked are empty
        if self.word == 0 {
            return None;
        }
        self.least_of(T::entries())
    }

    fn least_of(self, entries: &[T]) -> Option<T>
        ensures { result ≡ least_entry T.number_of entries.now self }
    {
        entries.iter().copied().find(|entry| self.has(*entry))
    }
}

impl SetOf<Sig> {
    /// The signals of this set that an lwp can hold: all but `SIGKILL` and `SIGSTOP` (sigprocmask(2)).
    #[tactic(auto, unfolding(crate::specs::Signals::holdable_word))]
    pub fn holdable(self) -> SigSet
        ensures { result ≡ holdable_word self }
    {
        self.without(Sig::Kill).without(Sig::Stop)
    }
}
