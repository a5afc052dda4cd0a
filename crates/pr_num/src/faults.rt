ghost use Rattle.std.specs.Prelude.{◌≡◌, ◌≤◌};
ghost use Rattle.std.proofs.Common.{lit≤};
ghost use Rattle.pr_num.specs.Faults.{faults, fault_of_number, fault_of_name, fault_number, fault_name, fault_signal};
ghost use Rattle.pr_num.specs.Limits.{fault_count};

use crate::limits::FAULT_COUNT;
use crate::numbered::Numbered;
use crate::signals::Sig;
use crate::tables;

/// A machine fault (proc(4), "PCSFAULT"), with numbers of this project's own.
#[derive(Clone, Copy, Debug, PartialEq, Eq)]
pub enum Flt {
    /// An illegal instruction.
    Ill = 1,
    /// A breakpoint instruction.
    Bpt = 2,
    /// The trap after a single step.
    Trace = 3,
    /// A watched area was accessed.
    Watch = 4,
    /// A mapped byte lacks the protection that the access needs.
    Access = 5,
    /// An unmapped byte was accessed.
    Bounds = 6,
    /// The stack is not mapped, or lacks the protection.
    Stack = 7,
    /// An integer was divided by zero.
    Izdiv = 8,
}

impl Flt {
    /// Every fault, in the order of its number.
    pub const ALL: [Flt; FAULT_COUNT] = [
        Flt::Ill,
        Flt::Bpt,
        Flt::Trace,
        Flt::Watch,
        Flt::Access,
        Flt::Bounds,
        Flt::Stack,
        Flt::Izdiv,
    ];

    /// The fault of a number, `None` exactly where it is not 1 to 8.
    #[tactic(auto, unfolding(crate::specs::Faults::fault_of_number))]
    pub fn from_number(n: u64) -> Option<Flt>
        ensures { result ≡ fault_of_number n }
    {
        tables::entry_at(&Flt::ALL, n)
    }

    /// The fault's number, 1 to 8.
    #[tactic(auto, unfolding(crate::specs::Faults::fault_number))]
    pub fn number(self) -> u64
        ensures value { result ≡ fault_number self }
        ensures range { (1 ≤ result) × (result ≤ fault_count) }
    {
        self as u64
    }

    /// The fault of a name, which is whole: `b"FLTILL"`, and not `b"ILL"`; `None` exactly where no fault has that
    /// name.
    #[tactic(auto, unfolding(crate::specs::Faults::fault_of_name))]
    pub fn from_name(name: &[u8]) -> Option<Flt>
        ensures { result ≡ fault_of_name name.now }
    {
        Flt::ALL
            .iter()
            .copied()
            .find(|f| name == f.name().as_bytes())
    }

    /// The fault's name, as `"FLTILL"`.
    #[tactic(auto, unfolding(crate::specs::Faults::fault_name))]
    pub fn name(self) -> &'static str
        ensures { result.now ≡ fault_name self }
    {
        match self {
            Flt::Ill => "FLTILL",
            Flt::Bpt => "FLTBPT",
            Flt::Trace => "FLTTRACE",
            Flt::Watch => "FLTWATCH",
            Flt::Access => "FLTACCESS",
            Flt::Bounds => "FLTBOUNDS",
            Flt::Stack => "FLTSTACK",
            Flt::Izdiv => "FLTIZDIV",
        }
    }

    /// The signal that the fault sends where it is not traced.
    #[tactic(auto, unfolding(crate::specs::Faults::fault_signal))]
    pub fn signal(self) -> Sig
        ensures { result ≡ fault_signal self }
    {
        match self {
            Flt::Ill => Sig::Ill,
            Flt::Bpt | Flt::Trace | Flt::Watch => Sig::Trap,
            Flt::Access => Sig::Bus,
            Flt::Bounds | Flt::Stack => Sig::Segv,
            Flt::Izdiv => Sig::Fpe,
        }
    }
}

impl Numbered for Flt {
    const COUNT: usize = FAULT_COUNT;

    ghost COUNT = { fault_count };

    ghost table = { faults };

    ghost number_of = { fault_number };

    ghost of_number = { fault_of_number };

    ghost of_name = { fault_of_name };

    #[tactic(auto, using(crate::proofs::NumberedLemmas::tables_counted))]
    fn entries<'a>() -> &'a [Flt] {
        &Flt::ALL
    }

    fn number(self) -> u64 {
        Flt::number(self)
    }

    #[tactic(auto, unfolding(crate::specs::Faults::fault_of_number))]
    fn from_number(n: u64) -> Option<Flt> {
        Flt::from_number(n)
    }

    fn from_name(name: &[u8]) -> Option<Flt> {
        Flt::from_name(name)
    }

    ghost fits = { lit≤ tt };
}
