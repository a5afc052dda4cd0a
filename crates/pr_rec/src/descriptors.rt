ghost use Rattle.std.specs.Prelude.{◌≡◌, ◌<◌, Some, None, nat_lt, if◌then◌else◌};
ghost use Rattle.pr_num.specs.Limits.{descriptor_limit};

use pr_num::limits::DESCRIPTOR_LIMIT;
use std::marker::Model;

/// The number of an open descriptor, below 64. Seen by contracts as that number.
#[derive(Clone, Copy, Debug, PartialEq, Eq)]
pub struct Descriptor {
    number: u32,
}

impl Model for Descriptor {
    ghost use Rattle.std.specs.Prelude.{ℕ, ◌<◌};
    ghost use Rattle.pr_num.specs.Limits.{descriptor_limit};

    ghost Value = { ℕ };

    ghost view = { λ descriptor. descriptor.number };

    ghost invariant = { λ descriptor. descriptor.number < descriptor_limit };

    ghost inverse = { λ number. record { number = number } };
}

impl Descriptor {
    /// How many descriptors a process can have open.
    pub const PLACES: u32 = DESCRIPTOR_LIMIT as u32;

    /// The descriptor of a number, `None` exactly where no descriptor can have it.
    pub fn from_number(number: u32) -> Option<Descriptor>
        ensures { result ≡ (if nat_lt number descriptor_limit then Some number else None) }
    {
        if number < Descriptor::PLACES {
            Some(Descriptor { number })
        } else {
            None
        }
    }

    /// The descriptor at a place of a process's table of them.
    pub fn at(place: usize) -> Descriptor
        requires { place < descriptor_limit }
        ensures { result ≡ place }
    {
        Descriptor {
            number: place as u32,
        }
    }

    /// The number of the descriptor, as a program knows it.
    pub fn number(self) -> u32
        ensures value { result ≡ self }
        ensures range { result < descriptor_limit }
    {
        self.number
    }
}
