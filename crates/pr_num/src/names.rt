ghost use Rattle.std.specs.Prelude.{◌≡◌, ◌≤◌, ◌<◌, ◌↔◌, ℕ, List, length, IsSome, IfSome};
ghost use Rattle.pr_num.specs.Limits.{name_limit};

use crate::limits::NAME_LIMIT;
use std::marker::Model;

/// A name of a program or a file: 1 to 31 bytes, kept in place, seen by contracts as the list of its bytes.
#[derive(Clone, Copy, Debug, PartialEq, Eq)]
pub struct Name {
    bytes: [u8; NAME_LIMIT],
    len: u8,
}

impl Model for Name {
    ghost use Rattle.std.specs.Prelude.{◌≡◌, ℕ, List, length, take};
    ghost use Rattle.pr_num.specs.Limits.{name_limit};
    ghost use Rattle.pr_num.specs.Padding.{padded, IsName, name_back};

    ghost Value = { List ℕ };

    ghost view = { λ a. take a.len a.bytes };

    ghost invariant = { λ a. IsName a.bytes a.len };

    ghost inverse = { λ bytes. record { bytes = padded name_limit bytes; len = length bytes } };

    ghost inverse_ok = { λ a h. name_back a.bytes a.len h (λ bytes len. record { bytes = bytes; len = len }) };
}

impl Name {
    /// The longest name, in bytes.
    pub const MAX: usize = NAME_LIMIT;

    /// The name of these bytes, `None` exactly where they are not 1 to 31. Takes no memory.
    pub fn from_slice(s: &[u8]) -> Option<Name>
        ensures named { IsSome result ↔ ((1 ≤ length s.now) × (length s.now ≤ name_limit)) }
        ensures bytes { IfSome result (λ name. name ≡ s.now) }
    {
        if s.len() == 0 || s.len() > Name::MAX {
            return None;
        }
        let mut bytes = [0; NAME_LIMIT];
        bytes[..s.len()].copy_from_slice(s);
        Some(Name {
            bytes,
            len: s.len() as u8,
        })
    }

    /// The bytes of the name, 1 to 31.
    pub fn as_slice(&self) -> &[u8]
        ensures bytes { result.now ≡ self.now }
        ensures length { (1 ≤ length result.now) × (length result.now ≤ name_limit) }
    {
        &self.bytes[..self.len as usize]
    }
}
