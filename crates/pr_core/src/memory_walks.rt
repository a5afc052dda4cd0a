//! The way of gcore through the memory: mapping by mapping, piece by piece.
ghost use Rattle.std.specs.Prelude.{◌≡◌, ◌+◌, ◌≤◌, length};
ghost use Rattle.pr_codec.specs.Words.{word_at};
ghost use Rattle.pr_core.specs.Gcores.{mapping_record, piece_of, walk_from, walk_at, walk_on};

use pr_codec::{WORD, word};

/// The most bytes of memory that are read at once.
const PIECE: u64 = 16_384;

/// How many bytes the record of a mapping has.
const MAPPING_RECORD: usize = 64;

/// Where gcore is on its way through the memory: in the mapping whose record begins at a byte of the record of all.
#[derive(Clone, Copy, Debug, PartialEq, Eq)]
pub struct MemoryWalk {
    /// The byte at which the mapping's record begins.
    pub at: usize,
    /// The address of the byte that is read next.
    pub address: u64,
    /// How many bytes of the mapping are left.
    pub left: u64,
}

/// The word at a place where one stands.
pub(crate) fn word_at(bytes: &[u8], at: usize) -> u64
    requires { at + 8 ≤ length bytes.now }
    ensures { result ≡ word_at bytes.now at }
{
    word(bytes, at).unwrap()
}

impl MemoryWalk {
    /// Before the first byte of the mapping whose record begins at a byte.
    fn from(maps: &[u8], at: usize) -> MemoryWalk
        requires { at + mapping_record ≤ length maps.now }
        ensures { result ≡ walk_from maps.now at }
    {
        MemoryWalk {
            at,
            address: word_at(maps, at),
            left: word_at(maps, at + WORD),
        }
    }

    /// The same, where a record begins there.
    #[tactic(auto, unfolding(crate::specs::Gcores::walk_at))]
    pub(crate) fn at(maps: &[u8], at: usize) -> Option<MemoryWalk>
        ensures { result ≡ walk_at maps.now at }
    {
        if maps.len() < MAPPING_RECORD || at > maps.len() - MAPPING_RECORD {
            return None;
        }
        Some(MemoryWalk::from(maps, at))
    }

    /// Before the first byte of the next mapping, where there is one.
    #[tactic(auto, unfolding(crate::specs::Gcores::walk_at))]
    pub(crate) fn behind(self, maps: &[u8]) -> Option<MemoryWalk>
        ensures { result ≡ walk_at maps.now (self.at + mapping_record) }
    {
        if maps.len() < MAPPING_RECORD || self.at > maps.len() - MAPPING_RECORD {
            return None;
        }
        MemoryWalk::at(maps, self.at + MAPPING_RECORD)
    }

    /// How many bytes the next piece has.
    pub(crate) fn piece(self) -> u64
        ensures { result ≡ piece_of self }
    {
        self.left.min(PIECE)
    }

    /// Behind a piece; `None` where that was the last of its mapping.
    #[tactic(auto, unfolding(crate::specs::Gcores::walk_on))]
    pub(crate) fn on(self) -> Option<MemoryWalk>
        ensures { result ≡ walk_on self }
    {
        let piece = self.piece();
        if piece >= self.left {
            return None;
        }
        Some(MemoryWalk {
            at: self.at,
            address: self.address.wrapping_add(piece),
            left: self.left - piece,
        })
    }
}
