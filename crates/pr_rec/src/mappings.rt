ghost use Rattle.std.specs.Prelude.{◌≡◌, ◌↔◌, ◌<◌, ◌≤◌, ◌^◌, Ok, Err, IfOk, IfErr, slice_index};
ghost use Rattle.pr_num.specs.Records.{EncodesRecord, map_entry_ranges};
ghost use Rattle.pr_num.specs.Words.{words_bytes};
ghost use Rattle.pr_rec.specs.InRange.{IsNameField, IsMapEntry};
ghost use Rattle.pr_rec.specs.Reading.{BeginsWith, record_read};
ghost use Rattle.pr_rec.specs.RecordWords.{map_entry_words_of};
ghost use Rattle.pr_rec.specs.declared.mappings.MapEntry.{MapEntry as Decoded};

use crate::RecFault;
use crate::columns::{Column, put_record, read_record};
use crate::fields::{kind_of, name_of, name_words};
use pr_num::{MappingKind, Prot};

/// A mapping of an address space (proc(4), "map").
#[derive(Clone, Copy, Debug, PartialEq, Eq)]
pub struct MapEntry {
    /// The address of its first byte.
    pub at: u64,
    /// How many bytes it has.
    pub size: u64,
    /// What may be done with its bytes.
    pub prot: Prot,
    pub kind: MappingKind,
    /// The program's name for text and data, with zeros after it, and else zeros.
    pub name: [u8; 32],
}

/// What each word may hold.
const COLUMNS: [Column; 8] = [
    Column::Any,
    Column::Any,
    Column::PROTECTION,
    Column::MAPPING_KIND,
    Column::Any,
    Column::Any,
    Column::Any,
    Column::Any,
];

impl MapEntry {
    /// The bytes of the record. Takes no memory.
    pub fn encode(&self) -> [u8; 64]
        ensures bytes { result ≡ words_bytes (map_entry_words_of self.now) }
        ensures ranged { IsMapEntry self.now }
        ensures encoded { EncodesRecord map_entry_ranges result (map_entry_words_of self.now) }
    {
        let mut bytes = [0; 64];
        put_record(&mut bytes, &self.words());
        bytes
    }

    /// The record with which bytes begin: `Short` exactly where there are fewer than 64 bytes, and else `BadField`
    /// exactly where a word is out of its range. Takes no memory.
    pub fn decode(bytes: &[u8]) -> Result<MapEntry, RecFault>
        ensures ok { IfOk result (λ m. record_read map_entry_ranges bytes.now ≡ Ok (map_entry_words_of m)) }
        ensures err { IfErr result (λ fault. record_read map_entry_ranges bytes.now ≡ Err fault) }
        ensures encoded { (m : Decoded)
            → (result ≡ Ok m) ↔ (IsNameField m.name × BeginsWith map_entry_ranges bytes.now (map_entry_words_of m)) }
    {
        MapEntry::read(bytes)
    }

    fn read(bytes: &[u8]) -> Result<MapEntry, RecFault>
        ensures ok { IfOk result (λ m. record_read map_entry_ranges bytes.now ≡ Ok (map_entry_words_of m)) }
        ensures err { IfErr result (λ fault. record_read map_entry_ranges bytes.now ≡ Err fault) }
        ensures name { IfOk result (λ m. IsNameField m.name) }
    {
        let mut words = [0; 8];
        read_record(&COLUMNS, bytes, &mut words)?;
        Ok(MapEntry::from_words(&words))
    }

    pub(crate) fn words(&self) -> [u64; 8]
        ensures words { result ≡ map_entry_words_of self.now }
        ensures prot { self.now.prot < 8 }
        ensures name { IsNameField self.now.name }
    {
        let name = name_words(&self.name);
        [
            self.at,
            self.size,
            self.prot.word(),
            self.kind.number(),
            name[0],
            name[1],
            name[2],
            name[3],
        ]
    }

    fn from_words(words: &[u64; 8]) -> MapEntry
        requires prot { slice_index words.now 2 < 8 }
        requires from { 1 ≤ slice_index words.now 3 }
        requires to { slice_index words.now 3 ≤ 5 }
        ensures words { map_entry_words_of result ≡ words.now }
        ensures name { IsNameField result.name }
    {
        MapEntry {
            at: words[0],
            size: words[1],
            prot: Prot::of_word(words[2]),
            kind: kind_of(words[3]),
            name: name_of(&[words[4], words[5], words[6], words[7]]),
        }
    }
}
