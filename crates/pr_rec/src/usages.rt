ghost use Rattle.std.specs.Prelude.{◌≡◌, ◌↔◌, ◌<◌, ◌^◌, Ok, Err, IfOk, IfErr, slice_index};
ghost use Rattle.pr_num.specs.Records.{EncodesRecord, usage_ranges};
ghost use Rattle.pr_rec.specs.InRange.{IsUsage};
ghost use Rattle.pr_rec.specs.Reading.{BeginsWith, record_read};
ghost use Rattle.pr_rec.specs.RecordBytes.{usage_bytes};
ghost use Rattle.pr_rec.specs.RecordWords.{usage_words_of};
ghost use Rattle.pr_rec.specs.declared.usages.Usage.{Usage as Decoded};

use crate::RecFault;
use crate::columns::{Column, put_record, read_record};

/// What a process has used, counted from its making (proc(4), "usage").
#[derive(Clone, Copy, Debug, PartialEq, Eq)]
pub struct Usage {
    /// The process's id.
    pub id: u32,
    /// System calls ended.
    pub calls: u64,
    /// Signals taken.
    pub signals: u64,
    /// Faults incurred.
    pub faults: u64,
    /// Instructions begun.
    pub instructions: u64,
}

/// What each word may hold.
const COLUMNS: [Column; 5] = [
    Column::ID,
    Column::Any,
    Column::Any,
    Column::Any,
    Column::Any,
];

impl Usage {
    /// The bytes of the record. Takes no memory.
    #[tactic(auto, unfolding(crate::specs::RecordBytes::usage_bytes))]
    pub fn encode(&self) -> [u8; 40]
        ensures bytes { result ≡ usage_bytes self.now }
        ensures ranged { IsUsage self.now }
        ensures encoded { EncodesRecord usage_ranges result (usage_words_of self.now) }
    {
        let mut bytes = [0; 40];
        put_record(&mut bytes, &self.words());
        bytes
    }

    /// The record with which bytes begin: `Short` exactly where there are fewer than 40 bytes, and else `BadField`
    /// exactly where a word is out of its range. Takes no memory.
    pub fn decode(bytes: &[u8]) -> Result<Usage, RecFault>
        ensures ok { IfOk result (λ u. record_read usage_ranges bytes.now ≡ Ok (usage_words_of u)) }
        ensures err { IfErr result (λ fault. record_read usage_ranges bytes.now ≡ Err fault) }
        ensures encoded { (u : Decoded) → (result ≡ Ok u) ↔ BeginsWith usage_ranges bytes.now (usage_words_of u) }
    {
        Usage::read(bytes)
    }

    fn read(bytes: &[u8]) -> Result<Usage, RecFault>
        ensures ok { IfOk result (λ u. record_read usage_ranges bytes.now ≡ Ok (usage_words_of u)) }
        ensures err { IfErr result (λ fault. record_read usage_ranges bytes.now ≡ Err fault) }
    {
        let mut words = [0; 5];
        read_record(&COLUMNS, bytes, &mut words)?;
        Ok(Usage::from_words(&words))
    }

    fn words(&self) -> [u64; 5]
        ensures words { result ≡ usage_words_of self.now }
        ensures id { self.now.id < 2 ^ 32 }
    {
        [
            u64::from(self.id),
            self.calls,
            self.signals,
            self.faults,
            self.instructions,
        ]
    }

    fn from_words(words: &[u64; 5]) -> Usage
        requires { slice_index words.now 0 < 2 ^ 32 }
        ensures { usage_words_of result ≡ words.now }
    {
        Usage {
            id: words[0] as u32,
            calls: words[1],
            signals: words[2],
            faults: words[3],
            instructions: words[4],
        }
    }
}
