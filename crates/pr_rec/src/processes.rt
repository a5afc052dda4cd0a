ghost use Rattle.std.specs.Prelude.{◌+◌, ◌≡◌, ◌↔◌, ◌<◌, ◌^◌, Ok, Err, IfOk, IfErr, slice_index};
ghost use Rattle.pr_num.specs.Limits.{signal_count};
ghost use Rattle.pr_num.specs.Records.{EncodesRecord, psinfo_ranges};
ghost use Rattle.pr_rec.specs.InRange.{IsNameField, IsPsinfo};
ghost use Rattle.pr_rec.specs.Reading.{BeginsWith, record_read};
ghost use Rattle.pr_rec.specs.RecordBytes.{psinfo_bytes};
ghost use Rattle.pr_rec.specs.RecordWords.{psinfo_words_of};
ghost use Rattle.pr_rec.specs.declared.processes.Psinfo.{Psinfo as Decoded};

use crate::RecFault;
use crate::columns::{Column, put_record, read_record};
use crate::fields::{entry_of, name_of, name_words, truth_of, word_of};
use pr_num::Sig;

/// What ps(1) shows of a process (proc(4), "psinfo").
#[derive(Clone, Copy, Debug, PartialEq, Eq)]
pub struct Psinfo {
    pub id: u32,
    /// The parent's id, 0 where it has none.
    pub parent: u32,
    /// How many lwps it has.
    pub lwps: u64,
    /// Whether it has ended and was not reaped.
    pub zombie: bool,
    /// The wait status of a zombie (wait.h(3HEAD)), else 0.
    pub wait_status: u64,
    /// How many bytes are mapped.
    pub mapped: u64,
    /// The clock at its making, in milliseconds.
    pub made_at: u64,
    /// The signal that stopped it by job control.
    pub job_stop: Option<Sig>,
    /// The name of its program, with zeros after it.
    pub program: [u8; 32],
}

/// What each word may hold.
const COLUMNS: [Column; 12] = [
    Column::ID,
    Column::ID,
    Column::Any,
    Column::TRUTH,
    Column::Any,
    Column::Any,
    Column::Any,
    Column::SIGNAL,
    Column::Any,
    Column::Any,
    Column::Any,
    Column::Any,
];

impl Psinfo {
    /// The bytes of the record. Takes no memory.
    #[tactic(auto, unfolding(crate::specs::RecordBytes::psinfo_bytes))]
    pub fn encode(&self) -> [u8; 96]
        ensures bytes { result ≡ psinfo_bytes self.now }
        ensures ranged { IsPsinfo self.now }
        ensures encoded { EncodesRecord psinfo_ranges result (psinfo_words_of self.now) }
    {
        let mut bytes = [0; 96];
        put_record(&mut bytes, &self.words());
        bytes
    }

    /// The record with which bytes begin: `Short` exactly where there are fewer than 96 bytes, and else `BadField`
    /// exactly where a word is out of its range. Takes no memory.
    pub fn decode(bytes: &[u8]) -> Result<Psinfo, RecFault>
        ensures ok { IfOk result (λ p. record_read psinfo_ranges bytes.now ≡ Ok (psinfo_words_of p)) }
        ensures err { IfErr result (λ fault. record_read psinfo_ranges bytes.now ≡ Err fault) }
        ensures encoded { (p : Decoded)
            → (result ≡ Ok p) ↔ (IsNameField p.program × BeginsWith psinfo_ranges bytes.now (psinfo_words_of p)) }
    {
        Psinfo::read(bytes)
    }

    fn read(bytes: &[u8]) -> Result<Psinfo, RecFault>
        ensures ok { IfOk result (λ p. record_read psinfo_ranges bytes.now ≡ Ok (psinfo_words_of p)) }
        ensures err { IfErr result (λ fault. record_read psinfo_ranges bytes.now ≡ Err fault) }
        ensures name { IfOk result (λ p. IsNameField p.program) }
    {
        let mut words = [0; 12];
        read_record(&COLUMNS, bytes, &mut words)?;
        Ok(Psinfo::from_words(&words))
    }

    fn words(&self) -> [u64; 12]
        ensures words { result ≡ psinfo_words_of self.now }
        ensures id { self.now.id < 2 ^ 32 }
        ensures parent { self.now.parent < 2 ^ 32 }
        ensures name { IsNameField self.now.program }
    {
        let program = name_words(&self.program);
        [
            u64::from(self.id),
            u64::from(self.parent),
            self.lwps,
            u64::from(self.zombie),
            self.wait_status,
            self.mapped,
            self.made_at,
            word_of(self.job_stop),
            program[0],
            program[1],
            program[2],
            program[3],
        ]
    }

    fn from_words(words: &[u64; 12]) -> Psinfo
        requires id { slice_index words.now 0 < 2 ^ 32 }
        requires parent { slice_index words.now 1 < 2 ^ 32 }
        requires zombie { slice_index words.now 3 < 2 }
        requires job_stop { slice_index words.now 7 < signal_count + 1 }
        ensures words { psinfo_words_of result ≡ words.now }
        ensures name { IsNameField result.program }
    {
        Psinfo {
            id: words[0] as u32,
            parent: words[1] as u32,
            lwps: words[2],
            zombie: truth_of(words[3]),
            wait_status: words[4],
            mapped: words[5],
            made_at: words[6],
            job_stop: entry_of(words[7]),
            program: name_of(&[words[8], words[9], words[10], words[11]]),
        }
    }
}
