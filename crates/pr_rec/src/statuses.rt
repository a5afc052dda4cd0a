ghost use Rattle.std.specs.Prelude.{◌≡◌, ◌↔◌, ◌<◌, ◌^◌, Ok, Err, IfOk, IfErr, drop, length, map, slice_index};
ghost use Rattle.pr_num.specs.Limits.{signal_count, syscall_count, fault_count};
ghost use Rattle.pr_rec.specs.Columns.{range_of};
ghost use Rattle.pr_num.specs.Records.{EncodesRecord, status_ranges};
ghost use Rattle.pr_rec.specs.InRange.{HasArraySizes, HasLwpStatusFields, IsInfo, IsStatus};
ghost use Rattle.pr_rec.specs.Reading.{BeginsWith, record_read};
ghost use Rattle.pr_rec.specs.RecordBytes.{status_bytes};
ghost use Rattle.pr_rec.specs.RecordWords.{status_words_of, own_words_of};
ghost use Rattle.pr_rec.specs.declared.statuses.Status.{Status as Decoded};

use crate::columns::{Column, put_two, read_record};
use crate::{LwpStatus, ProcessFlags, RecFault, lwps};
use pr_num::{FltSet, SigSet, SysSet};

/// The status of a process and of its representative lwp (proc(4), "status").
#[derive(Clone, Copy, Debug, PartialEq, Eq)]
pub struct Status {
    pub flags: ProcessFlags,
    pub id: u32,
    /// The parent's id, 0 where it has none.
    pub parent: u32,
    /// How many lwps it has.
    pub lwps: u64,
    /// The signals sent to the process that no lwp has taken yet.
    pub pending: SigSet,
    pub traced_signals: SigSet,
    pub traced_faults: FltSet,
    /// The system calls that are traced at their entry.
    pub traced_entries: SysSet,
    /// The system calls that are traced at their exit.
    pub traced_exits: SysSet,
    /// The address of the heap's first byte.
    pub heap_base: u64,
    /// How many bytes the heap has.
    pub heap_size: u64,
    /// The agent's lwp id, 0 where there is none.
    pub agent: u32,
    /// How many watched areas it has.
    pub areas: u64,
    /// The representative lwp; where the process has no lwp, `LwpStatus::none()`.
    pub lwp: LwpStatus,
}

/// What each word of the process itself may hold.
const OWN_COLUMNS: [Column; 13] = [
    Column::PROCESS_FLAGS,
    Column::ID,
    Column::ID,
    Column::Any,
    Column::SIGNALS,
    Column::SIGNALS,
    Column::FAULTS,
    Column::CALLS,
    Column::CALLS,
    Column::Any,
    Column::Any,
    Column::ID,
    Column::Any,
];

/// What each word may hold: those of the process, and then those of its representative lwp.
fn columns() -> [Column; 46]
    ensures { map range_of result ≡ status_ranges }
{
    let mut columns = [Column::Any; 46];
    columns[..13].copy_from_slice(&OWN_COLUMNS);
    columns[13..].copy_from_slice(&lwps::COLUMNS);
    columns
}

impl Status {
    /// The bytes of the record. Its fields are in their ranges, save for the information of the representative's
    /// signal, which may have any words: where it has a code and a process id, the bytes encode the record. Takes no
    /// memory.
    #[tactic(auto, unfolding(crate::specs::RecordBytes::status_bytes))]
    pub fn encode(&self) -> [u8; 368]
        ensures bytes { result ≡ status_bytes self.now }
        ensures ranged { IsInfo self.now.lwp.info → IsStatus self.now }
        ensures encoded { IsInfo self.now.lwp.info → EncodesRecord status_ranges result (status_words_of self.now) }
    {
        let mut bytes = [0; 368];
        put_two(&mut bytes, &self.own_words(), &self.lwp.words());
        bytes
    }

    /// The record with which bytes begin: `Short` exactly where there are fewer than 368 bytes, and else `BadField`
    /// exactly where a word is out of its range. Takes no memory.
    pub fn decode(bytes: &[u8]) -> Result<Status, RecFault>
        ensures ok { IfOk result (λ s. record_read status_ranges bytes.now ≡ Ok (status_words_of s)) }
        ensures err { IfErr result (λ fault. record_read status_ranges bytes.now ≡ Err fault) }
        ensures encoded { (s : Decoded)
            → (result ≡ Ok s) ↔ (HasArraySizes s.lwp × BeginsWith status_ranges bytes.now (status_words_of s)) }
    {
        Status::read(bytes)
    }

    fn read(bytes: &[u8]) -> Result<Status, RecFault>
        ensures ok { IfOk result (λ s. record_read status_ranges bytes.now ≡ Ok (status_words_of s)) }
        ensures err { IfErr result (λ fault. record_read status_ranges bytes.now ≡ Err fault) }
        ensures sizes { IfOk result (λ s. HasArraySizes s.lwp) }
    {
        let mut words = [0; 46];
        read_record(&columns(), bytes, &mut words)?;
        Ok(Status::from_words(&words))
    }

    /// The words of the process itself.
    fn own_words(&self) -> [u64; 13]
        ensures words { result ≡ own_words_of self.now }
        ensures flags { self.now.flags < 2 ^ 6 }
        ensures id { self.now.id < 2 ^ 32 }
        ensures parent { self.now.parent < 2 ^ 32 }
        ensures pending { self.now.pending < 2 ^ signal_count }
        ensures signals { self.now.traced_signals < 2 ^ signal_count }
        ensures faults { self.now.traced_faults < 2 ^ fault_count }
        ensures entries { self.now.traced_entries < 2 ^ syscall_count }
        ensures exits { self.now.traced_exits < 2 ^ syscall_count }
        ensures agent { self.now.agent < 2 ^ 32 }
    {
        [
            self.flags.word(),
            u64::from(self.id),
            u64::from(self.parent),
            self.lwps,
            self.pending.word(),
            self.traced_signals.word(),
            self.traced_faults.word(),
            self.traced_entries.word(),
            self.traced_exits.word(),
            self.heap_base,
            self.heap_size,
            u64::from(self.agent),
            self.areas,
        ]
    }

    fn from_words(words: &[u64]) -> Status
        requires size { length words.now ≡ 46 }
        requires flags { slice_index words.now 0 < 2 ^ 6 }
        requires id { slice_index words.now 1 < 2 ^ 32 }
        requires parent { slice_index words.now 2 < 2 ^ 32 }
        requires pending { slice_index words.now 4 < 2 ^ signal_count }
        requires signals { slice_index words.now 5 < 2 ^ signal_count }
        requires faults { slice_index words.now 6 < 2 ^ fault_count }
        requires entries { slice_index words.now 7 < 2 ^ syscall_count }
        requires exits { slice_index words.now 8 < 2 ^ syscall_count }
        requires agent { slice_index words.now 11 < 2 ^ 32 }
        requires lwp { HasLwpStatusFields (drop 13 words.now) }
        ensures words { status_words_of result ≡ words.now }
        ensures sizes { HasArraySizes result.lwp }
    {
        Status {
            flags: ProcessFlags::of_word(words[0]),
            id: words[1] as u32,
            parent: words[2] as u32,
            lwps: words[3],
            pending: SigSet::of_word(words[4]),
            traced_signals: SigSet::of_word(words[5]),
            traced_faults: FltSet::of_word(words[6]),
            traced_entries: SysSet::of_word(words[7]),
            traced_exits: SysSet::of_word(words[8]),
            heap_base: words[9],
            heap_size: words[10],
            agent: words[11] as u32,
            areas: words[12],
            lwp: LwpStatus::from_words(&words[13..]),
        }
    }
}
