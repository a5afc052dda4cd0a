ghost use Rattle.std.specs.Prelude.{◌+◌, ◌≡◌, ◌↔◌, ◌<◌, ◌^◌, Ok, Err, IfOk, IfErr};
ghost use Rattle.pr_num.specs.Limits.{signal_count};
ghost use Rattle.pr_num.specs.Records.{EncodesRecord, lwpstatus_ranges};
ghost use Rattle.pr_rec.specs.Fields.{disposition_of};
ghost use Rattle.pr_rec.specs.InRange.{HasArraySizes, HasLwpStatusFields, IsInfo, IsLwpStatus};
ghost use Rattle.pr_rec.specs.NoLwp.{no_lwp};
ghost use Rattle.pr_rec.specs.Reading.{BeginsWith, record_read};
ghost use Rattle.pr_rec.specs.RecordBytes.{lwpstatus_bytes};
ghost use Rattle.pr_rec.specs.RecordWords.{lwpstatus_words_of};
ghost use Rattle.pr_rec.specs.declared.lwps.LwpStatus.{LwpStatus as Decoded};

use crate::columns::{Column, put_record, read_record};
use crate::fields::{
    disposition_of, disposition_word, entry_of, errno_of, errno_word, reason_of, reason_word,
    what_of, word_of,
};
use crate::{LwpFlags, RecFault, What};
use pr_codec::WORD;
use pr_num::{Errno, Flt, Info, Sig, SigSet, StopReason, Sysno};

/// How a process disposes of a signal (sigaction(2)).
#[derive(Clone, Copy, Debug, PartialEq, Eq)]
pub enum Disposition {
    /// The signal has its default action.
    Default = 0,
    /// It is ignored.
    Ignored = 1,
    /// It is caught by a handler.
    Caught = 2,
}

impl Disposition {
    /// How a process disposes of a signal, of the word that sigaction(2) sets: 0 for the default, 1 for ignoring it,
    /// and else the address of a handler.
    pub fn of(word: u64) -> Disposition
        ensures { result ≡ disposition_of word }
    {
        match word {
            0 => Disposition::Default,
            1 => Disposition::Ignored,
            _ => Disposition::Caught,
        }
    }
}

/// The status of an lwp (proc(4), "lwpstatus").
#[derive(Clone, Copy, Debug, PartialEq, Eq)]
pub struct LwpStatus {
    pub flags: LwpFlags,
    pub id: u32,
    /// Why it is stopped, if it is.
    pub why: Option<StopReason>,
    pub what: What,
    /// The current signal.
    pub signal: Option<Sig>,
    /// The current fault.
    pub fault: Option<Flt>,
    /// The address of the current fault, else 0.
    pub fault_address: u64,
    /// The system call that it is in.
    pub call: Option<Sysno>,
    /// The arguments of that call.
    pub arguments: [u64; 6],
    /// What the call gave, 0 where it failed or has not ended.
    pub result: u64,
    /// Why the call failed.
    pub errno: Option<Errno>,
    /// The signals that it holds.
    pub held: SigSet,
    /// The signals sent to it that it has not taken yet.
    pub pending: SigSet,
    /// The registers r0 to r7, sp, fp and pc.
    pub regs: [u64; 11],
    /// How the process disposes of the current signal; the default where there is none.
    pub disposition: Disposition,
    /// Where the current signal came from (siginfo.h(3HEAD)); zeros where there is none.
    pub info: Info,
}

/// What each word may hold.
pub(crate) const COLUMNS: [Column; LwpStatus::WORDS] = [
    Column::LWP_FLAGS,
    Column::ID,
    Column::REASON,
    Column::MATTER,
    Column::SIGNAL,
    Column::FAULT,
    Column::Any,
    Column::CALL,
    Column::Any,
    Column::Any,
    Column::Any,
    Column::Any,
    Column::Any,
    Column::Any,
    Column::Any,
    Column::ErrnoOrNone,
    Column::SIGNALS,
    Column::SIGNALS,
    Column::Any,
    Column::Any,
    Column::Any,
    Column::Any,
    Column::Any,
    Column::Any,
    Column::Any,
    Column::Any,
    Column::Any,
    Column::Any,
    Column::Any,
    Column::DISPOSITION,
    Column::ORIGIN,
    Column::ID,
    Column::Any,
];

impl LwpStatus {
    /// How many words the record has.
    pub(crate) const WORDS: usize = 33;

    /// How many bytes the record has.
    pub const SIZE: usize = WORD * LwpStatus::WORDS;

    /// What stands in the status of a process without lwps: zeros alone.
    #[tactic(auto, unfolding(crate::specs::NoLwp::no_lwp))]
    pub fn none() -> LwpStatus
        ensures { result ≡ no_lwp }
    {
        LwpStatus {
            flags: LwpFlags::empty(),
            id: 0,
            why: None,
            what: What::NONE,
            signal: None,
            fault: None,
            fault_address: 0,
            call: None,
            arguments: [0; 6],
            result: 0,
            errno: None,
            held: SigSet::empty(),
            pending: SigSet::empty(),
            regs: [0; 11],
            disposition: Disposition::Default,
            info: Info {
                code: 0,
                pid: 0,
                value: 0,
            },
        }
    }

    /// The bytes of the record. Its fields are in their ranges, save for the information of a signal, which may have
    /// any words: where it has a code and a process id, the bytes encode the record. Takes no memory.
    #[tactic(auto, unfolding(crate::specs::RecordBytes::lwpstatus_bytes))]
    pub fn encode(&self) -> [u8; LwpStatus::SIZE]
        ensures bytes { result ≡ lwpstatus_bytes self.now }
        ensures ranged { IsInfo self.now.info → IsLwpStatus self.now }
        ensures encoded { IsInfo self.now.info → EncodesRecord lwpstatus_ranges result (lwpstatus_words_of self.now) }
    {
        let mut bytes = [0; LwpStatus::SIZE];
        put_record(&mut bytes, &self.words());
        bytes
    }

    /// The record with which bytes begin: `Short` exactly where there are fewer bytes than `SIZE`, and else `BadField`
    /// exactly where a word is out of its range. Takes no memory.
    pub fn decode(bytes: &[u8]) -> Result<LwpStatus, RecFault>
        ensures ok { IfOk result (λ l. record_read lwpstatus_ranges bytes.now ≡ Ok (lwpstatus_words_of l)) }
        ensures err { IfErr result (λ fault. record_read lwpstatus_ranges bytes.now ≡ Err fault) }
        ensures encoded { (l : Decoded)
            → (result ≡ Ok l) ↔ (HasArraySizes l × BeginsWith lwpstatus_ranges bytes.now (lwpstatus_words_of l)) }
    {
        LwpStatus::read(bytes)
    }

    fn read(bytes: &[u8]) -> Result<LwpStatus, RecFault>
        ensures ok { IfOk result (λ l. record_read lwpstatus_ranges bytes.now ≡ Ok (lwpstatus_words_of l)) }
        ensures err { IfErr result (λ fault. record_read lwpstatus_ranges bytes.now ≡ Err fault) }
        ensures sizes { IfOk result HasArraySizes }
    {
        let mut words = [0; LwpStatus::WORDS];
        read_record(&COLUMNS, bytes, &mut words)?;
        Ok(LwpStatus::from_words(&words))
    }

    pub(crate) fn words(&self) -> [u64; LwpStatus::WORDS]
        ensures words { result ≡ lwpstatus_words_of self.now }
        ensures flags { self.now.flags < 2 ^ 6 }
        ensures id { self.now.id < 2 ^ 32 }
        ensures what { self.now.what < signal_count + 1 }
        ensures held { self.now.held < 2 ^ signal_count }
        ensures pending { self.now.pending < 2 ^ signal_count }
        ensures sizes { HasArraySizes self.now }
    {
        let arguments = &self.arguments;
        let regs = &self.regs;
        [
            self.flags.word(),
            u64::from(self.id),
            reason_word(self.why),
            self.what.number(),
            word_of(self.signal),
            word_of(self.fault),
            self.fault_address,
            word_of(self.call),
            arguments[0],
            arguments[1],
            arguments[2],
            arguments[3],
            arguments[4],
            arguments[5],
            self.result,
            errno_word(self.errno),
            self.held.word(),
            self.pending.word(),
            regs[0],
            regs[1],
            regs[2],
            regs[3],
            regs[4],
            regs[5],
            regs[6],
            regs[7],
            regs[8],
            regs[9],
            regs[10],
            disposition_word(self.disposition),
            self.info.code,
            self.info.pid,
            self.info.value,
        ]
    }

    pub(crate) fn from_words(words: &[u64]) -> LwpStatus
        requires { HasLwpStatusFields words.now }
        ensures words { lwpstatus_words_of result ≡ words.now }
        ensures sizes { HasArraySizes result }
    {
        LwpStatus {
            flags: LwpFlags::of_word(words[0]),
            id: words[1] as u32,
            why: reason_of(words[2]),
            what: what_of(words[3]),
            signal: entry_of(words[4]),
            fault: entry_of(words[5]),
            fault_address: words[6],
            call: entry_of(words[7]),
            arguments: [
                words[8], words[9], words[10], words[11], words[12], words[13],
            ],
            result: words[14],
            errno: errno_of(words[15]),
            held: SigSet::of_word(words[16]),
            pending: SigSet::of_word(words[17]),
            regs: [
                words[18], words[19], words[20], words[21], words[22], words[23], words[24],
                words[25], words[26], words[27], words[28],
            ],
            disposition: disposition_of(words[29]),
            info: Info {
                code: words[30],
                pid: words[31],
                value: words[32],
            },
        }
    }
}
