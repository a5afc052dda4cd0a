//! The tables that say what each word of a record may hold, and the reading of a record by its table.
ghost use Rattle.std.specs.Prelude.{◌≡◌, ◌+◌, ◌*◌, ◌-◌, ◌≤◌, ◌<◌, ◌++◌, length, map, Ok, Err, IfErr, IfSome, OnOk};
ghost use Rattle.std.specs.Prelude.{◌==◌};
ghost use Rattle.std.specs.List.{All, list_any};
ghost use Rattle.pr_num.specs.Words.{IsWord, words_bytes};
ghost use Rattle.pr_num.specs.Errnos.{errnos, errno_number};
ghost use Rattle.pr_rec.specs.Columns.{range_of};
ghost use Rattle.pr_rec.specs.Fields.{front_words};
ghost use Rattle.pr_num.specs.Records.{first_out_of_range};
ghost use Rattle.pr_rec.specs.Reading.{record_read};

use crate::RecFault;
use pr_codec::{WORD, put_words, read_words};
use pr_num::Errno;
use pr_num::limits::{FAULT_COUNT, SIGNAL_COUNT, SYSCALL_COUNT};

/// What a word of a record may hold.
#[derive(Clone, Copy)]
pub(crate) enum Column {
    /// Any word.
    Any,
    /// A word below this one.
    Below(u64),
    /// 1 to this word.
    OneTo(u64),
    /// The number of an errno, or 0 for none.
    ErrnoOrNone,
}

impl Column {
    /// A process id or an lwp id.
    pub(crate) const ID: Column = Column::Below(1 << 32);

    /// A truth value.
    pub(crate) const TRUTH: Column = Column::Below(2);

    /// A signal's number, or 0 for none.
    pub(crate) const SIGNAL: Column = Column::Below(SIGNAL_COUNT as u64 + 1);

    /// A fault's number, or 0 for none.
    pub(crate) const FAULT: Column = Column::Below(FAULT_COUNT as u64 + 1);

    /// A system call's number, or 0 for none.
    pub(crate) const CALL: Column = Column::Below(SYSCALL_COUNT as u64 + 1);

    /// A stop reason's number, or 0 for none.
    pub(crate) const REASON: Column = Column::Below(8);

    /// The number of what an lwp is stopped for, or 0: of a signal, a fault or a call, of which signals are the most.
    pub(crate) const MATTER: Column = Column::SIGNAL;

    /// A set of signals.
    pub(crate) const SIGNALS: Column = Column::Below(1 << SIGNAL_COUNT);

    /// A set of faults.
    pub(crate) const FAULTS: Column = Column::Below(1 << FAULT_COUNT);

    /// A set of system calls.
    pub(crate) const CALLS: Column = Column::Below(1 << SYSCALL_COUNT);

    /// The flags of an lwp.
    pub(crate) const LWP_FLAGS: Column = Column::Below(64);

    /// The flags of a process.
    pub(crate) const PROCESS_FLAGS: Column = Column::Below(64);

    /// How a process disposes of a signal.
    pub(crate) const DISPOSITION: Column = Column::Below(3);

    /// Where a signal came from, or 0 for nowhere.
    pub(crate) const ORIGIN: Column = Column::Below(6);

    /// What a mapping allows.
    pub(crate) const PROTECTION: Column = Column::Below(8);

    /// What a mapping is for.
    pub(crate) const MAPPING_KIND: Column = Column::OneTo(5);

    /// Whether a word may stand here.
    fn fits(self, word: u64) -> bool
        ensures { result ≡ range_of self word }
    {
        match self {
            Column::Any => true,
            Column::Below(bound) => word < bound,
            Column::OneTo(most) => 1 <= word && word <= most,
            Column::ErrnoOrNone => word == 0 || is_errno(word),
        }
    }
}

fn is_errno(word: u64) -> bool
    ensures { result ≡ list_any (λ e. errno_number e == word) errnos }
{
    Errno::ALL.iter().any(|errno| errno.number() == word)
}

/// The place of the first word that does not fit its column.
fn first_out_of_range(columns: &[Column], words: &[u64]) -> Option<usize>
    requires { length columns.now ≡ length words.now }
    ensures value { result ≡ first_out_of_range (map range_of columns.now) words.now }
    ensures within { IfSome result (λ place. place < length words.now) }
{
    for (place, column) in columns.iter().enumerate() {
        if !column.fits(words[place]) {
            return Some(place);
        }
    }
    None
}

/// The words of bytes that are as many words as `words` has places.
pub(crate) fn fill(bytes: &[u8], words: &mut [u64])
    requires { length bytes.now ≡ 8 * length words.old }
    ensures { words.new ≡ front_words (length words.old) bytes.now }
{
    read_words(bytes, words);
}

/// Reads the words with which bytes begin, as many as the table has columns, and tests each by its column.
#[tactic(auto, unfolding(crate::specs::Reading::record_read))]
pub(crate) fn read_record(
    columns: &[Column],
    bytes: &[u8],
    words: &mut [u64],
) -> Result<(), RecFault>
    requires { length columns.now ≡ length words.old }
    ensures ok { OnOk result (record_read (map range_of columns.now) bytes.now ≡ Ok words.new) }
    ensures err { IfErr result (λ fault. record_read (map range_of columns.now) bytes.now ≡ Err fault) }
{
    let count = words.len();
    if bytes.len() / WORD < count {
        return Err(RecFault::Short);
    }
    fill(&bytes[..WORD * count], words);
    match first_out_of_range(columns, words) {
        None => Ok(()),
        Some(place) => Err(RecFault::BadField { at: WORD * place }),
    }
}

/// Writes the words of a record over all of `bytes`.
pub(crate) fn put_record(bytes: &mut [u8], words: &[u64])
    requires { length bytes.old ≡ 8 * length words.now }
    ensures bytes { bytes.new ≡ words_bytes words.now }
    ensures words { All IsWord words.now }
{
    put_words(bytes, words);
}

/// Writes the words of a record that has two parts.
pub(crate) fn put_two(bytes: &mut [u8], first: &[u64], second: &[u64])
    requires { length bytes.old ≡ 8 * length first.now + 8 * length second.now }
    ensures bytes { bytes.new ≡ words_bytes first.now ++ words_bytes second.now }
    ensures first { All IsWord first.now }
    ensures second { All IsWord second.now }
{
    let (front, back) = bytes.split_at_mut(WORD * first.len());
    put_record(front, first);
    put_record(back, second);
}
