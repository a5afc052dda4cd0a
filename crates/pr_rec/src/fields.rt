//! Fields of records that are more than a number, as words and back.
ghost use Rattle.std.specs.Prelude.{◌+◌, ◌≡◌, ◌<◌, ◌≤◌, ◌^◌, length, IsTrue};
ghost use Rattle.std.specs.List.{All};
ghost use Rattle.pr_num.specs.Limits.{signal_count, syscall_count, fault_count};
ghost use Rattle.pr_num.specs.Words.{IsByte};
ghost use Rattle.pr_num.specs.Records.{an_errno};
ghost use Rattle.pr_num.specs.Errnos.{errno_number};
ghost use Rattle.pr_num.specs.StopReasons.{reason_number};
ghost use Rattle.pr_num.specs.Spaces.{kind_number};
ghost use Rattle.pr_rec.specs.InRange.{IsNameField};
ghost use Rattle.pr_rec.specs.Fields.{number_or_zero, truth_word, front_words, disposition_number};

use crate::columns::fill;
use crate::{Disposition, What};
use pr_codec::put_words;
use pr_num::{Errno, MappingKind, Numbered, StopReason};

/// The number of the entry of a table, 0 for none.
pub(crate) fn word_of<T: Numbered>(entry: Option<T>) -> u64
    ensures { result ≡ number_or_zero T.number_of entry }
{
    entry.map_or(0, |entry| entry.number())
}

/// The entry of a number, none for 0.
pub(crate) fn entry_of<T: Numbered>(word: u64) -> Option<T>
    requires { word < T.COUNT + 1 }
    ensures { number_or_zero T.number_of result ≡ word }
{
    // the call tells that their numbers count up
    let _ = T::entries();
    T::from_number(word)
}

pub(crate) fn reason_word(reason: Option<StopReason>) -> u64
    ensures { result ≡ number_or_zero reason_number reason }
{
    reason.map_or(0, StopReason::number)
}

#[tactic(auto, using(crate::proofs::FieldLemmas::numbers_back))]
pub(crate) fn reason_of(word: u64) -> Option<StopReason>
    requires { word < 8 }
    ensures { number_or_zero reason_number result ≡ word }
{
    StopReason::from_number(word)
}

pub(crate) fn errno_word(errno: Option<Errno>) -> u64
    ensures { result ≡ number_or_zero errno_number errno }
{
    errno.map_or(0, Errno::number)
}

#[tactic(auto, using(crate::proofs::FieldLemmas::numbers_back))]
pub(crate) fn errno_of(word: u64) -> Option<Errno>
    requires { IsTrue (an_errno word) }
    ensures { number_or_zero errno_number result ≡ word }
{
    Errno::from_number(word)
}

pub(crate) fn what_of(word: u64) -> What
    requires { word < signal_count + 1 }
    ensures { result ≡ word }
{
    let Some(what) = What::from_number(word) else {
        unreachable!()
    };
    what
}

pub(crate) fn truth_of(word: u64) -> bool
    requires { word < 2 }
    ensures { truth_word result ≡ word }
{
    word == 1
}

#[tactic(auto, unfolding(pr_num::specs::Spaces::kind_number))]
pub(crate) fn kind_of(word: u64) -> MappingKind
    requires from { 1 ≤ word }
    requires to { word ≤ 5 }
    ensures { kind_number result ≡ word }
{
    let Some(kind) = MappingKind::from_number(word) else {
        unreachable!()
    };
    kind
}

pub(crate) fn disposition_word(disposition: Disposition) -> u64
    ensures { result ≡ disposition_number disposition }
{
    disposition as u64
}

#[tactic(auto, using(crate::proofs::FieldLemmas::numbers_back))]
pub(crate) fn disposition_of(word: u64) -> Disposition
    requires { word < 3 }
    ensures { disposition_number result ≡ word }
{
    Disposition::of(word)
}

/// The words of a name and the zeros after it.
pub(crate) fn name_words(name: &[u8; 32]) -> [u64; 4]
    ensures words { result ≡ front_words 4 name.now }
    ensures name { IsNameField name.now }
{
    let mut words = [0; 4];
    fill(name, &mut words);
    words
}

pub(crate) fn name_of(words: &[u64]) -> [u8; 32]
    requires { length words.now ≡ 4 }
    ensures words { front_words 4 result ≡ words.now }
    ensures name { IsNameField result }
{
    let mut name = [0; 32];
    put_words(&mut name, words);
    name
}
