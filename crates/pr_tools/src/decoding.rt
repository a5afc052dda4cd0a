//! The records of a descriptor and of a process in a list, read.
ghost use Rattle.std.specs.Prelude.{◌≡◌, ◌*◌, ◌<◌, ◌≤◌, length, option_map, slice_index};
ghost use Rattle.std.specs.Result.{result_ok};
ghost use Rattle.pr_num.specs.Limits.{descriptor_limit};
ghost use Rattle.pr_num.specs.Records.{fd_entry_ranges, list_entry_ranges};
ghost use Rattle.pr_num.specs.Files.{fd_kind_number, access_number};
ghost use Rattle.pr_rec.specs.Fields.{front_words};
ghost use Rattle.pr_rec.specs.Reading.{record_read};
ghost use Rattle.pr_rec.specs.RecordWords.{fd_entry_words_of, list_entry_words_of};

use pr_codec::{WORD, put_words, read_words};
use pr_num::limits::DESCRIPTOR_LIMIT;
use pr_num::{Access, FdKind};
use pr_rec::{Descriptor, FdEntry, ListEntry};

/// The first words of bytes, as many as `words` has places.
pub fn fill(bytes: &[u8], words: &mut [u64])
    requires { 8 * length words.old ≤ length bytes.now }
    ensures { words.new ≡ front_words (length words.old) bytes.now }
{
    let len = WORD * words.len();
    read_words(&bytes[..len], words);
}

/// The field of a name, of its 4 words.
fn name_of(words: &[u64]) -> [u8; 32]
    requires { length words.now ≡ 4 }
    ensures { front_words 4 result ≡ words.now }
{
    let mut name = [0; 32];
    put_words(&mut name, words);
    name
}

fn kind_of(word: u64) -> FdKind
    requires from { 1 ≤ word }
    requires to { word ≤ 3 }
    ensures { fd_kind_number result ≡ word }
{
    match word {
        1 => FdKind::File,
        2 => FdKind::PipeReader,
        _ => FdKind::PipeWriter,
    }
}

fn access_of(word: u64) -> Access
    requires { word < 3 }
    ensures { access_number result ≡ word }
{
    match word {
        0 => Access::Read,
        1 => Access::Write,
        _ => Access::Both,
    }
}

/// The descriptor of these words, which are in their ranges.
fn fd_entry_of(words: &[u64; 8]) -> FdEntry
    requires descriptor { slice_index words.now 0 < descriptor_limit }
    requires from { 1 ≤ slice_index words.now 1 }
    requires to { slice_index words.now 1 ≤ 3 }
    requires access { slice_index words.now 2 < 3 }
    ensures { fd_entry_words_of result ≡ words.now }
{
    FdEntry {
        descriptor: Descriptor::at(words[0] as usize),
        kind: kind_of(words[1]),
        access: access_of(words[2]),
        offset: words[3],
        name: name_of(&[words[4], words[5], words[6], words[7]]),
    }
}

/// The descriptor with which bytes begin, if they begin with one.
#[tactic(auto, unfolding(pr_rec::specs::Reading::record_read))]
pub fn read_fd_entry(bytes: &[u8]) -> Option<FdEntry>
    ensures { option_map fd_entry_words_of result ≡ result_ok (record_read fd_entry_ranges bytes.now) }
{
    let mut words = [0; 8];
    if bytes.len() < WORD * words.len() {
        return None;
    }
    fill(bytes, &mut words);
    if words[0] < DESCRIPTOR_LIMIT as u64 && 1 <= words[1] && words[1] <= 3 && words[2] < 3 {
        Some(fd_entry_of(&words))
    } else {
        None
    }
}

/// The process of these words, which are in their ranges.
fn list_entry_of(words: &[u64; 6]) -> ListEntry
    requires id { slice_index words.now 0 < 4294967296 }
    requires parent { slice_index words.now 1 < 4294967296 }
    ensures { list_entry_words_of result ≡ words.now }
{
    ListEntry {
        id: words[0] as u32,
        parent: words[1] as u32,
        program: name_of(&[words[2], words[3], words[4], words[5]]),
    }
}

/// The process with which bytes begin, if they begin with one.
#[tactic(auto, unfolding(pr_rec::specs::Reading::record_read))]
pub fn read_list_entry(bytes: &[u8]) -> Option<ListEntry>
    ensures { option_map list_entry_words_of result ≡ result_ok (record_read list_entry_ranges bytes.now) }
{
    let mut words = [0; 6];
    if bytes.len() < WORD * words.len() {
        return None;
    }
    fill(bytes, &mut words);
    if words[0] < 1 << 32 && words[1] < 1 << 32 {
        Some(list_entry_of(&words))
    } else {
        None
    }
}
