//! Sets of signals, of faults and of system calls by name.
ghost use Rattle.std.specs.Prelude.{◌≡◌, ◌++◌, List, ℕ, count_by, OnOk};
ghost use Rattle.pr_num.specs.Sets.{has_entry};
ghost use Rattle.pr_hist.specs.Sets.{counted_text, entries_text, entry_text, set_text, set_word_text};

use pr_num::{Flt, NoMemory, Numbered, SetOf, Sig, Sysno};
use pr_text::Text;

/// What stands in a table by name.
pub trait Named: Copy {
    ghost name: { Self → List ℕ };

    /// The name of the entry.
    fn bytes<'a>(self) -> &'a [u8]
        ensures { result.now ≡ name self };
}

impl Named for Sig {
    ghost use Rattle.pr_num.specs.Signals.{signal_name};

    ghost name = { signal_name };

    fn bytes<'a>(self) -> &'a [u8] {
        self.name().as_bytes()
    }
}

impl Named for Flt {
    ghost use Rattle.pr_num.specs.Faults.{fault_name};

    ghost name = { fault_name };

    fn bytes<'a>(self) -> &'a [u8] {
        self.name().as_bytes()
    }
}

impl Named for Sysno {
    ghost use Rattle.pr_num.specs.Syscalls.{syscall_name};

    ghost name = { syscall_name };

    fn bytes<'a>(self) -> &'a [u8] {
        self.name().as_bytes()
    }
}

/// An entry by name, where it is told.
#[tactic(auto, unfolding(crate::specs::Sets::entry_text))]
fn entry<T: Numbered + Named>(
    text: &mut Text,
    lacks: bool,
    set: SetOf<T>,
    entry: T,
) -> Result<(), NoMemory>
    ensures { OnOk result (text.new ≡ text.old ++ entry_text T.number_of T.name lacks set entry) }
{
    let has = set.has(entry);
    if has == lacks {
        return Ok(());
    }
    text.text(b" ")?;
    text.text(entry.bytes())
}

/// The entries that a set has, or those that it lacks.
#[tactic(auto, unfolding(crate::specs::Sets::entries_text))]
fn entries<T: Numbered + Named>(text: &mut Text, lacks: bool, set: SetOf<T>) -> Result<(), NoMemory>
    ensures { OnOk result (text.new ≡ text.old ++ entries_text T.number_of T.name T.table lacks set) }
{
    for one in T::entries() {
        entry(text, lacks, set, *one)?;
    }
    Ok(())
}

/// How many entries a set has.
fn count<T: Numbered>(set: SetOf<T>) -> usize
    ensures { result ≡ count_by (has_entry T.number_of set) T.table }
{
    T::entries().iter().filter(|entry| set.has(**entry)).count()
}

/// A set, of which so many entries are in it.
#[tactic(auto, unfolding(crate::specs::Sets::counted_text))]
fn counted<T: Numbered + Named>(
    text: &mut Text,
    set: SetOf<T>,
    count: usize,
) -> Result<(), NoMemory>
    ensures { OnOk result (text.new ≡ text.old ++ counted_text T.number_of T.name T.table set count) }
{
    let all = T::entries().len();
    if count == 0 {
        return text.text(b" none");
    }
    if count == all {
        return text.text(b" all");
    }
    if all / 2 < count {
        text.text(b" all but")?;
        return entries(text, true, set);
    }
    entries(text, false, set)
}

/// A set.
#[tactic(auto, unfolding(crate::specs::Sets::set_text))]
fn write_set<T: Numbered + Named>(text: &mut Text, set: SetOf<T>) -> Result<(), NoMemory>
    ensures { OnOk result (text.new ≡ text.old ++ set_text T.number_of T.name T.table set) }
{
    let count = count(set);
    counted(text, set, count)
}

/// The set of a word.
#[tactic(auto, unfolding(crate::specs::Sets::set_word_text))]
pub fn set_word<T: Numbered + Named>(text: &mut Text, word: u64) -> Result<(), NoMemory>
    ensures { OnOk result (text.new ≡ text.old ++ set_word_text T.COUNT T.number_of T.name T.table word) }
{
    match SetOf::<T>::from_word(word) {
        None => {
            text.text(b" ")?;
            text.hex(word)
        }
        Some(set) => write_set(text, set),
    }
}
