//! Lists of the entries of a table.
ghost use Rattle.std.specs.Prelude.{◌≡◌, ◌-◌, ◌^◌, map, option_map, IfOk};
ghost use Rattle.pr_num.specs.Sets.{minus_word};
ghost use Rattle.pr_line.specs.Entries.{number_named, number_numbered, with_entry, with_entries, entry_of, list_from, list_of};

use pr_num::{NoMemory, Numbered, SetOf};
use pr_text::{number_of, parts_of};
use std::alloc::Global;

/// The entry that a part stands for, by its name or its number.
#[tactic(auto, unfolding(crate::specs::Entries::entry_of))]
fn entry_of<T: Numbered>(part: &[u8]) -> Option<T>
    ensures { option_map T.number_of result
        ≡ entry_of (number_named T.number_of T.of_name) (number_numbered T.number_of T.of_number) part.now }
{
    match number_of(part) {
        Some(n) => T::from_number(n),
        None => T::from_name(part),
    }
}

/// The entries that parts stand for, each by its name or its number.
#[tactic(auto, unfolding(crate::specs::Entries::with_entries))]
fn listed_entries<T: Numbered>(parts: &[&[u8]]) -> Option<SetOf<T>>
    ensures { result
        ≡ with_entries (entry_of (number_named T.number_of T.of_name) (number_numbered T.number_of T.of_number)) 0
        (map (λ part. part.now) parts.now) }
{
    let mut set = SetOf::empty();
    for part in parts {
        set = set.with(entry_of(part)?);
    }
    Some(set)
}

/// The entries of names.
#[tactic(auto, unfolding(crate::specs::Entries::with_entries))]
pub fn named_entries<T: Numbered>(names: &[&[u8]]) -> Option<SetOf<T>>
    ensures { result ≡ with_entries (number_named T.number_of T.of_name) 0 (map (λ name. name.now) names.now) }
{
    let mut set = SetOf::empty();
    for name in names {
        set = set.with(T::from_name(name)?);
    }
    Some(set)
}

/// All entries but those that a list names.
fn all_but<T: Numbered>(list: Option<SetOf<T>>) -> Option<SetOf<T>>
    ensures { result ≡ option_map (minus_word (2 ^ T.COUNT - 1)) list }
{
    let set = list?;
    Some(SetOf::all().minus(set))
}

/// A list that begins with `!`, or one that does not.
#[tactic(auto, unfolding(crate::specs::Entries::list_from))]
fn list_from<T: Numbered>(alloc: Global, word: &[u8]) -> Result<Option<SetOf<T>>, NoMemory>
    ensures { IfOk result
        (λ set. set
        ≡ list_from (entry_of (number_named T.number_of T.of_name) (number_numbered T.number_of T.of_number))
        (2 ^ T.COUNT - 1) word.now) }
{
    match word.split_first() {
        Some((b'!', list)) => Ok(all_but(listed_entries(&parts_of(alloc, list)?))),
        _ => Ok(listed_entries(&parts_of(alloc, word)?)),
    }
}

/// The set that a list of truss(1) stands for: `all`, or entries joined by `+`, which a leading `!` excludes from all;
/// `None` exactly where a part stands for no entry.
#[tactic(auto, unfolding(crate::specs::Entries::list_of))]
pub fn list_of<T: Numbered>(alloc: Global, word: &[u8]) -> Result<Option<SetOf<T>>, NoMemory>
    ensures { IfOk result
        (λ set. set
        ≡ list_of (number_named T.number_of T.of_name) (number_numbered T.number_of T.of_number)
        (2 ^ T.COUNT - 1) word.now) }
{
    if word == b"all".as_slice() {
        return Ok(Some(SetOf::all()));
    }
    list_from(alloc, word)
}
