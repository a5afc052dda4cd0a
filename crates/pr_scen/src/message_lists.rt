//! Operands of messages: sets, modes and run flags.
ghost use Rattle.std.specs.Prelude.{◌≡◌, ◌-◌, ◌^◌, map, IfOk};
ghost use Rattle.std.specs.List.{list_all};
ghost use Rattle.pr_text.specs.Names.{is_name};
ghost use Rattle.pr_line.specs.Entries.{number_named};
ghost use Rattle.pr_scen.specs.MessageLists.{named_set, set_of, mode_word, with_modes, modes_of, flag_of};

use crate::ScenKind;
use pr_line::named_entries;
use pr_msg::RunFlags;
use pr_num::{Modes, NoMemory, Numbered, SetOf};
use pr_text::{name_of, parts_of};
use std::alloc::Global;

/// Whether each of these words has the form of a name.
fn are_names(words: &[&[u8]]) -> bool
    ensures { result ≡ list_all is_name (map (λ word. word.now) words.now) }
{
    for word in words {
        if name_of(word).is_none() {
            return false;
        }
    }
    true
}

/// The set of names that are joined.
#[tactic(auto, unfolding(crate::specs::MessageLists::named_set))]
fn named_set<T: Numbered>(names: &[&[u8]]) -> Result<SetOf<T>, ScenKind>
    ensures { result ≡ named_set (number_named T.number_of T.of_name) (map (λ name. name.now) names.now) }
{
    if !are_names(names) {
        return Err(ScenKind::BadOperand);
    }
    named_entries(names).ok_or(ScenKind::UnknownName)
}

/// The set of a list: `none`, `all`, or names joined by `+`.
#[tactic(auto, unfolding(crate::specs::MessageLists::set_of))]
pub fn set_of<T: Numbered>(
    alloc: Global,
    word: &[u8],
) -> Result<Result<SetOf<T>, ScenKind>, NoMemory>
    ensures { IfOk result (λ set. set ≡ set_of (number_named T.number_of T.of_name) (2 ^ T.COUNT - 1) word.now) }
{
    if word == b"none".as_slice() {
        return Ok(Ok(SetOf::empty()));
    }
    if word == b"all".as_slice() {
        return Ok(Ok(SetOf::all()));
    }
    let names = parts_of(alloc, word)?;
    Ok(named_set(&names))
}

/// The mode of a name (proc(4), "PCSET").
#[tactic(auto, unfolding(crate::specs::MessageLists::mode_word))]
fn mode_word(name: &[u8]) -> Option<Modes>
    ensures { result ≡ mode_word name.now }
{
    if name == b"fork".as_slice() {
        return Some(Modes::FORK);
    }
    if name == b"rlc".as_slice() {
        return Some(Modes::RLC);
    }
    if name == b"klc".as_slice() {
        return Some(Modes::KLC);
    }
    if name == b"async".as_slice() {
        return Some(Modes::ASYNC);
    }
    None
}

/// The modes of names.
#[tactic(auto, unfolding(crate::specs::MessageLists::with_modes))]
fn named_modes(names: &[&[u8]]) -> Option<Modes>
    ensures { result ≡ with_modes 0 (map (λ name. name.now) names.now) }
{
    let mut modes = Modes::empty();
    for name in names {
        modes = modes.union(mode_word(name)?);
    }
    Some(modes)
}

/// The modes of names that `+` joins.
#[tactic(auto, unfolding(crate::specs::MessageLists::modes_of))]
pub fn modes_of(alloc: Global, word: &[u8]) -> Result<Option<Modes>, NoMemory>
    ensures { IfOk result (λ modes. modes ≡ modes_of word.now) }
{
    let names = parts_of(alloc, word)?;
    Ok(named_modes(&names))
}

/// The run flag of a word (proc(4), "PCRUN").
#[tactic(auto, unfolding(crate::specs::MessageLists::flag_of))]
pub fn flag_of(word: &[u8]) -> Option<RunFlags>
    ensures { result ≡ flag_of word.now }
{
    if word == b"prcsig".as_slice() {
        return Some(RunFlags::CSIG);
    }
    if word == b"prcfault".as_slice() {
        return Some(RunFlags::CFAULT);
    }
    if word == b"prstep".as_slice() {
        return Some(RunFlags::STEP);
    }
    if word == b"prsabort".as_slice() {
        return Some(RunFlags::SABORT);
    }
    if word == b"prstop".as_slice() {
        return Some(RunFlags::STOP);
    }
    None
}
