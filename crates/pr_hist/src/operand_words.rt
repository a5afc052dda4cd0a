//! Operands of a control message, each a word: numbers, signals, sets and flags.
ghost use Rattle.std.specs.Prelude.{◌≡◌, ◌≤◌, ◌-◌, ◌^◌, map};
ghost use Rattle.std.specs.List.{list_all, list_any};
ghost use Rattle.pr_line.specs.Entries.{number_named};
ghost use Rattle.pr_hist.specs.OperandWords.{all_from, are_numbers, bit_of, is_mode, is_number, is_run_flag, is_word, modes_of, number_at, registers_of, run_flags_of, set_of, signal_of, signal_word};

use pr_line::named_entries;
use pr_num::{Numbered, SetOf, Sig};
use pr_text::number_of;

#[tactic(auto, unfolding(crate::specs::OperandWords::is_number))]
fn is_number(word: &[u8]) -> bool
    ensures { result ≡ is_number word.now }
{
    number_of(word).is_some()
}

fn all_numbers(ops: &[&[u8]]) -> bool
    ensures { result ≡ list_all is_number (map (λ op. op.now) ops.now) }
{
    for op in ops {
        if !is_number(op) {
            return false;
        }
    }
    true
}

/// Whether there are so many operands, and each is a number.
#[tactic(auto, unfolding(crate::specs::OperandWords::are_numbers))]
pub fn are_numbers(count: usize, ops: &[&[u8]]) -> bool
    ensures { result ≡ are_numbers count (map (λ op. op.now) ops.now) }
{
    ops.len() == count && all_numbers(ops)
}

/// The number at a place, 0 where there is none.
#[tactic(auto, unfolding(crate::specs::OperandWords::number_at))]
pub fn number_at(ops: &[&[u8]], place: usize) -> u64
    ensures { result ≡ number_at (map (λ op. op.now) ops.now) place }
{
    match ops.get(place) {
        None => 0,
        Some(op) => match number_of(op) {
            None => 0,
            Some(n) => n,
        },
    }
}

/// The registers r0 to r7, sp, fp and pc.
#[tactic(auto, unfolding(crate::specs::OperandWords::registers_of))]
pub fn registers_of(ops: &[&[u8]]) -> [u64; 11]
    ensures { result ≡ registers_of (map (λ op. op.now) ops.now) }
{
    [
        number_at(ops, 0),
        number_at(ops, 1),
        number_at(ops, 2),
        number_at(ops, 3),
        number_at(ops, 4),
        number_at(ops, 5),
        number_at(ops, 6),
        number_at(ops, 7),
        number_at(ops, 8),
        number_at(ops, 9),
        number_at(ops, 10),
    ]
}

/// A signal by its number or its name.
#[tactic(auto, unfolding(crate::specs::OperandWords::signal_word))]
fn signal_word(word: &[u8]) -> Option<u64>
    ensures { result ≡ signal_word word.now }
{
    match number_of(word) {
        Some(n) => Some(n),
        None => Some(Sig::from_name(word)?.number()),
    }
}

/// The one operand, a signal.
#[tactic(auto, unfolding(crate::specs::OperandWords::signal_of))]
pub fn signal_of(ops: &[&[u8]]) -> Option<u64>
    ensures { result ≡ signal_of (map (λ op. op.now) ops.now) }
{
    match ops {
        [word] => signal_word(word),
        _ => None,
    }
}

/// What follows `all`: nothing, or `but` and names.
#[tactic(auto, unfolding(crate::specs::OperandWords::all_from))]
fn all_from<T: Numbered>(ops: &[&[u8]]) -> Option<SetOf<T>>
    ensures { result ≡ all_from (number_named T.number_of T.of_name) (2 ^ T.COUNT - 1) (map (λ op. op.now) ops.now) }
{
    match ops {
        [] => Some(SetOf::all()),
        [word, names @ ..] => {
            if *word == b"but".as_slice() {
                let set = named_entries::<T>(names)?;
                Some(SetOf::all().minus(set))
            } else {
                None
            }
        }
    }
}

/// A set: `none`, `all`, `all but` names, or names.
#[tactic(auto, unfolding(crate::specs::OperandWords::set_of))]
pub fn set_of<T: Numbered>(ops: &[&[u8]]) -> Option<SetOf<T>>
    ensures { result ≡ set_of (number_named T.number_of T.of_name) (2 ^ T.COUNT - 1) (map (λ op. op.now) ops.now) }
{
    match ops {
        [] => None,
        [word, names @ ..] => {
            if *word == b"all".as_slice() {
                all_from(names)
            } else if *word == b"none".as_slice() && names.len() == 0 {
                Some(SetOf::empty())
            } else {
                named_entries(ops)
            }
        }
    }
}

#[tactic(auto, unfolding(crate::specs::OperandWords::is_word))]
fn is_word(name: &[u8], word: &[u8]) -> bool
    ensures { result ≡ is_word name.now word.now }
{
    word == name
}

fn has_word(ops: &[&[u8]], name: &[u8]) -> bool
    ensures { result ≡ list_any (is_word name.now) (map (λ op. op.now) ops.now) }
{
    for op in ops {
        if is_word(name, op) {
            return true;
        }
    }
    false
}

/// The bit of a flag, where it is among the operands.
#[tactic(auto, unfolding(crate::specs::OperandWords::bit_of))]
fn bit_of(ops: &[&[u8]], name: &[u8], bit: u64) -> u64
    ensures value { result ≡ bit_of (map (λ op. op.now) ops.now) name.now bit }
    ensures range { result ≤ bit }
{
    if has_word(ops, name) { bit } else { 0 }
}

#[tactic(auto, unfolding(crate::specs::OperandWords::is_run_flag))]
fn is_run_flag(word: &[u8]) -> bool
    ensures { result ≡ is_run_flag word.now }
{
    word == b"PRCSIG".as_slice()
        || (word == b"PRCFAULT".as_slice()
            || (word == b"PRSTEP".as_slice()
                || (word == b"PRSABORT".as_slice() || word == b"PRSTOP".as_slice())))
}

fn all_run_flags(ops: &[&[u8]]) -> bool
    ensures { result ≡ list_all is_run_flag (map (λ op. op.now) ops.now) }
{
    for op in ops {
        if !is_run_flag(op) {
            return false;
        }
    }
    true
}

/// Run flags: any of them, or none.
#[tactic(auto, unfolding(crate::specs::OperandWords::run_flags_of))]
pub fn run_flags_of(ops: &[&[u8]]) -> Option<u64>
    ensures { result ≡ run_flags_of (map (λ op. op.now) ops.now) }
{
    if !all_run_flags(ops) {
        return None;
    }
    let low = bit_of(ops, b"PRCSIG", 1) + bit_of(ops, b"PRCFAULT", 2) + bit_of(ops, b"PRSTEP", 4);
    Some(low + bit_of(ops, b"PRSABORT", 8) + bit_of(ops, b"PRSTOP", 16))
}

#[tactic(auto, unfolding(crate::specs::OperandWords::is_mode))]
fn is_mode(word: &[u8]) -> bool
    ensures { result ≡ is_mode word.now }
{
    word == b"FORK".as_slice()
        || (word == b"RLC".as_slice() || (word == b"KLC".as_slice() || word == b"ASYNC".as_slice()))
}

fn all_modes(ops: &[&[u8]]) -> bool
    ensures { result ≡ list_all is_mode (map (λ op. op.now) ops.now) }
{
    for op in ops {
        if !is_mode(op) {
            return false;
        }
    }
    true
}

/// Modes.
#[tactic(auto, unfolding(crate::specs::OperandWords::modes_of))]
pub fn modes_of(ops: &[&[u8]]) -> Option<u64>
    ensures { result ≡ modes_of (map (λ op. op.now) ops.now) }
{
    if !all_modes(ops) {
        return None;
    }
    let low = bit_of(ops, b"FORK", 1) + bit_of(ops, b"RLC", 2);
    Some(low + bit_of(ops, b"KLC", 4) + bit_of(ops, b"ASYNC", 8))
}
