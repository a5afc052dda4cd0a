//! The functions that a word names.
ghost use Rattle.std.specs.Prelude.{◌≡◌, [], map, option_map, IfOk};
ghost use Rattle.pr_line.specs.FunctionNames.{with_labels, labels_of, named_in, function_names_of};

use crate::FUNCTION_LIMIT;
use pr_num::{Name, NoMemory, Table};
use pr_text::{name_of, parts_of, pieces_of};
use std::alloc::Global;

/// The functions that a word after `-u` names.
#[derive(Drop)]
pub struct FunctionNames {
    /// The program in whose text they stand.
    pub program: Name,
    /// Their labels there, 1 to 16 in the order of the word.
    pub labels: Table<Name>,
}

/// The labels that parts are.
#[tactic(auto, unfolding(crate::specs::FunctionNames::with_labels))]
fn with_labels(alloc: Global, parts: &[&[u8]]) -> Result<Option<Table<Name>>, NoMemory>
    ensures { IfOk result (λ labels. labels ≡ with_labels [] (map (λ part. part.now) parts.now)) }
{
    let mut labels = Table::new(alloc);
    for part in parts {
        let Some(label) = name_of(part) else {
            return Ok(None);
        };
        labels.push(label)?;
    }
    Ok(Some(labels))
}

/// The labels that parts are, unless they are too many.
#[tactic(auto, unfolding(crate::specs::FunctionNames::labels_of))]
fn labels_of(alloc: Global, parts: &[&[u8]]) -> Result<Option<Table<Name>>, NoMemory>
    ensures { IfOk result (λ labels. labels ≡ labels_of (map (λ part. part.now) parts.now)) }
{
    if parts.len() > FUNCTION_LIMIT {
        return Ok(None);
    }
    with_labels(alloc, parts)
}

/// A program and its labels, of a word that was split at its colons.
fn named_in(alloc: Global, pieces: &[&[u8]]) -> Result<Option<FunctionNames>, NoMemory>
    ensures { IfOk result (λ names. names ≡ named_in (map (λ piece. piece.now) pieces.now)) }
{
    let [program, labels] = pieces else {
        return Ok(None);
    };
    let parts = parts_of(alloc, labels)?;
    let (Some(program), Some(labels)) = (name_of(program), labels_of(alloc, &parts)?) else {
        return Ok(None);
    };
    Ok(Some(FunctionNames { program, labels }))
}

/// The functions that a word names, as `PROGRAM:NAMES`: a program and 1 to 16 labels, which `+` joins.
#[tactic(auto, unfolding(crate::specs::FunctionNames::function_names_of))]
pub fn function_names_of(alloc: Global, word: &[u8]) -> Result<Option<FunctionNames>, NoMemory>
    ensures { IfOk result (λ names. names ≡ function_names_of word.now) }
{
    let pieces = pieces_of(alloc, word, b':')?;
    named_in(alloc, &pieces)
}
