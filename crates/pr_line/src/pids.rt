//! The processes that a list names.
ghost use Rattle.std.specs.Prelude.{◌≡◌, ◌++◌, [], map, option_map, IfOk};
ghost use Rattle.pr_line.specs.Pids.{with_ids, pids_of};

use pr_num::{Handles, NoMemory};
use pr_text::{id_of, parts_of};
use std::alloc::Global;

/// The ids of parts.
#[tactic(auto, unfolding(crate::specs::Pids::with_ids))]
fn ids_of(alloc: Global, parts: &[&[u8]]) -> Result<Option<Vec<u32>>, NoMemory>
    ensures { IfOk result (λ ids. option_map (λ v. v.items) ids ≡ with_ids [] (map (λ part. part.now) parts.now)) }
{
    let mut ids = Vec::new(alloc);
    for part in parts {
        let Some(id) = id_of(part) else {
            return Ok(None);
        };
        ids.push(id)?;
    }
    Ok(Some(ids))
}

/// The ids of a word, which `+` joins.
#[tactic(auto, unfolding(crate::specs::Pids::pids_of))]
pub fn pids_of(alloc: Global, word: &[u8]) -> Result<Option<Handles>, NoMemory>
    ensures { IfOk result (λ ids. ids ≡ pids_of word.now) }
{
    let parts = parts_of(alloc, word)?;
    match ids_of(alloc, &parts)? {
        Some(ids) => Ok(Some(Handles::from_vec(ids))),
        None => Ok(None),
    }
}
