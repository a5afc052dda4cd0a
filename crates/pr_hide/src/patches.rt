//! The bytes that programs have where controllers have written others.
ghost use Rattle.std.specs.Prelude.{◌≡◌, find, position, IfOk, OnOk};
ghost use Rattle.std.specs.Option.{option_copied};
ghost use Rattle.pr_hidden.specs.Hiders.{begins_at, patch_at, with_patch, without_patch};

use pr_num::{Bytes, NoMemory};
use std::alloc::Global;
use std::marker::Model;

/// The bytes that programs have from an address on, where a controller has written others.
#[derive(Drop)]
pub struct Patch {
    pub at: u64,
    pub bytes: Bytes,
}

impl Model for Patch {
    ghost use Rattle.pr_hidden.specs.Covers as hidden;

    ghost Value = { hidden.Patch };

    ghost view = { λ p. record { at = p.at; bytes = p.bytes } };
}

impl Patch {
    /// The same patch again.
    pub fn copy(&self, alloc: Global) -> Result<Patch, NoMemory>
        ensures { IfOk result (λ copy. copy ≡ self.now) }
    {
        Ok(Patch {
            at: self.at,
            bytes: self.bytes.copy(alloc)?,
        })
    }
}

/// The place of the patch that begins at an address, if one does.
fn place_of(at: u64, patches: &[Patch]) -> Option<usize>
    ensures { result ≡ position (begins_at at) patches.now }
{
    patches.iter().position(|patch| patch.at == at)
}

fn first_at(at: u64, patches: &[Patch]) -> Option<&Patch>
    ensures { option_copied result ≡ find (begins_at at) patches.now }
{
    patches.iter().find(|patch| patch.at == at)
}

/// The patch that begins at an address, if one does.
#[tactic(auto, using(crate::proofs::PatchLemmas::patches))]
pub(crate) fn patch_at(at: u64, patches: &[Patch]) -> Option<&Patch>
    ensures { option_copied result ≡ patch_at at patches.now }
{
    first_at(at, patches)
}

/// Takes the patch that begins at an address away, if one does.
#[tactic(auto, using(crate::proofs::PatchLemmas::patches))]
pub(crate) fn remove_patch(at: u64, patches: &mut Vec<Patch>)
    ensures { patches.new.items ≡ without_patch at patches.old.items }
{
    if let Some(place) = place_of(at, patches.as_slice()) {
        patches.remove(place);
    }
}

/// Puts a patch before the others, unless one begins where it does.
#[tactic(auto, using(crate::proofs::PatchLemmas::patches))]
pub(crate) fn add_patch(
    alloc: Global,
    patch: &Patch,
    patches: &mut Vec<Patch>,
) -> Result<(), NoMemory>
    ensures { OnOk result (patches.new.items ≡ with_patch patch.now patches.old.items) }
{
    if patch_at(patch.at, patches.as_slice()).is_none() {
        patches.insert(0, patch.copy(alloc)?)?;
    }
    Ok(())
}
