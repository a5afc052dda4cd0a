//! What PCWRITE of those who hide leaves hidden.
ghost use Rattle.std.specs.Prelude.{◌≡◌, ◌++◌, IfOk, OnOk, if◌then◌else◌};
ghost use Rattle.std.specs.Option.{option_copied};
ghost use Rattle.pr_num.specs.Spaces.{bytes_for};
ghost use Rattle.pr_hidden.specs.Hiders.{as_patch, function_written, patch_at, patches_written, probe_written, saved_in};
ghost use Rattle.pr_hide.specs.Hidings.{functions_in, hiders_of, is_probe};

use crate::hiders::Hider;
use crate::patches::{Patch, add_patch, patch_at, remove_patch};
use pr_mem::Space;
use pr_num::layout::{STACK_BASE, TEXT_BASE};
use pr_num::{Bytes, NoMemory};
use std::alloc::Global;

/// How many bytes a probe writes over the text, for its agent, and over the stack, for what the agent is told.
const INSTRUCTIONS_SIZE: usize = 32;

const ANSWER_SIZE: usize = 24;

/// PCWRITE where a function begins: its code lifts the breakpoint, and other bytes plant it.
fn write_function(
    alloc: Global,
    functions: &[Patch],
    at: u64,
    bytes: &[u8],
    patches: &mut Vec<Patch>,
) -> Result<(), NoMemory>
    ensures { OnOk result
        (patches.new.items ≡ function_written (patch_at at functions.now) bytes.now patches.old.items) }
{
    let Some(function) = patch_at(at, functions) else {
        return Ok(());
    };
    if bytes == function.bytes.as_slice() {
        remove_patch(function.at, patches);
        return Ok(());
    }
    add_patch(alloc, function, patches)
}

/// Notes what stands in a range, if all of it is mapped.
fn save(
    alloc: Global,
    space: &Space,
    at: u64,
    size: usize,
    patches: &mut Vec<Patch>,
) -> Result<(), NoMemory>
    ensures { OnOk result (patches.new.items ≡ patches.old.items ++ as_patch at (bytes_for 0 space.now at size)) }
{
    let mut bytes = vec![in alloc; 0; size]?;
    match space.read(at, &mut bytes, 0) {
        Ok(()) => {
            let bytes = Bytes::from_vec(bytes);
            Ok(patches.push(Patch { at, bytes })?)
        }
        Err(_) => Ok(()),
    }
}

/// Notes what stands where a probe writes.
fn save_all(alloc: Global, space: &Space, patches: &mut Vec<Patch>) -> Result<(), NoMemory>
    ensures { OnOk result (patches.new.items ≡ saved_in space.now) }
{
    patches.clear();
    save(alloc, space, TEXT_BASE, INSTRUCTIONS_SIZE, patches)?;
    save(alloc, space, STACK_BASE, ANSWER_SIZE, patches)
}

/// PCWRITE of a probe: what stands at both places is noted before its first one, and until it is written back.
fn write_probe(
    alloc: Global,
    space: &Space,
    at: u64,
    bytes: &[u8],
    patches: &mut Vec<Patch>,
) -> Result<(), NoMemory>
    ensures { OnOk result
        (patches.new.items ≡ probe_written (patch_at at patches.old.items) space.now at bytes.now patches.old.items) }
{
    let Some(patch) = patch_at(at, patches.as_slice()) else {
        return save_all(alloc, space, patches);
    };
    if bytes == patch.bytes.as_slice() {
        remove_patch(at, patches);
    }
    Ok(())
}

/// PCWRITE of a controller that hides so, or of any other.
fn write_as(
    alloc: Global,
    hider: Option<&Hider>,
    space: &Space,
    at: u64,
    bytes: &[u8],
    patches: &mut Vec<Patch>,
) -> Result<(), NoMemory>
    ensures { OnOk result (patches.new.items ≡ (if is_probe (option_copied hider.entry)
        then probe_written (patch_at at patches.old.items) space.now at bytes.now patches.old.items
        else function_written (patch_at at (functions_in (option_copied hider.entry))) bytes.now patches.old.items)) }
{
    match hider {
        Some(Hider::Probe) => write_probe(alloc, space, at, bytes, patches),
        Some(Hider::Functions(functions)) => {
            write_function(alloc, functions.as_slice(), at, bytes, patches)
        }
        Some(Hider::Nothing) | None => Ok(()),
    }
}

/// PCWRITE of the controller of a number: what it leaves of the patches of the process.
#[tactic(auto, unfolding(crate::specs::Hidings::hiders_of))]
pub(crate) fn write_patches(
    alloc: Global,
    who: &[Hider],
    by: u32,
    space: &Space,
    at: u64,
    bytes: &[u8],
    patches: &mut Vec<Patch>,
) -> Result<(), NoMemory>
    ensures { OnOk result
        (patches.new.items ≡ patches_written (hiders_of who.now) by space.now at bytes.now patches.old.items) }
{
    write_as(alloc, who.get(by as usize), space, at, bytes, patches)
}
