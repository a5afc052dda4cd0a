//! The faults that controllers with breakpoints bring about.
ghost use Rattle.std.specs.Prelude.{◌≡◌};
ghost use Rattle.std.specs.Option.{option_copied};
ghost use Rattle.pr_hidden.specs.Hiders.{has_hold, is_at_patch, is_ctl, is_hold, is_own, lwp_at, lwp_in};
ghost use Rattle.pr_hide.specs.CoverTables.{covers_of};
ghost use Rattle.pr_hide.specs.Hidings.{hiders_of};

use crate::cover_tables::CoverTable;
use crate::hiders::{Hider, has_functions};
use crate::patches::{Patch, patch_at};
use pr_kern::Machine;
use pr_model::{Did, File, Held, PC};
use pr_num::Flt;
use pr_open::Opens;
use pr_proc::{Lwp, Proc, Sys, live};

/// Whether a file is that of a process's control messages.
pub(crate) fn is_ctl(file: File) -> bool
    ensures { result ≡ is_ctl file }
{
    matches!(file, File::Ctl)
}

/// Whether a handle is one of a controller with functions on a process's `ctl`.
fn is_hold(who: &[Hider], pid: u32, held: Option<Held>) -> bool
    ensures { result ≡ is_hold (hiders_of who.now) pid held }
{
    match held {
        Some(held) if held.pid == pid => {
            is_ctl(held.file) && has_functions(who, held.controller)
        }
        _ => false,
    }
}

/// Whether a controller with functions has a process's `ctl` open. Looks at the 1,024 handles that can be open.
#[tactic(auto, unfolding(pr_hidden::specs::Hiders::has_hold))]
fn has_hold(who: &[Hider], opens: &Opens, pid: u32) -> bool
    ensures { result ≡ has_hold (hiders_of who.now) opens.now pid }
{
    for number in 0..opens.places() {
        if is_hold(who, pid, opens.at(number)) {
            return true;
        }
    }
    false
}

/// The lwp of an id in a process, if there is one.
fn lwp_in(process: Option<&Proc>, id: u32) -> Option<&Lwp>
    ensures { option_copied result ≡ lwp_in (option_copied process.entry) id }
{
    let process = process?;
    process.lwps.get(id)
}

/// The lwp of an id in the live process of an id.
pub(crate) fn lwp_at(sys: &Sys, pid: u32, id: u32) -> Option<&Lwp>
    ensures { option_copied result ≡ lwp_at sys.now pid id }
{
    lwp_in(live(sys, pid), id)
}

/// Whether the pc of an lwp is where a patch begins.
fn is_at_patch(patches: &[Patch], lwp: Option<&Lwp>) -> bool
    ensures { result ≡ is_at_patch patches.now (option_copied lwp.entry) }
{
    match lwp {
        None => false,
        Some(lwp) => patch_at(lwp.regs[PC], patches).is_some(),
    }
}

/// Whether a turn is a fault that a controller with functions brings about.
#[tactic(auto, unfolding(pr_hidden::specs::Hiders::is_own))]
pub(crate) fn is_own(
    who: &[Hider],
    table: &CoverTable,
    machine: &Machine,
    pid: u32,
    id: u32,
    did: Did,
) -> bool
    ensures { result ≡ is_own (hiders_of who.now) (covers_of table.now) machine.now pid id did }
{
    match did {
        Did::Faulted(Flt::Bpt) => {
            has_hold(who, &machine.opens, pid)
                && is_at_patch(table.patches(pid), lwp_at(&machine.system, pid, id))
        }
        Did::Faulted(Flt::Trace) => has_hold(who, &machine.opens, pid),
        _ => false,
    }
}
