//! In which blocks of 64 ids the children of each process may stand, and in which those that have ended.
ghost use Rattle.std.specs.Prelude.{◌≡◌, ◌≢◌, ◌≤◌, ◌<◌, ℕ, Bool, true, false, IfNone, IfSome, IsSome, Some};
ghost use Rattle.std.specs.Option.{ForSome};
ghost use Rattle.pr_num.specs.ById.{under};
ghost use Rattle.pr_num.specs.Limits.{process_limit};
ghost use Rattle.pr_model.specs.State.{TracedProcess};
ghost use Rattle.pr_proc.specs.Marks.{AreMarked, AreMarkedBut, HasNoChild, HasNoChildFrom, HasNoZombie, HasNoZombieFrom, HasNoneIn, IsBefore, IsMarked, any_process, block_of, has_ended, zombie_status};
ghost use Rattle.pr_proc.specs.declared.families.Children.TheVariants.{Living, Nobody};

use crate::{Children, Proc};
use pr_num::limits::PROCESS_LIMIT;
use pr_pids::BlockSets;
use pr_slots::SlabById;

/// The block of an id: the last one has all ids behind it too.
fn block_of(id: u64) -> u32
    ensures value { result ≡ block_of id }
    ensures within { result < 64 }
{
    if id < PROCESS_LIMIT as u64 {
        (id / 64) as u32
    } else {
        63
    }
}

/// Marks the block of a child of a process. No process has an id from 4,096 on.
fn mark(children: &mut BlockSets, parent: u32, id: u32)
    ensures marked { IsMarked children.new parent id }
    ensures grows { (p other : ℕ) → IsMarked children.old p other → IsMarked children.new p other }
{
    if (parent as usize) < PROCESS_LIMIT {
        children.insert(parent, block_of(id as u64));
    }
}

/// Marks the block of the one process whose block may not be marked: for a child, and where it has ended, for one that
/// has.
pub fn settle(table: &SlabById<Proc>, children: &mut BlockSets, zombies: &mut BlockSets, out: u32)
    requires children { AreMarkedBut any_process out children.old table.now }
    requires zombies { AreMarkedBut has_ended out zombies.old table.now }
    ensures children { AreMarked any_process children.new table.now }
    ensures zombies { AreMarked has_ended zombies.new table.now }
{
    if let Some(process) = table.get(out) {
        mark(children, process.parent, out);
        if process.ended.is_some() {
            mark(zombies, process.parent, out);
        }
    }
}

/// The wait status of a process, if it is a child of another one and has ended.
fn zombie_status(process: &Proc, parent: u32) -> Option<u64>
    ensures { result ≡ zombie_status parent process.now }
{
    if process.parent == parent {
        process.ended
    } else {
        None
    }
}

/// What there is of children none of which has ended.
fn living(any: bool) -> Children
    ensures living { result ≡ Living → any ≡ true }
    ensures nobody { result ≡ Nobody → any ≡ false }
{
    if any {
        Children::Living
    } else {
        Children::Nobody
    }
}

/// What there is of the children of a process in a block.
fn children_in(table: &SlabById<Proc>, parent: u32, block: u32) -> Children
    requires { block < 64 }
    ensures living { result ≡ Living → HasNoneIn has_ended parent block table.now }
    ensures nobody { result ≡ Nobody → HasNoneIn any_process parent block table.now }
{
    table.ids_rise();
    let mut low = block as u64 * 64;
    let mut any = false;
    while let Some((id, process)) = table.next_from(low) {
        if block_of(id as u64) != block {
            return living(any);
        }
        if let Some(status) = zombie_status(process, parent) {
            return Children::Zombie(id, status);
        }
        any |= process.parent == parent;
        low = id as u64 + 1;
    }
    living(any)
}

/// After the process of an id has gone: its block is marked no longer for its parent, where that has no other child in
/// it, or none that has ended.
pub fn clear(
    table: &SlabById<Proc>,
    children: &mut BlockSets,
    zombies: &mut BlockSets,
    parent: u32,
    id: u32,
)
    requires children { AreMarked any_process children.old table.now }
    requires zombies { AreMarked has_ended zombies.old table.now }
    ensures children { AreMarked any_process children.new table.now }
    ensures zombies { AreMarked has_ended zombies.new table.now }
{
    if parent as usize >= PROCESS_LIMIT {
        return;
    }
    let block = block_of(id as u64);
    match children_in(table, parent, block) {
        Children::Zombie(..) => {}
        Children::Living => zombies.remove(parent, block),
        Children::Nobody => {
            zombies.remove(parent, block);
            children.remove(parent, block);
        }
    }
}

/// The least id at or behind one in a block that is marked for a process.
fn next_marked(marks: &BlockSets, parent: u32, low: u64) -> Option<u64>
    ensures behind { IfSome result (λ start. low ≤ start) }
    ensures passed { (id : ℕ) → low ≤ id → IsBefore id result → IsMarked marks.now parent id → ⊥ }
{
    if parent as usize >= PROCESS_LIMIT {
        return Some(low);
    }
    let block = marks.next_from(parent, block_of(low))?;
    let start = block as u64 * 64;
    if start < low {
        return Some(low);
    }
    Some(start)
}

/// The id of the process whose block may not be marked, if it is a child of a process, at or behind an id.
fn out_from(table: &SlabById<Proc>, out: u32, parent: u32, low: u64) -> Option<u64>
    ensures behind { IfSome result (λ start. low ≤ start) }
    ensures passed { (p : TracedProcess) → under out table.now ≡ Some p → p.parent ≡ parent → low ≤ out → IsBefore out result → ⊥ }
{
    let process = table.get(out)?;
    if process.parent != parent || (out as u64) < low {
        return None;
    }
    Some(out as u64)
}

/// The earlier one of two ids.
fn earlier(one: Option<u64>, other: Option<u64>) -> Option<u64>
    ensures one { (id : ℕ) → IsBefore id result → IsBefore id one }
    ensures other { (id : ℕ) → IsBefore id result → IsBefore id other }
    ensures behind { (low : ℕ) → IfSome one (λ id. low ≤ id) → IfSome other (λ id. low ≤ id) → IfSome result (λ id. low ≤ id) }
{
    match one {
        None => other,
        Some(first) => match other {
            None => one,
            Some(second) => Some(first.min(second)),
        },
    }
}

/// From which id on the next child of a process may stand, at or behind an id, of a kind whose blocks are marked.
fn next_place(
    table: &SlabById<Proc>,
    marks: &BlockSets,
    out: u32,
    parent: u32,
    low: u64,
) -> Option<u64>
    ensures behind { IfSome result (λ start. low ≤ start) }
    ensures passed { (kind : TracedProcess → Bool) → AreMarkedBut kind out marks.now table.now → (id : ℕ) (p : TracedProcess)
        → under id table.now ≡ Some p → kind p ≡ true → low ≤ id → IsBefore id result → p.parent ≢ parent }
{
    earlier(
        next_marked(marks, parent, low),
        out_from(table, out, parent, low),
    )
}

/// The first child of a process at or behind an id, with its id.
pub fn next_child<'a>(
    table: &'a SlabById<Proc>,
    children: &BlockSets,
    out: u32,
    parent: u32,
    low: u64,
) -> Option<(u32, &'a Proc)>
    requires { AreMarkedBut any_process out children.now table.now }
    ensures found { IfSome result (λ next. under next.0 table.now ≡ Some next.1.now) }
    ensures child { IfSome result (λ next. next.1.now.parent ≡ parent) }
    ensures behind { IfSome result (λ next. low ≤ next.0) }
    ensures least { IfSome result (λ next. HasNoChild parent low next.0 table.now) }
    ensures none { IfNone result (HasNoChildFrom parent low table.now) }
{
    table.ids_rise();
    let mut at = low;
    while let Some(start) = next_place(table, children, out, parent, at) {
        let (id, process) = table.next_from(start)?;
        if process.parent == parent {
            return Some((id, process));
        }
        at = id as u64 + 1;
    }
    None
}

/// The first child of a process at or behind an id that has ended, with its id and its wait status.
pub fn next_zombie(
    table: &SlabById<Proc>,
    zombies: &BlockSets,
    out: u32,
    parent: u32,
    low: u64,
) -> Option<(u32, u64)>
    requires { AreMarkedBut has_ended out zombies.now table.now }
    ensures found { IfSome result (λ next. IsSome (under next.0 table.now)) }
    ensures child { IfSome result (λ next. ForSome (under next.0 table.now) (λ p. p.parent ≡ parent)) }
    ensures ended { IfSome result (λ next. ForSome (under next.0 table.now) (λ p. p.ended ≡ Some next.1)) }
    ensures behind { IfSome result (λ next. low ≤ next.0) }
    ensures least { IfSome result (λ next. HasNoZombie parent low next.0 table.now) }
    ensures none { IfNone result (HasNoZombieFrom parent low table.now) }
{
    table.ids_rise();
    let mut at = low;
    while let Some(start) = next_place(table, zombies, out, parent, at) {
        let (id, process) = table.next_from(start)?;
        if let Some(status) = zombie_status(process, parent) {
            return Some((id, status));
        }
        at = id as u64 + 1;
    }
    None
}
