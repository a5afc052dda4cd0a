//! The processes of the system.
ghost use Rattle.std.specs.Prelude.{◌≡◌, ◌+◌, ◌≤◌, [], ◌∷◌, is_some, IsSome, IsNone, IfOk, IfSome, IfNone, OnOk, OnErr, Some, None};
ghost use Rattle.std.specs.Option.{ForSome, option_copied, option_copied_mut};
ghost use Rattle.std.specs.Borrow.{sem};
ghost use Rattle.pr_num.specs.ById.{IsRising, under, inserted, without_id, first_from};
ghost use Rattle.pr_num.specs.Limits.{mapping_limit};
ghost use Rattle.pr_model.specs.Readers.{sizes_of};
ghost use Rattle.pr_slots.specs.Walks.{rest_from};
ghost use Rattle.pr_proc.specs.Keeping.{AreTallied};
ghost use Rattle.pr_proc.specs.Marks.{HasNoChild, HasNoChildFrom, HasNoZombie, HasNoZombieFrom};
ghost use Rattle.pr_proc.specs.Totals.{AreSmall, IsTotal, size_under};

use crate::marks::{clear, next_child, next_zombie, settle};
use crate::{Proc, size_of};
use pr_num::NoMemory;
use pr_num::limits::PROCESS_LIMIT;
use pr_pids::BlockSets;
use pr_slots::SlabById;
use std::alloc::Global;
use std::marker::Model;

/// The processes of the system under their ids, live ones and zombies, seen by contracts as the list of pairs of an id
/// and its process, by rising id.
///
/// A process stands where the slab put it until it is reaped. How many bytes all processes have mapped is known at any
/// time: no call goes over them to add their sizes up. Nor does one go over them to find the children of a process: it
/// is known in which blocks of 64 ids these may stand, and in which those that have ended.
#[derive(Drop)]
pub struct Processes {
    table: SlabById<Proc>,
    /// How many bytes all processes have mapped but that of the id `out`.
    others: u64,
    /// The id of the process that was lent, made or reaped last, which may have any size and any parent.
    out: u32,
    /// For each process the blocks in which its children stand, but for that of the id `out`.
    children: BlockSets,
    /// The same of its children that have ended.
    zombies: BlockSets,
}

impl Model for Processes {
    ghost use Rattle.std.specs.Prelude.{List, ℕ};
    ghost use Rattle.pr_model.specs.State.{TracedProcess};
    ghost use Rattle.pr_proc.specs.Keeping.{AreTallied};

    ghost Value = { List (ℕ × TracedProcess) };

    ghost view = { λ all. all.table };

    ghost invariant = { λ all. AreTallied all.others all.out all.children all.zombies all.table };
}

/// How many bytes the process of an id has mapped; 0 where there is none.
#[tactic(auto, using(crate::proofs::TotalLemmas::under_laws))]
fn size_under(table: &SlabById<Proc>, id: u32) -> u64
    ensures size { result ≡ size_under id table.now }
    ensures limit { result ≤ mapping_limit }
{
    match table.get(id) {
        Some(process) => size_of(process),
        None => 0,
    }
}

/// How many bytes all processes have mapped, where so many are mapped by all others than that of an id.
fn whole(table: &SlabById<Proc>, others: u64, out: u32) -> u64
    requires { IsTotal others out table.now }
    ensures sum { result ≡ sizes_of table.now }
    ensures small { AreSmall table.now }
{
    table.ids_rise();
    table.are_few();
    others + size_under(table, out)
}

/// The same of all others than that of another id.
fn all_but(table: &SlabById<Proc>, others: u64, out: u32, id: u32) -> u64
    requires { IsTotal others out table.now }
    ensures { IsTotal result id table.now }
{
    table.ids_rise();
    whole(table, others, out) - size_under(table, id)
}

/// Lets the process of another id be the one that may have any size and any parent: answers how many bytes all others
/// have mapped. Where it is that one already, as when an lwp has one turn after another, nothing is looked up.
fn leave_out(
    table: &SlabById<Proc>,
    others: u64,
    out: u32,
    children: &mut BlockSets,
    zombies: &mut BlockSets,
    id: u32,
) -> u64
    requires { AreTallied others out children.old zombies.old table.now }
    ensures { AreTallied result id children.new zombies.new table.now }
{
    if id == out {
        return others;
    }
    settle(table, children, zombies, out);
    all_but(table, others, out, id)
}

impl Processes {
    ghost use Rattle.pr_proc.specs.ProcessesLending.{lends_under, lends_found};

    /// No process, and room for as many as can be made.
    pub fn new(alloc: Global) -> Result<Processes, NoMemory>
        ensures { IfOk result (λ processes. processes ≡ []) }
    {
        let table = SlabById::new(alloc, PROCESS_LIMIT as u32)?;
        let children = BlockSets::empty(alloc)?;
        let zombies = BlockSets::empty(alloc)?;
        Ok(Processes {
            table,
            others: 0,
            out: 0,
            children,
            zombies,
        })
    }

    /// The ids of processes rise strictly.
    pub fn ids_rise(&self)
        ensures { IsRising self.now }
    {
        self.table.ids_rise();
    }

    /// The process of an id.
    pub fn get(&self, id: u32) -> Option<&Proc>
        ensures { option_copied result ≡ under id self.now }
    {
        self.table.get(id)
    }

    /// Whether an id stands.
    pub fn contains(&self, id: u32) -> bool
        ensures { result ≡ is_some (under id self.now) }
    {
        self.table.contains(id)
    }

    /// The id that is this number, if a process stands under it: none stands under a number of more than 32 bits.
    pub fn id_of(&self, number: u64) -> Option<u32>
        ensures id { IfSome result (λ id. id ≡ number) }
        ensures some { is_some result ≡ is_some (under number self.now) }
    {
        self.table.id_of(number)
    }

    /// The first process at or behind an id, with its id: a walk over all goes on behind it.
    pub fn next_from(&self, low: u64) -> Option<(u32, &Proc)>
        ensures next { IfSome result (λ next. first_from low self.now ≡ Some (next.0, next.1.now)) }
        ensures rest { IfSome result (λ next. rest_from low self.now ≡ (next.0, next.1.now) ∷ rest_from (next.0 + 1) self.now) }
        ensures behind { IfSome result (λ next. low ≤ next.0) }
        ensures none { IfNone result (first_from low self.now ≡ None) }
        ensures end { IfNone result (rest_from low self.now ≡ []) }
    {
        self.table.next_from(low)
    }

    /// The first child of a process at or behind an id, with its id. Looks at no process but those of the blocks in
    /// which there may be a child.
    pub fn next_child(&self, parent: u32, low: u64) -> Option<(u32, &Proc)>
        ensures found { IfSome result (λ next. under next.0 self.now ≡ Some next.1.now) }
        ensures child { IfSome result (λ next. next.1.now.parent ≡ parent) }
        ensures behind { IfSome result (λ next. low ≤ next.0) }
        ensures least { IfSome result (λ next. HasNoChild parent low next.0 self.now) }
        ensures none { IfNone result (HasNoChildFrom parent low self.now) }
    {
        next_child(&self.table, &self.children, self.out, parent, low)
    }

    /// The first child of a process at or behind an id that has ended, with its id and its wait status. Looks at no
    /// process but those of the blocks in which there may be such a child.
    pub fn next_zombie(&self, parent: u32, low: u64) -> Option<(u32, u64)>
        ensures found { IfSome result (λ next. IsSome (under next.0 self.now)) }
        ensures child { IfSome result (λ next. ForSome (under next.0 self.now) (λ p. p.parent ≡ parent)) }
        ensures ended { IfSome result (λ next. ForSome (under next.0 self.now) (λ p. p.ended ≡ Some next.1)) }
        ensures behind { IfSome result (λ next. low ≤ next.0) }
        ensures least { IfSome result (λ next. HasNoZombie parent low next.0 self.now) }
        ensures none { IfNone result (HasNoZombieFrom parent low self.now) }
    {
        next_zombie(&self.table, &self.zombies, self.out, parent, low)
    }

    /// How many bytes all processes have mapped. Takes as long however many there are.
    pub fn mapped(&self) -> u64
        ensures { result ≡ sizes_of self.now }
    {
        whole(&self.table, self.others, self.out)
    }

    /// The process of an id that stands, to be changed. Its id stays.
    pub fn get_mut(&mut self, id: u32) -> &mut Proc
        requires { IsSome (under id self.old) }
        ensures* writes_back { sem 𝓛 (lends_under self.entry id result) }
        ensures value { under id self.old ≡ Some result.now }
    {
        self.others = leave_out(
            &self.table,
            self.others,
            self.out,
            &mut self.children,
            &mut self.zombies,
            id,
        );
        self.out = id;
        self.table.get_mut(id)
    }

    /// The process of an id, to be changed; `None` exactly where the id does not stand. The ids stay.
    pub fn find_mut(&mut self, id: u32) -> Option<&mut Proc>
        ensures* writes_back { sem 𝓛 (lends_found self.entry id result) }
        ensures value { option_copied_mut result ≡ under id self.old }
    {
        if !self.contains(id) {
            return None;
        }
        Some(self.get_mut(id))
    }

    /// Adds a process under an id that does not stand, behind those of lower ids. Where memory runs out, all stays as
    /// it is.
    pub fn insert(&mut self, id: u32, process: Proc) -> Result<(), NoMemory>
        requires { IsNone (under id self.old) }
        ensures ok { OnOk result (self.new ≡ inserted id process self.old) }
        ensures err { OnErr result (self.new ≡ self.old) }
    {
        settle(&self.table, &mut self.children, &mut self.zombies, self.out);
        let before = whole(&self.table, self.others, self.out);
        self.table.insert(id, process)?;
        self.others = before;
        self.out = id;
        Ok(())
    }

    /// Takes out the process of an id that stands. Takes no memory.
    pub fn remove(&mut self, id: u32) -> Proc
        requires { IsSome (under id self.old) }
        ensures value { under id self.old ≡ Some result }
        ensures rest { self.new ≡ without_id id self.old }
    {
        settle(&self.table, &mut self.children, &mut self.zombies, self.out);
        self.others = all_but(&self.table, self.others, self.out, id);
        self.out = id;
        self.table.ids_rise();
        let process = self.table.remove(id);
        clear(
            &self.table,
            &mut self.children,
            &mut self.zombies,
            process.parent,
            id,
        );
        process
    }
}
