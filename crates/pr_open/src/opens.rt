ghost use Rattle.std.specs.Prelude.{◌≡◌, ◌==◌, ◌<◌, length, None, Some, Err, IfOk, IfErr, OnErr, slice_set, slice_index_or};
ghost use Rattle.pr_model.specs.Handles.{is_exclusive, is_writer, is_exclusive_writer, has_writer, has_exclusive_writer, conflicts, handle_of};
ghost use Rattle.pr_model.specs.State.{nothing_open};
ghost use Rattle.pr_num.specs.Limits.{handle_limit};

use crate::OpenNo;
use pr_model::{Held, Mode};
use pr_num::NoMemory;
use pr_num::limits::HANDLE_LIMIT;
use pr_slots::Slots;
use std::alloc::Global;
use std::marker::Model;

/// The open handles of the process file system, by number, seen by contracts as the list of the places for them.
///
/// A handle's number is the least that was free.
#[derive(Drop)]
pub struct Opens {
    held: Slots<Held>,
}

impl Model for Opens {
    ghost use Rattle.std.specs.Prelude.{◌≡◌, List, Option, length};
    ghost use Rattle.pr_num.specs.Limits.{handle_limit};
    ghost use Rattle.pr_model.specs.declared.handles.Held.{Held as HeldRecord};

    ghost Value = { List (Option HeldRecord) };

    ghost view = { λ opens. opens.held };

    ghost invariant = { λ opens. length opens.held ≡ handle_limit };
}

impl Opens {
    ghost use Rattle.pr_open.specs.Opening.{open_answer, least_free};

    /// How many handles can be open.
    pub const PLACES: usize = HANDLE_LIMIT;

    /// No open handle, and room for all that there can be: no other call takes memory.
    pub fn new(alloc: Global) -> Result<Opens, NoMemory>
        ensures { IfOk result (λ opens. opens ≡ nothing_open) }
    {
        let held = Slots::new(alloc, Opens::PLACES)?;
        Ok(Opens { held })
    }

    /// Opens a handle, with the least free number. It is `Busy` where the process is open for writing and one of both
    /// opens is exclusive, and else `Full` where all numbers are taken; then nothing changes.
    pub fn open(&mut self, h: Held) -> Result<u32, OpenNo>
        ensures answer { result ≡ open_answer h self.old }
        ensures ok { IfOk result (λ number. self.new ≡ slice_set self.old number (Some h)) }
        ensures err { OnErr result (self.new ≡ self.old) }
    {
        if self.conflicts(h.pid, h.mode) {
            return Err(OpenNo::Busy);
        }
        let Some(number) = self.held.least_free() else {
            return Err(OpenNo::Full);
        };
        self.held.put(number, h);
        Ok(number as u32)
    }

    /// The handle of a number: `BadHandle` exactly where it is not open or not this controller's.
    #[tactic(auto, unfolding(pr_model::specs::Handles::handle_of))]
    pub fn get(&self, controller: u32, handle: u32) -> Result<&Held, OpenNo>
        ensures ok { IfOk result (λ h. handle_of self.now controller handle ≡ Some h.now) }
        ensures err { IfErr result (λ refusal. (refusal ≡ OpenNo.BadHandle) × (handle_of self.now controller handle ≡ None)) }
    {
        let Some(h) = self.held.get(handle as usize) else {
            return Err(OpenNo::BadHandle);
        };
        if h.controller != controller {
            return Err(OpenNo::BadHandle);
        }
        Ok(h)
    }

    /// How many places there are for handles: their numbers are below it.
    pub fn places(&self) -> usize
        ensures { result ≡ length self.now }
    {
        self.held.places()
    }

    /// The handle of a number, whoever has it open: `None` where the number is free.
    pub fn at(&self, number: usize) -> Option<Held>
        ensures { result ≡ slice_index_or self.now number None }
    {
        self.held.get(number).copied()
    }

    /// Closes the handle of a number, which is free then: `BadHandle` exactly where it is not open or not this
    /// controller's, and then nothing changes.
    pub fn close(&mut self, controller: u32, handle: u32) -> Result<Held, OpenNo>
        ensures ok { IfOk result
            (λ h. (handle_of self.old controller handle ≡ Some h) × (self.new ≡ slice_set self.old handle None)) }
        ensures err { IfErr result
            (λ refusal. (refusal ≡ OpenNo.BadHandle) × (handle_of self.old controller handle ≡ None)
            × (self.new ≡ self.old)) }
    {
        let h = *self.get(controller, handle)?;
        self.held.take(handle as usize);
        Ok(h)
    }

    /// Whether somebody has the process open for writing.
    pub fn writable(&self, pid: u32) -> bool
        ensures { result ≡ has_writer pid self.now }
    {
        any_writer(&self.held, pid)
    }

    /// Whether somebody has the process open for writing exclusively.
    fn has_exclusive_writer(&self, pid: u32) -> bool
        ensures { result ≡ has_exclusive_writer pid self.now }
    {
        any_exclusive_writer(&self.held, pid)
    }

    /// Whether an open in this mode conflicts with handles that are open.
    fn conflicts(&self, pid: u32, mode: Mode) -> bool
        ensures { result ≡ conflicts pid mode self.now }
    {
        match mode {
            Mode::Read => false,
            Mode::Write => self.has_exclusive_writer(pid),
            Mode::WriteExcl => self.writable(pid) || self.has_exclusive_writer(pid),
        }
    }
}

fn is_exclusive(mode: Mode) -> bool
    ensures { result ≡ is_exclusive mode }
{
    match mode {
        Mode::WriteExcl => true,
        Mode::Read | Mode::Write => false,
    }
}

fn is_writer(held: Option<Held>, pid: u32) -> bool
    ensures { result ≡ is_writer pid held }
{
    match held {
        None => false,
        Some(h) => h.pid == pid && h.mode.is_writable(),
    }
}

fn is_exclusive_writer(held: Option<Held>, pid: u32) -> bool
    ensures { result ≡ is_exclusive_writer pid held }
{
    match held {
        None => false,
        Some(h) => h.pid == pid && is_exclusive(h.mode),
    }
}

fn any_writer(held: &Slots<Held>, pid: u32) -> bool
    ensures { result ≡ has_writer pid held.now }
{
    for number in 0..held.places() {
        if is_writer(held.get(number).copied(), pid) {
            return true;
        }
    }
    false
}

fn any_exclusive_writer(held: &Slots<Held>, pid: u32) -> bool
    ensures { result ≡ has_exclusive_writer pid held.now }
{
    for number in 0..held.places() {
        if is_exclusive_writer(held.get(number).copied(), pid) {
            return true;
        }
    }
    false
}
