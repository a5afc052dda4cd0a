//! Which entries of a history are told.
ghost use Rattle.std.specs.Prelude.{◌≡◌, ◌++◌, OnOk};
ghost use Rattle.std.specs.List.{list_any};
ghost use Rattle.pr_hist.specs.Selections.{is_about, is_call_about, is_of, is_of_any, is_of_controller, is_of_lwp, is_of_process, is_told, made, selected, stands_for};

use crate::entries::words_of;
use crate::names::Names;
use pr_model::{Act, Actor, Call, Entry, Reply};
use pr_num::NoMemory;
use pr_text::Text;

/// Whose entries are told.
#[derive(Clone, Copy, Debug, PartialEq, Eq)]
pub enum Who {
    /// Those of a controller.
    Controller(u32),
    /// The turns of the lwps of a process, and the calls about it.
    Process(u32),
    /// The turns of an lwp.
    Lwp(u32, u32),
}

/// Which entries of a history are told.
#[derive(Clone, Copy, Debug, PartialEq, Eq)]
pub struct Selection {
    /// Whose; `None`: those of all.
    pub who: Option<Who>,
    /// From the entry of this number on.
    pub from: u64,
    /// Up to and with the entry of this number.
    pub to: u64,
    /// Whether all fields of a record are told, also those that say nothing.
    pub full: bool,
}

/// Whether a handle stands for a file of a process or of its lwps.
#[tactic(auto, unfolding(crate::specs::Selections::stands_for))]
fn stands_for(pid: u32, names: &Names, handle: u32) -> bool
    ensures { result ≡ stands_for pid names.now handle }
{
    match names.get(handle) {
        None => false,
        Some(known) => known.pid == pid,
    }
}

/// Whether one of these handles does.
fn one_stands_for(pid: u32, names: &Names, handles: &[u32]) -> bool
    ensures { result ≡ list_any (stands_for pid names.now) handles.now }
{
    handles.iter().any(|handle| stands_for(pid, names, *handle))
}

/// Whether a process was made that has this id.
#[tactic(auto, unfolding(crate::specs::Selections::made))]
fn made(pid: u32, reply: &Reply) -> bool
    ensures { result ≡ made pid reply.now }
{
    match reply {
        Reply::Pid(id) => *id == pid,
        _ => false,
    }
}

/// Whether a call is about a process.
#[tactic(auto, unfolding(crate::specs::Selections::is_call_about))]
fn is_call_about(about: u32, names: &Names, call: &Call, reply: &Reply) -> bool
    ensures { result ≡ is_call_about about names.now call.now reply.now }
{
    match call {
        Call::Open { pid, .. } => *pid == about,
        Call::Close { handle } => stands_for(about, names, *handle),
        Call::Ctl { handle, .. } => stands_for(about, names, *handle),
        Call::CtlWait { handle, .. } => stands_for(about, names, *handle),
        Call::Read { handle, .. } => stands_for(about, names, *handle),
        Call::Poll { handles } => one_stands_for(about, names, handles.as_slice()),
        Call::Interrupt { .. } => false,
        Call::Spawn { .. } => made(about, reply),
        Call::Kill { pid, .. } => *pid == about,
        Call::Until { .. } => false,
        Call::List => false,
    }
}

#[tactic(auto, unfolding(crate::specs::Selections::is_about))]
fn is_about(pid: u32, names: &Names, act: &Act) -> bool
    ensures { result ≡ is_about pid names.now act.now }
{
    match act {
        Act::Call(call, reply) => is_call_about(pid, names, call, reply),
        Act::Turn(_) => false,
        Act::Tick(_) => false,
    }
}

#[tactic(auto, unfolding(crate::specs::Selections::is_of_controller))]
fn is_of_controller(number: u32, actor: Actor) -> bool
    ensures { result ≡ is_of_controller number actor }
{
    match actor {
        Actor::Controller(k) => k == number,
        Actor::Lwp(_, _) => false,
        Actor::Clock => false,
    }
}

#[tactic(auto, unfolding(crate::specs::Selections::is_of_lwp))]
fn is_of_lwp(pid: u32, lwp: u32, actor: Actor) -> bool
    ensures { result ≡ is_of_lwp pid lwp actor }
{
    match actor {
        Actor::Controller(_) => false,
        Actor::Lwp(p, l) => p == pid && l == lwp,
        Actor::Clock => false,
    }
}

#[tactic(auto, unfolding(crate::specs::Selections::is_of_process))]
fn is_of_process(pid: u32, names: &Names, entry: &Entry) -> bool
    ensures { result ≡ is_of_process pid names.now entry.now }
{
    match entry.actor {
        Actor::Controller(_) => is_about(pid, names, &entry.act),
        Actor::Lwp(p, _) => p == pid,
        Actor::Clock => false,
    }
}

fn is_of(who: Who, names: &Names, entry: &Entry) -> bool
    ensures { result ≡ is_of who names.now entry.now }
{
    match who {
        Who::Controller(k) => is_of_controller(k, entry.actor),
        Who::Process(pid) => is_of_process(pid, names, entry),
        Who::Lwp(pid, lwp) => is_of_lwp(pid, lwp, entry.actor),
    }
}

fn is_of_any(who: Option<Who>, names: &Names, entry: &Entry) -> bool
    ensures { result ≡ is_of_any who names.now entry.now }
{
    match who {
        None => true,
        Some(who) => is_of(who, names, entry),
    }
}

/// Whether an entry is told.
#[tactic(auto, unfolding(crate::specs::Selections::is_told))]
pub fn is_told(selection: Selection, number: usize, names: &Names, entry: &Entry) -> bool
    ensures { result ≡ is_told selection number names.now entry.now }
{
    selection.from <= number as u64
        && (number as u64 <= selection.to && is_of_any(selection.who, names, entry))
}

/// Appends the block of an entry, where it is told.
#[tactic(auto, unfolding(crate::specs::Selections::selected))]
pub fn write_selected(
    text: &mut Text,
    selection: Selection,
    names: &Names,
    number: usize,
    entry: &Entry,
) -> Result<(), NoMemory>
    ensures { OnOk result (text.new ≡ text.old ++ selected selection number names.now entry.now) }
{
    if is_told(selection, number, names, entry) {
        words_of(text, selection.full, names, number, entry)
    } else {
        Ok(())
    }
}
