//! What is known before an entry: open handles by what they stand for, processes by what they run, and when they moved.
ghost use Rattle.std.specs.Prelude.{◌≡◌, ◌++◌, ◌+◌, ◌<◌, ◌^◌, [], length, None, IfOk, OnOk};
ghost use Rattle.std.specs.List.{flat_map};
ghost use Rattle.std.specs.Option.{option_copied};
ghost use Rattle.pr_num.specs.ById.{under, without_id};
ghost use Rattle.pr_plain.specs.HistoryText.{target_text};
ghost use Rattle.pr_hist.specs.Names.{closed, handle_text, handles_after, handles_text, is_memory, known_text, layout_in, listed_text, listing_at, listing_by, listing_of, memory_by, mode_words, named, names_after, opened, process_by};
ghost use Rattle.pr_hist.specs.News.{known_at_start, names_beyond, nothing_known, running_after, runs_now, started};

use crate::fields::{Layout, layout_of};
use crate::listings::Listing;
use crate::moves::note_turn;
use crate::news::{News, news_of};
use crate::texts::write_lwp;
use pr_model::{Act, Call, Entry, File, Mode, Reply, file_name};
use pr_num::{ById, NoMemory};
use pr_text::Text;
use std::alloc::Global;
use std::marker::Model;

/// What an open handle stands for.
#[derive(Clone, Copy, Debug, PartialEq, Eq)]
pub struct Known {
    pub pid: u32,
    /// The lwp, for a file of one lwp, else 0.
    pub lwp: u32,
    pub file: File,
    pub mode: Mode,
}

/// What is known before an entry of a history, seen by contracts as a plain record.
#[derive(Drop)]
pub struct Names {
    /// The programs of the scenario; none where a history stands alone.
    listings: Vec<Listing>,
    /// The open handles, each with what it stands for.
    handles: ById<Known>,
    /// Under the ids of processes the places of the listings of the programs that they run, counted from 0.
    running: ById<usize>,
    /// Under the ids of processes the numbers of the entries in which an lwp of theirs last had a turn.
    moved: ById<usize>,
}

impl Model for Names {
    ghost use Rattle.pr_hist.specs.Names as plain;

    ghost Value = { plain.Names };

    ghost view = { λ n. record { listings = n.listings.items; handles = n.handles; running = n.running; moved = n.moved } };
}

/// Whether a file is the memory of its process.
#[tactic(auto, unfolding(crate::specs::Names::is_memory))]
fn is_memory(file: File) -> bool
    ensures { result ≡ is_memory file }
{
    match file {
        File::Mem => true,
        _ => false,
    }
}

fn listing_at(listings: &[Listing], place: Option<usize>) -> Option<&Listing>
    ensures { option_copied result ≡ listing_at listings.now place }
{
    listings.get(place?)
}

impl Names {
    /// Nothing is known: a history stands alone. Takes no memory.
    pub fn new(alloc: Global) -> Names
        ensures { result ≡ nothing_known }
    {
        Names {
            listings: Vec::new(alloc),
            handles: ById::new(alloc),
            running: ById::new(alloc),
            moved: ById::new(alloc),
        }
    }

    /// What is known before the first entry: the programs of a scenario, and the places of those that its first
    /// processes run, from process 1 on.
    pub fn of(alloc: Global, listings: Vec<Listing>, spawns: &[u32]) -> Result<Names, NoMemory>
        requires { length spawns.now + 1 < 2 ^ 32 }
        ensures { IfOk result (λ names. names ≡ known_at_start listings.items spawns.now) }
    {
        let running = started(alloc, spawns)?;
        Ok(Names {
            listings,
            handles: ById::new(alloc),
            running,
            moved: ById::new(alloc),
        })
    }

    /// The programs of the scenario.
    pub(crate) fn listings(&self) -> &[Listing]
        ensures { result.now ≡ self.now.listings }
    {
        &self.listings
    }

    /// What processes run.
    pub(crate) fn running(&self) -> &ById<usize>
        ensures { result.now ≡ self.now.running }
    {
        &self.running
    }

    /// When processes last moved.
    pub(crate) fn moved(&self) -> &ById<usize>
        ensures { result.now ≡ self.now.moved }
    {
        &self.moved
    }

    /// What an open handle stands for.
    pub fn get(&self, handle: u32) -> Option<&Known>
        ensures { option_copied result ≡ under handle self.now.handles }
    {
        self.handles.get(handle)
    }

    /// The process whose file is open by a handle.
    #[tactic(auto, unfolding(crate::specs::Names::process_by))]
    pub fn process_by(&self, handle: u32) -> Option<u32>
        ensures { result ≡ process_by self.now handle }
    {
        match self.handles.get(handle) {
            None => None,
            Some(known) => Some(known.pid),
        }
    }

    /// The listing of the program that a process runs, where that is known.
    #[tactic(auto, unfolding(crate::specs::Names::listing_of))]
    fn listing_of(&self, pid: u32) -> Option<&Listing>
        ensures { option_copied result ≡ listing_of self.now pid }
    {
        listing_at(&self.listings, self.running.get(pid).copied())
    }

    /// The listing of the program of the process whose file is open by a handle.
    #[tactic(auto, unfolding(crate::specs::Names::listing_by))]
    pub fn listing_by(&self, handle: u32) -> Option<&Listing>
        ensures { option_copied result ≡ listing_by self.now handle }
    {
        match self.handles.get(handle) {
            None => None,
            Some(known) => self.listing_of(known.pid),
        }
    }

    /// The same where the file is its memory.
    #[tactic(auto, unfolding(crate::specs::Names::memory_by))]
    pub fn memory_by(&self, handle: u32) -> Option<&Listing>
        ensures { option_copied result ≡ memory_by self.now handle }
    {
        match self.handles.get(handle) {
            None => None,
            Some(known) if is_memory(known.file) => self.listing_of(known.pid),
            Some(_) => None,
        }
    }
}

/// For what a file is open.
#[tactic(auto, unfolding(crate::specs::Names::mode_words))]
fn mode_words(mode: Mode) -> &'static [u8]
    ensures { result.now ≡ mode_words mode }
{
    match mode {
        Mode::Read => b"",
        Mode::Write => b", writing",
        Mode::WriteExcl => b", writing, exclusive",
    }
}

/// Whose a file is.
#[tactic(auto, unfolding(pr_plain::specs::HistoryText::target_text))]
fn write_target(text: &mut Text, pid: u32, lwp: u32) -> Result<(), NoMemory>
    ensures { OnOk result (text.new ≡ text.old ++ target_text pid lwp) }
{
    if lwp == 0 {
        text.decimal(u64::from(pid))
    } else {
        write_lwp(text, pid, lwp)
    }
}

/// An open file.
#[tactic(auto, unfolding(crate::specs::Names::known_text))]
pub fn write_known(text: &mut Text, known: Known) -> Result<(), NoMemory>
    ensures { OnOk result (text.new ≡ text.old ++ known_text known) }
{
    text.text(file_name(known.file).as_bytes())?;
    text.text(b" of ")?;
    write_target(text, known.pid, known.lwp)?;
    text.text(mode_words(known.mode))
}

/// A handle by what it stands for.
#[tactic(auto, unfolding(crate::specs::Names::handle_text))]
pub fn write_handle(text: &mut Text, names: &Names, handle: u32) -> Result<(), NoMemory>
    ensures { OnOk result (text.new ≡ text.old ++ handle_text names.now handle) }
{
    match names.get(handle) {
        None => {
            text.text(b"handle ")?;
            text.decimal(u64::from(handle))
        }
        Some(known) => write_known(text, *known),
    }
}

#[tactic(auto, unfolding(crate::specs::Names::listed_text))]
fn write_listed(text: &mut Text, names: &Names, handle: u32) -> Result<(), NoMemory>
    ensures { OnOk result (text.new ≡ text.old ++ listed_text names.now handle) }
{
    text.text(b" ")?;
    write_handle(text, names, handle)?;
    text.text(b";")
}

/// Handles of a list.
#[tactic(auto, unfolding(crate::specs::Names::handles_text))]
pub fn write_handles(text: &mut Text, names: &Names, handles: &[u32]) -> Result<(), NoMemory>
    ensures { OnOk result (text.new ≡ text.old ++ handles_text names.now handles.now) }
{
    for handle in handles {
        write_listed(text, names, *handle)?;
    }
    Ok(())
}

/// The record that is read by a handle.
#[tactic(auto, unfolding(crate::specs::Names::layout_in))]
pub fn layout_in(names: &Names, handle: u32) -> Layout
    ensures { result ≡ layout_in names.now handle }
{
    match names.get(handle) {
        None => Layout::Raw,
        Some(known) => layout_of(known.file),
    }
}

/// Takes what stands under an id out, if something does.
#[tactic(auto, using(pr_num::proofs::ByIdLaws::by_id_laws))]
fn forget<T: Drop>(table: &mut ById<T>, id: u32)
    ensures rest { table.new ≡ without_id id table.old }
    ensures free { under id table.new ≡ None }
{
    table.ids_rise();
    if table.contains(id) {
        table.remove(id);
    }
}

/// Puts a thing under an id, in place of one that may stand there.
#[tactic(auto, unfolding(crate::specs::Names::named))]
fn name<T: Drop>(table: &mut ById<T>, id: u32, thing: T) -> Result<(), NoMemory>
    ensures { OnOk result (table.new ≡ named id thing table.old) }
{
    forget(table, id);
    table.insert(id, thing)
}

/// What processes run that are made before the first turn.
#[tactic(auto, unfolding(crate::specs::News::started))]
fn started(alloc: Global, spawns: &[u32]) -> Result<ById<usize>, NoMemory>
    requires { length spawns.now + 1 < 2 ^ 32 }
    ensures { IfOk result (λ running. running ≡ started 1 [] spawns.now) }
{
    let mut running: ById<usize> = ById::new(alloc);
    for (i, place) in spawns.iter().enumerate() {
        name(&mut running, i as u32 + 1, *place as usize)?;
    }
    Ok(running)
}

/// Notes an open, where it gave a handle.
#[tactic(auto, unfolding(crate::specs::Names::opened))]
fn note_open(handles: &mut ById<Known>, known: Known, reply: &Reply) -> Result<(), NoMemory>
    ensures { OnOk result (handles.new ≡ opened known reply.now handles.old) }
{
    match reply {
        Reply::Handle(handle) => name(handles, *handle, known),
        _ => Ok(()),
    }
}

/// Notes a close, where it was done.
#[tactic(auto, unfolding(crate::specs::Names::closed))]
fn note_close(handles: &mut ById<Known>, handle: u32, reply: &Reply)
    ensures { handles.new ≡ closed handle reply.now handles.old }
{
    match reply {
        Reply::Done => forget(handles, handle),
        _ => {}
    }
}

/// Notes what a call changed.
#[tactic(auto, unfolding(crate::specs::Names::names_after))]
fn note_call(handles: &mut ById<Known>, call: &Call, reply: &Reply) -> Result<(), NoMemory>
    ensures { OnOk result (handles.new ≡ names_after handles.old call.now reply.now) }
{
    match call {
        Call::Open {
            pid,
            lwp,
            file,
            mode,
        } => {
            let known = Known {
                pid: *pid,
                lwp: *lwp,
                file: *file,
                mode: *mode,
            };
            note_open(handles, known, reply)
        }
        Call::Close { handle } => {
            note_close(handles, *handle, reply);
            Ok(())
        }
        _ => Ok(()),
    }
}

/// Notes what was done.
#[tactic(auto, unfolding(crate::specs::Names::handles_after))]
fn note_act(handles: &mut ById<Known>, act: &Act) -> Result<(), NoMemory>
    ensures { OnOk result (handles.new ≡ handles_after handles.old act.now) }
{
    match act {
        Act::Call(call, reply) => note_call(handles, call, reply),
        Act::Turn(_) => Ok(()),
        Act::Tick(_) => Ok(()),
    }
}

/// Notes what a process runs now, where it runs a program that has a listing.
fn note_place(running: &mut ById<usize>, pid: u32, place: Option<usize>) -> Result<(), NoMemory>
    ensures { OnOk result (running.new ≡ runs_now pid place running.old) }
{
    match place {
        None => {
            forget(running, pid);
            Ok(())
        }
        Some(place) => name(running, pid, place),
    }
}

/// Notes what an entry told of a process, if it did.
#[tactic(auto, unfolding(crate::specs::News::running_after))]
fn note_news(running: &mut ById<usize>, news: Option<News>) -> Result<(), NoMemory>
    ensures { OnOk result (running.new ≡ running_after news running.old) }
{
    match news {
        None => Ok(()),
        Some(news) => note_place(running, news.pid, news.place),
    }
}

/// Notes the entry of a number.
#[tactic(auto, unfolding(crate::specs::News::names_beyond))]
pub fn note(names: &mut Names, number: usize, entry: &Entry) -> Result<(), NoMemory>
    ensures { OnOk result (names.new ≡ names_beyond names.old number entry.now) }
{
    let news = news_of(names, entry);
    note_news(&mut names.running, news)?;
    note_turn(&mut names.moved, number, entry.actor)?;
    note_act(&mut names.handles, &entry.act)
}
