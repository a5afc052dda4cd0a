//! What an entry tells of which program a process runs.
ghost use Rattle.std.specs.Prelude.{◌≡◌, ◌<◌, ◌≤◌};
ghost use Rattle.std.specs.Option.{option_copied};
ghost use Rattle.pr_num.specs.ById.{under};
ghost use Rattle.pr_hist.specs.News.{call_news, did_news, inherited, is_psinfo, known_news, name_shown, news_of, read_news, shown_news, spawn_news, turn_news};

use crate::lanes::made_by;
use crate::listings::{Listing, listed_at};
use crate::names::{Known, Names};
use crate::texts::name_in;
use pr_model::{Act, Actor, Call, Did, Entry, File, Reply, Res};
use pr_num::{ById, Sysno};
use pr_text::behind;

/// What an entry tells of a process.
#[derive(Clone, Copy)]
pub struct News {
    pub pid: u32,
    /// The place of the listing of the program that it runs now; `None`: that program has none.
    pub place: Option<usize>,
}

/// What a spawn tells.
#[tactic(auto, unfolding(crate::specs::News::spawn_news))]
fn spawn_news(listings: &[Listing], program: &[u8], reply: &Reply) -> Option<News>
    ensures { result ≡ spawn_news listings.now program.now reply.now }
{
    match reply {
        Reply::Pid(pid) => Some(News {
            pid: *pid,
            place: listed_at(listings, program),
        }),
        _ => None,
    }
}

/// The name of the program, where these bytes of psinfo have it.
#[tactic(auto, unfolding(crate::specs::News::name_shown))]
fn name_shown(at: u64, bytes: &[u8]) -> Option<&[u8]>
    ensures { option_copied result ≡ name_shown at bytes.now }
{
    if at > 64 {
        return None;
    }
    let place = 64 - at as usize;
    if place + 32 <= bytes.len() {
        Some(name_in(behind(bytes, place)))
    } else {
        None
    }
}

#[tactic(auto, unfolding(crate::specs::News::is_psinfo))]
fn is_psinfo(file: File) -> bool
    ensures { result ≡ is_psinfo file }
{
    match file {
        File::Psinfo => true,
        _ => false,
    }
}

fn shown_news(listings: &[Listing], pid: u32, name: Option<&[u8]>) -> Option<News>
    ensures { result ≡ shown_news listings.now pid (option_copied name.entry) }
{
    match name {
        None => None,
        Some(name) => Some(News {
            pid,
            place: listed_at(listings, name),
        }),
    }
}

/// What a read of a file tells.
fn known_news(listings: &[Listing], known: Option<Known>, at: u64, bytes: &[u8]) -> Option<News>
    ensures { result ≡ known_news listings.now known at bytes.now }
{
    match known {
        None => None,
        Some(known) => {
            if is_psinfo(known.file) {
                shown_news(listings, known.pid, name_shown(at, bytes))
            } else {
                None
            }
        }
    }
}

/// What a read by a handle tells.
#[tactic(auto, unfolding(crate::specs::News::read_news))]
fn read_news(names: &Names, handle: u32, at: u64, reply: &Reply) -> Option<News>
    ensures { result ≡ read_news names.now handle at reply.now }
{
    match reply {
        Reply::Bytes(bytes) => known_news(
            names.listings(),
            names.get(handle).copied(),
            at,
            bytes.as_slice(),
        ),
        _ => None,
    }
}

/// What a call tells.
#[tactic(auto, unfolding(crate::specs::News::call_news))]
fn call_news(names: &Names, call: &Call, reply: &Reply) -> Option<News>
    ensures { result ≡ call_news names.now call.now reply.now }
{
    match call {
        Call::Spawn { program, .. } => spawn_news(names.listings(), program.as_slice(), reply),
        Call::Read { handle, at, .. } => read_news(names, *handle, *at, reply),
        _ => None,
    }
}

/// A child runs what its parent runs.
fn inherited(running: &ById<usize>, pid: u32, child: Option<Actor>) -> Option<News>
    ensures { result ≡ inherited running.now pid child }
{
    match child {
        Some(Actor::Lwp(child, _)) => Some(News {
            pid: child,
            place: running.get(pid).copied(),
        }),
        _ => None,
    }
}

/// What a turn of an lwp of a process tells.
#[tactic(auto, unfolding(crate::specs::News::did_news))]
fn did_news(running: &ById<usize>, pid: u32, did: Did) -> Option<News>
    ensures { result ≡ did_news running.now pid did }
{
    match did {
        Did::Made(Sysno::Exec, Res::Value(_)) => Some(News { pid, place: None }),
        _ => inherited(running, pid, made_by(pid, did)),
    }
}

fn turn_news(running: &ById<usize>, actor: Actor, did: Did) -> Option<News>
    ensures { result ≡ turn_news running.now actor did }
{
    match actor {
        Actor::Lwp(pid, _) => did_news(running, pid, did),
        Actor::Controller(_) | Actor::Clock => None,
    }
}

/// What an entry tells.
#[tactic(auto, unfolding(crate::specs::News::news_of))]
pub fn news_of(names: &Names, entry: &Entry) -> Option<News>
    ensures { result ≡ news_of names.now entry.now }
{
    match &entry.act {
        Act::Call(call, reply) => call_news(names, call, reply),
        Act::Turn(turned) => turn_news(names.running(), entry.actor, turned.did),
        Act::Tick(_) => None,
    }
}
