//! Lanes: a column for each actor of a history, and how its lwp stands after an entry, as its own turns tell it.
ghost use Rattle.std.specs.Prelude.{◌≡◌, ◌++◌, [], ◌∷◌, map, IfOk, OnOk};
ghost use Rattle.std.specs.List.{list_any};
ghost use Rattle.pr_hist.specs.Lanes.{after_act, after_turn, at_first, born, by_turn, call_ends, child_of, ended, ends_others, id_in, is_asked, is_ended, is_lane_of, is_lwp_of, is_same, is_some_same, lane_after, lanes_after, lanes_of, lwp_in, made_by, made_in, rank, settled, spawned, stand_after, turn_ends, with_born, with_entries, with_entry, with_lane};

use crate::selections::Who;
use pr_model::{Act, Actor, Call, Did, Entry, History, How, Reply, Res, Turned};
use pr_num::{AGENT, NoMemory, Sysno};
use std::alloc::Global;

/// How the lwp of a lane stands.
#[derive(Clone, Copy)]
pub enum Stand {
    /// It is not there: not made yet, or ended.
    Absent,
    /// It was made, and has had no turn yet.
    New,
    Runs,
    /// It stopped on what is traced.
    OnEvent,
    /// It stopped as it was directed to.
    Requested,
    /// It sleeps in a call.
    Asleep,
    /// A signal that it took stopped its process.
    JobStopped,
    /// The entry ended it.
    Ends,
}

/// A lane: whose it is, and how that stands.
#[derive(Clone, Copy)]
pub struct Lane {
    pub actor: Actor,
    pub stand: Stand,
}

/// Whether two actors are one.
#[tactic(auto, unfolding(crate::specs::Lanes::is_same))]
pub fn is_same(a: Actor, b: Actor) -> bool
    ensures { result ≡ is_same a b }
{
    match (a, b) {
        (Actor::Controller(j), Actor::Controller(k)) => j == k,
        (Actor::Lwp(p, l), Actor::Lwp(q, m)) => p == q && l == m,
        (Actor::Clock, Actor::Clock) => true,
        _ => false,
    }
}

/// Whether an actor is an lwp of a process.
#[tactic(auto, unfolding(crate::specs::Lanes::is_lwp_of))]
pub fn is_lwp_of(pid: u32, actor: Actor) -> bool
    ensures { result ≡ is_lwp_of pid actor }
{
    match actor {
        Actor::Lwp(p, _) => p == pid,
        Actor::Controller(_) | Actor::Clock => false,
    }
}

/// The first lwp of the process that a call made.
fn spawned(call: &Call, reply: &Reply) -> Option<Actor>
    ensures { result ≡ spawned call.now reply.now }
{
    match (call, reply) {
        (Call::Spawn { .. }, Reply::Pid(pid)) => Some(Actor::Lwp(*pid, 1)),
        _ => None,
    }
}

/// The id of a value, where it can be one.
#[tactic(auto, unfolding(crate::specs::Lanes::id_in))]
fn id_in(n: u64) -> Option<u32>
    ensures { result ≡ id_in n }
{
    if n < 4_294_967_296 {
        Some(n as u32)
    } else {
        None
    }
}

fn child_of(pid: Option<u32>) -> Option<Actor>
    ensures { result ≡ child_of pid }
{
    Some(Actor::Lwp(pid?, 1))
}

fn lwp_in(pid: u32, lwp: Option<u32>) -> Option<Actor>
    ensures { result ≡ lwp_in pid lwp }
{
    Some(Actor::Lwp(pid, lwp?))
}

/// The lwp that a turn of an lwp of a process made.
#[tactic(auto, unfolding(crate::specs::Lanes::made_by))]
pub fn made_by(pid: u32, did: Did) -> Option<Actor>
    ensures { result ≡ made_by pid did }
{
    match did {
        Did::Made(Sysno::Fork, Res::Value(n)) => child_of(id_in(n)),
        Did::Made(Sysno::Vfork, Res::Value(n)) => child_of(id_in(n)),
        Did::Made(Sysno::LwpCreate, Res::Value(n)) => lwp_in(pid, id_in(n)),
        _ => None,
    }
}

fn made_in(actor: Actor, did: Did) -> Option<Actor>
    ensures { result ≡ made_in actor did }
{
    match actor {
        Actor::Lwp(pid, _) => made_by(pid, did),
        Actor::Controller(_) | Actor::Clock => None,
    }
}

/// The lwp that an entry made.
#[tactic(auto, unfolding(crate::specs::Lanes::born))]
fn born(entry: &Entry) -> Option<Actor>
    ensures { result ≡ born entry.now }
{
    match &entry.act {
        Act::Call(call, reply) => spawned(call, reply),
        Act::Turn(turned) => made_in(entry.actor, turned.did),
        Act::Tick(_) => None,
    }
}

/// Whether an entry made this actor.
pub fn is_born(entry: &Entry, actor: Actor) -> bool
    ensures { result ≡ is_some_same (born entry.now) actor }
{
    match born(entry) {
        None => false,
        Some(one) => is_same(one, actor),
    }
}

/// Whether a turn leaves no other lwp of its process.
#[tactic(auto, unfolding(crate::specs::Lanes::ends_others))]
fn ends_others(did: Did) -> bool
    ensures { result ≡ ends_others did }
{
    match did {
        Did::Made(Sysno::Exit | Sysno::Kill | Sysno::Sigqueue, Res::Ended) => true,
        Did::Made(Sysno::Exec, Res::Value(_)) => true,
        Did::Acted(_, How::Died) => true,
        _ => false,
    }
}

fn turn_ends(by: Actor, did: Did, actor: Actor) -> bool
    ensures { result ≡ turn_ends by did actor }
{
    match by {
        Actor::Lwp(pid, _) => ends_others(did) && is_lwp_of(pid, actor),
        Actor::Controller(_) | Actor::Clock => false,
    }
}

/// SIGKILL from outside.
fn call_ends(call: &Call, reply: &Reply, actor: Actor) -> bool
    ensures { result ≡ call_ends call.now reply.now actor }
{
    match (call, reply) {
        (Call::Kill { pid, sig }, Reply::Done) => *sig == 9 && is_lwp_of(*pid, actor),
        _ => false,
    }
}

/// Whether an entry of another actor ended an lwp.
#[tactic(auto, unfolding(crate::specs::Lanes::is_ended))]
fn is_ended(entry: &Entry, actor: Actor) -> bool
    ensures { result ≡ is_ended entry.now actor }
{
    match &entry.act {
        Act::Call(call, reply) => call_ends(call, reply, actor),
        Act::Turn(turned) => turn_ends(entry.actor, turned.did, actor),
        Act::Tick(_) => false,
    }
}

/// How an lwp stands after what it did in a turn.
#[tactic(auto, unfolding(crate::specs::Lanes::by_turn))]
fn by_turn(did: Did) -> Stand
    ensures { result ≡ by_turn did }
{
    match did {
        Did::Stopped => Stand::Requested,
        Did::Slept(_) => Stand::Asleep,
        Did::Acted(_, How::JobStop) => Stand::JobStopped,
        Did::Acted(_, How::Died) => Stand::Ends,
        Did::Made(_, Res::Ended) => Stand::Ends,
        Did::Woke(_, Res::Ended) => Stand::Ends,
        _ => Stand::Runs,
    }
}

#[tactic(auto, unfolding(crate::specs::Lanes::after_turn))]
fn after_turn(turned: Turned) -> Stand
    ensures { result ≡ after_turn turned }
{
    if turned.stop {
        Stand::OnEvent
    } else {
        by_turn(turned.did)
    }
}

fn after_act(act: &Act) -> Stand
    ensures { result ≡ after_act act.now }
{
    match act {
        Act::Call(_, _) => Stand::Runs,
        Act::Turn(turned) => after_turn(*turned),
        Act::Tick(_) => Stand::Runs,
    }
}

/// After its end, which one entry shows, an lwp is not there.
#[tactic(auto, unfolding(crate::specs::Lanes::settled))]
fn settled(stand: Stand) -> Stand
    ensures { result ≡ settled stand }
{
    match stand {
        Stand::Ends => Stand::Absent,
        _ => stand,
    }
}

#[tactic(auto, unfolding(crate::specs::Lanes::ended))]
fn ended(stand: Stand) -> Stand
    ensures { result ≡ ended stand }
{
    match stand {
        Stand::Absent => Stand::Absent,
        Stand::Ends => Stand::Absent,
        _ => Stand::Ends,
    }
}

/// How an actor stands after an entry.
#[tactic(auto, unfolding(crate::specs::Lanes::stand_after))]
fn stand_after(entry: &Entry, actor: Actor, stand: Stand) -> Stand
    ensures { result ≡ stand_after entry.now actor stand }
{
    if is_same(entry.actor, actor) {
        after_act(&entry.act)
    } else if is_born(entry, actor) {
        Stand::New
    } else if is_ended(entry, actor) {
        ended(stand)
    } else {
        settled(stand)
    }
}

#[tactic(auto, unfolding(crate::specs::Lanes::lane_after))]
fn lane_after(entry: &Entry, lane: Lane) -> Lane
    ensures { result ≡ lane_after entry.now lane }
{
    Lane {
        actor: lane.actor,
        stand: stand_after(entry, lane.actor, lane.stand),
    }
}

/// The lanes after an entry.
pub fn move_lanes(lanes: &mut [Lane], entry: &Entry)
    ensures { lanes.new ≡ lanes_after entry.now lanes.old }
{
    for i in 0..lanes.len() {
        lanes[i] = lane_after(entry, lanes[i]);
    }
}

/// Controllers stand before the clock, and that before lwps.
#[tactic(auto, unfolding(crate::specs::Lanes::rank))]
fn rank(actor: Actor) -> u64
    ensures { result ≡ rank actor }
{
    match actor {
        Actor::Controller(_) => 0,
        Actor::Clock => 1,
        Actor::Lwp(_, _) => 2,
    }
}

/// Whether an actor has a lane where these entries are told.
#[tactic(auto, unfolding(crate::specs::Lanes::is_asked))]
fn is_asked(who: Option<Who>, actor: Actor) -> bool
    ensures { result ≡ is_asked who actor }
{
    match (who, actor) {
        (None, _) => true,
        (Some(Who::Controller(k)), Actor::Controller(j)) => j == k,
        (Some(Who::Controller(_)), Actor::Clock) => false,
        (Some(Who::Controller(_)), Actor::Lwp(_, _)) => true,
        (Some(Who::Process(_)), Actor::Controller(_)) => true,
        (Some(Who::Process(_)), Actor::Clock) => false,
        (Some(Who::Process(pid)), Actor::Lwp(p, _)) => p == pid,
        (Some(Who::Lwp(_, _)), Actor::Controller(_)) => false,
        (Some(Who::Lwp(_, _)), Actor::Clock) => false,
        (Some(Who::Lwp(pid, lwp)), Actor::Lwp(p, l)) => p == pid && l == lwp,
    }
}

/// An actor whose first act is met was there from the beginning, but for the agent, which no turn makes.
#[tactic(auto, unfolding(crate::specs::Lanes::at_first))]
fn at_first(actor: Actor) -> Stand
    ensures { result ≡ at_first actor }
{
    match actor {
        Actor::Lwp(_, lwp) => {
            if lwp == AGENT {
                Stand::Absent
            } else {
                Stand::Runs
            }
        }
        Actor::Controller(_) | Actor::Clock => Stand::Runs,
    }
}

/// Whether a lane is an actor's.
#[tactic(auto, unfolding(crate::specs::Lanes::is_lane_of))]
pub fn is_lane_of(actor: Actor, lane: &Lane) -> bool
    ensures { result ≡ is_lane_of actor lane.now }
{
    is_same(lane.actor, actor)
}

fn has_lane(lanes: &[Lane], actor: Actor) -> bool
    ensures { result ≡ list_any (is_lane_of actor) lanes.now }
{
    lanes.iter().any(|lane| is_lane_of(actor, lane))
}

/// Adds a lane for an actor of a rank, where it has none.
#[tactic(auto, unfolding(crate::specs::Lanes::with_lane))]
fn add_lane(
    lanes: &mut Vec<Lane>,
    of: u64,
    who: Option<Who>,
    stand: Stand,
    actor: Actor,
) -> Result<(), NoMemory>
    ensures { OnOk result (lanes.new.items ≡ with_lane of who stand actor lanes.old.items) }
{
    if rank(actor) == of && (is_asked(who, actor) && !has_lane(lanes, actor)) {
        lanes.push(Lane { actor, stand })?;
    }
    Ok(())
}

fn add_born(
    lanes: &mut Vec<Lane>,
    of: u64,
    who: Option<Who>,
    actor: Option<Actor>,
) -> Result<(), NoMemory>
    ensures { OnOk result (lanes.new.items ≡ with_born of who actor lanes.old.items) }
{
    match actor {
        None => Ok(()),
        Some(actor) => add_lane(lanes, of, who, Stand::Absent, actor),
    }
}

/// Adds the lanes of an entry: of who acted, and of whom it made.
#[tactic(auto, unfolding(crate::specs::Lanes::with_entry))]
fn add_entry(
    lanes: &mut Vec<Lane>,
    of: u64,
    who: Option<Who>,
    entry: &Entry,
) -> Result<(), NoMemory>
    ensures { OnOk result (lanes.new.items ≡ with_entry of who entry.now lanes.old.items) }
{
    add_lane(lanes, of, who, at_first(entry.actor), entry.actor)?;
    add_born(lanes, of, who, born(entry))
}

/// Adds the lanes of a rank that a history has.
fn add_entries(
    lanes: &mut Vec<Lane>,
    of: u64,
    who: Option<Who>,
    history: &History,
) -> Result<(), NoMemory>
    ensures { OnOk result (lanes.new.items ≡ with_entries of who lanes.old.items history.now.entries) }
{
    for at in 0..history.len() {
        let entry = history.get(at).unwrap();
        add_entry(lanes, of, who, entry)?;
    }
    Ok(())
}

/// The lanes of a history before its first entry: controllers, the clock and lwps, each in the order in which they
/// come.
#[tactic(auto, unfolding(crate::specs::Lanes::lanes_of))]
pub fn lanes_of(alloc: Global, who: Option<Who>, history: &History) -> Result<Vec<Lane>, NoMemory>
    ensures { IfOk result (λ lanes. lanes.items ≡ lanes_of who history.now.entries) }
{
    let mut lanes = Vec::new(alloc);
    add_entries(&mut lanes, 0, who, history)?;
    add_entries(&mut lanes, 1, who, history)?;
    add_entries(&mut lanes, 2, who, history)?;
    Ok(lanes)
}
