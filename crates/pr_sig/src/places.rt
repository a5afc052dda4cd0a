ghost use Rattle.std.specs.Prelude.{◌≡◌, ◌≤◌, not, Some, IsSome, IsTrue, filter, find, length, option_map, position};
ghost use Rattle.pr_num.specs.Limits.{queue_limit};
ghost use Rattle.pr_num.specs.KeyedTables.{without_first};
ghost use Rattle.pr_num.specs.Sets.{has_number};
ghost use Rattle.pr_num.specs.Signals.{signal_number};
ghost use Rattle.pr_parts.specs.PendingSignals.{IsPendings, nothing_pending, is_standard, is_of, info_of, has_room, kept_info, added, without_one, without_infos, without_signals};

use arrayvec::ArrayVec;
use pr_num::limits::{QUEUE_LIMIT, STANDARD_SIGNAL_COUNT};
use pr_num::{Info, Sig, SigSet};
use pr_parts::Queued;
use std::marker::Model;

/// A queue of real-time signals, kept in place.
type Queue = ArrayVec<Queued, QUEUE_LIMIT>;

/// Where pending signals stand: a standard signal at the place of its number, the others in a queue. Nothing here takes
/// memory.
#[derive(Drop)]
pub(crate) struct Places {
    pub(crate) standard: [Option<Info>; STANDARD_SIGNAL_COUNT],
    pub(crate) queued: Queue,
}

impl Model for Places {
    ghost use Rattle.pr_parts.specs.PendingSignals.{Pending, IsPendings};

    ghost Value = { Pending };

    ghost view = { λ a. record { standard = a.standard; queued = a.queued.items } };

    ghost invariant = { λ a. IsPendings (record { standard = a.standard; queued = a.queued.items }) };
}

/// Whether the signal is pending once at most.
pub(crate) fn is_standard(s: Sig) -> bool
    ensures { result ≡ is_standard s }
{
    s.number() as usize <= STANDARD_SIGNAL_COUNT
}

/// What is kept of what came with a standard signal, where this stands already.
fn kept(standing: Option<Info>, info: Info) -> Info
    ensures { result ≡ kept_info standing info }
{
    match standing {
        Some(first) if info.code != Info::FAULT => first,
        _ => info,
    }
}

/// What came with the first pair of a signal in a queue.
fn first_of(queued: &[Queued], s: Sig) -> Option<Info>
    ensures { result ≡ option_map (λ q. q.info) (find (is_of s) queued.now) }
{
    queued
        .iter()
        .find(|pair| pair.signal.number() == s.number())
        .map(|pair| pair.info)
}

/// The place of the first pair of a signal in a queue.
fn place_of(queued: &[Queued], s: Sig) -> Option<usize>
    ensures { result ≡ position (is_of s) queued.now }
{
    queued
        .iter()
        .position(|pair| pair.signal.number() == s.number())
}

/// Takes the first pair of a signal out of a queue.
#[tactic(auto, using(pr_num::proofs::TableLemmas::change_first_laws))]
fn remove_first(queued: &mut Queue, s: Sig)
    ensures { queued.new.items ≡ without_first (is_of s) queued.old.items }
{
    if let Some(place) = place_of(queued.as_slice(), s) {
        queued.remove(place);
    }
}

/// Clears the places of the signals of a set.
#[tactic(auto, using(pr_parts::proofs::PendingLemmas::clearing_laws))]
fn clear_places(standard: &mut [Option<Info>; STANDARD_SIGNAL_COUNT], signals: SigSet)
    ensures { standard.new ≡ without_infos signals 1 standard.old }
{
    for place in 0..STANDARD_SIGNAL_COUNT {
        if signals.has_number(place as u64 + 1) {
            standard[place] = None;
        }
    }
}

/// A queue without the pairs of the signals of a set.
fn remaining(queued: &[Queued], signals: SigSet) -> Queue
    requires { length queued.now ≤ queue_limit }
    ensures { result.items ≡ filter (λ q. not (has_number signals (signal_number q.signal))) queued.now }
{
    let mut left: Queue = ArrayVec::new();
    for pair in queued {
        if !signals.has(pair.signal) {
            left.push(*pair);
        }
    }
    left
}

impl Places {
    /// Nothing stands any more. What is there is changed in place, and no other places are made and moved.
    pub(crate) fn clear(&mut self)
        ensures { self.new ≡ nothing_pending }
    {
        self.standard = [None; STANDARD_SIGNAL_COUNT];
        self.queued.clear();
    }

    /// There is a place for each standard signal, and the queue is within its limit.
    pub(crate) fn are_places(&self)
        ensures { IsPendings self.now }
    {
        let _ = &self.standard;
    }

    /// What came with a signal, if it stands; of one that queues, with the first that came.
    #[tactic(auto, using(pr_parts::proofs::PendingLemmas::kind_laws))]
    pub(crate) fn info(&self, s: Sig) -> Option<Info>
        ensures { result ≡ info_of s self.now }
    {
        if is_standard(s) {
            self.standard[s.number() as usize - 1]
        } else {
            first_of(self.queued.as_slice(), s)
        }
    }

    /// Whether a signal can be added.
    #[tactic(auto, unfolding(pr_parts::specs::PendingSignals::has_room))]
    pub(crate) fn room(&self, s: Sig) -> bool
        ensures { result ≡ has_room s self.now }
    {
        if is_standard(s) {
            true
        } else {
            self.queued.len() < QUEUE_LIMIT
        }
    }

    /// A signal comes, for which there is room.
    #[tactic(auto, using(pr_parts::proofs::PendingLemmas::kind_laws), unfolding(pr_parts::specs::PendingSignals::has_room))]
    pub(crate) fn add(&mut self, s: Sig, info: Info)
        requires { IsTrue (has_room s self.old) }
        ensures { self.new ≡ added s info self.old }
    {
        if is_standard(s) {
            let place = s.number() as usize - 1;
            let info = kept(self.standard[place], info);
            self.standard[place] = Some(info);
        } else {
            self.queued.push(Queued { signal: s, info });
        }
    }

    /// A standard signal goes, and of one that queues the first that came.
    #[tactic(auto, using(pr_parts::proofs::PendingLemmas::kind_laws))]
    pub(crate) fn remove_one(&mut self, s: Sig)
        ensures { self.new ≡ without_one s self.old }
    {
        if is_standard(s) {
            self.standard[s.number() as usize - 1] = None;
        } else {
            remove_first(&mut self.queued, s);
        }
    }

    /// The signals of a set go.
    #[tactic(auto, unfolding(pr_parts::specs::PendingSignals::without_signals))]
    pub(crate) fn remove_all(&mut self, signals: SigSet)
        ensures { self.new ≡ without_signals signals self.old }
    {
        clear_places(&mut self.standard, signals);
        self.queued = remaining(self.queued.as_slice(), signals);
    }
}
