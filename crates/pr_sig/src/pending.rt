ghost use Rattle.std.specs.Prelude.{◌≡◌, Some, IsTrue, IsSome};
ghost use Rattle.pr_parts.specs.PendingSignals.{IsPendings, nothing_pending, info_of, pending_set, has_room, added, without_one, without_signals};

use crate::places::Places;
use arrayvec::ArrayVec;
use pr_num::limits::STANDARD_SIGNAL_COUNT;
use pr_num::{Info, Sig, SigSet};
use std::marker::Model;

/// The signals that are pending for a process or an lwp, with what came with them (sigpending(2), sigqueue(3C)): a
/// standard signal once at most, and the others in the order in which they came. Nothing here takes memory.
#[derive(Drop)]
pub struct Pendings {
    /// The set of those that stand, so that a question for it looks at no place.
    set: SigSet,
    places: Places,
}

impl Model for Pendings {
    ghost use Rattle.std.specs.Prelude.{◌≡◌};
    ghost use Rattle.pr_parts.specs.PendingSignals.{Pending, pending_set};

    ghost Value = { Pending };

    ghost view = { λ a. a.places };

    ghost invariant = { λ a. a.set ≡ pending_set a.places };
}

impl Pendings {
    /// No signal is pending.
    pub fn new() -> Pendings
        ensures { result ≡ nothing_pending }
    {
        // the places are written here: what is made elsewhere is copied, and they have 2 KB
        Pendings {
            set: SigSet::empty(),
            places: Places {
                standard: [None; STANDARD_SIGNAL_COUNT],
                queued: ArrayVec::new(),
            },
        }
    }

    /// No signal is pending any more.
    pub fn clear(&mut self)
        ensures { self.new ≡ nothing_pending }
    {
        self.places.clear();
        self.set = SigSet::empty();
    }

    /// Every process and every lwp has a place for each standard signal, and a queue within its limit.
    pub fn have_places(&self)
        ensures { IsPendings self.now }
    {
        self.places.are_places();
    }

    /// The pending signals.
    pub fn set(&self) -> SigSet
        ensures { result ≡ pending_set self.now }
    {
        self.set
    }

    /// What came with a signal, if it is pending; of one that queues, with the first that came.
    pub fn info(&self, s: Sig) -> Option<Info>
        ensures { result ≡ info_of s self.now }
    {
        self.places.info(s)
    }

    /// Whether a signal can be added: one that queues can while the queue is not full.
    pub fn room(&self, s: Sig) -> bool
        ensures { result ≡ has_room s self.now }
    {
        self.places.room(s)
    }

    /// The signal becomes pending with its information; there is room for it. What came with a standard signal that is
    /// pending already stays, unless a fault sends it.
    #[tactic(auto, using(pr_parts::proofs::PendingLemmas::pending_laws))]
    pub fn add(&mut self, s: Sig, info: Info)
        requires { IsTrue (has_room s self.old) }
        ensures { self.new ≡ added s info self.old }
    {
        self.places.are_places();
        self.places.add(s, info);
        self.set = self.set.with(s);
    }

    /// The signal, which is pending, is taken, and what came with it is answered.
    pub fn take(&mut self, s: Sig) -> Info
        requires { IsSome (info_of s self.old) }
        ensures info { info_of s self.old ≡ Some result }
        ensures rest { self.new ≡ without_one s self.old }
    {
        let info = self.info(s).unwrap();
        self.delete_one(s);
        info
    }

    /// A standard signal is pending no longer; of one that queues, the first that came is not.
    #[tactic(auto, using(pr_parts::proofs::PendingLemmas::pending_laws))]
    pub fn delete_one(&mut self, s: Sig)
        ensures { self.new ≡ without_one s self.old }
    {
        self.places.are_places();
        self.places.remove_one(s);
        if self.places.info(s).is_none() {
            self.set = self.set.without(s);
        }
    }

    /// The signals of a set are pending no longer, however often they came.
    #[tactic(auto, using(pr_parts::proofs::PendingLemmas::pending_laws))]
    pub fn delete(&mut self, signals: SigSet)
        ensures { self.new ≡ without_signals signals self.old }
    {
        self.places.remove_all(signals);
        self.set = self.set.minus(signals);
    }
}
