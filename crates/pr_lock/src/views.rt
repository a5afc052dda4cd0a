//! What the seats know, the rule that ties it to the table, and what each step makes of it. No value of these types is
//! made, but for the origin.
use crate::Logged;
use atomic_table::{Join, Play, Split, TableRule};
use std::collections::LinkedList;
use std::snapshot::Snapshot;

/// What a lock was made with.
#[derive(Drop)]
pub struct Origin<V> {
    pub first: Snapshot<V>,
    pub seats: u32,
}

/// What a seat knows. It exists in proofs alone.
pub struct View<V, I> {
    /// What the lock was made with; `None` once the seat was joined into another.
    pub origin: Option<Origin<V>>,
    /// The first seat, before it has its shares.
    pub fresh: bool,
    /// The history that it has seen.
    pub seen: LinkedList<I>,
    /// The seat's own entries, each with its place in the history.
    pub own: LinkedList<(u64, I)>,
    /// The history that was entered, between `enter` and `leave`.
    pub entered: Option<LinkedList<I>>,
    /// The value was over when the seat saw it last.
    pub over: bool,
    /// Its shares of the lock.
    pub shares: u32,
}

/// The rule of the table: there is one history.
pub struct OneHistory;

impl<V: Logged> TableRule<Option<V>, View<V, V::Item>, Origin<V>> for OneHistory {
    ghost use Rattle.pr_lock.specs.Rule.{KeepsRule, newcomer};

    ghost holds = { KeepsRule V.entries V.over V.comes };

    ghost first = { newcomer };
}

/// The first seat gets all shares.
pub struct Begin;

impl<V: Logged> Play<Option<V>, View<V, V::Item>> for Begin {
    ghost use Rattle.pr_lock.specs.Steps.{Begins};

    ghost then = { λ _. Begins };
}

/// A seat takes the value if nobody has it.
pub struct Try;

impl<V: Logged> Play<Option<V>, View<V, V::Item>> for Try {
    ghost use Rattle.pr_lock.specs.Steps.{Tries};

    ghost then = { λ _. Tries V.entries V.over V.comes };
}

/// A seat gives the value back.
pub struct Leave;

impl<V: Logged> Play<Option<V>, View<V, V::Item>> for Leave {
    ghost use Rattle.pr_lock.specs.Steps.{Leaves};

    ghost then = { λ _. Leaves V.entries V.over };
}

/// A share goes to a new seat.
pub struct Share;

impl<V, I> Split<View<V, I>> for Share {
    ghost use Rattle.pr_lock.specs.Steps.{lessened, offspring};

    ghost left = { lessened };

    ghost right = { offspring };
}

/// A seat takes in another.
pub struct TakeIn;

impl<V, I> Join<View<V, I>> for TakeIn {
    ghost use Rattle.pr_lock.specs.Steps.{joined, spent};

    ghost both = { joined };

    ghost spent = { spent };
}
