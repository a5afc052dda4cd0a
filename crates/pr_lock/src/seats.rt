use crate::Logged;
use crate::views::{OneHistory, Origin, View};
use atomic_table::Table;
use std::alloc::Global;

/// A value that threads take in turn. It may be shared by threads where the value may go from one to another.
#[derive(Drop)]
pub struct Shared<V: Logged> {
    pub(crate) table: Table<Option<V>, View<V, V::Item>, Origin<V>, OneHistory, Global>,
}

/// The right to take the value of one lock. It has no bytes, and may go to another thread.
///
/// A seat that is dropped takes its shares with it, so the lock cannot be closed. One that is dropped between `enter`
/// and `leave` leaves the lock taken for ever.
#[derive(Drop)]
pub struct Seat<V: Logged> {
    pub(crate) seat: atomic_table::Seat<Option<V>, View<V, V::Item>>,
}
