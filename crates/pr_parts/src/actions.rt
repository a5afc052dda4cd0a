/// What a process does with a signal that it takes (sigaction(2)).
#[derive(Clone, Copy, Debug, PartialEq, Eq)]
pub enum Action {
    /// The signal is dropped.
    Ignore,
    /// The process is stopped by job control.
    Stop,
    /// The process ends.
    Die,
    /// Its handler runs, which is at this address.
    Catch(u64),
}
