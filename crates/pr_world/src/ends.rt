/// How a world ends.
#[derive(Clone, Copy, Debug, PartialEq, Eq)]
pub enum End {
    /// No actor can move, and every controller has finished.
    Quiet,
    /// All places of the history are taken, and an actor could move still.
    Spent,
    /// No actor can move, and a controller has not finished.
    Stuck,
}
