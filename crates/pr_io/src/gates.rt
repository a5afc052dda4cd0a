/// What a worker passes before each of its turns. It has no meaning: what it does changes no
/// answer.
pub trait Gate {
    /// Called outside every lock. `worker` is 0 to W - 1 for the W processor workers, and W + k
    /// for controller k. `turn` is the number of the worker's next turn.
    fn pass(&self, worker: u32, turn: u64);
}

/// A gate that lets everybody through at once.
#[derive(Clone, Copy, Debug)]
pub struct OpenGate;

impl Gate for OpenGate {
    fn pass(&self, _worker: u32, _turn: u64) {}
}
