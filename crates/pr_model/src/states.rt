/// The system as its kernel keeps it: everything that programs can see, and what controllers have set on processes and
/// their lwps. `G` is how the programs are kept, `W` the files, and `T` the processes.
#[derive(Drop)]
pub struct System<G, W, T> {
    /// The programs that processes can run.
    pub programs: G,
    /// The clock, in milliseconds.
    pub clock: u64,
    /// How many processes were ever made, process 0 among them; the next one gets this id.
    pub made: u32,
    pub files: W,
    /// Live processes and zombies, under their ids.
    pub processes: T,
}

/// The traced state: the system `Y`, and beside it what only controllers know of. `O` is how the open handles of the
/// process file system are kept.
#[derive(Drop)]
pub struct State<Y, O> {
    pub system: Y,
    /// The 1,024 places for open handles, by number.
    pub opens: O,
    /// The controllers that were interrupted and have not seen it yet: controller k is bit k.
    pub interrupted: u64,
}
