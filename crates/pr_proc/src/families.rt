/// What there is of the children of a process (wait(3C)).
#[derive(Clone, Copy, Debug, PartialEq, Eq)]
pub enum Children {
    /// There are none.
    Nobody,
    /// There are some, and none of them has ended.
    Living,
    /// The least id of those that have ended, and its wait status.
    Zombie(u32, u64),
}
