use thiserror::Error;

/// Why bytes do not begin with a record.
#[derive(Clone, Copy, Debug, PartialEq, Eq, Error)]
pub enum RecFault {
    /// There are fewer bytes than the record has.
    #[error("too few bytes for a record")]
    Short,
    /// The word that begins at byte `at` is the first that is out of its range.
    #[error("bad field at byte {at}")]
    BadField { at: usize },
}
