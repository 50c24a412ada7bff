//! What became of an access.

/// What a call on an access answers.
#[derive(Clone, Copy, Debug)]
pub enum Did {
    /// The access was made.
    Done,
    /// No ticket below the bound is left; this is the number that was drawn.
    Spent { ticket: u64 },
    NoMemory,
}
