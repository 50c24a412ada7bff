//! What is remembered of one cell.
use strand_tree::Strand;

/// An access that is remembered: its place in the history, and the strand on which it stands.
#[derive(Clone, Copy, Debug, PartialEq, Eq)]
pub struct Access {
    pub place: u32,
    pub strand: Strand,
}

/// Accesses in the order of their places.
pub type Accesses = Vec<Access>;

/// What is remembered of the accesses of one cell.
#[derive(Drop)]
pub enum Kept {
    /// No two accesses race: the last write, and the reads after it that no later read is joined with.
    Clean {
        writer: Option<Access>,
        readers: Accesses,
    },
    /// Two accesses race: `second` is the least place with an earlier partner, and `first` its greatest partner.
    Found {
        first: u32,
        second: u32,
    },
}
