//! What a run text says.
use fut_base::record::{Finish, History, Races, Text};

/// What a run text says: its program's bytes, its entries, its races and its finish.
#[derive(Drop)]
pub struct RunText {
    pub program: Text,
    pub history: History,
    pub races: Races,
    pub finish: Finish,
}

/// Why no run text was read.
#[derive(Clone, Copy, Debug, PartialEq, Eq, thiserror::Error)]
pub enum ReadFault {
    /// The bytes are no run text. Their longest beginning with which a run text begins has so many bytes.
    #[error("not a run {byte}")]
    NotRun { byte: u32 },
    #[error("no memory")]
    NoMemory,
}
