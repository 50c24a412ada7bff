//! What a seat at the words knows. No value of these types is made.
use std::collections::LinkedList;

/// After which items the next item was put, in each list.
pub struct Insert {
    pub english: u64,
    pub hebrew: u64,
}

/// A label that was loaded, and the word that has it.
pub struct Label {
    pub word: u64,
    pub label: u64,
}

/// Labels that were loaded while this was the version.
pub struct Snapshot {
    pub version: u64,
    pub labels: LinkedList<Label>,
}

/// What the writer or a reader knows.
pub struct View {
    pub writes: bool,
    /// The inserts that it knows, in order.
    pub log: LinkedList<Insert>,
    /// The words, of the writer alone.
    pub words: LinkedList<u64>,
    /// The logs of the readers that were joined.
    pub olds: LinkedList<LinkedList<Insert>>,
    pub snapshot: Snapshot,
    /// The versions that were loaded, in order.
    pub loaded: LinkedList<u64>,
}
