//! Watching a run.

/// Is called by the workers of a run. No clause rests on what it does; tests hold a worker, or watch, by gates of their own.
pub trait Gate {
    /// Called by a worker before each event, with the number of events that it has made.
    fn pass(&self, worker: u32, events: u32);

    /// Called by a worker after the access with which a cell's first pair was found.
    fn found(&self, cell: u32);
}

/// The gate that does nothing.
#[derive(Clone, Copy, Debug)]
pub struct FreeGate;

impl Gate for FreeGate {
    fn pass(&self, _worker: u32, _events: u32) {}

    fn found(&self, _cell: u32) {}
}
