//! A worker of one run.
ghost use Rattle.std.specs.Prelude.{◌≡◌, false, MatchBool};
ghost use Rattle.steal_pool.specs.Workers.{IsStopped};

use crate::thief::Thief;
use fut_base::ready::Ready;

/// A worker of one run: its deque with its passes to the others, its number, the value that is its own, the job with
/// which it goes on, the jobs that it left when it stopped, and why it stopped: a turn said halt, or a push was refused.
#[derive(Drop)]
pub struct Worker<J, W> {
    pub(crate) thief: Thief<J>,
    pub(crate) number: u32,
    pub(crate) own: W,
    pub(crate) next: Option<J>,
    pub(crate) left: Ready<J>,
    pub(crate) halted: bool,
    pub(crate) refused: bool,
}

impl<J, W> Worker<J, W> {
    pub(crate) fn has_stopped(&self) -> bool
        ensures { MatchBool result (IsStopped self.now) ((self.now.halted ≡ false) × (self.now.refused ≡ false)) }
    {
        self.halted || self.refused
    }
}
