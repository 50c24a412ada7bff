//! What is remembered of one task.
use fut_base::list::Listing;
use reach_table::Reach;
use strand_tree::Strand;

/// A task: the strand on which it stands, or with which it ended, that strand's table, and the children that it has
/// spawned since its last sync.
#[derive(Drop)]
pub struct Track {
    pub at: Strand,
    pub reach: Reach,
    pub block: Listing<u32>,
    pub ended: bool,
}
