//! The container of the accesses of some cells. The cells of a run are shared out over eight shards by their numbers, each shard
//! behind a lock of its own, so that accesses of different shards wait for nobody.
//!
//! A call takes a task and its place, which are those of one job, and makes one access: it asks for all memory first; then the
//! shard's holder is told what the task knows, and draws the ticket; then the access is kept, and the entry is fed to the task, which goes
//! on with what the shard knows. From the draw on nothing can fail.
#![tactic(auto)]

mod access;
pub mod calls;
pub mod cells;
pub mod did;
pub mod shard;
