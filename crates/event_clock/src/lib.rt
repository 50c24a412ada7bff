//! The event clock: tickets below a bound, drawn from one word by one atomic exchange each, and what each holder knows of the draws.
//!
//! A *holder* draws under its number, for the tasks that it carries; a *pass* carries tasks, and what is known of all draws, from
//! one holder to another. The word says how many draws there were. What a holder or pass knows is a `View` that contracts see and no
//! code keeps: the entries of each holder as far as it knows them, and beside each task that it carries all entries of that task.
//!
//! ```text
//!     note: a pass for one task       split: a pass for all its tasks
//!     holder ──────▶ pass ──────▶ .. ──────▶ holder
//!                     tell: the holder knows what both knew      join: the same of two passes
//! ```
//!
//! The layer above uses `Clock::make`, `draw`, `note`, `tell`, `split`, `join`, and `close`, which says that the own lists of the holders share
//! out the tickets, each once (`IsClosed`, and the law `closed_shares_out`). The rule that holds between any two steps is `ClockRule`;
//! the law `rule_has_parts` reads it as six parts on the views alone. No call waits, and none but `make` and `reserve` takes memory.
#![tactic(auto)]

pub mod clock;
pub mod closing;
pub mod holders;
pub mod laws;
mod making;
mod plays;
#[cfg(test)]
mod tests;
pub mod view;
