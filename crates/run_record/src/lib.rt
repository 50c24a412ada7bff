//! The run text, which keeps a run: its program's bytes, its entries, its races and its finish. Each value has one
//! spelling.
//!
//! The layers above use `write_run` and `read_run`, and the pieces, of which other texts are written too.
#![tactic(auto)]

mod acts;
pub mod bounds;
mod cursor;
mod digits;
pub mod laws;
pub mod pieces;
pub mod reader;
pub mod record;
pub mod run_text;
#[cfg(test)]
mod tests;
mod values;
