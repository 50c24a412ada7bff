//! The calls of forder: from the words and the bytes of a source to what is answered and written.
//!
//! The layer above uses `forder` of the module `top`, or `plain` where no runs are made on workers. Their clauses are the
//! theorem: `IsAnswer` says that the status, the history and the text are those of a verdict whose causes hold, and `IsFree`
//! which of them come where nothing hinders. A program's `main` calls `carry_out`, which takes the command line too and gives
//! the number that the process ends with.
#![tactic(auto)]

pub mod clean;
mod form;
mod gathered;
mod input;
mod job;
mod judge;
pub mod laws;
pub mod line;
pub mod load;
mod outcome;
pub mod process;
mod program;
mod replay;
mod run;
pub mod status;
#[cfg(test)]
mod tests;
pub mod top;
