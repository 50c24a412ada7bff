//! The check of programs.
//!
//! `check` says that a program is well-typed, or where its first fault stands and which rule it breaks there. The layers
//! above use `Checked`, which is well-typed by its type, and the definitions `IsWellTyped` and `IsFirstFault` of `specs/`.
#![tactic(auto)]

mod checked;
mod declarations;
mod items;
pub mod laws;
mod program;
mod stmts;
#[cfg(test)]
mod tests;

pub use checked::Checked;
pub use program::{CheckFault, check};
