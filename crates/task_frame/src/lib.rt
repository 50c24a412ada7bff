//! The variables of a running task, the terms that read them, the instructions of flat code, and the arrays of cells.
#![tactic(auto)]

pub mod cells;
pub mod frame;
pub mod instruction;
pub mod names;
pub mod term;
