//! What is due and what was found at a fault of types or counts.
//!
//! `cause_of` answers it for a rule's number and the place of a token. `causes_of` of `specs/` says at which tokens of a program types or
//! counts break a rule.
#![tactic(auto)]

pub mod cause;
mod exprs;
mod inits;
mod items;
pub mod laws;
mod program;
mod seek;
mod stmts;

pub use program::cause_of;
