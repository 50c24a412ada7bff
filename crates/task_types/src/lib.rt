//! What the type rules say of tasks that run: a task of a well-typed program always has a wish, and what it passes on fits.
//!
//! Each law is a function without a body whose clause is a statement of `specs/Laws.antt`.
#![tactic(auto)]

pub mod laws;
