//! The twelve type rules: kinds and names, the search for the first fault, and the rules of expressions and inits.
//!
//! `fut_check` goes over statements and items with these. The definitions of `specs/` say which faults an expression or an init
//! has, and which of several faults is the first.
#![tactic(auto)]

pub mod exprs;
pub mod fault;
pub mod inits;
pub mod kind;
pub mod names;
pub mod scope;
pub mod search;
