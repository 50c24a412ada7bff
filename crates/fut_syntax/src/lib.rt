//! The language: grammar and trees of programs.
//!
//! `parse` gives the one tree of a text, or says that the text is none that forder reads. The layers above use the trees,
//! and the definitions of `specs/`: the tokens of a tree, and which texts are programs.
#![tactic(auto)]

mod cursor;
mod exprs;
mod inits;
mod items;
pub mod laws;
pub mod parser;
mod program;
mod signs;
mod stmts;
pub mod tree;
mod types;

pub use program::{ParseFault, parse};
