//! Programs as texts: the tokens of a tree, and its canonical text.
//!
//! `print` writes the canonical text of a program, which reads as the same tree again (`fut_syntax::laws::parses_again`).
#![tactic(auto)]

#[cfg(test)]
mod parser_tests;
mod printing;
#[cfg(test)]
mod printing_tests;
mod write_exprs;
pub mod write_items;
mod write_stmts;

pub use printing::print;
