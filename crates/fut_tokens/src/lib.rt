//! The tokens of a text: how bytes are cut into tokens, where each stands, and how tokens are written.
//!
//! `tokens` reads a whole text; `fixed_spelling`, `push_token` and `push_line` write tokens. The definitions of `specs/` say what a
//! text's tokens are, and which texts a list of tokens has.
#![tactic(auto)]

mod kind;
mod lexer;
mod lexer_laws;
#[cfg(test)]
mod lexer_tests;
mod scan;
pub mod spelling;
pub mod token;

pub use lexer::{Lexed, tokens};
pub use lexer_laws::{
    every_text, lines_read, one_cut, one_token_list, respaced_reads, spaced_reads,
};
