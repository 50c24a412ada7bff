//! The tokens of a program text.
use sqlite_items::Items;

/// A token of a program text.
#[derive(Drop)]
pub enum Token {
    // keywords
    Cells,
    Task,
    Int,
    Fut,
    Var,
    If,
    Else,
    While,
    Spawn,
    Sync,
    Create,
    Get,
    Return,
    Add,
    // words and numbers
    Word(Items<u8>),
    Number(u64),
    // symbols
    LeftParen,
    RightParen,
    LeftSquare,
    RightSquare,
    LeftBrace,
    RightBrace,
    Comma,
    Semicolon,
    Colon,
    Equals,
    Plus,
    Minus,
    Star,
    Slash,
    Percent,
    Ampersand,
    Bar,
    Bang,
    EqualEqual,
    BangEqual,
    Less,
    LessEqual,
    Greater,
    GreaterEqual,
    /// What begins no token, a run of digits that is no number, or a word that is too long.
    Scrap,
    /// Stands after the last token.
    End,
}

/// Where a token stands: its line, and its column in bytes, both from 1.
#[derive(Clone, Copy, Debug, PartialEq, Eq)]
pub struct Position {
    pub line: u32,
    pub column: u32,
}
