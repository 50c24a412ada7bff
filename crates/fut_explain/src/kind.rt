//! The kinds of tokens.
ghost use Rattle.std.specs.Prelude.{◌≡◌, IfOk};
ghost use Rattle.fut_explain.specs.Kinds.{all_kinds, kind_token, kind_name};

use fut_base::list::NoMemory;
use fut_tokens::token::Token;
use sqlite_items::Items;
use std::alloc::Global;

/// What a token can be: a keyword, any word, any number, a symbol or the end of the text.
#[derive(Clone, Copy, Debug)]
pub enum Kind {
    Cells,
    Task,
    Int,
    Fut,
    Var,
    If,
    Else,
    While,
    Spawn,
    Sync,
    Create,
    Get,
    Return,
    Add,
    Word,
    Number,
    LeftParen,
    RightParen,
    LeftSquare,
    RightSquare,
    LeftBrace,
    RightBrace,
    Comma,
    Semicolon,
    Colon,
    Equals,
    Plus,
    Minus,
    Star,
    Slash,
    Percent,
    Ampersand,
    Bar,
    Bang,
    EqualEqual,
    BangEqual,
    Less,
    LessEqual,
    Greater,
    GreaterEqual,
    End,
}

/// All kinds, in the order of the grammar.
pub fn kinds() -> &'static [Kind]
    ensures { result.now ≡ all_kinds }
{
    &[
        Kind::Cells,
        Kind::Task,
        Kind::Int,
        Kind::Fut,
        Kind::Var,
        Kind::If,
        Kind::Else,
        Kind::While,
        Kind::Spawn,
        Kind::Sync,
        Kind::Create,
        Kind::Get,
        Kind::Return,
        Kind::Add,
        Kind::Word,
        Kind::Number,
        Kind::LeftParen,
        Kind::RightParen,
        Kind::LeftSquare,
        Kind::RightSquare,
        Kind::LeftBrace,
        Kind::RightBrace,
        Kind::Comma,
        Kind::Semicolon,
        Kind::Colon,
        Kind::Equals,
        Kind::Plus,
        Kind::Minus,
        Kind::Star,
        Kind::Slash,
        Kind::Percent,
        Kind::Ampersand,
        Kind::Bar,
        Kind::Bang,
        Kind::EqualEqual,
        Kind::BangEqual,
        Kind::Less,
        Kind::LessEqual,
        Kind::Greater,
        Kind::GreaterEqual,
        Kind::End,
    ]
}

impl Kind {
    /// A token of the kind. For words it is `a`, for numbers 0.
    pub fn token(self, alloc: Global) -> Result<Token, NoMemory>
        ensures { IfOk result (λ t. t ≡ kind_token self) }
    {
        let token = match self {
            Kind::Cells => Token::Cells,
            Kind::Task => Token::Task,
            Kind::Int => Token::Int,
            Kind::Fut => Token::Fut,
            Kind::Var => Token::Var,
            Kind::If => Token::If,
            Kind::Else => Token::Else,
            Kind::While => Token::While,
            Kind::Spawn => Token::Spawn,
            Kind::Sync => Token::Sync,
            Kind::Create => Token::Create,
            Kind::Get => Token::Get,
            Kind::Return => Token::Return,
            Kind::Add => Token::Add,
            Kind::Word => Token::Word(Items::from_slice(alloc, b"a")?),
            Kind::Number => Token::Number(0),
            Kind::LeftParen => Token::LeftParen,
            Kind::RightParen => Token::RightParen,
            Kind::LeftSquare => Token::LeftSquare,
            Kind::RightSquare => Token::RightSquare,
            Kind::LeftBrace => Token::LeftBrace,
            Kind::RightBrace => Token::RightBrace,
            Kind::Comma => Token::Comma,
            Kind::Semicolon => Token::Semicolon,
            Kind::Colon => Token::Colon,
            Kind::Equals => Token::Equals,
            Kind::Plus => Token::Plus,
            Kind::Minus => Token::Minus,
            Kind::Star => Token::Star,
            Kind::Slash => Token::Slash,
            Kind::Percent => Token::Percent,
            Kind::Ampersand => Token::Ampersand,
            Kind::Bar => Token::Bar,
            Kind::Bang => Token::Bang,
            Kind::EqualEqual => Token::EqualEqual,
            Kind::BangEqual => Token::BangEqual,
            Kind::Less => Token::Less,
            Kind::LessEqual => Token::LessEqual,
            Kind::Greater => Token::Greater,
            Kind::GreaterEqual => Token::GreaterEqual,
            Kind::End => Token::End,
        };
        Ok(token)
    }

    /// What a reader is told of the kind.
    pub fn name(self) -> &'static [u8]
        ensures { result.now ≡ kind_name self }
    {
        match self {
            Kind::Cells => b"cells",
            Kind::Task => b"task",
            Kind::Int => b"int",
            Kind::Fut => b"fut",
            Kind::Var => b"var",
            Kind::If => b"if",
            Kind::Else => b"else",
            Kind::While => b"while",
            Kind::Spawn => b"spawn",
            Kind::Sync => b"sync",
            Kind::Create => b"create",
            Kind::Get => b"get",
            Kind::Return => b"return",
            Kind::Add => b"add",
            Kind::Word => b"a word",
            Kind::Number => b"a number",
            Kind::LeftParen => b"(",
            Kind::RightParen => b")",
            Kind::LeftSquare => b"[",
            Kind::RightSquare => b"]",
            Kind::LeftBrace => b"{",
            Kind::RightBrace => b"}",
            Kind::Comma => b",",
            Kind::Semicolon => b";",
            Kind::Colon => b":",
            Kind::Equals => b"=",
            Kind::Plus => b"+",
            Kind::Minus => b"-",
            Kind::Star => b"*",
            Kind::Slash => b"/",
            Kind::Percent => b"%",
            Kind::Ampersand => b"&",
            Kind::Bar => b"|",
            Kind::Bang => b"!",
            Kind::EqualEqual => b"==",
            Kind::BangEqual => b"!=",
            Kind::Less => b"<",
            Kind::LessEqual => b"<=",
            Kind::Greater => b">",
            Kind::GreaterEqual => b">=",
            Kind::End => b"the end of the text",
        }
    }
}
