//! How tokens are written.
ghost use Rattle.std.specs.Prelude.{◌≡◌, ◌++◌, OnOk};
ghost use Rattle.fut_tokens.specs.Spelling.{fixed_spelling, spelling, line_of, rest_of_line};

use crate::token::Token;
use fut_base::list::NoMemory;
use std::alloc::Global;

/// How a keyword or a symbol is written. Of any other token this is empty.
pub fn fixed_spelling(token: &Token) -> &'static [u8]
    ensures { result.now ≡ fixed_spelling token.now }
{
    match token {
        Token::Cells => b"cells",
        Token::Task => b"task",
        Token::Int => b"int",
        Token::Fut => b"fut",
        Token::Var => b"var",
        Token::If => b"if",
        Token::Else => b"else",
        Token::While => b"while",
        Token::Spawn => b"spawn",
        Token::Sync => b"sync",
        Token::Create => b"create",
        Token::Get => b"get",
        Token::Return => b"return",
        Token::Add => b"add",
        Token::LeftParen => b"(",
        Token::RightParen => b")",
        Token::LeftSquare => b"[",
        Token::RightSquare => b"]",
        Token::LeftBrace => b"{",
        Token::RightBrace => b"}",
        Token::Comma => b",",
        Token::Semicolon => b";",
        Token::Colon => b":",
        Token::Equals => b"=",
        Token::Plus => b"+",
        Token::Minus => b"-",
        Token::Star => b"*",
        Token::Slash => b"/",
        Token::Percent => b"%",
        Token::Ampersand => b"&",
        Token::Bar => b"|",
        Token::Bang => b"!",
        Token::EqualEqual => b"==",
        Token::BangEqual => b"!=",
        Token::Less => b"<",
        Token::LessEqual => b"<=",
        Token::Greater => b">",
        Token::GreaterEqual => b">=",
        Token::Word(_) | Token::Number(_) | Token::Scrap | Token::End => b"",
    }
}

/// Adds a token as it is written: a word by its bytes, a number in decimal.
pub fn push_token(alloc: Global, out: &mut Vec<u8>, token: &Token) -> Result<(), NoMemory>
    ensures { OnOk result (out.new.items ≡ out.old.items ++ spelling token.now) }
{
    match token {
        Token::Word(word) => out.extend_from_slice(word.as_slice())?,
        Token::Number(number) => out.extend_from_slice(number.to_string(alloc)?.as_bytes())?,
        other => out.extend_from_slice(fixed_spelling(other))?,
    }
    Ok(())
}

/// Adds tokens, each with a space before it, and then a line feed.
fn push_rest(alloc: Global, out: &mut Vec<u8>, tokens: &[Token]) -> Result<(), NoMemory>
    ensures { OnOk result (out.new.items ≡ out.old.items ++ rest_of_line tokens.now) }
{
    for token in tokens {
        out.push(b' ')?;
        push_token(alloc, out, token)?;
    }
    out.push(b'\n')?;
    Ok(())
}

/// Adds tokens with one space between two, and then a line feed.
pub fn push_line(alloc: Global, out: &mut Vec<u8>, tokens: &[Token]) -> Result<(), NoMemory>
    ensures { OnOk result (out.new.items ≡ out.old.items ++ line_of tokens.now) }
{
    match tokens {
        [] => push_rest(alloc, out, tokens),
        [first, rest @ ..] => {
            push_token(alloc, out, first)?;
            push_rest(alloc, out, rest)
        }
    }
}
