//! Keywords and symbols.
ghost use Rattle.std.specs.Prelude.{◌≡◌};
ghost use Rattle.std.specs.Str.{bytes_eq};
ghost use Rattle.fut_tokens.specs.Cut.{keyword_of, mark_of};

use crate::token::Token;

/// The symbols that a byte begins.
#[derive(Drop)]
pub enum Mark {
    /// One symbol of one byte.
    Alone(Token),
    /// A symbol of one byte, and the one that it is with `=` behind it.
    Paired(Token, Token),
}

/// The symbols that a byte begins, if there are any.
#[tactic(auto, unfolding(crate::specs::Cut::mark_of))]
pub fn mark_of(b: u8) -> Option<Mark>
    ensures { result ≡ mark_of b }
{
    let mark = match b {
        b'(' => Mark::Alone(Token::LeftParen),
        b')' => Mark::Alone(Token::RightParen),
        b'[' => Mark::Alone(Token::LeftSquare),
        b']' => Mark::Alone(Token::RightSquare),
        b'{' => Mark::Alone(Token::LeftBrace),
        b'}' => Mark::Alone(Token::RightBrace),
        b',' => Mark::Alone(Token::Comma),
        b';' => Mark::Alone(Token::Semicolon),
        b':' => Mark::Alone(Token::Colon),
        b'=' => Mark::Paired(Token::Equals, Token::EqualEqual),
        b'+' => Mark::Alone(Token::Plus),
        b'-' => Mark::Alone(Token::Minus),
        b'*' => Mark::Alone(Token::Star),
        b'/' => Mark::Alone(Token::Slash),
        b'%' => Mark::Alone(Token::Percent),
        b'&' => Mark::Alone(Token::Ampersand),
        b'|' => Mark::Alone(Token::Bar),
        b'!' => Mark::Paired(Token::Bang, Token::BangEqual),
        b'<' => Mark::Paired(Token::Less, Token::LessEqual),
        b'>' => Mark::Paired(Token::Greater, Token::GreaterEqual),
        _ => return None,
    };
    Some(mark)
}

fn is(word: &[u8], name: &[u8]) -> bool
    ensures { result ≡ bytes_eq word.now name.now }
{
    word == name
}

/// The keyword that is written so.
#[tactic(auto, unfolding(crate::specs::Cut::keyword_of))]
pub fn keyword_of(word: &[u8]) -> Option<Token>
    ensures { result ≡ keyword_of word.now }
{
    if is(word, b"cells") {
        Some(Token::Cells)
    } else if is(word, b"task") {
        Some(Token::Task)
    } else if is(word, b"int") {
        Some(Token::Int)
    } else if is(word, b"fut") {
        Some(Token::Fut)
    } else if is(word, b"var") {
        Some(Token::Var)
    } else if is(word, b"if") {
        Some(Token::If)
    } else if is(word, b"else") {
        Some(Token::Else)
    } else if is(word, b"while") {
        Some(Token::While)
    } else if is(word, b"spawn") {
        Some(Token::Spawn)
    } else if is(word, b"sync") {
        Some(Token::Sync)
    } else if is(word, b"create") {
        Some(Token::Create)
    } else if is(word, b"get") {
        Some(Token::Get)
    } else if is(word, b"return") {
        Some(Token::Return)
    } else if is(word, b"add") {
        Some(Token::Add)
    } else {
        None
    }
}
