//! A text is cut into tokens with their places.
ghost use Rattle.std.specs.Prelude.{◌≡◌, ◌+◌, ◌^◌, ◌<◌, ◌≤◌, ◌||◌, [], ◌∷◌, ◌++◌, false, length, take, slice_index, IfOk, OnOk};
ghost use Rattle.fut_tokens.specs.Cut.{is_blank};
ghost use Rattle.fut_tokens.specs.Ended.{IsEnded};
ghost use Rattle.fut_tokens.specs.Lexed.{IsTokensOf, HasComments, place_after};
ghost use Rattle.fut_tokens.specs.Lexing.{tokens_in, places_in, is_comment, place_on};
ghost use Rattle.fut_tokens.specs.Parts.{IsLexeme, IsPart};

use crate::scan::{
    Lexeme, is_blank, is_digit, is_letter, line_run, mark, number, starts_comment, word,
};
use crate::token::{Position, Token};
use fut_base::list::NoMemory;
use std::alloc::Global;

/// A part of a text.
#[derive(Drop)]
pub enum Part {
    /// One blank.
    Space,
    Comment,
    Lexeme(Token),
}

/// The part at the front of a text, and its length in bytes.
#[derive(Drop)]
pub struct Front {
    pub part: Part,
    pub length: usize,
}

/// The token at the front.
fn first_token(alloc: Global, text: &[u8]) -> Result<Lexeme, NoMemory>
    requires some { 0 < length text.now }
    requires blank { is_blank (slice_index text.now 0) ≡ false }
    ensures { IfOk result (λ l. IsLexeme text.now l.token l.length) }
{
    if is_letter(text[0]) {
        return word(alloc, text);
    }
    if is_digit(text[0]) {
        return Ok(number(text));
    }
    Ok(mark(text))
}

/// The part at the front.
fn first_part(alloc: Global, text: &[u8]) -> Result<Front, NoMemory>
    requires { 0 < length text.now }
    ensures { IfOk result (λ f. IsPart text.now f.part f.length) }
{
    if is_blank(text[0]) {
        return Ok(Front {
            part: Part::Space,
            length: 1,
        });
    }
    if starts_comment(text) {
        return Ok(Front {
            part: Part::Comment,
            length: 2 + line_run(&text[2..]),
        });
    }
    let lexeme = first_token(alloc, text)?;
    Ok(Front {
        part: Part::Lexeme(lexeme.token),
        length: lexeme.length,
    })
}

/// The tokens of a text.
#[derive(Drop)]
pub struct Lexed {
    /// The tokens in the order of the text. The end token is the last.
    pub tokens: Vec<Token>,
    /// The place of each token.
    pub places: Vec<Position>,
    /// Whether the text has a comment.
    pub comments: bool,
}

impl Lexed {
    fn add(&mut self, token: Token, place: Position) -> Result<(), NoMemory>
        ensures tokens { OnOk result (self.new.tokens.items ≡ self.old.tokens.items ++ token ∷ []) }
        ensures places { OnOk result (self.new.places.items ≡ self.old.places.items ++ place ∷ []) }
        ensures comments { self.new.comments ≡ self.old.comments }
    {
        self.tokens.push(token)?;
        self.places.push(place)?;
        Ok(())
    }

    fn take(&mut self, part: Part, place: Position) -> Result<(), NoMemory>
        ensures tokens { OnOk result (self.new.tokens.items ≡ self.old.tokens.items ++ tokens_in part) }
        ensures places { OnOk result (self.new.places.items ≡ self.old.places.items ++ places_in place part) }
        ensures comments { self.new.comments ≡ (self.old.comments || is_comment part) }
    {
        match part {
            Part::Space => Ok(()),
            Part::Comment => {
                self.comments = true;
                Ok(())
            }
            Part::Lexeme(token) => self.add(token, place),
        }
    }
}

/// The place one byte on.
fn place_on(place: Position, b: u8) -> Position
    requires line { place.line + 1 < 2 ^ 32 }
    requires column { place.column + 1 < 2 ^ 32 }
    ensures { result ≡ place_on place b }
{
    if b == b'\n' {
        Position {
            line: place.line + 1,
            column: 1,
        }
    } else {
        Position {
            line: place.line,
            column: place.column + 1,
        }
    }
}

/// The place behind the first `to` bytes, where `place` is that behind the first `from` of them.
fn place_at(text: &[u8], place: Position, from: usize, to: usize) -> Position
    requires order { from ≤ to }
    requires within { to ≤ length text.now }
    requires short { length text.now + 1 < 2 ^ 32 }
    requires here { place ≡ place_after (take from text.now) }
    ensures { result ≡ place_after (take to text.now) }
{
    let mut here = place;
    for i in from..to {
        here = place_on(here, text[i]);
    }
    here
}

/// The tokens of a text of fewer than 2^32 - 1 bytes, with their places. A scrap is a token, so a text fails only for
/// want of memory.
pub fn tokens(alloc: Global, text: &[u8]) -> Result<Lexed, NoMemory>
    requires { length text.now + 1 < 2 ^ 32 }
    ensures tokens { IfOk result (λ l. IsTokensOf text.now l.tokens.items l.places.items) }
    ensures ended { IfOk result (λ l. IsEnded l.tokens.items) }
    ensures paired { IfOk result (λ l. length l.places.items ≡ length l.tokens.items) }
    ensures comments { IfOk result (λ l. HasComments text.now l.comments) }
{
    let mut lexed = Lexed {
        tokens: Vec::new(alloc),
        places: Vec::new(alloc),
        comments: false,
    };
    let mut place = Position { line: 1, column: 1 };
    let mut at = 0;
    while at < text.len() {
        let front = first_part(alloc, &text[at..])?;
        lexed.take(front.part, place)?;
        place = place_at(text, place, at, at + front.length);
        at += front.length;
    }
    lexed.add(Token::End, place)?;
    Ok(lexed)
}
