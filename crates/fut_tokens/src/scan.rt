//! The token at the front of a text.
ghost use Rattle.std.specs.Prelude.{◌≡◌, ◌<◌, ◌≤◌, true, false, length, take, drop, slice_index, IfOk};
ghost use Rattle.fut_tokens.specs.Cut.{is_word, is_digit, is_letter, is_blank, is_inline, word_token};
ghost use Rattle.fut_tokens.specs.Cut.{number_token, value_from, has_leading_zero, starts_comment};
ghost use Rattle.fut_tokens.specs.Parts.{IsLexeme, ranged};
ghost use Rattle.fut_tokens.specs.Runs.{IsRun, AllDigits};

use crate::kind::{Mark, keyword_of, mark_of};
use crate::token::Token;
use fut_base::list::NoMemory;
use sqlite_items::Items;
use std::alloc::Global;

/// The most bytes of a word.
const LONGEST_WORD: usize = 32;

/// The largest number.
const LARGEST_NUMBER: u64 = 9223372036854775807;

/// A token at the front of a text, and its length in bytes.
#[derive(Drop)]
pub struct Lexeme {
    pub token: Token,
    pub length: usize,
}

pub fn is_blank(b: u8) -> bool
    ensures { result ≡ is_blank b }
{
    b == b' ' || b == b'\t' || b == b'\n' || b == b'\r'
}

pub fn is_letter(b: u8) -> bool
    ensures { result ≡ is_letter b }
{
    (b >= b'a' && b <= b'z') || (b >= b'A' && b <= b'Z') || b == b'_'
}

pub fn is_digit(b: u8) -> bool
    ensures { result ≡ is_digit b }
{
    b >= b'0' && b <= b'9'
}

fn is_word(b: u8) -> bool
    ensures { result ≡ is_word b }
{
    is_letter(b) || is_digit(b)
}

/// Whether a comment begins at the front.
pub fn starts_comment(text: &[u8]) -> bool
    ensures { result ≡ starts_comment text.now }
{
    text.len() >= 2 && text[0] == b'/' && text[1] == b'/'
}

/// How many bytes stand before the end of the line.
pub fn line_run(text: &[u8]) -> usize
    ensures { IsRun is_inline text.now result }
{
    let mut n = 0;
    while n < text.len() && text[n] != b'\n' {
        n += 1;
    }
    n
}

/// How many word bytes stand at the front.
fn word_run(text: &[u8]) -> usize
    ensures { IsRun is_word text.now result }
{
    let mut n = 0;
    while n < text.len() && is_word(text[n]) {
        n += 1;
    }
    n
}

/// How many digits stand at the front.
fn digit_run(text: &[u8]) -> usize
    ensures { IsRun is_digit text.now result }
{
    let mut n = 0;
    while n < text.len() && is_digit(text[n]) {
        n += 1;
    }
    n
}

/// What a run of word bytes is.
fn word_token(alloc: Global, word: &[u8]) -> Result<Token, NoMemory>
    ensures { IfOk result (λ token. token ≡ word_token word.now) }
{
    if let Some(keyword) = keyword_of(word) {
        return Ok(keyword);
    }
    if word.len() > LONGEST_WORD {
        return Ok(Token::Scrap);
    }
    Ok(Token::Word(Items::from_slice(alloc, word)?))
}

/// The word, keyword or scrap at the front.
pub fn word(alloc: Global, text: &[u8]) -> Result<Lexeme, NoMemory>
    requires some { 0 < length text.now }
    requires letter { is_letter (slice_index text.now 0) ≡ true }
    ensures { IfOk result (λ l. IsLexeme text.now l.token l.length) }
{
    let length = word_run(text);
    let token = word_token(alloc, &text[..length])?;
    Ok(Lexeme { token, length })
}

/// The value of digits, if it is at most the largest number.
fn value(digits: &[u8]) -> Option<u64>
    requires { AllDigits digits.now }
    ensures { result ≡ ranged (value_from 0 digits.now) }
{
    let mut value: u64 = 0;
    for d in digits {
        let digit = u64::from(*d - b'0');
        if value > (LARGEST_NUMBER - digit) / 10 {
            return None;
        }
        value = value * 10 + digit;
    }
    Some(value)
}

fn has_leading_zero(digits: &[u8]) -> bool
    ensures { result ≡ has_leading_zero digits.now }
{
    digits.len() >= 2 && digits[0] == b'0'
}

/// What a run of digits is.
fn number_token(digits: &[u8]) -> Token
    requires { AllDigits digits.now }
    ensures { result ≡ number_token digits.now }
{
    if has_leading_zero(digits) {
        return Token::Scrap;
    }
    match value(digits) {
        Some(number) => Token::Number(number),
        None => Token::Scrap,
    }
}

/// The number or scrap at the front.
pub fn number(text: &[u8]) -> Lexeme
    requires some { 0 < length text.now }
    requires digit { is_digit (slice_index text.now 0) ≡ true }
    ensures { IsLexeme text.now result.token result.length }
{
    let length = digit_run(text);
    let token = number_token(&text[..length]);
    Lexeme { token, length }
}

/// The symbol or scrap at the front.
pub fn mark(text: &[u8]) -> Lexeme
    requires some { 0 < length text.now }
    requires letter { is_letter (slice_index text.now 0) ≡ false }
    requires digit { is_digit (slice_index text.now 0) ≡ false }
    requires blank { is_blank (slice_index text.now 0) ≡ false }
    ensures { IsLexeme text.now result.token result.length }
{
    match mark_of(text[0]) {
        None => Lexeme {
            token: Token::Scrap,
            length: 1,
        },
        Some(Mark::Alone(token)) => Lexeme { token, length: 1 },
        Some(Mark::Paired(token, longer)) => {
            if text.len() >= 2 && text[1] == b'=' {
                Lexeme {
                    token: longer,
                    length: 2,
                }
            } else {
                Lexeme { token, length: 1 }
            }
        }
    }
}
