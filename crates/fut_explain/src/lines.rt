//! The line of a text on which a place is.
ghost use Rattle.std.specs.Prelude.{◌≡◌, ◌+◌, ◌^◌, ◌<◌, ◌≤◌, ◌↔◌, IsTrue, length, take, if◌then◌else◌};
ghost use Rattle.fut_tokens.specs.Lexed.{place_after};
ghost use Rattle.fut_tokens.specs.Lexing.{place_on};
ghost use Rattle.fut_explain.specs.Lines.{IsPlaceOf, IsLastLine, IsFirstLine, IsLineOf};

use fut_tokens::token::Position;

/// The line of a text on which a place is: what stands in it before the place, and from there on.
#[derive(Clone, Copy)]
pub struct Line<'a> {
    pub front: &'a [u8],
    pub rest: &'a [u8],
}

/// Whether two places are the same.
pub fn same_place(a: Position, b: Position) -> bool
    ensures { IsTrue result ↔ (a ≡ b) }
{
    a.line == b.line && a.column == b.column
}

/// The place one byte on.
fn place_on(place: Position, b: u8) -> Position
    requires line { place.line + 1 < 2 ^ 32 }
    requires column { place.column + 1 < 2 ^ 32 }
    ensures { result ≡ place_on place b }
{
    if b == b'\n' {
        Position {
            line: place.line + 1,
            column: 1,
        }
    } else {
        Position {
            line: place.line,
            column: place.column + 1,
        }
    }
}

/// How many bytes of a text stand before a place of it.
fn bytes_before(text: &[u8], place: Position) -> usize
    requires short { length text.now + 1 < 2 ^ 32 }
    requires within { IsPlaceOf text.now place }
    ensures within { result ≤ length text.now }
    ensures stands { place_after (take result text.now) ≡ place }
{
    let mut here = Position { line: 1, column: 1 };
    let mut at = 0;
    while at < text.len() && !same_place(here, place) {
        here = place_on(here, text[at]);
        at += 1;
    }
    at
}

/// What stands behind the last line feed, or the whole text.
fn last_line(text: &[u8]) -> &[u8]
    ensures { IsLastLine text.now result.now }
{
    let mut at = text.len();
    while at > 0 && text[at - 1] != b'\n' {
        at -= 1;
    }
    &text[at..]
}

/// What stands before the first line feed, or the whole text.
fn first_line(text: &[u8]) -> &[u8]
    ensures { IsFirstLine text.now result.now }
{
    let mut n = 0;
    while n < text.len() && text[n] != b'\n' {
        n += 1;
    }
    &text[..n]
}

/// The line of a text on which a place of it is.
pub fn line_of<'a>(text: &'a [u8], place: Position) -> Line<'a>
    requires short { length text.now + 1 < 2 ^ 32 }
    requires within { IsPlaceOf text.now place }
    ensures { IsLineOf text.now place result }
{
    let at = bytes_before(text, place);
    Line {
        front: last_line(&text[..at]),
        rest: first_line(&text[at..]),
    }
}
