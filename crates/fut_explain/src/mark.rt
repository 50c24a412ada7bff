//! The mark under a token.
ghost use Rattle.std.specs.Prelude.{◌≡◌, ℕ, ◌+◌, ◌^◌, ◌<◌, ◌++◌, length, replicate, slice_get, Some, IfOk, OnOk};
ghost use Rattle.fut_tokens.specs.declared.token.Token.{Token};
ghost use Rattle.fut_explain.specs.Lines.{IsTokenAt, IsMarked, width_of, blanks, marked_text};

use crate::lines::{Line, line_of, same_place};
use fut_base::list::NoMemory;
use fut_tokens::spelling::push_token;
use fut_tokens::token::{Position, Token};
use fut_tokens::tokens;
use std::alloc::Global;

/// The line of a text on which a token stands, and the token's width in bytes.
#[derive(Clone, Copy)]
pub struct Marked<'a> {
    pub line: Line<'a>,
    pub width: usize,
}

/// How many bytes a token takes as it is written, but of the end token and of a scrap it is 1.
fn token_width(alloc: Global, token: &Token) -> Result<usize, NoMemory>
    ensures { IfOk result (λ n. n ≡ width_of token.now) }
{
    let mut written = Vec::new(alloc);
    push_token(alloc, &mut written, token)?;
    Ok(written.len().max(1))
}

/// The number of a place among some.
fn index_of(places: &[Position], place: Position) -> usize
    requires { (i : ℕ) × (slice_get places.now i ≡ Some place) }
    ensures { slice_get places.now result ≡ Some place }
{
    let mut at = 0;
    while at < places.len() && !same_place(places[at], place) {
        at += 1;
    }
    at
}

/// How wide the token is that stands at a place of a text.
fn width_at(alloc: Global, text: &[u8], place: Position) -> Result<usize, NoMemory>
    requires short { length text.now + 1 < 2 ^ 32 }
    requires here { (x : Token) × IsTokenAt text.now place x }
    ensures { IfOk result (λ n. (x : Token) × IsTokenAt text.now place x × (n ≡ width_of x)) }
{
    let lexed = tokens(alloc, text)?;
    let at = index_of(lexed.places.as_slice(), place);
    token_width(alloc, &lexed.tokens[at])
}

/// The line of a text on which a token stands, and its width.
pub fn mark_under<'a>(
    alloc: Global,
    text: &'a [u8],
    place: Position,
) -> Result<Marked<'a>, NoMemory>
    requires short { length text.now + 1 < 2 ^ 32 }
    requires here { (x : Token) × IsTokenAt text.now place x }
    ensures { IfOk result (λ m. IsMarked text.now place m) }
{
    let width = width_at(alloc, text, place)?;
    Ok(Marked {
        line: line_of(text, place),
        width,
    })
}

/// Adds a blank under each byte; under a tab it is one.
fn push_blanks(out: &mut Vec<u8>, front: &[u8]) -> Result<(), NoMemory>
    ensures { OnOk result (out.new.items ≡ out.old.items ++ blanks front.now) }
{
    for b in front {
        out.push(if *b == b'\t' { b'\t' } else { b' ' })?;
    }
    Ok(())
}

/// Adds the mark.
fn push_carets(out: &mut Vec<u8>, width: usize) -> Result<(), NoMemory>
    ensures { OnOk result (out.new.items ≡ out.old.items ++ replicate width 94) }
{
    let mut n = 0;
    while n < width {
        out.push(b'^')?;
        n += 1;
    }
    Ok(())
}

impl<'a> Marked<'a> {
    /// Adds the line, and under it the mark.
    pub fn push(self, out: &mut Vec<u8>) -> Result<(), NoMemory>
        ensures { OnOk result (out.new.items ≡ out.old.items ++ marked_text self.entry) }
    {
        out.extend_from_slice(self.line.front)?;
        out.extend_from_slice(self.line.rest)?;
        out.push(b'\n')?;
        push_blanks(out, self.line.front)?;
        push_carets(out, self.width)?;
        out.push(b'\n')?;
        Ok(())
    }
}
