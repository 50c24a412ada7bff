//! From the bytes of a text to its tree.
ghost use Rattle.std.specs.Prelude.{◌≡◌, ◌+◌, ◌^◌, ◌<◌, length};
ghost use Rattle.fut_syntax.specs.Texts.{Parses};

use crate::parser::{TokenFault, parse_tokens};
use crate::tree::Program;
use fut_base::list::NoMemory;
use fut_tokens::token::Position;
use fut_tokens::{Lexed, tokens};
use sqlite_items::Items;
use std::alloc::Global;

/// Why a text gave no tree.
#[derive(Debug, Drop, thiserror::Error)]
pub enum ParseFault {
    /// The text is no program. Line and column, both from 1, are those of the first token that no program has after the
    /// tokens before it, or of an opening bracket where 64 are open.
    #[error("syntax fault at {line}:{column}")]
    Syntax { line: u32, column: u32 },
    #[error("no memory")]
    NoMemory,
}

/// The tree of a text of fewer than 2^32 - 1 bytes.
pub fn parse(alloc: Global, text: &[u8]) -> Result<Program, ParseFault>
    requires { length text.now + 1 < 2 ^ 32 }
    ensures { Parses text.now result }
{
    let lexed = match tokens(alloc, text) {
        Ok(lexed) => lexed,
        Err(NoMemory) => return Err(ParseFault::NoMemory),
    };
    let Lexed {
        tokens,
        places,
        comments,
    } = lexed;
    match parse_tokens(alloc, tokens) {
        Ok(items) => Ok(Program {
            items,
            places: Items::from_vec(places),
            comments,
        }),
        Err(TokenFault::Syntax { left }) => {
            let Position { line, column } = places[places.len() - 1 - left];
            Err(ParseFault::Syntax { line, column })
        }
        Err(TokenFault::NoMemory) => Err(ParseFault::NoMemory),
    }
}
