//! The parser: from tokens to the items of a program.
ghost use Rattle.std.specs.Prelude.{◌≡◌};
ghost use Rattle.fut_tokens.specs.Ended.{IsEnded};
ghost use Rattle.fut_syntax.specs.Answers.{IsAnswer};

use crate::cursor::{Cursor, Stop};
use crate::items::items;
use crate::tree::Item;
use fut_tokens::token::Token;
use sqlite_items::Items;
use std::alloc::Global;

/// Why a list of tokens gave no tree.
#[derive(Debug, Clone, Copy)]
pub enum TokenFault {
    /// The token behind which `left` others stand is the fault: the first that no program has after those before it, or
    /// an opening bracket where 64 are open.
    Syntax { left: usize },
    NoMemory,
}

/// Gives the items of the program whose tokens these are, the end token being the last and only one, or the fault place.
pub fn parse_tokens(alloc: Global, tokens: Vec<Token>) -> Result<Items<Item>, TokenFault>
    requires { IsEnded tokens.items }
    ensures { IsAnswer tokens.items result }
{
    let mut cursor = Cursor::new(tokens);
    match items(alloc, &mut cursor) {
        Ok(items) => Ok(items),
        Err(Stop::Fault) => Err(TokenFault::Syntax {
            left: cursor.behind(),
        }),
        Err(Stop::NoMemory) => Err(TokenFault::NoMemory),
    }
}
