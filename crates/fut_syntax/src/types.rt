//! Reads types.
ghost use Rattle.std.specs.Prelude.{◌≡◌, ◌≤◌, ◌∷◌, []};
ghost use Rattle.fut_syntax.specs.Tokens.{type_before, length_before, var_type_before};
ghost use Rattle.fut_syntax.specs.Views.{type_tree};
ghost use Rattle.fut_syntax.specs.Steps.{Read, ReadTo, TakenPart, same};
ghost use Rattle.fut_syntax.specs.Machine.{Type', Length};

use crate::cursor::{Cursor, Stop};
use crate::signs::{close_square, enter, number};
use crate::tree::VarType;
use fut_tokens::token::Token;

/// `int` behind any number of `fut`, and gives this number.
pub fn type_depth(cursor: &mut Cursor) -> Result<u64, Stop>
    ensures { TakenPart Type' type_before cursor.old cursor.new result }
{
    let left = cursor.behind();
    'futs: loop {
        match cursor.peek() {
            Token::Fut => cursor.bump(),
            Token::Int => {
                let depth = left - cursor.behind();
                cursor.bump();
                return Ok(depth as u64);
            }
            _ => return Err(Stop::Fault),
        }
    }
}

/// The length of an array in its brackets, if there is one.
fn length(cursor: &mut Cursor, depth: u32) -> Result<Option<u64>, Stop>
    requires { depth ≤ 64 }
    ensures { Read Length length_before same depth cursor.old cursor.new result }
{
    match cursor.peek() {
        Token::LeftSquare => {
            enter(cursor, depth)?;
            let length = number(cursor)?;
            close_square(cursor)?;
            Ok(Some(length))
        }
        _ => Ok(None),
    }
}

/// The type of a variable or parameter.
pub fn var_type(cursor: &mut Cursor, depth: u32) -> Result<VarType, Stop>
    requires { depth ≤ 64 }
    ensures { ReadTo (Type' ∷ Length ∷ []) [] var_type_before type_tree depth depth cursor.old cursor.new result }
{
    let handles = type_depth(cursor)?;
    match length(cursor, depth)? {
        Some(length) => Ok(VarType::Array {
            depth: handles,
            length,
        }),
        None => Ok(VarType::Plain { depth: handles }),
    }
}
