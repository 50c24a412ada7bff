//! Parts of one token.
ghost use Rattle.std.specs.Prelude.{◌≡◌, true};
ghost use Rattle.fut_tokens.specs.declared.token.Token.TheVariants as t;
ghost use Rattle.fut_syntax.specs.Steps.{front, Entered, Opened, Taken, Closed, TakenPart, TakenOp, TakenSign, Copied, word_before, number_before};
ghost use Rattle.fut_syntax.specs.Faults.{opens};
ghost use Rattle.fut_syntax.specs.Machine.{Word', Number', Semicolon', Colon', Equals', LeftParen', RightParen', LeftSquare', RightSquare'};

use crate::cursor::{Cursor, Stop};
use crate::tree::{Operator, Sign};
use fut_tokens::token::Token;
use sqlite_items::Items;
use std::alloc::Global;

/// How many brackets may be open at once.
pub const MOST_OPEN: u32 = 64;

/// Takes the opening bracket in view, where one more may be open, and gives how many are then.
pub fn enter(cursor: &mut Cursor, depth: u32) -> Result<u32, Stop>
    requires { opens (front cursor.old) ≡ true }
    ensures { Entered depth cursor.old cursor.new result }
{
    if depth >= MOST_OPEN {
        return Err(Stop::Fault);
    }
    cursor.bump();
    Ok(depth + 1)
}

/// A name of its own for a tree.
pub fn copy_name(alloc: Global, name: &Items<u8>) -> Result<Items<u8>, Stop>
    ensures { Copied name.now result }
{
    Ok(Items::from_slice(alloc, name.as_slice())?)
}

/// Takes a word.
pub fn word(alloc: Global, cursor: &mut Cursor) -> Result<Items<u8>, Stop>
    ensures { TakenPart Word' word_before cursor.old cursor.new result }
{
    let name = match cursor.peek() {
        Token::Word(name) => copy_name(alloc, name)?,
        _ => return Err(Stop::Fault),
    };
    cursor.bump();
    Ok(name)
}

/// Takes a number.
pub fn number(cursor: &mut Cursor) -> Result<u64, Stop>
    ensures { TakenPart Number' number_before cursor.old cursor.new result }
{
    match cursor.peek() {
        Token::Number(value) => {
            let number = *value;
            cursor.bump();
            Ok(number)
        }
        _ => Err(Stop::Fault),
    }
}

/// Takes an opening round bracket, and gives how many brackets are open then.
pub fn open_paren(cursor: &mut Cursor, depth: u32) -> Result<u32, Stop>
    ensures { Opened LeftParen' t.LeftParen depth cursor.old cursor.new result }
{
    match cursor.peek() {
        Token::LeftParen => enter(cursor, depth),
        _ => Err(Stop::Fault),
    }
}

/// Takes an opening square bracket, and gives how many brackets are open then.
pub fn open_square(cursor: &mut Cursor, depth: u32) -> Result<u32, Stop>
    ensures { Opened LeftSquare' t.LeftSquare depth cursor.old cursor.new result }
{
    match cursor.peek() {
        Token::LeftSquare => enter(cursor, depth),
        _ => Err(Stop::Fault),
    }
}

/// Takes a closing round bracket.
pub fn close_paren(cursor: &mut Cursor) -> Result<(), Stop>
    ensures { Closed RightParen' t.RightParen cursor.old cursor.new result }
{
    match cursor.peek() {
        Token::RightParen => {
            cursor.bump();
            Ok(())
        }
        _ => Err(Stop::Fault),
    }
}

/// Takes a closing square bracket.
pub fn close_square(cursor: &mut Cursor) -> Result<(), Stop>
    ensures { Closed RightSquare' t.RightSquare cursor.old cursor.new result }
{
    match cursor.peek() {
        Token::RightSquare => {
            cursor.bump();
            Ok(())
        }
        _ => Err(Stop::Fault),
    }
}

/// Takes a semicolon.
pub fn semicolon(cursor: &mut Cursor) -> Result<(), Stop>
    ensures { Taken Semicolon' t.Semicolon cursor.old cursor.new result }
{
    match cursor.peek() {
        Token::Semicolon => {
            cursor.bump();
            Ok(())
        }
        _ => Err(Stop::Fault),
    }
}

/// Takes a colon.
pub fn colon(cursor: &mut Cursor) -> Result<(), Stop>
    ensures { Taken Colon' t.Colon cursor.old cursor.new result }
{
    match cursor.peek() {
        Token::Colon => {
            cursor.bump();
            Ok(())
        }
        _ => Err(Stop::Fault),
    }
}

/// Takes the sign `=`.
pub fn equals(cursor: &mut Cursor) -> Result<(), Stop>
    ensures { Taken Equals' t.Equals cursor.old cursor.new result }
{
    match cursor.peek() {
        Token::Equals => {
            cursor.bump();
            Ok(())
        }
        _ => Err(Stop::Fault),
    }
}

/// Takes the operator in view, if there is one.
pub fn operator(cursor: &mut Cursor) -> Option<Operator>
    ensures { TakenOp cursor.old cursor.new result }
{
    let operator = match cursor.peek() {
        Token::Plus => Operator::Add,
        Token::Minus => Operator::Subtract,
        Token::Star => Operator::Multiply,
        Token::Slash => Operator::Divide,
        Token::Percent => Operator::Remainder,
        Token::Ampersand => Operator::BitAnd,
        Token::Bar => Operator::BitOr,
        Token::EqualEqual => Operator::Equal,
        Token::BangEqual => Operator::Unequal,
        Token::Less => Operator::Less,
        Token::LessEqual => Operator::AtMost,
        Token::Greater => Operator::Greater,
        Token::GreaterEqual => Operator::AtLeast,
        _ => return None,
    };
    cursor.bump();
    Some(operator)
}

/// Takes the sign in view, if there is one.
pub fn sign(cursor: &mut Cursor) -> Sign
    ensures { TakenSign cursor.old cursor.new result }
{
    let sign = match cursor.peek() {
        Token::Minus => Sign::Negative,
        Token::Bang => Sign::Inverted,
        _ => return Sign::None,
    };
    cursor.bump();
    sign
}
