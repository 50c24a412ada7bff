//! Reads items, and a whole program.
ghost use Rattle.std.specs.Prelude.{◌≡◌, ◌≤◌, ◌-◌, ◌∷◌, []};
ghost use Rattle.fut_tokens.specs.declared.token.Token.TheVariants as t;
ghost use Rattle.fut_syntax.specs.Tokens.{param_before, params_before, item_before};
ghost use Rattle.fut_syntax.specs.Views.{param_tree, params_tree, item_tree};
ghost use Rattle.fut_syntax.specs.Steps.{ReadTo, ReadOn, Parsed};
ghost use Rattle.fut_syntax.specs.Machine.{First, More, Params, Type', Length, Block', Word', Number'};
ghost use Rattle.fut_syntax.specs.Machine.{Colon', Semicolon', LeftParen', LeftSquare', RightSquare'};

use crate::cursor::{Cursor, Stop};
use crate::signs::{close_square, colon, number, open_paren, open_square, semicolon, word};
use crate::stmts::block;
use crate::tree::{Item, Param};
use crate::types::{type_depth, var_type};
use fut_tokens::token::Token;
use sqlite_items::Items;
use std::alloc::Global;

/// A word and its type.
fn param(alloc: Global, cursor: &mut Cursor, depth: u32) -> Result<Param, Stop>
    requires { depth ≤ 64 }
    ensures { ReadTo (Word' ∷ Colon' ∷ Type' ∷ Length ∷ []) [] param_before param_tree depth depth cursor.old cursor.new result }
{
    let name = word(alloc, cursor)?;
    colon(cursor)?;
    let kind = var_type(cursor, depth)?;
    Ok(Param { name, kind })
}

/// The parameters up to their closing bracket; `depth` counts the opening one.
fn params(alloc: Global, cursor: &mut Cursor, depth: u32) -> Result<Items<Param>, Stop>
    requires low { 1 ≤ depth }
    requires high { depth ≤ 64 }
    ensures { ReadTo (Params ∷ []) [] params_before params_tree depth (depth - 1) cursor.old cursor.new result }
{
    if let Token::RightParen = cursor.peek() {
        cursor.bump();
        return Ok(Items::new(alloc));
    }
    let mut all = Vec::new(alloc);
    let first = param(alloc, cursor, depth)?;
    all.push(first)?;
    'more: loop {
        match cursor.peek() {
            Token::RightParen => {
                cursor.bump();
                return Ok(Items::from_vec(all));
            }
            Token::Comma => cursor.bump(),
            _ => return Err(Stop::Fault),
        }
        let next = param(alloc, cursor, depth)?;
        all.push(next)?;
    }
}

/// An array of cells after its first word.
fn cells(alloc: Global, cursor: &mut Cursor) -> Result<Item, Stop>
    ensures { ReadOn (λ q. t.Cells ∷ q) (Word' ∷ LeftSquare' ∷ Number' ∷ RightSquare' ∷ Semicolon' ∷ More ∷ [])
        (More ∷ []) item_before item_tree 0 cursor.old cursor.new result }
{
    let name = word(alloc, cursor)?;
    open_square(cursor, 0)?;
    let length = number(cursor)?;
    close_square(cursor)?;
    semicolon(cursor)?;
    Ok(Item::Cells(name, length))
}

/// A task after its first word.
fn task(alloc: Global, cursor: &mut Cursor) -> Result<Item, Stop>
    ensures { ReadOn (λ q. t.Task ∷ q) (Word' ∷ LeftParen' ∷ Params ∷ Type' ∷ Block' ∷ More ∷ [])
        (More ∷ []) item_before item_tree 0 cursor.old cursor.new result }
{
    let name = word(alloc, cursor)?;
    let inner = open_paren(cursor, 0)?;
    let given = params(alloc, cursor, inner)?;
    let result_depth = type_depth(cursor)?;
    let body = block(alloc, cursor, 0)?;
    Ok(Item::Task(name, given, result_depth, body))
}

/// An item with its first word.
fn item(alloc: Global, cursor: &mut Cursor) -> Result<Item, Stop>
    ensures { ReadTo (First ∷ []) (More ∷ []) item_before item_tree 0 0 cursor.old cursor.new result }
{
    match cursor.peek() {
        Token::Cells => {
            cursor.bump();
            cells(alloc, cursor)
        }
        Token::Task => {
            cursor.bump();
            task(alloc, cursor)
        }
        _ => Err(Stop::Fault),
    }
}

/// The items and the end token.
pub fn items(alloc: Global, cursor: &mut Cursor) -> Result<Items<Item>, Stop>
    ensures { Parsed cursor.old cursor.new result }
{
    let mut all = Vec::new(alloc);
    let first = item(alloc, cursor)?;
    all.push(first)?;
    'more: loop {
        if let Token::End = cursor.peek() {
            return Ok(Items::from_vec(all));
        }
        let next = item(alloc, cursor)?;
        all.push(next)?;
    }
}
