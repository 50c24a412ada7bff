//! Reads calls, and what a variable is set to.
ghost use Rattle.std.specs.Prelude.{◌≡◌, ◌≤◌, ◌-◌, ◌∷◌, []};
ghost use Rattle.fut_tokens.specs.declared.token.Token.TheVariants as t;
ghost use Rattle.fut_syntax.specs.Tokens.{args_before, init_before, var_init_before};
ghost use Rattle.fut_syntax.specs.Views.{args_tree, call_tree, init_tree, var_init_tree};
ghost use Rattle.fut_syntax.specs.Steps.{Read, ReadTo, ReadOn, called, front};
ghost use Rattle.fut_syntax.specs.Machine.{Init', InitTail, VarInit, Args, Word', LeftParen'};

use crate::cursor::{Cursor, Stop};
use crate::exprs::{expr, operand};
use crate::signs::{close_square, copy_name, enter, open_paren, operator, word};
use crate::tree::{Expr, Init, Operand, Primary, Sign};
use fut_tokens::token::Token;
use sqlite_items::Items;
use std::alloc::Global;

/// A called task and its arguments.
#[derive(Drop)]
pub struct Called {
    pub name: Items<u8>,
    pub given: Items<Expr>,
}

/// The arguments up to their closing bracket; `depth` counts the opening one.
fn args(alloc: Global, cursor: &mut Cursor, depth: u32) -> Result<Items<Expr>, Stop>
    requires low { 1 ≤ depth }
    requires high { depth ≤ 64 }
    ensures { ReadTo (Args ∷ []) [] args_before args_tree depth (depth - 1) cursor.old cursor.new result }
{
    if let Token::RightParen = cursor.peek() {
        cursor.bump();
        return Ok(Items::new(alloc));
    }
    let mut all = Vec::new(alloc);
    let first = expr(alloc, cursor, depth)?;
    all.push(first)?;
    'more: loop {
        match cursor.peek() {
            Token::RightParen => {
                cursor.bump();
                return Ok(Items::from_vec(all));
            }
            Token::Comma => cursor.bump(),
            _ => return Err(Stop::Fault),
        }
        let next = expr(alloc, cursor, depth)?;
        all.push(next)?;
    }
}

/// A word and its arguments in brackets.
pub fn call(alloc: Global, cursor: &mut Cursor, depth: u32) -> Result<Called, Stop>
    requires { depth ≤ 64 }
    ensures { ReadTo (Word' ∷ LeftParen' ∷ Args ∷ []) [] called call_tree depth depth cursor.old cursor.new result }
{
    let name = word(alloc, cursor)?;
    let inner = open_paren(cursor, depth)?;
    let given = args(alloc, cursor, inner)?;
    Ok(Called { name, given })
}

/// An element, behind its array's word and with its opening bracket in view.
fn index_init(alloc: Global, cursor: &mut Cursor, depth: u32, name: Items<u8>) -> Result<Init, Stop>
    requires high { depth ≤ 64 }
    requires one { front cursor.old ≡ t.LeftSquare }
    ensures { ReadOn (λ q. t.Word name ∷ q) (InitTail ∷ []) [] init_before init_tree depth cursor.old cursor.new result }
{
    let inner = enter(cursor, depth)?;
    let index = expr(alloc, cursor, inner)?;
    close_square(cursor)?;
    Ok(Init::Index(name, index))
}

/// What follows a word that begins an init.
fn word_init(alloc: Global, cursor: &mut Cursor, depth: u32, name: Items<u8>) -> Result<Init, Stop>
    requires { depth ≤ 64 }
    ensures { ReadOn (λ q. t.Word name ∷ q) (InitTail ∷ []) [] init_before init_tree depth cursor.old cursor.new result }
{
    if let Token::LeftSquare = cursor.peek() {
        return index_init(alloc, cursor, depth, name);
    }
    let left = Operand::Signed(Sign::None, Primary::Word(name));
    match operator(cursor) {
        Some(between) => {
            let right = operand(alloc, cursor, depth)?;
            Ok(Init::Value(Expr::Pair(left, between, right)))
        }
        None => Ok(Init::Value(Expr::Alone(left))),
    }
}

/// What a variable is set to.
pub fn init(alloc: Global, cursor: &mut Cursor, depth: u32) -> Result<Init, Stop>
    requires { depth ≤ 64 }
    ensures { Read Init' init_before init_tree depth cursor.old cursor.new result }
{
    match cursor.peek() {
        Token::Get => {
            cursor.bump();
            let name = word(alloc, cursor)?;
            Ok(Init::Get(name))
        }
        Token::Create => {
            cursor.bump();
            let made = call(alloc, cursor, depth)?;
            Ok(Init::Create(made.name, made.given))
        }
        Token::Word(word) => {
            let name = copy_name(alloc, word)?;
            cursor.bump();
            word_init(alloc, cursor, depth, name)
        }
        _ => {
            let value = expr(alloc, cursor, depth)?;
            Ok(Init::Value(value))
        }
    }
}

/// What a declared variable is set to, if anything.
pub fn var_init(alloc: Global, cursor: &mut Cursor, depth: u32) -> Result<Option<Init>, Stop>
    requires { depth ≤ 64 }
    ensures { Read VarInit var_init_before var_init_tree depth cursor.old cursor.new result }
{
    match cursor.peek() {
        Token::Equals => {
            cursor.bump();
            let value = init(alloc, cursor, depth)?;
            Ok(Some(value))
        }
        _ => Ok(None),
    }
}
