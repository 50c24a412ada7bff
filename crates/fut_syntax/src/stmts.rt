//! Reads statements and blocks.
ghost use Rattle.std.specs.Prelude.{◌≡◌, ◌≤◌, ◌∷◌, [], false};
ghost use Rattle.fut_tokens.specs.declared.token.Token.TheVariants as t;
ghost use Rattle.fut_syntax.specs.Trees as trees;
ghost use Rattle.fut_syntax.specs.Tokens.{stmt_before, tail_before};
ghost use Rattle.fut_syntax.specs.Views.{expr_tree, stmt_tree, block_tree, tail_tree};
ghost use Rattle.fut_syntax.specs.Steps.{Read, ReadTo, ReadOn, braced, set_before, front, is_close, has_block};
ghost use Rattle.fut_syntax.specs.Machine.{Block', Stmts, Else', WordStmt, VarInit, Type', Length, Init'};
ghost use Rattle.fut_syntax.specs.Machine.{Args, Expr', Word', LeftParen', Semicolon', Colon', Equals'};

use crate::cursor::{Cursor, Stop};
use crate::exprs::expr;
use crate::inits::{call, init, var_init};
use crate::signs::{close_square, colon, copy_name, enter, equals, semicolon, word};
use crate::tree::{Expr, Stmt, Tail};
use crate::types::var_type;
use fut_tokens::token::Token;
use sqlite_items::Items;
use std::alloc::Global;

/// A block with its brackets, where `depth` brackets are open before it.
#[cycle(stmts)]
pub fn block(alloc: Global, cursor: &mut Cursor, depth: u32) -> Result<Items<Stmt>, Stop>
    requires { depth ≤ 64 }
    ensures { Read Block' braced block_tree depth cursor.old cursor.new result }
{
    match cursor.peek() {
        Token::LeftBrace => {}
        _ => return Err(Stop::Fault),
    }
    let inner = enter(cursor, depth)?;
    let mut all = Vec::new(alloc);
    'stmts: loop {
        if let Token::RightBrace = cursor.peek() {
            cursor.bump();
            return Ok(Items::from_vec(all));
        }
        let next = stmt(alloc, cursor, inner)?;
        all.push(next)?;
    }
}

/// One statement, where no closing bracket is in view.
#[cycle(stmts)]
fn stmt(alloc: Global, cursor: &mut Cursor, depth: u32) -> Result<Stmt, Stop>
    requires high { depth ≤ 64 }
    requires one { is_close (front cursor.old) ≡ false }
    ensures { ReadTo (Stmts ∷ []) (Stmts ∷ []) stmt_before stmt_tree depth depth cursor.old cursor.new result }
{
    match cursor.peek() {
        Token::If => {
            cursor.bump();
            branched(alloc, cursor, depth)
        }
        Token::While => {
            cursor.bump();
            looped(alloc, cursor, depth)
        }
        _ => plain(alloc, cursor, depth),
    }
}

/// One statement without blocks, where no closing bracket is in view.
fn plain(alloc: Global, cursor: &mut Cursor, depth: u32) -> Result<Stmt, Stop>
    requires high { depth ≤ 64 }
    requires one { is_close (front cursor.old) ≡ false }
    requires plain { has_block (front cursor.old) ≡ false }
    ensures { ReadTo (Stmts ∷ []) (Stmts ∷ []) stmt_before stmt_tree depth depth cursor.old cursor.new result }
{
    match cursor.peek() {
        Token::Var => {
            cursor.bump();
            declared(alloc, cursor, depth)
        }
        Token::Word(word) => {
            let name = copy_name(alloc, word)?;
            cursor.bump();
            named(alloc, cursor, depth, name)
        }
        Token::Spawn => {
            cursor.bump();
            spawned(alloc, cursor, depth)
        }
        Token::Sync => {
            cursor.bump();
            semicolon(cursor)?;
            Ok(Stmt::Sync)
        }
        Token::Return => {
            cursor.bump();
            returned(alloc, cursor, depth)
        }
        _ => Err(Stop::Fault),
    }
}

/// A declaration after `var`.
fn declared(alloc: Global, cursor: &mut Cursor, depth: u32) -> Result<Stmt, Stop>
    requires { depth ≤ 64 }
    ensures { ReadOn (λ q. t.Var ∷ q) (Word' ∷ Colon' ∷ Type' ∷ Length ∷ VarInit ∷ Semicolon' ∷ Stmts ∷ [])
        (Stmts ∷ []) stmt_before stmt_tree depth cursor.old cursor.new result }
{
    let name = word(alloc, cursor)?;
    colon(cursor)?;
    let kind = var_type(cursor, depth)?;
    let value = var_init(alloc, cursor, depth)?;
    semicolon(cursor)?;
    match value {
        Some(value) => Ok(Stmt::Define(name, kind, value)),
        None => Ok(Stmt::Declare(name, kind)),
    }
}

/// A statement behind the word that begins it.
fn named(alloc: Global, cursor: &mut Cursor, depth: u32, name: Items<u8>) -> Result<Stmt, Stop>
    requires { depth ≤ 64 }
    ensures { ReadOn (λ q. t.Word name ∷ q) (WordStmt ∷ Semicolon' ∷ Stmts ∷ []) (Stmts ∷ []) stmt_before stmt_tree depth cursor.old cursor.new result }
{
    match cursor.peek() {
        Token::Equals => {
            cursor.bump();
            assigned(alloc, cursor, depth, name)
        }
        Token::LeftSquare => stored(alloc, cursor, depth, name),
        _ => Err(Stop::Fault),
    }
}

/// An assignment of a variable after `=`.
fn assigned(alloc: Global, cursor: &mut Cursor, depth: u32, name: Items<u8>) -> Result<Stmt, Stop>
    requires { depth ≤ 64 }
    ensures { ReadOn (λ q. t.Word name ∷ t.Equals ∷ q) (Init' ∷ Semicolon' ∷ Stmts ∷ []) (Stmts ∷ []) stmt_before stmt_tree depth cursor.old cursor.new result }
{
    let value = init(alloc, cursor, depth)?;
    semicolon(cursor)?;
    Ok(Stmt::Assign(name, value))
}

/// An assignment of an element, with its opening bracket in view.
fn stored(alloc: Global, cursor: &mut Cursor, depth: u32, name: Items<u8>) -> Result<Stmt, Stop>
    requires high { depth ≤ 64 }
    requires one { front cursor.old ≡ t.LeftSquare }
    ensures { ReadOn (λ q. t.Word name ∷ q) (WordStmt ∷ Semicolon' ∷ Stmts ∷ []) (Stmts ∷ []) stmt_before stmt_tree depth cursor.old cursor.new result }
{
    let inner = enter(cursor, depth)?;
    let index = expr(alloc, cursor, inner)?;
    close_square(cursor)?;
    let value = element_value(alloc, cursor, depth)?;
    semicolon(cursor)?;
    Ok(Stmt::Store(name, index, value))
}

/// What an element is set to, with the sign before it.
fn element_value(alloc: Global, cursor: &mut Cursor, depth: u32) -> Result<Expr, Stop>
    requires { depth ≤ 64 }
    ensures { ReadTo (Equals' ∷ Expr' ∷ []) [] set_before expr_tree depth depth cursor.old cursor.new result }
{
    equals(cursor)?;
    expr(alloc, cursor, depth)
}

/// A `spawn` after its word.
fn spawned(alloc: Global, cursor: &mut Cursor, depth: u32) -> Result<Stmt, Stop>
    requires { depth ≤ 64 }
    ensures { ReadOn (λ q. t.Spawn ∷ q) (Word' ∷ LeftParen' ∷ Args ∷ Semicolon' ∷ Stmts ∷ [])
        (Stmts ∷ []) stmt_before stmt_tree depth cursor.old cursor.new result }
{
    let task = call(alloc, cursor, depth)?;
    semicolon(cursor)?;
    Ok(Stmt::Spawn(task.name, task.given))
}

/// A `return` after its word.
fn returned(alloc: Global, cursor: &mut Cursor, depth: u32) -> Result<Stmt, Stop>
    requires { depth ≤ 64 }
    ensures { ReadOn (λ q. t.Return ∷ q) (Expr' ∷ Semicolon' ∷ Stmts ∷ []) (Stmts ∷ []) stmt_before stmt_tree depth cursor.old cursor.new result }
{
    let value = expr(alloc, cursor, depth)?;
    semicolon(cursor)?;
    Ok(Stmt::Return(value))
}

/// An `if` after its word.
#[cycle(stmts)]
fn branched(alloc: Global, cursor: &mut Cursor, depth: u32) -> Result<Stmt, Stop>
    requires { depth ≤ 64 }
    ensures { ReadOn (λ q. t.If ∷ q) (Expr' ∷ Block' ∷ Else' ∷ Stmts ∷ []) (Stmts ∷ []) stmt_before stmt_tree depth cursor.old cursor.new result }
{
    let test = expr(alloc, cursor, depth)?;
    let then = block(alloc, cursor, depth)?;
    let other = tail(alloc, cursor, depth)?;
    Ok(branch(test, then, other))
}

/// A `while` after its word.
#[cycle(stmts)]
fn looped(alloc: Global, cursor: &mut Cursor, depth: u32) -> Result<Stmt, Stop>
    requires { depth ≤ 64 }
    ensures { ReadOn (λ q. t.While ∷ q) (Expr' ∷ Block' ∷ Stmts ∷ []) (Stmts ∷ []) stmt_before stmt_tree depth cursor.old cursor.new result }
{
    let test = expr(alloc, cursor, depth)?;
    let body = block(alloc, cursor, depth)?;
    Ok(repeat(test, body))
}

/// The other branch, where there is one.
#[cycle(stmts)]
fn tail(alloc: Global, cursor: &mut Cursor, depth: u32) -> Result<Tail, Stop>
    requires { depth ≤ 64 }
    ensures { Read Else' tail_before tail_tree depth cursor.old cursor.new result }
{
    match cursor.peek() {
        Token::Else => cursor.bump(),
        _ => return Ok(Tail::None),
    }
    let other = block(alloc, cursor, depth)?;
    Ok(otherwise(other))
}

fn branch(test: Expr, then: Items<Stmt>, other: Tail) -> Stmt
    ensures { stmt_tree result ≡ trees.If' (expr_tree test) (block_tree then) (tail_tree other) }
{
    Stmt::If(test, then, other)
}

fn repeat(test: Expr, body: Items<Stmt>) -> Stmt
    ensures { stmt_tree result ≡ trees.While' (expr_tree test) (block_tree body) }
{
    Stmt::While(test, body)
}

fn otherwise(other: Items<Stmt>) -> Tail
    ensures { tail_tree result ≡ trees.ElseOf (block_tree other) }
{
    Tail::Else(other)
}
