//! Writes statements as tokens.
ghost use Rattle.std.specs.Prelude.{◌∷◌, OnOk};
ghost use Rattle.fut_tokens.specs.declared.token.Token.TheVariants as t;
ghost use Rattle.fut_syntax.specs.Trees as trees;
ghost use Rattle.fut_syntax.specs.Tokens.{expr_before, init_before, var_type_before, stmt_before, block_before, tail_before};
ghost use Rattle.fut_syntax.specs.Views.{expr_tree, init_tree, type_tree, stmt_tree, block_tree, tail_tree};
ghost use Rattle.fut_print.specs.Writing.{Wrote};

use crate::write_exprs::{put, put_call, put_element, put_expr, put_init, put_var_type, put_word};
use fut_base::list::NoMemory;
use fut_syntax::tree::{Expr, Init, Stmt, Tail, VarType};
use fut_tokens::token::Token;
use sqlite_items::Items;
use std::alloc::Global;

/// A word and its type.
pub fn put_typed(
    alloc: Global,
    out: &mut Vec<Token>,
    name: &Items<u8>,
    kind: VarType,
) -> Result<(), NoMemory>
    ensures { OnOk result (Wrote out.old.items out.new.items (λ r. t.Word name.now ∷ t.Colon ∷ var_type_before (type_tree kind) r)) }
{
    put_word(alloc, out, name)?;
    put(out, Token::Colon)?;
    put_var_type(out, kind)
}

fn put_declare(
    alloc: Global,
    out: &mut Vec<Token>,
    name: &Items<u8>,
    kind: VarType,
) -> Result<(), NoMemory>
    ensures { OnOk result (Wrote out.old.items out.new.items (stmt_before (trees.Declare name.now (type_tree kind)))) }
{
    put(out, Token::Var)?;
    put_typed(alloc, out, name, kind)?;
    put(out, Token::Semicolon)
}

fn put_define(
    alloc: Global,
    out: &mut Vec<Token>,
    name: &Items<u8>,
    kind: VarType,
    value: &Init,
) -> Result<(), NoMemory>
    ensures { OnOk result (Wrote out.old.items out.new.items (stmt_before (trees.Define name.now (type_tree kind) (init_tree value.now)))) }
{
    put(out, Token::Var)?;
    put_typed(alloc, out, name, kind)?;
    put(out, Token::Equals)?;
    put_init(alloc, out, value)?;
    put(out, Token::Semicolon)
}

fn put_assign(
    alloc: Global,
    out: &mut Vec<Token>,
    name: &Items<u8>,
    value: &Init,
) -> Result<(), NoMemory>
    ensures { OnOk result (Wrote out.old.items out.new.items (stmt_before (trees.Assign name.now (init_tree value.now)))) }
{
    put_word(alloc, out, name)?;
    put(out, Token::Equals)?;
    put_init(alloc, out, value)?;
    put(out, Token::Semicolon)
}

fn put_store(
    alloc: Global,
    out: &mut Vec<Token>,
    name: &Items<u8>,
    index: &Expr,
    value: &Expr,
) -> Result<(), NoMemory>
    ensures { OnOk result (Wrote out.old.items out.new.items (stmt_before (trees.Store name.now (expr_tree index.now) (expr_tree value.now)))) }
{
    put_element(alloc, out, name, index)?;
    put(out, Token::Equals)?;
    put_expr(alloc, out, value)?;
    put(out, Token::Semicolon)
}

#[cycle(put_stmts)]
fn put_stmt(alloc: Global, out: &mut Vec<Token>, tree: &Stmt) -> Result<(), NoMemory>
    ensures { OnOk result (Wrote out.old.items out.new.items (stmt_before (stmt_tree tree.now))) }
{
    match tree {
        Stmt::Declare(name, kind) => put_declare(alloc, out, name, *kind),
        Stmt::Define(name, kind, value) => put_define(alloc, out, name, *kind, value),
        Stmt::Assign(name, value) => put_assign(alloc, out, name, value),
        Stmt::Store(name, index, value) => put_store(alloc, out, name, index, value),
        Stmt::Spawn(name, given) => {
            put(out, Token::Spawn)?;
            put_call(alloc, out, name, given)?;
            put(out, Token::Semicolon)
        }
        Stmt::Sync => {
            put(out, Token::Sync)?;
            put(out, Token::Semicolon)
        }
        Stmt::If(test, then, other) => {
            put(out, Token::If)?;
            put_expr(alloc, out, test)?;
            put_block(alloc, out, then)?;
            put_tail(alloc, out, other)
        }
        Stmt::While(test, body) => {
            put(out, Token::While)?;
            put_expr(alloc, out, test)?;
            put_block(alloc, out, body)
        }
        Stmt::Return(value) => {
            put(out, Token::Return)?;
            put_expr(alloc, out, value)?;
            put(out, Token::Semicolon)
        }
    }
}

#[cycle(put_stmts)]
/// A block with its brackets.
pub fn put_block(alloc: Global, out: &mut Vec<Token>, body: &Items<Stmt>) -> Result<(), NoMemory>
    ensures { OnOk result (Wrote out.old.items out.new.items (λ r. t.LeftBrace ∷ block_before (block_tree body.now) r)) }
{
    put(out, Token::LeftBrace)?;
    for stmt in body.as_slice() {
        put_stmt(alloc, out, stmt)?;
    }
    put(out, Token::RightBrace)
}

#[cycle(put_stmts)]
fn put_tail(alloc: Global, out: &mut Vec<Token>, tree: &Tail) -> Result<(), NoMemory>
    ensures { OnOk result (Wrote out.old.items out.new.items (tail_before (tail_tree tree.now))) }
{
    match tree {
        Tail::None => Ok(()),
        Tail::Else(other) => {
            put(out, Token::Else)?;
            put_block(alloc, out, other)
        }
    }
}
