//! Writes items as tokens.
ghost use Rattle.std.specs.Prelude.{◌≡◌, IfOk, OnOk};
ghost use Rattle.fut_syntax.specs.Trees as trees;
ghost use Rattle.fut_syntax.specs.Tokens.{param_before, more_params_before, params_before, item_before};
ghost use Rattle.fut_syntax.specs.Lines as spec;
ghost use Rattle.fut_syntax.specs.Views.{param_tree, params_tree, item_tree};
ghost use Rattle.fut_print.specs.Writing.{Wrote};

use crate::write_exprs::{put, put_type, put_word};
use crate::write_stmts::{put_block, put_typed};
use fut_base::list::NoMemory;
use fut_syntax::tree::{Item, Param};
use fut_tokens::token::Token;
use sqlite_items::Items;
use std::alloc::Global;

fn put_param(alloc: Global, out: &mut Vec<Token>, tree: &Param) -> Result<(), NoMemory>
    ensures { OnOk result (Wrote out.old.items out.new.items (param_before (param_tree tree.now))) }
{
    put_typed(alloc, out, &tree.name, tree.kind)
}

/// Parameters after the first, and the closing bracket.
fn put_more_params(alloc: Global, out: &mut Vec<Token>, given: &[Param]) -> Result<(), NoMemory>
    ensures { OnOk result (Wrote out.old.items out.new.items (more_params_before (params_tree given.now))) }
{
    for param in given {
        put(out, Token::Comma)?;
        put_param(alloc, out, param)?;
    }
    put(out, Token::RightParen)
}

/// Parameters and the closing bracket.
fn put_params(alloc: Global, out: &mut Vec<Token>, given: &[Param]) -> Result<(), NoMemory>
    ensures { OnOk result (Wrote out.old.items out.new.items (params_before (params_tree given.now))) }
{
    match given {
        [] => put(out, Token::RightParen),
        [first, rest @ ..] => {
            put_param(alloc, out, first)?;
            put_more_params(alloc, out, rest)
        }
    }
}

fn put_cells(
    alloc: Global,
    out: &mut Vec<Token>,
    name: &Items<u8>,
    length: u64,
) -> Result<(), NoMemory>
    ensures { OnOk result (Wrote out.old.items out.new.items (item_before (trees.CellsOf name.now length))) }
{
    put(out, Token::Cells)?;
    put_word(alloc, out, name)?;
    put(out, Token::LeftSquare)?;
    put(out, Token::Number(length))?;
    put(out, Token::RightSquare)?;
    put(out, Token::Semicolon)
}

fn put_item(alloc: Global, out: &mut Vec<Token>, tree: &Item) -> Result<(), NoMemory>
    ensures { OnOk result (Wrote out.old.items out.new.items (item_before (item_tree tree.now))) }
{
    match tree {
        Item::Cells(name, length) => put_cells(alloc, out, name, *length),
        Item::Task(name, params, depth, body) => {
            put(out, Token::Task)?;
            put_word(alloc, out, name)?;
            put(out, Token::LeftParen)?;
            put_params(alloc, out, params.as_slice())?;
            put_type(out, *depth)?;
            put_block(alloc, out, body)
        }
    }
}

/// The tokens of an item.
pub fn item_tokens(alloc: Global, tree: &Item) -> Result<Vec<Token>, NoMemory>
    ensures { IfOk result (λ out. out.items ≡ spec.item_tokens (item_tree tree.now)) }
{
    let mut out = Vec::new(alloc);
    put_item(alloc, &mut out, tree)?;
    Ok(out)
}
