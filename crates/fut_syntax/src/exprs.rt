//! Reads expressions.
ghost use Rattle.std.specs.Prelude.{◌≡◌, ◌≤◌};
ghost use Rattle.fut_syntax.specs.Trees.{Bracket};
ghost use Rattle.fut_syntax.specs.Tokens.{expr_before, operand_before, primary_before};
ghost use Rattle.fut_syntax.specs.Views.{expr_tree, operand_tree, primary_tree};
ghost use Rattle.fut_syntax.specs.Steps.{Read, Made};
ghost use Rattle.fut_syntax.specs.Machine.{Expr', Operand', Primary'};

use crate::cursor::{Cursor, Stop};
use crate::signs::{close_paren, copy_name, enter, operator, sign};
use crate::tree::{Expr, Operand, Primary};
use fut_tokens::token::Token;
use sqlite_items::Boxed;
use std::alloc::Global;

/// An expression, where `depth` brackets are open.
#[cycle(exprs)]
pub fn expr(alloc: Global, cursor: &mut Cursor, depth: u32) -> Result<Expr, Stop>
    requires { depth ≤ 64 }
    ensures { Read Expr' expr_before expr_tree depth cursor.old cursor.new result }
{
    let left = operand(alloc, cursor, depth)?;
    match operator(cursor) {
        Some(between) => {
            let right = operand(alloc, cursor, depth)?;
            Ok(Expr::Pair(left, between, right))
        }
        None => Ok(Expr::Alone(left)),
    }
}

/// An operand with its sign, if it has one.
#[cycle(exprs)]
pub fn operand(alloc: Global, cursor: &mut Cursor, depth: u32) -> Result<Operand, Stop>
    requires { depth ≤ 64 }
    ensures { Read Operand' operand_before operand_tree depth cursor.old cursor.new result }
{
    let before = sign(cursor);
    let inner = primary(alloc, cursor, depth)?;
    Ok(Operand::Signed(before, inner))
}

#[cycle(exprs)]
fn primary(alloc: Global, cursor: &mut Cursor, depth: u32) -> Result<Primary, Stop>
    requires { depth ≤ 64 }
    ensures { Read Primary' primary_before primary_tree depth cursor.old cursor.new result }
{
    match cursor.peek() {
        Token::Number(value) => {
            let number = *value;
            cursor.bump();
            Ok(Primary::Number(number))
        }
        Token::Word(word) => {
            let name = copy_name(alloc, word)?;
            cursor.bump();
            Ok(Primary::Word(name))
        }
        Token::LeftParen => {
            let inner = enter(cursor, depth)?;
            let inside = expr(alloc, cursor, inner)?;
            close_paren(cursor)?;
            bracket(alloc, inside)
        }
        _ => Err(Stop::Fault),
    }
}

fn bracket(alloc: Global, inside: Expr) -> Result<Primary, Stop>
    ensures { Made primary_tree (Bracket (expr_tree inside)) result }
{
    match Boxed::new(alloc, inside) {
        Ok(inside) => Ok(Primary::Bracket(inside)),
        Err(_) => Err(Stop::NoMemory),
    }
}
