//! Writes trees as tokens.
ghost use Rattle.std.specs.Prelude.{◌≡◌, ◌∷◌, OnOk};
ghost use Rattle.fut_tokens.specs.declared.token.Token.TheVariants as t;
ghost use Rattle.fut_syntax.specs.Trees as trees;
ghost use Rattle.fut_syntax.specs.Tokens.{op_token, sign_before, expr_before, operand_before, primary_before, more_before};
ghost use Rattle.fut_syntax.specs.Tokens.{args_before, call_before, init_before, type_before, var_type_before};
ghost use Rattle.fut_syntax.specs.Views.{op_tree, sign_tree, expr_tree, operand_tree, primary_tree, args_tree, init_tree, type_tree};
ghost use Rattle.fut_print.specs.Writing.{Wrote};

use fut_base::list::NoMemory;
use fut_syntax::tree::{Expr, Init, Operand, Operator, Primary, Sign, VarType};
use fut_tokens::token::Token;
use sqlite_items::Items;
use std::alloc::Global;

/// The token of an operator.
fn operator(operator: Operator) -> Token
    ensures { result ≡ op_token (op_tree operator) }
{
    match operator {
        Operator::Add => Token::Plus,
        Operator::Subtract => Token::Minus,
        Operator::Multiply => Token::Star,
        Operator::Divide => Token::Slash,
        Operator::Remainder => Token::Percent,
        Operator::BitAnd => Token::Ampersand,
        Operator::BitOr => Token::Bar,
        Operator::Equal => Token::EqualEqual,
        Operator::Unequal => Token::BangEqual,
        Operator::Less => Token::Less,
        Operator::AtMost => Token::LessEqual,
        Operator::Greater => Token::Greater,
        Operator::AtLeast => Token::GreaterEqual,
    }
}

pub fn put(out: &mut Vec<Token>, token: Token) -> Result<(), NoMemory>
    ensures { OnOk result (Wrote out.old.items out.new.items (λ r. token ∷ r)) }
{
    out.push(token)?;
    Ok(())
}

pub fn put_word(alloc: Global, out: &mut Vec<Token>, name: &Items<u8>) -> Result<(), NoMemory>
    ensures { OnOk result (Wrote out.old.items out.new.items (λ r. t.Word name.now ∷ r)) }
{
    let copy = Items::from_slice(alloc, name.as_slice())?;
    put(out, Token::Word(copy))
}

fn put_sign(out: &mut Vec<Token>, sign: Sign) -> Result<(), NoMemory>
    ensures { OnOk result (Wrote out.old.items out.new.items (sign_before (sign_tree sign))) }
{
    match sign {
        Sign::None => Ok(()),
        Sign::Negative => put(out, Token::Minus),
        Sign::Inverted => put(out, Token::Bang),
    }
}

#[cycle(put_exprs)]
pub fn put_expr(alloc: Global, out: &mut Vec<Token>, tree: &Expr) -> Result<(), NoMemory>
    ensures { OnOk result (Wrote out.old.items out.new.items (expr_before (expr_tree tree.now))) }
{
    match tree {
        Expr::Alone(only) => put_operand(alloc, out, only),
        Expr::Pair(left, between, right) => {
            put_operand(alloc, out, left)?;
            put(out, operator(*between))?;
            put_operand(alloc, out, right)
        }
    }
}

#[cycle(put_exprs)]
fn put_operand(alloc: Global, out: &mut Vec<Token>, tree: &Operand) -> Result<(), NoMemory>
    ensures { OnOk result (Wrote out.old.items out.new.items (operand_before (operand_tree tree.now))) }
{
    match tree {
        Operand::Signed(sign, inner) => {
            put_sign(out, *sign)?;
            put_primary(alloc, out, inner)
        }
    }
}

#[cycle(put_exprs)]
fn put_primary(alloc: Global, out: &mut Vec<Token>, tree: &Primary) -> Result<(), NoMemory>
    ensures { OnOk result (Wrote out.old.items out.new.items (primary_before (primary_tree tree.now))) }
{
    match tree {
        Primary::Number(value) => put(out, Token::Number(*value)),
        Primary::Word(name) => put_word(alloc, out, name),
        Primary::Bracket(inside) => put_bracket(alloc, out, inside.get()),
    }
}

#[cycle(put_exprs)]
fn put_bracket(alloc: Global, out: &mut Vec<Token>, tree: &Expr) -> Result<(), NoMemory>
    ensures { OnOk result (Wrote out.old.items out.new.items (primary_before (trees.Bracket (expr_tree tree.now)))) }
{
    put(out, Token::LeftParen)?;
    put_expr(alloc, out, tree)?;
    put(out, Token::RightParen)
}

/// Arguments after the first, and the closing bracket.
fn put_more(alloc: Global, out: &mut Vec<Token>, given: &[Expr]) -> Result<(), NoMemory>
    ensures { OnOk result (Wrote out.old.items out.new.items (more_before (args_tree given.now))) }
{
    for argument in given {
        put(out, Token::Comma)?;
        put_expr(alloc, out, argument)?;
    }
    put(out, Token::RightParen)
}

/// Arguments and the closing bracket.
fn put_args(alloc: Global, out: &mut Vec<Token>, given: &[Expr]) -> Result<(), NoMemory>
    ensures { OnOk result (Wrote out.old.items out.new.items (args_before (args_tree given.now))) }
{
    match given {
        [] => put(out, Token::RightParen),
        [first, rest @ ..] => {
            put_expr(alloc, out, first)?;
            put_more(alloc, out, rest)
        }
    }
}

pub fn put_call(
    alloc: Global,
    out: &mut Vec<Token>,
    name: &Items<u8>,
    given: &Items<Expr>,
) -> Result<(), NoMemory>
    ensures { OnOk result (Wrote out.old.items out.new.items (call_before name.now (args_tree given.now))) }
{
    put_word(alloc, out, name)?;
    put(out, Token::LeftParen)?;
    put_args(alloc, out, given.as_slice())
}

pub fn put_element(
    alloc: Global,
    out: &mut Vec<Token>,
    name: &Items<u8>,
    index: &Expr,
) -> Result<(), NoMemory>
    ensures { OnOk result (Wrote out.old.items out.new.items (λ r. t.Word name.now ∷ t.LeftSquare ∷ expr_before (expr_tree index.now) (t.RightSquare ∷ r))) }
{
    put_word(alloc, out, name)?;
    put(out, Token::LeftSquare)?;
    put_expr(alloc, out, index)?;
    put(out, Token::RightSquare)
}

pub fn put_init(alloc: Global, out: &mut Vec<Token>, tree: &Init) -> Result<(), NoMemory>
    ensures { OnOk result (Wrote out.old.items out.new.items (init_before (init_tree tree.now))) }
{
    match tree {
        Init::Get(name) => {
            put(out, Token::Get)?;
            put_word(alloc, out, name)
        }
        Init::Create(name, given) => {
            put(out, Token::Create)?;
            put_call(alloc, out, name, given)
        }
        Init::Index(name, index) => put_element(alloc, out, name, index),
        Init::Value(value) => put_expr(alloc, out, value),
    }
}

/// `int` behind so many `fut`.
pub fn put_type(out: &mut Vec<Token>, depth: u64) -> Result<(), NoMemory>
    ensures { OnOk result (Wrote out.old.items out.new.items (type_before depth)) }
{
    let mut left = depth;
    while left > 0 {
        put(out, Token::Fut)?;
        left -= 1;
    }
    put(out, Token::Int)
}

pub fn put_var_type(out: &mut Vec<Token>, tree: VarType) -> Result<(), NoMemory>
    ensures { OnOk result (Wrote out.old.items out.new.items (var_type_before (type_tree tree))) }
{
    match tree {
        VarType::Plain { depth } => put_type(out, depth),
        VarType::Array { depth, length } => {
            put_type(out, depth)?;
            put(out, Token::LeftSquare)?;
            put(out, Token::Number(length))?;
            put(out, Token::RightSquare)
        }
    }
}
