//! Goes over expressions.
ghost use Rattle.std.specs.Prelude.{◌≡◌, ◌+◌, ◌≤◌, ◌++◌, None, Some};
ghost use Rattle.fut_syntax.specs.Views.{expr_tree, operand_tree, primary_tree};
ghost use Rattle.fut_rules.specs.Widths.{expr_width, operand_width, primary_width};
ghost use Rattle.fut_rules.specs.Exprs as kinds;
ghost use Rattle.fut_causes.specs.Causes.{mismatch};
ghost use Rattle.fut_causes.specs.Causes as spec;
ghost use Rattle.fut_causes.specs.Seeking.{Sought};

use crate::seek::Seek;
use fut_rules::exprs::expr_kind;
use fut_rules::kind::{Kind, Need};
use fut_rules::names::{Variable, kind_named};
use fut_syntax::tree::{Expr, Operand, Primary, Sign};

fn operand_kind(variables: &[Variable], operand: &Operand) -> Option<Kind>
    ensures { result ≡ kinds.operand_kind variables.now (operand_tree operand.now) }
{
    match operand {
        Operand::Signed(Sign::None, primary) => primary_kind(variables, primary),
        Operand::Signed(Sign::Negative, _) => Some(Kind::Int),
        Operand::Signed(Sign::Inverted, _) => Some(Kind::Int),
    }
}

#[tactic(auto, using(fut_syntax::proofs::Made::bracket_tree))]
fn primary_kind(variables: &[Variable], primary: &Primary) -> Option<Kind>
    ensures { result ≡ kinds.primary_kind variables.now (primary_tree primary.now) }
{
    match primary {
        Primary::Number(_) => Some(Kind::Int),
        Primary::Word(word) => kind_named(variables, word.as_slice()),
        Primary::Bracket(inside) => expr_kind(variables, inside.get()),
    }
}

/// Goes over an expression.
#[cycle(walks)]
#[tactic(auto, using(crate::proofs::Firsts::first_append, fut_rules::proofs::Some::operand_some))]
pub fn seek_expr(seek: &mut Seek<'_>, variables: &[Variable], expr: &Expr)
    requires { seek.old.at + expr_width (expr_tree expr.now) ≤ seek.old.end }
    ensures { Sought seek.old seek.new (expr_width (expr_tree expr.now)) (spec.expr_causes variables.now seek.old.at (expr_tree expr.now)) }
{
    match expr {
        Expr::Alone(operand) => seek_operand(seek, variables, operand),
        Expr::Pair(left, _, right) => {
            let first = seek.at();
            seek_operand(seek, variables, left);
            seek.need(Some(Need::Int), operand_kind(variables, left), first);
            seek.skip(1);
            let second = seek.at();
            seek_operand(seek, variables, right);
            seek.need(Some(Need::Int), operand_kind(variables, right), second);
        }
    }
}

#[cycle(walks)]
fn seek_operand(seek: &mut Seek<'_>, variables: &[Variable], operand: &Operand)
    requires { seek.old.at + operand_width (operand_tree operand.now) ≤ seek.old.end }
    ensures { Sought seek.old seek.new (operand_width (operand_tree operand.now))
        (spec.operand_causes variables.now seek.old.at (operand_tree operand.now)) }
{
    match operand {
        Operand::Signed(Sign::None, primary) => seek_primary(seek, variables, primary),
        Operand::Signed(Sign::Negative, primary) => seek_signed(seek, variables, primary),
        Operand::Signed(Sign::Inverted, primary) => seek_signed(seek, variables, primary),
    }
}

/// Goes over a sign and what stands behind it.
#[cycle(walks)]
#[tactic(auto, using(crate::proofs::Firsts::first_append, fut_rules::proofs::Some::primary_some))]
fn seek_signed(seek: &mut Seek<'_>, variables: &[Variable], primary: &Primary)
    requires { seek.old.at + 1 + primary_width (primary_tree primary.now) ≤ seek.old.end }
    ensures { Sought seek.old seek.new (1 + primary_width (primary_tree primary.now))
        (spec.primary_causes variables.now (seek.old.at + 1) (primary_tree primary.now)
        ++ mismatch kinds.for_int (kinds.primary_kind variables.now (primary_tree primary.now)) (seek.old.at + 1)) }
{
    seek.skip(1);
    let first = seek.at();
    seek_primary(seek, variables, primary);
    seek.need(Some(Need::Int), primary_kind(variables, primary), first);
}

#[cycle(walks)]
#[tactic(auto, using(crate::proofs::Firsts::first_append, fut_syntax::proofs::Made::bracket_tree))]
fn seek_primary(seek: &mut Seek<'_>, variables: &[Variable], primary: &Primary)
    requires { seek.old.at + primary_width (primary_tree primary.now) ≤ seek.old.end }
    ensures { Sought seek.old seek.new (primary_width (primary_tree primary.now))
        (spec.primary_causes variables.now seek.old.at (primary_tree primary.now)) }
{
    match primary {
        Primary::Number(_) | Primary::Word(_) => seek.skip(1),
        Primary::Bracket(inside) => {
            seek.skip(1);
            seek_expr(seek, variables, inside.get());
            seek.skip(1);
        }
    }
}

/// Goes over an expression in a place with a need.
#[tactic(auto, using(crate::proofs::Firsts::first_append, fut_rules::proofs::Some::expr_some))]
pub fn seek_needed(seek: &mut Seek<'_>, variables: &[Variable], need: Option<Need>, expr: &Expr)
    requires { seek.old.at + expr_width (expr_tree expr.now) ≤ seek.old.end }
    ensures { Sought seek.old seek.new (expr_width (expr_tree expr.now)) (spec.needed_causes variables.now seek.old.at need (expr_tree expr.now)) }
{
    let first = seek.at();
    seek_expr(seek, variables, expr);
    seek.need(need, expr_kind(variables, expr), first);
}
