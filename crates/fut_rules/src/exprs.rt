//! The types of expressions, and the faults in them.
ghost use Rattle.std.specs.Prelude.{◌≡◌, ◌+◌, ◌≤◌, ◌++◌, None, Some};
ghost use Rattle.fut_syntax.specs.Views.{expr_tree, operand_tree, primary_tree};
ghost use Rattle.fut_rules.specs.Faults.{Walked, broken};
ghost use Rattle.fut_rules.specs.Kinds.{unmet};
ghost use Rattle.fut_rules.specs.Widths.{expr_width, operand_width, primary_width};
ghost use Rattle.fut_rules.specs.Exprs as spec;

use crate::fault::Rule;
use crate::kind::{Kind, Need, unmet};
use crate::names::{Variable, kind_named};
use crate::search::Search;
use fut_syntax::tree::{Expr, Operand, Primary, Sign};

/// The type of an expression, where it has one.
#[cycle(kinds)]
pub fn expr_kind(variables: &[Variable], expr: &Expr) -> Option<Kind>
    ensures { result ≡ spec.expr_kind variables.now (expr_tree expr.now) }
{
    match expr {
        Expr::Alone(operand) => operand_kind(variables, operand),
        Expr::Pair(_, _, _) => Some(Kind::Int),
    }
}

#[cycle(kinds)]
fn operand_kind(variables: &[Variable], operand: &Operand) -> Option<Kind>
    ensures { result ≡ spec.operand_kind variables.now (operand_tree operand.now) }
{
    match operand {
        Operand::Signed(Sign::None, primary) => primary_kind(variables, primary),
        Operand::Signed(Sign::Negative, _) => Some(Kind::Int),
        Operand::Signed(Sign::Inverted, _) => Some(Kind::Int),
    }
}

#[cycle(kinds)]
#[tactic(auto, using(fut_syntax::proofs::Made::bracket_tree))]
fn primary_kind(variables: &[Variable], primary: &Primary) -> Option<Kind>
    ensures { result ≡ spec.primary_kind variables.now (primary_tree primary.now) }
{
    match primary {
        Primary::Number(_) => Some(Kind::Int),
        Primary::Word(word) => kind_named(variables, word.as_slice()),
        Primary::Bracket(inside) => expr_kind(variables, inside.get()),
    }
}

/// The rule that a word breaks which has to be a variable.
pub fn unknown(kind: Option<Kind>) -> Option<Rule>
    ensures { result ≡ spec.unknown kind }
{
    match kind {
        Some(_) => None,
        None => Some(Rule::UnknownName),
    }
}

/// Goes over an expression.
#[cycle(walks)]
#[tactic(auto, using(crate::proofs::Least::least_append, crate::proofs::Some::operand_some))]
pub fn walk_expr(search: &mut Search, variables: &[Variable], expr: &Expr)
    requires { search.old.at + expr_width (expr_tree expr.now) ≤ search.old.end }
    ensures { Walked search.old search.new (expr_width (expr_tree expr.now)) (spec.expr_faults variables.now search.old.at (expr_tree expr.now)) }
{
    match expr {
        Expr::Alone(operand) => walk_operand(search, variables, operand),
        Expr::Pair(left, _, right) => {
            let first = search.at();
            walk_operand(search, variables, left);
            search.note(unmet(Some(Need::Int), operand_kind(variables, left)), first);
            search.skip(1);
            let second = search.at();
            walk_operand(search, variables, right);
            search.note(
                unmet(Some(Need::Int), operand_kind(variables, right)),
                second,
            );
        }
    }
}

#[cycle(walks)]
fn walk_operand(search: &mut Search, variables: &[Variable], operand: &Operand)
    requires { search.old.at + operand_width (operand_tree operand.now) ≤ search.old.end }
    ensures { Walked search.old search.new (operand_width (operand_tree operand.now))
        (spec.operand_faults variables.now search.old.at (operand_tree operand.now)) }
{
    match operand {
        Operand::Signed(Sign::None, primary) => walk_primary(search, variables, primary),
        Operand::Signed(Sign::Negative, primary) => walk_signed(search, variables, primary),
        Operand::Signed(Sign::Inverted, primary) => walk_signed(search, variables, primary),
    }
}

/// Goes over a sign and what stands behind it.
#[cycle(walks)]
#[tactic(auto, using(crate::proofs::Least::least_append, crate::proofs::Some::primary_some))]
fn walk_signed(search: &mut Search, variables: &[Variable], primary: &Primary)
    requires { search.old.at + 1 + primary_width (primary_tree primary.now) ≤ search.old.end }
    ensures { Walked search.old search.new (1 + primary_width (primary_tree primary.now))
        (spec.primary_faults variables.now (search.old.at + 1) (primary_tree primary.now)
        ++ broken (unmet spec.for_int (spec.primary_kind variables.now (primary_tree primary.now))) (search.old.at + 1)) }
{
    search.skip(1);
    let first = search.at();
    walk_primary(search, variables, primary);
    search.note(
        unmet(Some(Need::Int), primary_kind(variables, primary)),
        first,
    );
}

#[cycle(walks)]
#[tactic(auto, using(crate::proofs::Least::least_append, fut_syntax::proofs::Made::bracket_tree))]
fn walk_primary(search: &mut Search, variables: &[Variable], primary: &Primary)
    requires { search.old.at + primary_width (primary_tree primary.now) ≤ search.old.end }
    ensures { Walked search.old search.new (primary_width (primary_tree primary.now))
        (spec.primary_faults variables.now search.old.at (primary_tree primary.now)) }
{
    match primary {
        Primary::Number(_) => search.skip(1),
        Primary::Word(word) => {
            let kind = kind_named(variables, word.as_slice());
            let first = search.at();
            search.note(unknown(kind), first);
            search.skip(1);
        }
        Primary::Bracket(inside) => {
            search.skip(1);
            walk_expr(search, variables, inside.get());
            search.skip(1);
        }
    }
}

/// Goes over an expression in a place with a need.
#[tactic(auto, using(crate::proofs::Least::least_append, crate::proofs::Some::expr_some))]
pub fn walk_needed(search: &mut Search, variables: &[Variable], need: Option<Need>, expr: &Expr)
    requires { search.old.at + expr_width (expr_tree expr.now) ≤ search.old.end }
    ensures { Walked search.old search.new (expr_width (expr_tree expr.now)) (spec.needed_faults variables.now search.old.at need (expr_tree expr.now)) }
{
    let first = search.at();
    walk_expr(search, variables, expr);
    search.note(unmet(need, expr_kind(variables, expr)), first);
}
