//! Goes over statements.
ghost use Rattle.std.specs.Prelude.{◌≡◌, ◌+◌, ◌≤◌, ◌<◌, ◌++◌, [], IfOk};
ghost use Rattle.fut_syntax.specs.Trees as trees;
ghost use Rattle.fut_syntax.specs.Views.{type_tree, expr_tree, init_tree, args_tree, stmt_tree, block_tree, tail_tree, items_tree};
ghost use Rattle.fut_rules.specs.Names.{kind_named, element, means_cells, declaration};
ghost use Rattle.fut_rules.specs.Exprs.{for_int};
ghost use Rattle.fut_rules.specs.Widths.{type_width, expr_width, stmt_width, block_width, tail_width};
ghost use Rattle.fut_check.specs.Stmts as rules;
ghost use Rattle.fut_causes.specs.Causes.{needed_causes, misreturned};
ghost use Rattle.fut_causes.specs.Causes as spec;
ghost use Rattle.fut_causes.specs.Seeking.{Sought, Passed};

use crate::cause::Cause;
use crate::exprs::{seek_expr, seek_needed};
use crate::inits::{seek_call, seek_init};
use crate::seek::Seek;
use fut_base::list::NoMemory;
use fut_rules::exprs::expr_kind;
use fut_rules::inits::element;
use fut_rules::kind::{Kind, Need, kind_of, plain, result_rule};
use fut_rules::names::{kind_named, means_cells};
use fut_rules::scope::Scope;
use fut_syntax::tree::{Expr, Init, Item, Stmt, Tail, VarType};
use std::alloc::Global;

/// What the init of a variable of this type has to be, if there is such a variable.
fn value_need(kind: Option<Kind>) -> Option<Need>
    ensures { result ≡ rules.value_need kind }
{
    match kind {
        Some(kind) => Some(kind.init_need()),
        None => None,
    }
}

/// What the init of the variable of a name has to be, if there is such a variable.
fn variable_need(scope: &Scope, word: &[u8]) -> Option<Need>
    ensures { result ≡ rules.value_need (kind_named scope.now.visible word.now) }
{
    value_need(kind_named(scope.visible(), word))
}

/// What the value of an element behind a word has to be, if the word has elements.
fn element_need(items: &[Item], scope: &Scope, word: &[u8]) -> Option<Need>
    ensures { result ≡ rules.value_need (element (kind_named scope.now.visible word.now) (means_cells (declaration (items_tree items.now) word.now))) }
{
    value_need(element(kind_named(scope.visible(), word), means_cells(items, word)))
}

/// Goes over the type of a variable or parameter.
pub fn seek_type(seek: &mut Seek<'_>, written: &VarType)
    requires { seek.old.at + type_width (type_tree written.now) ≤ seek.old.end }
    ensures { Sought seek.old seek.new (type_width (type_tree written.now)) [] }
{
    let _at = seek.at();
    match *written {
        VarType::Plain { depth } => seek.skip(depth as usize + 1),
        VarType::Array { depth, .. } => seek.skip(depth as usize + 4),
    }
}

/// Goes over a declaration with a value.
#[tactic(auto, using(crate::proofs::Firsts::first_append))]
fn seek_define(
    seek: &mut Seek<'_>,
    items: &[Item],
    scope: &Scope,
    word: &[u8],
    written: &VarType,
    value: &Init,
)
    requires { seek.old.at + stmt_width (trees.Define word.now (type_tree written.now) (init_tree value.now)) ≤ seek.old.end }
    ensures { Sought seek.old seek.new (stmt_width (trees.Define word.now (type_tree written.now) (init_tree value.now)))
        (spec.stmt_causes (items_tree items.now) scope.now seek.old.at
        (trees.Define word.now (type_tree written.now) (init_tree value.now))) }
{
    let kind = kind_of(written);
    seek.skip(3);
    seek_type(seek, written);
    seek.skip(1);
    seek_init(seek, items, scope.visible(), Some(kind.init_need()), value);
    seek.skip(1);
}

/// Goes over an assignment of a variable.
#[tactic(auto, using(crate::proofs::Firsts::first_append))]
fn seek_assign(seek: &mut Seek<'_>, items: &[Item], scope: &Scope, word: &[u8], value: &Init)
    requires { seek.old.at + stmt_width (trees.Assign word.now (init_tree value.now)) ≤ seek.old.end }
    ensures { Sought seek.old seek.new (stmt_width (trees.Assign word.now (init_tree value.now)))
        (spec.stmt_causes (items_tree items.now) scope.now seek.old.at (trees.Assign word.now (init_tree value.now))) }
{
    seek.skip(2);
    seek_init(
        seek,
        items,
        scope.visible(),
        variable_need(scope, word),
        value,
    );
    seek.skip(1);
}

/// Goes over an assignment of an element or a cell.
#[tactic(auto, using(crate::proofs::Firsts::first_append))]
fn seek_store(
    seek: &mut Seek<'_>,
    items: &[Item],
    scope: &Scope,
    word: &[u8],
    index: &Expr,
    value: &Expr,
)
    requires { seek.old.at + stmt_width (trees.Store word.now (expr_tree index.now) (expr_tree value.now)) ≤ seek.old.end }
    ensures { Sought seek.old seek.new (stmt_width (trees.Store word.now (expr_tree index.now) (expr_tree value.now)))
        (spec.stmt_causes (items_tree items.now) scope.now seek.old.at
        (trees.Store word.now (expr_tree index.now) (expr_tree value.now))) }
{
    seek.skip(2);
    seek_needed(seek, scope.visible(), Some(Need::Int), index);
    seek.skip(2);
    seek_needed(
        seek,
        scope.visible(),
        element_need(items, scope, word),
        value,
    );
    seek.skip(1);
}

/// Goes over a `spawn`.
#[tactic(auto, using(crate::proofs::Firsts::first_append))]
fn seek_spawn(seek: &mut Seek<'_>, items: &[Item], scope: &Scope, word: &[u8], args: &[Expr])
    requires { seek.old.at + stmt_width (trees.SpawnOf word.now (args_tree args.now)) ≤ seek.old.end }
    ensures { Sought seek.old seek.new (stmt_width (trees.SpawnOf word.now (args_tree args.now)))
        (spec.stmt_causes (items_tree items.now) scope.now seek.old.at (trees.SpawnOf word.now (args_tree args.now))) }
{
    seek.skip(1);
    seek_call(seek, items, scope.visible(), word, args);
    seek.skip(1);
}

/// Goes over the word `if` or `while`, its test, and the opening bracket.
#[tactic(auto, using(crate::proofs::Firsts::first_append))]
fn seek_test(seek: &mut Seek<'_>, scope: &Scope, test: &Expr)
    requires { seek.old.at + 1 + expr_width (expr_tree test.now) + 1 ≤ seek.old.end }
    ensures { Sought seek.old seek.new (1 + expr_width (expr_tree test.now) + 1)
        (needed_causes scope.now.visible (seek.old.at + 1) for_int (expr_tree test.now)) }
{
    seek.skip(1);
    seek_needed(seek, scope.visible(), Some(Need::Int), test);
    seek.skip(1);
}

/// Meets something of a type that is returned in a task whose result has so many `fut` before `int`, at a token.
fn seek_result(seek: &mut Seek<'_>, depth: u64, given: Option<Kind>, token: usize)
    requires { token < seek.old.end }
    ensures { Sought seek.old seek.new 0 (misreturned depth given token) }
{
    match given {
        Some(found) => seek.note(
            result_rule(depth, Some(found)),
            token,
            Cause::Types {
                due: plain(depth).argument_need(),
                found,
            },
        ),
        None => {}
    }
}

/// Goes over a `return`.
#[tactic(auto, using(crate::proofs::Firsts::first_append, fut_rules::proofs::Some::expr_some))]
fn seek_return(seek: &mut Seek<'_>, items: &[Item], scope: &Scope, value: &Expr)
    requires { seek.old.at + stmt_width (trees.Return' (expr_tree value.now)) ≤ seek.old.end }
    ensures { Sought seek.old seek.new (stmt_width (trees.Return' (expr_tree value.now)))
        (spec.stmt_causes (items_tree items.now) scope.now seek.old.at (trees.Return' (expr_tree value.now))) }
{
    seek.skip(1);
    let first = seek.at();
    seek_expr(seek, scope.visible(), value);
    seek_result(
        seek,
        scope.returns(),
        expr_kind(scope.visible(), value),
        first,
    );
    seek.skip(1);
}

/// Goes over a statement.
#[cycle(stmts)]
fn seek_stmt(
    alloc: Global,
    seek: &mut Seek<'_>,
    items: &[Item],
    scope: &mut Scope,
    stmt: &Stmt,
) -> Result<(), NoMemory>
    requires { seek.old.at + stmt_width (stmt_tree stmt.now) ≤ seek.old.end }
    ensures { IfOk result (λ _. Passed seek.old seek.new (stmt_width (stmt_tree stmt.now))
        (spec.stmt_causes (items_tree items.now) scope.old seek.old.at (stmt_tree stmt.now)) scope.new
        (rules.scope_after scope.old (stmt_tree stmt.now))) }
{
    match stmt {
        Stmt::Declare(word, written) => {
            seek.skip(3);
            seek_type(seek, written);
            seek.skip(1);
            scope.declare(alloc, word.as_slice(), kind_of(written))
        }
        Stmt::Define(word, written, value) => {
            seek_define(seek, items, scope, word.as_slice(), written, value);
            scope.declare(alloc, word.as_slice(), kind_of(written))
        }
        Stmt::Assign(word, value) => {
            seek_assign(seek, items, scope, word.as_slice(), value);
            Ok(())
        }
        Stmt::Store(word, index, value) => {
            seek_store(seek, items, scope, word.as_slice(), index, value);
            Ok(())
        }
        Stmt::Spawn(word, args) => {
            seek_spawn(seek, items, scope, word.as_slice(), args.as_slice());
            Ok(())
        }
        Stmt::Sync => {
            seek.skip(2);
            Ok(())
        }
        Stmt::If(test, body, tail) => {
            seek_test(seek, scope, test);
            seek_block(alloc, seek, items, scope, body.as_slice())?;
            seek.skip(1);
            seek_tail(alloc, seek, items, scope, tail)?;
            Ok(())
        }
        Stmt::While(test, body) => {
            seek_test(seek, scope, test);
            seek_block(alloc, seek, items, scope, body.as_slice())?;
            seek.skip(1);
            Ok(())
        }
        Stmt::Return(value) => {
            seek_return(seek, items, scope, value);
            Ok(())
        }
    }
}

/// Goes over the other branch of an `if`.
#[cycle(stmts)]
fn seek_tail(
    alloc: Global,
    seek: &mut Seek<'_>,
    items: &[Item],
    scope: &mut Scope,
    tail: &Tail,
) -> Result<(), NoMemory>
    requires { seek.old.at + tail_width (tail_tree tail.now) ≤ seek.old.end }
    ensures { IfOk result (λ _. Passed seek.old seek.new (tail_width (tail_tree tail.now))
        (spec.tail_causes (items_tree items.now) scope.old seek.old.at (tail_tree tail.now)) scope.new
        (rules.with_declared scope.old (rules.declared_in_tail (tail_tree tail.now)))) }
{
    match tail {
        Tail::None => Ok(()),
        Tail::Else(body) => {
            seek.skip(2);
            seek_block(alloc, seek, items, scope, body.as_slice())?;
            seek.skip(1);
            Ok(())
        }
    }
}

/// Goes over the statements of a block.
#[cycle(stmts)]
pub fn seek_block(
    alloc: Global,
    seek: &mut Seek<'_>,
    items: &[Item],
    scope: &mut Scope,
    stmts: &[Stmt],
) -> Result<(), NoMemory>
    requires { seek.old.at + block_width (block_tree stmts.now) ≤ seek.old.end }
    ensures { IfOk result (λ _. Passed seek.old seek.new (block_width (block_tree stmts.now))
        (spec.block_causes (items_tree items.now) scope.old seek.old.at (block_tree stmts.now)) scope.new
        (rules.with_declared scope.old (rules.declared_in_block (block_tree stmts.now)))) }
{
    let count = scope.visible().len();
    for stmt in stmts {
        seek_stmt(alloc, seek, items, scope, stmt)?;
    }
    scope.hide(count);
    Ok(())
}
