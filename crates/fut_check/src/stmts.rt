//! Goes over statements.
ghost use Rattle.std.specs.Prelude.{◌≡◌, ◌+◌, ◌≤◌, ◌<◌, IfOk};
ghost use Rattle.fut_syntax.specs.Trees as trees;
ghost use Rattle.fut_syntax.specs.Views.{type_tree, expr_tree, init_tree, args_tree, stmt_tree, block_tree, tail_tree, items_tree};
ghost use Rattle.fut_rules.specs.Faults.{Walked, broken};
ghost use Rattle.fut_rules.specs.Names.{kind_named, element, means_cells, declaration};
ghost use Rattle.fut_rules.specs.Exprs.{needed_faults, for_int};
ghost use Rattle.fut_rules.specs.Widths.{expr_width, stmt_width, block_width, tail_width};
ghost use Rattle.fut_check.specs.Passing.{Passed};
ghost use Rattle.fut_check.specs.Stmts as spec;

use crate::declarations::{note_declared, walk_type};
use fut_base::list::NoMemory;
use fut_rules::exprs::{expr_kind, walk_expr, walk_needed};
use fut_rules::fault::Rule;
use fut_rules::inits::{element, note_element, walk_call, walk_init};
use fut_rules::kind::{Kind, Need, kind_of, result_rule};
use fut_rules::names::{kind_named, means_cells};
use fut_rules::scope::Scope;
use fut_rules::search::Search;
use fut_syntax::tree::{Expr, Init, Item, Stmt, Tail, VarType};
use std::alloc::Global;

/// Whether a variable of this type needs a value where it is declared.
fn is_handle(kind: Kind) -> bool
    ensures { result ≡ spec.is_handle kind }
{
    match kind {
        Kind::Int => false,
        Kind::Handle { .. } | Kind::Array { .. } => true,
    }
}

/// The rule that the word before `=` breaks.
fn assigned_rule(kind: Option<Kind>) -> Option<Rule>
    ensures { result ≡ spec.assigned_rule kind }
{
    match kind {
        None => Some(Rule::UnknownName),
        Some(Kind::Int | Kind::Handle { .. }) => None,
        Some(Kind::Array { .. }) => Some(Rule::ArrayLength),
    }
}

/// What the init of a variable of this type has to be, if there is such a variable.
fn value_need(kind: Option<Kind>) -> Option<Need>
    ensures { result ≡ spec.value_need kind }
{
    match kind {
        Some(kind) => Some(kind.init_need()),
        None => None,
    }
}

/// Notes what is wrong with the word before `=` at the next token.
fn note_assigned(search: &mut Search, scope: &Scope, word: &[u8])
    requires { search.old.at < search.old.end }
    ensures { Walked search.old search.new 0 (broken (spec.assigned_rule (kind_named scope.now.visible word.now)) search.old.at) }
{
    let at = search.at();
    search.note(assigned_rule(kind_named(scope.visible(), word)), at);
}

/// What the init of the variable of a name has to be, if there is such a variable.
fn variable_need(scope: &Scope, word: &[u8]) -> Option<Need>
    ensures { result ≡ spec.value_need (kind_named scope.now.visible word.now) }
{
    value_need(kind_named(scope.visible(), word))
}

/// What the value of an element behind a word has to be, if the word has elements.
fn element_need(items: &[Item], scope: &Scope, word: &[u8]) -> Option<Need>
    ensures { result ≡ spec.value_need (element (kind_named scope.now.visible word.now) (means_cells (declaration (items_tree items.now) word.now))) }
{
    value_need(element(kind_named(scope.visible(), word), means_cells(items, word)))
}

/// Goes over a declaration without a value.
#[tactic(auto, using(fut_rules::proofs::Least::least_append))]
fn walk_declare(search: &mut Search, items: &[Item], scope: &Scope, word: &[u8], written: &VarType)
    requires { search.old.at + stmt_width (trees.Declare word.now (type_tree written.now)) ≤ search.old.end }
    ensures { Walked search.old search.new (stmt_width (trees.Declare word.now (type_tree written.now)))
        (spec.stmt_faults (items_tree items.now) scope.now search.old.at (trees.Declare word.now (type_tree written.now))) }
{
    let kind = kind_of(written);
    search.skip(1);
    let name = search.at();
    note_declared(search, items, scope, word, kind);
    search.skip(2);
    walk_type(search, written);
    search.note_if(is_handle(kind), name, Rule::NoValue);
    search.skip(1);
}

/// Goes over a declaration with a value.
#[tactic(auto, using(fut_rules::proofs::Least::least_append))]
fn walk_define(
    search: &mut Search,
    items: &[Item],
    scope: &Scope,
    word: &[u8],
    written: &VarType,
    value: &Init,
)
    requires { search.old.at + stmt_width (trees.Define word.now (type_tree written.now) (init_tree value.now)) ≤ search.old.end }
    ensures { Walked search.old search.new (stmt_width (trees.Define word.now (type_tree written.now) (init_tree value.now)))
        (spec.stmt_faults (items_tree items.now) scope.now search.old.at
        (trees.Define word.now (type_tree written.now) (init_tree value.now))) }
{
    let kind = kind_of(written);
    search.skip(1);
    note_declared(search, items, scope, word, kind);
    search.skip(2);
    walk_type(search, written);
    search.skip(1);
    walk_init(
        search,
        items,
        scope.visible(),
        Some(kind.init_need()),
        value,
    );
    search.skip(1);
}

/// Goes over an assignment of a variable.
#[tactic(auto, using(fut_rules::proofs::Least::least_append))]
fn walk_assign(search: &mut Search, items: &[Item], scope: &Scope, word: &[u8], value: &Init)
    requires { search.old.at + stmt_width (trees.Assign word.now (init_tree value.now)) ≤ search.old.end }
    ensures { Walked search.old search.new (stmt_width (trees.Assign word.now (init_tree value.now)))
        (spec.stmt_faults (items_tree items.now) scope.now search.old.at (trees.Assign word.now (init_tree value.now))) }
{
    note_assigned(search, scope, word);
    search.skip(2);
    walk_init(
        search,
        items,
        scope.visible(),
        variable_need(scope, word),
        value,
    );
    search.skip(1);
}

/// Goes over an assignment of an element or a cell.
#[tactic(auto, using(fut_rules::proofs::Least::least_append))]
fn walk_store(
    search: &mut Search,
    items: &[Item],
    scope: &Scope,
    word: &[u8],
    index: &Expr,
    value: &Expr,
)
    requires { search.old.at + stmt_width (trees.Store word.now (expr_tree index.now) (expr_tree value.now)) ≤ search.old.end }
    ensures { Walked search.old search.new (stmt_width (trees.Store word.now (expr_tree index.now) (expr_tree value.now)))
        (spec.stmt_faults (items_tree items.now) scope.now search.old.at
        (trees.Store word.now (expr_tree index.now) (expr_tree value.now))) }
{
    note_element(search, items, scope.visible(), word);
    search.skip(2);
    walk_needed(search, scope.visible(), Some(Need::Int), index);
    search.skip(2);
    walk_needed(
        search,
        scope.visible(),
        element_need(items, scope, word),
        value,
    );
    search.skip(1);
}

/// Goes over a `spawn`.
#[tactic(auto, using(fut_rules::proofs::Least::least_append))]
fn walk_spawn(search: &mut Search, items: &[Item], scope: &Scope, word: &[u8], args: &[Expr])
    requires { search.old.at + stmt_width (trees.SpawnOf word.now (args_tree args.now)) ≤ search.old.end }
    ensures { Walked search.old search.new (stmt_width (trees.SpawnOf word.now (args_tree args.now)))
        (spec.stmt_faults (items_tree items.now) scope.now search.old.at (trees.SpawnOf word.now (args_tree args.now))) }
{
    search.skip(1);
    walk_call(search, items, scope.visible(), word, args);
    search.skip(1);
}

/// Goes over the word `if` or `while`, its test, and the opening bracket.
#[tactic(auto, using(fut_rules::proofs::Least::least_append))]
fn walk_test(search: &mut Search, scope: &Scope, test: &Expr)
    requires { search.old.at + 1 + expr_width (expr_tree test.now) + 1 ≤ search.old.end }
    ensures { Walked search.old search.new (1 + expr_width (expr_tree test.now) + 1)
        (needed_faults scope.now.visible (search.old.at + 1) for_int (expr_tree test.now)) }
{
    search.skip(1);
    walk_needed(search, scope.visible(), Some(Need::Int), test);
    search.skip(1);
}

/// Goes over a `return`.
#[tactic(auto, using(fut_rules::proofs::Least::least_append, fut_rules::proofs::Some::expr_some))]
fn walk_return(search: &mut Search, items: &[Item], scope: &Scope, value: &Expr)
    requires { search.old.at + stmt_width (trees.Return' (expr_tree value.now)) ≤ search.old.end }
    ensures { Walked search.old search.new (stmt_width (trees.Return' (expr_tree value.now)))
        (spec.stmt_faults (items_tree items.now) scope.now search.old.at (trees.Return' (expr_tree value.now))) }
{
    search.skip(1);
    let first = search.at();
    walk_expr(search, scope.visible(), value);
    search.note(
        result_rule(scope.returns(), expr_kind(scope.visible(), value)),
        first,
    );
    search.skip(1);
}

/// Goes over a statement.
#[cycle(stmts)]
fn walk_stmt(
    alloc: Global,
    search: &mut Search,
    items: &[Item],
    scope: &mut Scope,
    stmt: &Stmt,
) -> Result<(), NoMemory>
    requires { search.old.at + stmt_width (stmt_tree stmt.now) ≤ search.old.end }
    ensures { IfOk result (λ _. Passed search.old search.new (stmt_width (stmt_tree stmt.now))
        (spec.stmt_faults (items_tree items.now) scope.old search.old.at (stmt_tree stmt.now)) scope.new
        (spec.scope_after scope.old (stmt_tree stmt.now))) }
{
    match stmt {
        Stmt::Declare(word, written) => {
            walk_declare(search, items, scope, word.as_slice(), written);
            scope.declare(alloc, word.as_slice(), kind_of(written))
        }
        Stmt::Define(word, written, value) => {
            walk_define(search, items, scope, word.as_slice(), written, value);
            scope.declare(alloc, word.as_slice(), kind_of(written))
        }
        Stmt::Assign(word, value) => {
            walk_assign(search, items, scope, word.as_slice(), value);
            Ok(())
        }
        Stmt::Store(word, index, value) => {
            walk_store(search, items, scope, word.as_slice(), index, value);
            Ok(())
        }
        Stmt::Spawn(word, args) => {
            walk_spawn(search, items, scope, word.as_slice(), args.as_slice());
            Ok(())
        }
        Stmt::Sync => {
            search.skip(2);
            Ok(())
        }
        Stmt::If(test, body, tail) => {
            walk_test(search, scope, test);
            walk_block(alloc, search, items, scope, body.as_slice())?;
            search.skip(1);
            walk_tail(alloc, search, items, scope, tail)?;
            Ok(())
        }
        Stmt::While(test, body) => {
            walk_test(search, scope, test);
            walk_block(alloc, search, items, scope, body.as_slice())?;
            search.skip(1);
            Ok(())
        }
        Stmt::Return(value) => {
            walk_return(search, items, scope, value);
            Ok(())
        }
    }
}

/// Goes over the other branch of an `if`.
#[cycle(stmts)]
fn walk_tail(
    alloc: Global,
    search: &mut Search,
    items: &[Item],
    scope: &mut Scope,
    tail: &Tail,
) -> Result<(), NoMemory>
    requires { search.old.at + tail_width (tail_tree tail.now) ≤ search.old.end }
    ensures { IfOk result (λ _. Passed search.old search.new (tail_width (tail_tree tail.now))
        (spec.tail_faults (items_tree items.now) scope.old search.old.at (tail_tree tail.now)) scope.new
        (spec.with_declared scope.old (spec.declared_in_tail (tail_tree tail.now)))) }
{
    match tail {
        Tail::None => Ok(()),
        Tail::Else(body) => {
            search.skip(2);
            walk_block(alloc, search, items, scope, body.as_slice())?;
            search.skip(1);
            Ok(())
        }
    }
}

/// Goes over the statements of a block.
#[cycle(stmts)]
pub fn walk_block(
    alloc: Global,
    search: &mut Search,
    items: &[Item],
    scope: &mut Scope,
    stmts: &[Stmt],
) -> Result<(), NoMemory>
    requires { search.old.at + block_width (block_tree stmts.now) ≤ search.old.end }
    ensures { IfOk result (λ _. Passed search.old search.new (block_width (block_tree stmts.now))
        (spec.block_faults (items_tree items.now) scope.old search.old.at (block_tree stmts.now)) scope.new
        (spec.with_declared scope.old (spec.declared_in_block (block_tree stmts.now)))) }
{
    let count = scope.visible().len();
    for stmt in stmts {
        walk_stmt(alloc, search, items, scope, stmt)?;
    }
    scope.hide(count);
    Ok(())
}
