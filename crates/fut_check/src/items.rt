//! Goes over items.
ghost use Rattle.std.specs.Prelude.{◌≡◌, ◌+◌, ◌≤◌, ◌<◌, ◌++◌, ◌∷◌, [], IfOk, nat_lt, nat_eq, not, ◌&&◌, ◌||◌, ◌-◌, ◌^◌, min, ℕ, List};
ghost use Rattle.fut_syntax.specs.Trees as trees;
ghost use Rattle.fut_syntax.specs.Views.{stmt_tree, type_tree, block_tree, params_tree, param_tree, item_tree, items_tree};
ghost use Rattle.fut_rules.specs.Faults.{Walked, fault_if};
ghost use Rattle.fut_check.specs.Passing.{Passed};
ghost use Rattle.fut_rules.specs.Names as names;
ghost use Rattle.fut_rules.specs.Widths.{type_width, param_width, each_param_width, params_width, block_width, item_width, items_width};
ghost use Rattle.fut_check.specs.Items as spec;
ghost use Rattle.fut_check.specs.Counts.{AreCounts};
ghost use Rattle.fut_rules.specs.declared.names.Variable.{Variable};
ghost use Rattle.fut_rules.specs.declared.fault.Rule.TheVariants.{ConstantLimit, DoubledName};
ghost use Rattle.fut_check.specs.Stmts.{ends_with_return, is_return, depth_faults, declared_faults};

use crate::declarations::{note_declared, note_depth, walk_type};
use crate::stmts::walk_block;
use fut_base::list::NoMemory;
use fut_rules::fault::Rule;
use fut_rules::kind::{Kind, kind_of};
use fut_rules::names::declares;
use fut_rules::scope::Scope;
use fut_rules::search::Search;
use fut_syntax::tree::{Item, Param, Stmt};
use std::alloc::Global;

/// The greatest number of parameters of a task.
const PARAMETERS: usize = 8;

/// The greatest number of values of one argument list.
const VALUES: u64 = 16;

/// The greatest number of cells of all arrays together.
const CELLS: u64 = 65_536;

/// The greatest number of tasks in a text.
const TASKS: usize = 256;

/// Whether a parameter behind others is the ninth, or the argument values exceed 16 with it.
fn is_over(scope: &Scope, kind: Kind) -> bool
    ensures { result ≡ spec.is_over scope.now.declared kind }
{
    scope.declared().len() == PARAMETERS || scope.exceeds(VALUES, kind.size())
}

/// Notes what is wrong with a parameter's name at the next token.
#[tactic(auto, using(fut_rules::proofs::Least::least_append))]
fn note_param(search: &mut Search, items: &[Item], scope: &Scope, word: &[u8], kind: Kind)
    requires { search.old.at < search.old.end }
    ensures { let x : Variable = record { name = word.now; kind = kind } in Walked search.old search.new 0
        (declared_faults (items_tree items.now) scope.now.declared search.old.at x
        ++ fault_if (spec.is_over scope.now.declared kind) search.old.at ConstantLimit) }
{
    let name = search.at();
    note_declared(search, items, scope, word, kind);
    search.note_if(is_over(scope, kind), name, Rule::ConstantLimit);
}

/// Goes over a parameter and the comma or the closing bracket behind it.
fn walk_param(search: &mut Search, items: &[Item], scope: &Scope, param: &Param)
    requires { search.old.at + param_width (param_tree param.now) ≤ search.old.end }
    ensures { Walked search.old search.new (param_width (param_tree param.now))
        (spec.param_faults (items_tree items.now) scope.now.declared search.old.at (param_tree param.now)) }
{
    note_param(
        search,
        items,
        scope,
        param.name.as_slice(),
        kind_of(&param.kind),
    );
    search.skip(2);
    walk_type(search, &param.kind);
    search.skip(1);
}

/// Declares a parameter.
fn declare_param(alloc: Global, scope: &mut Scope, param: &Param) -> Result<(), NoMemory>
    ensures { IfOk result (λ _. scope.new ≡ spec.with_param scope.old (param_tree param.now)) }
{
    scope.declare(alloc, param.name.as_slice(), kind_of(&param.kind))
}

/// Goes over parameters, each with a comma or the closing bracket behind it.
fn walk_each_param(
    alloc: Global,
    search: &mut Search,
    items: &[Item],
    scope: &mut Scope,
    params: &[Param],
) -> Result<(), NoMemory>
    requires { search.old.at + each_param_width (params_tree params.now) ≤ search.old.end }
    ensures { IfOk result (λ _. Passed search.old search.new (each_param_width (params_tree params.now))
        (spec.params_faults (items_tree items.now) scope.old.declared search.old.at (params_tree params.now)) scope.new
        (spec.with_params scope.old (params_tree params.now))) }
{
    for param in params {
        walk_param(search, items, scope, param);
        declare_param(alloc, scope, param)?;
    }
    Ok(())
}

/// Goes over parameters and the closing bracket.
fn walk_params(
    alloc: Global,
    search: &mut Search,
    items: &[Item],
    scope: &mut Scope,
    params: &[Param],
) -> Result<(), NoMemory>
    requires { search.old.at + params_width (params_tree params.now) ≤ search.old.end }
    ensures { IfOk result (λ _. Passed search.old search.new (params_width (params_tree params.now))
        (spec.params_faults (items_tree items.now) scope.old.declared search.old.at (params_tree params.now)) scope.new
        (spec.with_params scope.old (params_tree params.now))) }
{
    walk_each_param(alloc, search, items, scope, params)?;
    if params.is_empty() {
        search.skip(1);
    }
    Ok(())
}

/// Whether the last statement of a body is `return`.
fn returns(body: &[Stmt]) -> bool
    ensures { result ≡ ends_with_return (block_tree body.now) }
{
    let mut last = false;
    for stmt in body {
        last = is_return(stmt);
    }
    last
}

/// Whether a statement is `return`.
fn is_return(stmt: &Stmt) -> bool
    ensures { result ≡ is_return (stmt_tree stmt.now) }
{
    match stmt {
        Stmt::Return(_) => true,
        Stmt::Declare(_, _) => false,
        Stmt::Define(_, _, _) => false,
        Stmt::Assign(_, _) => false,
        Stmt::Store(_, _, _) => false,
        Stmt::Spawn(_, _) => false,
        Stmt::Sync => false,
        Stmt::If(_, _, _) => false,
        Stmt::While(_, _) => false,
    }
}

/// Whether a task's body has to end with `return`, and does not.
fn lacks_return(depth: u64, body: &[Stmt]) -> bool
    ensures { result ≡ (nat_lt 0 depth && not (ends_with_return (block_tree body.now))) }
{
    depth > 0 && !returns(body)
}

/// Goes over a task's body and its closing bracket.
fn walk_body(
    alloc: Global,
    search: &mut Search,
    items: &[Item],
    scope: &mut Scope,
    body: &[Stmt],
) -> Result<(), NoMemory>
    requires { search.old.at + block_width (block_tree body.now) + 1 ≤ search.old.end }
    ensures { IfOk result (λ _. Walked search.old search.new (block_width (block_tree body.now) + 1)
        (spec.body_faults (items_tree items.now) scope.old search.old.at (block_tree body.now))) }
{
    let depth = scope.returns();
    walk_block(alloc, search, items, scope, body)?;
    let close = search.at();
    search.note_if(lacks_return(depth, body), close, Rule::ResultType);
    search.skip(1);
    Ok(())
}

/// Whether this is the name `main`.
pub fn is_main(word: &[u8]) -> bool
    ensures { result ≡ names.is_main word.now }
{
    word == b"main".as_slice()
}

/// Whether some task is named `main`.
fn has_main(items: &[Item]) -> bool
    ensures { result ≡ names.has_main (items_tree items.now) }
{
    for item in items {
        if let Item::Task(word, _, _, _) = item {
            if is_main(word.as_slice()) {
                return true;
            }
        }
    }
    false
}

/// Notes what is wrong with a task's name at the next token.
#[tactic(auto, using(fut_rules::proofs::Least::least_append))]
fn note_task(search: &mut Search, before: &[Item], tasks: usize, word: &[u8])
    requires { search.old.at < search.old.end }
    ensures { Walked search.old search.new 0
        (fault_if (names.declares (items_tree before.now) word.now) search.old.at DoubledName
        ++ fault_if (nat_eq tasks 256) search.old.at ConstantLimit) }
{
    let name = search.at();
    search.note_if(declares(before, word), name, Rule::DoubledName);
    search.note_if(tasks == TASKS, name, Rule::ConstantLimit);
}

/// Whether a task is `main` and has parameters.
fn is_main_with(word: &[u8], params: &[Param]) -> bool
    ensures { result ≡ (names.is_main word.now && spec.has_params (params_tree params.now)) }
{
    is_main(word) && has_params(params)
}

/// Whether there is a parameter.
fn has_params(params: &[Param]) -> bool
    ensures { result ≡ spec.has_params (params_tree params.now) }
{
    match params {
        [] => false,
        [_, ..] => true,
    }
}

/// Goes over a task up to its body behind other items, among which are so many tasks, and gives the scope of its body.
fn walk_head(
    alloc: Global,
    search: &mut Search,
    items: &[Item],
    before: &[Item],
    tasks: usize,
    word: &[u8],
    params: &[Param],
    depth: u64,
) -> Result<Scope, NoMemory>
    requires room { search.old.at + 3 + params_width (params_tree params.now) + depth + 2 ≤ search.old.end }
    requires tasks { tasks ≡ names.tasks (items_tree before.now) }
    ensures { IfOk result (λ scope. Passed search.old search.new (3 + params_width (params_tree params.now) + depth + 2)
        (spec.head_faults (items_tree items.now) (items_tree before.now) search.old.at word.now
        (params_tree params.now) depth) scope (spec.opening_scope depth (params_tree params.now))) }
{
    search.skip(1);
    note_task(search, before, tasks, word);
    search.skip(2);
    let first = search.at();
    search.note_if(is_main_with(word, params), first, Rule::MainParameters);
    let mut scope = Scope::new(alloc, depth);
    walk_params(alloc, search, items, &mut scope, params)?;
    note_depth(search, depth);
    search.skip(depth as usize + 2);
    Ok(scope)
}

/// Goes over a task behind other items, among which are so many tasks.
fn walk_task(
    alloc: Global,
    search: &mut Search,
    items: &[Item],
    before: &[Item],
    tasks: usize,
    word: &[u8],
    params: &[Param],
    depth: u64,
    body: &[Stmt],
) -> Result<(), NoMemory>
    requires room { search.old.at + item_width (trees.TaskOf word.now (params_tree params.now) depth (block_tree body.now)) ≤ search.old.end }
    requires tasks { tasks ≡ names.tasks (items_tree before.now) }
    ensures { IfOk result (λ _. Walked search.old search.new
        (item_width (trees.TaskOf word.now (params_tree params.now) depth (block_tree body.now)))
        (spec.item_faults (items_tree items.now) (items_tree before.now) search.old.at
        (trees.TaskOf word.now (params_tree params.now) depth (block_tree body.now)))) }
{
    let mut scope = walk_head(alloc, search, items, before, tasks, word, params, depth)?;
    walk_body(alloc, search, items, &mut scope, body)?;
    Ok(())
}

/// Goes over an array of cells behind other items, which have so many cells, or more than all numbers go to.
#[tactic(auto, using(fut_rules::proofs::Least::least_append))]
fn walk_cells(
    search: &mut Search,
    items: &[Item],
    before: &[Item],
    cells: u64,
    word: &[u8],
    length: u64,
)
    requires room { search.old.at + 6 ≤ search.old.end }
    requires cells { cells ≡ min (names.cells (items_tree before.now)) (2 ^ 64 - 1) }
    ensures { Walked search.old search.new 6 (spec.item_faults (items_tree items.now) (items_tree before.now) search.old.at (trees.CellsOf word.now length)) }
{
    search.note_ahead(declares(before, word), 1, Rule::DoubledName);
    search.note_ahead(is_bad_array(cells, length), 3, Rule::ConstantLimit);
    search.skip(6);
}

/// Whether an array has length 0, or the lengths exceed 65,536 with it where so many cells are there already.
fn is_bad_array(cells: u64, length: u64) -> bool
    ensures { (before : ℕ) → cells ≡ min before (2 ^ 64 - 1) → result ≡ (nat_eq length 0 || nat_lt 65536 (before + length)) }
{
    length == 0 || cells.saturating_add(length) > CELLS
}

/// What is known of the items so far: how many tasks they have, and how many cells, or the greatest number where they have more.
#[derive(Clone, Copy)]
struct Counts {
    tasks: usize,
    cells: u64,
}

/// The counts with one more item.
#[tactic(auto, using(crate::proofs::Counts::tasks_more, crate::proofs::Counts::cells_more))]
fn count(counts: Counts, item: &Item) -> Counts
    requires { counts.tasks < 2 ^ 62 }
    ensures { (before : List trees.Item) → AreCounts before counts → AreCounts (before ++ item_tree item.now ∷ []) result }
{
    match item {
        Item::Cells(_, length) => Counts {
            tasks: counts.tasks,
            cells: counts.cells.saturating_add(*length),
        },
        Item::Task(_, _, _, _) => Counts {
            tasks: counts.tasks + 1,
            cells: counts.cells,
        },
    }
}

/// Goes over an item behind others.
fn walk_item(
    alloc: Global,
    search: &mut Search,
    items: &[Item],
    before: &[Item],
    counts: Counts,
    item: &Item,
) -> Result<(), NoMemory>
    requires room { search.old.at + item_width (item_tree item.now) ≤ search.old.end }
    requires counts { AreCounts (items_tree before.now) counts }
    ensures { IfOk result (λ _. Walked search.old search.new (item_width (item_tree item.now))
        (spec.item_faults (items_tree items.now) (items_tree before.now) search.old.at (item_tree item.now))) }
{
    match item {
        Item::Cells(word, length) => {
            walk_cells(
                search,
                items,
                before,
                counts.cells,
                word.as_slice(),
                *length,
            );
            Ok(())
        }
        Item::Task(word, params, depth, body) => walk_task(
            alloc,
            search,
            items,
            before,
            counts.tasks,
            word.as_slice(),
            params.as_slice(),
            *depth,
            body.as_slice(),
        ),
    }
}

/// Goes over all items and the end token.
pub fn walk_items(alloc: Global, search: &mut Search, items: &[Item]) -> Result<(), NoMemory>
    requires { search.old.at + items_width (items_tree items.now) < search.old.end }
    ensures { IfOk result (λ _. Walked search.old search.new (items_width (items_tree items.now))
        (spec.items_faults (items_tree items.now) [] search.old.at (items_tree items.now))) }
{
    let mut counts = Counts { tasks: 0, cells: 0 };
    let _start = search.at();
    for (place, item) in items.iter().enumerate() {
        walk_item(alloc, search, items, &items[..place], counts, item)?;
        counts = count(counts, item);
    }
    let end = search.at();
    search.note_if(!has_main(items), end, Rule::NoMain);
    Ok(())
}
