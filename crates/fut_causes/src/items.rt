//! Goes over items.
ghost use Rattle.std.specs.Prelude.{◌≡◌, ◌+◌, ◌≤◌, IfOk, []};
ghost use Rattle.fut_syntax.specs.Trees as trees;
ghost use Rattle.fut_syntax.specs.Views.{block_tree, params_tree, param_tree, item_tree, items_tree};
ghost use Rattle.fut_rules.specs.Widths.{param_width, each_param_width, params_width, item_width, items_width};
ghost use Rattle.fut_check.specs.Items.{with_param, with_params, opening_scope};
ghost use Rattle.fut_causes.specs.Causes as spec;
ghost use Rattle.fut_causes.specs.Seeking.{Sought, Passed};

use crate::seek::Seek;
use crate::stmts::{seek_block, seek_type};
use fut_base::list::NoMemory;
use fut_rules::kind::kind_of;
use fut_rules::scope::Scope;
use fut_syntax::tree::{Item, Param, Stmt};
use std::alloc::Global;

/// Declares a parameter.
fn declare_param(alloc: Global, scope: &mut Scope, param: &Param) -> Result<(), NoMemory>
    ensures { IfOk result (λ _. scope.new ≡ with_param scope.old (param_tree param.now)) }
{
    scope.declare(alloc, param.name.as_slice(), kind_of(&param.kind))
}

/// Goes over a parameter and the comma or the closing bracket behind it.
fn seek_param(seek: &mut Seek<'_>, param: &Param)
    requires { seek.old.at + param_width (param_tree param.now) ≤ seek.old.end }
    ensures { Sought seek.old seek.new (param_width (param_tree param.now)) [] }
{
    seek.skip(2);
    seek_type(seek, &param.kind);
    seek.skip(1);
}

/// Goes over parameters, each with a comma or the closing bracket behind it.
fn seek_each_param(
    alloc: Global,
    seek: &mut Seek<'_>,
    scope: &mut Scope,
    params: &[Param],
) -> Result<(), NoMemory>
    requires { seek.old.at + each_param_width (params_tree params.now) ≤ seek.old.end }
    ensures { IfOk result (λ _. Passed seek.old seek.new (each_param_width (params_tree params.now)) [] scope.new
        (with_params scope.old (params_tree params.now))) }
{
    for param in params {
        seek_param(seek, param);
        declare_param(alloc, scope, param)?;
    }
    Ok(())
}

/// Goes over parameters and the closing bracket.
fn seek_params(
    alloc: Global,
    seek: &mut Seek<'_>,
    scope: &mut Scope,
    params: &[Param],
) -> Result<(), NoMemory>
    requires { seek.old.at + params_width (params_tree params.now) ≤ seek.old.end }
    ensures { IfOk result (λ _. Passed seek.old seek.new (params_width (params_tree params.now)) [] scope.new
        (with_params scope.old (params_tree params.now))) }
{
    seek_each_param(alloc, seek, scope, params)?;
    if params.is_empty() {
        seek.skip(1);
    }
    Ok(())
}

/// Goes over a task up to its body, and gives the scope of its body.
fn seek_head(
    alloc: Global,
    seek: &mut Seek<'_>,
    params: &[Param],
    depth: u64,
) -> Result<Scope, NoMemory>
    requires { seek.old.at + 3 + params_width (params_tree params.now) + depth + 2 ≤ seek.old.end }
    ensures { IfOk result (λ scope. Passed seek.old seek.new (3 + params_width (params_tree params.now) + depth + 2) [] scope
        (opening_scope depth (params_tree params.now))) }
{
    seek.skip(3);
    let _first = seek.at();
    let mut scope = Scope::new(alloc, depth);
    seek_params(alloc, seek, &mut scope, params)?;
    seek.skip(depth as usize + 2);
    Ok(scope)
}

/// Goes over a task.
fn seek_task(
    alloc: Global,
    seek: &mut Seek<'_>,
    items: &[Item],
    word: &[u8],
    params: &[Param],
    depth: u64,
    body: &[Stmt],
) -> Result<(), NoMemory>
    requires { seek.old.at + item_width (trees.TaskOf word.now (params_tree params.now) depth (block_tree body.now)) ≤ seek.old.end }
    ensures { IfOk result (λ _. Sought seek.old seek.new
        (item_width (trees.TaskOf word.now (params_tree params.now) depth (block_tree body.now)))
        (spec.item_causes (items_tree items.now) seek.old.at
        (trees.TaskOf word.now (params_tree params.now) depth (block_tree body.now)))) }
{
    let mut scope = seek_head(alloc, seek, params, depth)?;
    seek_block(alloc, seek, items, &mut scope, body)?;
    seek.skip(1);
    Ok(())
}

/// Goes over an item.
fn seek_item(
    alloc: Global,
    seek: &mut Seek<'_>,
    items: &[Item],
    item: &Item,
) -> Result<(), NoMemory>
    requires { seek.old.at + item_width (item_tree item.now) ≤ seek.old.end }
    ensures { IfOk result (λ _. Sought seek.old seek.new (item_width (item_tree item.now))
        (spec.item_causes (items_tree items.now) seek.old.at (item_tree item.now))) }
{
    match item {
        Item::Cells(_, _) => {
            seek.skip(6);
            Ok(())
        }
        Item::Task(word, params, depth, body) => seek_task(
            alloc,
            seek,
            items,
            word.as_slice(),
            params.as_slice(),
            *depth,
            body.as_slice(),
        ),
    }
}

/// Goes over all items.
pub fn seek_items(alloc: Global, seek: &mut Seek<'_>, items: &[Item]) -> Result<(), NoMemory>
    requires { seek.old.at + items_width (items_tree items.now) ≤ seek.old.end }
    ensures { IfOk result (λ _. Sought seek.old seek.new (items_width (items_tree items.now))
        (spec.items_causes (items_tree items.now) seek.old.at (items_tree items.now))) }
{
    for item in items {
        seek_item(alloc, seek, items, item)?;
    }
    Ok(())
}
