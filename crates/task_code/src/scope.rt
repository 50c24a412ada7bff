//! What the code of a task is made from.
ghost use Rattle.std.specs.Prelude.{◌≡◌, ◌^◌, ◌<◌, length};
ghost use Rattle.fut_syntax.specs.Views.{items_tree};
ghost use Rattle.task_machine.specs.Texts.{arrays_from, tasks_from};

use fut_syntax::tree::Item;
use task_frame::cells::CellArray;
use task_frame::names::Name;

/// The items of the program, its arrays of cells, and the names of the task.
#[derive(Clone, Copy)]
pub struct Scope<'a> {
    pub items: &'a [Item],
    pub arrays: &'a [CellArray],
    pub names: &'a [Name],
    ghost are_arrays: { arrays.now ≡ arrays_from 0 (items_tree items.now) },
    ghost few_arrays: { length arrays.now < 2 ^ 32 },
    ghost few_tasks: { length (tasks_from (items_tree items.now)) < 2 ^ 32 },
    ghost few_names: { length names.now < 2 ^ 32 },
}
