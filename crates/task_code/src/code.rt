//! The flat code of a program.
ghost use Rattle.std.specs.Prelude.{◌≡◌, ◌+◌, ◌<◌, ◌≤◌, ◌^◌, length, slice_get, IfOk, ℕ, List, Some};
ghost use Rattle.std.specs.Option.{option_copied};
ghost use Rattle.std.specs.Str.{IsUtf8};
ghost use Rattle.fut_syntax.specs.Trees as tree;
ghost use Rattle.fut_syntax.specs.Views.{type_tree, params_tree, block_tree, items_tree, program_tree};
ghost use Rattle.task_machine.specs.Texts.{CellArray as Cells, arrays_from, count_cells, tasks_from};
ghost use Rattle.task_machine.specs.Variables.{size_of};
ghost use Rattle.task_frame.specs.Arrays.{IsCellOf};
ghost use Rattle.task_code.specs.Serving.{AreSound, IsSound, ServesParams, values_for};
ghost use Rattle.task_code.specs.Flat.{AreGiven, AreCodesOf, IsCodeOf, IsCodeOfTask, instructions_at, code_of};

use crate::compile::{add_block, push, task_number};
use crate::scope::Scope;
use fut_base::list::NoMemory;
use fut_check::Checked;
use fut_syntax::tree::{Item, Param, Stmt, VarType};
use sqlite_items::Items;
use std::alloc::Global;
use std::marker::Model;
use task_frame::cells::{CellArray, arrays_of, cells_of};
use task_frame::instruction::Instruction;
use task_frame::names::{Name, find, names_of};
use task_frame::term::Term;

/// A parameter: its variable, how many argument values stand before its own, and its type.
#[derive(Clone, Copy, Debug)]
pub struct ParamCode {
    pub variable: u32,
    pub first: u32,
    pub kind: VarType,
}

/// The code of a task: its variables by name, its parameters, and its instructions with the place where they begin.
#[derive(Drop)]
pub struct TaskCode {
    pub names: Items<Name>,
    pub params: Items<ParamCode>,
    pub entry: u32,
    pub instructions: Items<Instruction>,
}

/// The flat code of a program, with its cells.
#[derive(Drop)]
pub struct Code {
    arrays: Items<CellArray>,
    tasks: Items<TaskCode>,
    main: u32,
    cells: u32,
}

impl Model for Code {
    ghost use Rattle.task_code.specs.Flat.{Compiled};
    ghost use Rattle.task_frame.specs.contracts.term.Term as term;
    ghost use Rattle.std.specs.Coded.{codes};
    ghost use Rattle.std.specs.Prelude.{◌<◌, ◌^◌, length};

    ghost Value = { Compiled };

    ghost coded = { Prim.hlevel (codes, term.the_row.coded) };

    ghost view = { λ c. record { arrays = c.arrays; tasks = c.tasks; main = c.main; cells = c.cells } };

    ghost invariant = { λ c. length c.arrays < 2 ^ 32 };
}

impl Code {
    /// The code of a program.
    pub fn of(alloc: Global, checked: &Checked) -> Result<Code, NoMemory>
        ensures { IfOk result (λ code. (P : tree.Program) → program_tree checked.now.program.now.items ≡ Some P → IsCodeOf P code) }
    {
        let program = checked.program();
        let items = program.items.as_slice();
        let cells = cells_of(items);
        let arrays = arrays_of(alloc, items)?;
        let tasks = codes_of(alloc, items, arrays.as_slice())?;
        let main = task_number(items, b"main").unwrap_or(0);
        Ok(Code {
            arrays,
            tasks,
            main,
            cells,
        })
    }

    /// The place of `main` among the tasks of the text.
    pub fn main(&self) -> u32
        ensures { result ≡ self.now.main }
    {
        self.main
    }

    /// The number of cells.
    pub fn cells(&self) -> u32
        ensures { result ≡ self.now.cells }
    {
        self.cells
    }

    /// The array that has a cell, by its place among the arrays, and the cell's index in it.
    pub fn array(&self, cell: u32) -> (u32, u32)
        requires { cell < self.now.cells }
        ensures { (P : tree.Program) → IsCodeOf P self.now → IsCellOf self.now.arrays cell result }
    {
        for (place, array) in self.arrays.as_slice().iter().enumerate() {
            if let Some(index) = array.index(cell) {
                return (place as u32, index);
            }
        }
        (0, 0)
    }

    /// The name of the array at a place, where it is text.
    pub fn array_name(&self, array: u32) -> &str
        requires { array < length self.now.arrays }
        ensures { (a : Cells) → slice_get self.now.arrays array ≡ Some a → IsUtf8 a.name → result.now ≡ a.name }
    {
        match self.arrays.get(array as usize) {
            Some(array) => str::from_utf8(array.name()).unwrap_or(""),
            None => "",
        }
    }

    /// The code of the task at a place.
    pub fn task(&self, which: u32) -> Option<&TaskCode>
        ensures { option_copied result ≡ slice_get self.now.tasks which }
    {
        self.tasks.get(which as usize)
    }

    /// The place where the task of the text at a place begins.
    pub fn entry(&self, which: u32) -> u32
        ensures { result ≡ (code_of self.now.tasks which).entry }
    {
        match self.tasks.get(which as usize) {
            Some(task) => task.entry,
            None => 0,
        }
    }

    /// The instruction at a place of a task.
    pub fn instruction(&self, which: u32, place: u32) -> Option<&Instruction>
        ensures { option_copied result ≡ slice_get (instructions_at self.now.tasks which) place }
    {
        match self.tasks.get(which as usize) {
            Some(task) => task.instructions.get(place as usize),
            None => None,
        }
    }

    /// The arrays of cells.
    pub fn arrays(&self) -> &[CellArray]
        ensures { result.now ≡ self.now.arrays }
    {
        self.arrays.as_slice()
    }
}

/// The code of each task.
fn codes_of(
    alloc: Global,
    items: &[Item],
    arrays: &[CellArray],
) -> Result<Items<TaskCode>, NoMemory>
    requires arrays { arrays.now ≡ arrays_from 0 (items_tree items.now) }
    requires few { length arrays.now < 2 ^ 32 }
    requires tasks { length (tasks_from (items_tree items.now)) < 2 ^ 32 }
    requires sound { AreSound (items_tree items.now) (items_tree items.now) }
    ensures { IfOk result (λ codes. AreCodesOf (items_tree items.now) (tasks_from (items_tree items.now)) codes) }
{
    let mut codes = Vec::new(alloc);
    for item in items {
        if let Item::Task(_, params, _, body) = item {
            codes.push(code_of(alloc, items, arrays, params.as_slice(), body.as_slice())?)?;
        }
    }
    Ok(Items::from_vec(codes))
}

/// The code of a task.
fn code_of(
    alloc: Global,
    items: &[Item],
    arrays: &[CellArray],
    params: &[Param],
    body: &[Stmt],
) -> Result<TaskCode, NoMemory>
    requires arrays { arrays.now ≡ arrays_from 0 (items_tree items.now) }
    requires few { length arrays.now < 2 ^ 32 }
    requires tasks { length (tasks_from (items_tree items.now)) < 2 ^ 32 }
    requires sound { IsSound (items_tree items.now) (params_tree params.now) (block_tree body.now) }
    ensures { IfOk result (λ code. (name : List ℕ)
        → IsCodeOfTask (items_tree items.now)
        (record { name = name; params = params_tree params.now; body = block_tree body.now }) code) }
{
    let names = names_of(alloc, params, body)?;
    let given = given_of(alloc, names.as_slice(), params)?;
    let scope = Scope {
        items,
        arrays,
        names: names.as_slice(),
    };
    let mut code = Vec::new(alloc);
    let end = push(
        &mut code,
        Instruction::Return {
            value: Term::Number(0),
        },
    )?;
    let entry = add_block(alloc, &scope, body, end, &mut code)?;
    Ok(TaskCode {
        names,
        params: given,
        entry,
        instructions: Items::from_vec(code),
    })
}

/// The parameters of a task by the numbers of their variables.
fn given_of(alloc: Global, names: &[Name], params: &[Param]) -> Result<Items<ParamCode>, NoMemory>
    requires names { length names.now < 2 ^ 32 }
    requires serves { ServesParams names.now (params_tree params.now) }
    requires few { values_for (params_tree params.now) < 2 ^ 32 }
    ensures { IfOk result (λ given. AreGiven names.now 0 (params_tree params.now) given) }
{
    let mut given = Vec::new(alloc);
    let mut first: u32 = 0;
    for param in params {
        let Some(variable) = find(names, param.name.as_slice()) else {
            unreachable!()
        };
        given.push(ParamCode {
            variable,
            first,
            kind: param.kind,
        })?;
        first += size_of(&param.kind) as u32;
    }
    Ok(Items::from_vec(given))
}

/// How many values a variable of this type holds.
pub fn size_of(kind: &VarType) -> u64
    ensures { result ≡ size_of (type_tree kind.now) }
{
    match kind {
        VarType::Plain { .. } => 1,
        VarType::Array { length, .. } => *length,
    }
}
