//! Arrays of cells.
ghost use Rattle.std.specs.Prelude.{◌≡◌, ◌+◌, ◌<◌, ◌≤◌, ◌^◌, length, IfOk, MatchOption};
ghost use Rattle.fut_syntax.specs.Views.{items_tree};
ghost use Rattle.task_machine.specs.Texts.{arrays_from, count_cells};
ghost use Rattle.task_machine.specs.Values.{index_of};
ghost use Rattle.task_frame.specs.Arrays.{EachHasCells, find_array};

use crate::term::index_of;
use fut_base::list::NoMemory;
use fut_syntax::tree::Item;
use sqlite_items::Items;
use std::alloc::Global;
use std::marker::Model;

/// An array of cells: its name, the number of its first cell, and its length.
#[derive(Drop)]
pub struct CellArray {
    name: Items<u8>,
    first: u32,
    length: u32,
}

impl Model for CellArray {
    ghost use Rattle.std.specs.Prelude.{◌+◌, ◌<◌, ◌≤◌, ◌^◌};
    ghost use Rattle.task_machine.specs.Texts.{CellArray};

    ghost Value = { CellArray };

    ghost view = { λ a. record { name = a.name; first = a.first; length = a.length } };

    ghost invariant = { λ a. (1 ≤ a.length) × (a.first + a.length < 2 ^ 32) };
}

impl CellArray {
    /// The number of the cell at an index.
    pub fn cell(&self, index: i64) -> u32
        ensures { result ≡ self.now.first + index_of self.now.length index }
    {
        self.first + index_of(self.length, index)
    }

    /// The index of a cell; `None` exactly where the cell is none of it.
    pub fn index(&self, cell: u32) -> Option<u32>
        ensures { MatchOption result (self.now.first ≤ cell → cell < self.now.first + self.now.length → ⊥)
            (λ index. (self.now.first + index ≡ cell) × (index < self.now.length)) }
    {
        if self.first <= cell && cell - self.first < self.length {
            Some(cell - self.first)
        } else {
            None
        }
    }

    pub fn name(&self) -> &[u8]
        ensures { result.now ≡ self.now.name }
    {
        self.name.as_slice()
    }
}

/// How many cells all arrays have together.
pub fn cells_of(items: &[Item]) -> u32
    requires { count_cells (items_tree items.now) < 2 ^ 32 }
    ensures { result ≡ count_cells (items_tree items.now) }
{
    let mut cells: u32 = 0;
    for item in items {
        if let Item::Cells(_, length) = item {
            cells += *length as u32;
        }
    }
    cells
}

/// The arrays of the items, in order.
pub fn arrays_of(alloc: Global, items: &[Item]) -> Result<Items<CellArray>, NoMemory>
    requires few { count_cells (items_tree items.now) < 2 ^ 32 }
    requires some { EachHasCells (items_tree items.now) }
    ensures { IfOk result (λ arrays. arrays ≡ arrays_from 0 (items_tree items.now)) }
{
    let mut arrays = Vec::new(alloc);
    let mut first: u32 = 0;
    for item in items {
        if let Item::Cells(name, length) = item {
            let length = *length as u32;
            let name = Items::from_slice(alloc, name.as_slice())?;
            arrays.push(CellArray {
                name,
                first,
                length,
            })?;
            first += length;
        }
    }
    Ok(Items::from_vec(arrays))
}

/// The place of the first array of this name.
pub fn find_array(arrays: &[CellArray], word: &[u8]) -> Option<u32>
    requires { length arrays.now < 2 ^ 32 }
    ensures { result ≡ find_array arrays.now word.now }
{
    let mut place: u32 = 0;
    for array in arrays {
        if array.name.as_slice() == word {
            return Some(place);
        }
        place += 1;
    }
    None
}
