//! What names mean.
ghost use Rattle.std.specs.Prelude.{◌≡◌, ◌+◌, ◌≤◌, ◌<◌, ◌++◌, ◌∷◌, [], MatchOption, IfOk, None, Some, nat_lt, length, take};
ghost use Rattle.fut_syntax.specs.Views.{items_tree, item_tree};
ghost use Rattle.fut_rules.specs.Names as spec;

use crate::kind::Kind;
use fut_base::list::NoMemory;
use fut_syntax::tree::Item;
use sqlite_items::Items;
use std::alloc::Global;
use std::marker::Model;

/// A parameter or variable.
#[derive(Drop)]
pub struct Variable {
    pub name: Items<u8>,
    pub kind: Kind,
}

/// The type of the first variable of a name.
pub fn kind_named(variables: &[Variable], word: &[u8]) -> Option<Kind>
    ensures { result ≡ spec.kind_named variables.now word.now }
{
    for variable in variables {
        if variable.name.as_slice() == word {
            return Some(variable.kind);
        }
    }
    None
}

/// Whether some variable has this name.
pub fn is_named(variables: &[Variable], word: &[u8]) -> bool
    ensures { result ≡ spec.is_named variables.now word.now }
{
    for variable in variables {
        if variable.name.as_slice() == word {
            return true;
        }
    }
    false
}

/// The name that an item declares.
pub fn item_name(item: &Item) -> &[u8]
    ensures { result.now ≡ spec.item_name (item_tree item.now) }
{
    match item {
        Item::Cells(name, _) => name.as_slice(),
        Item::Task(name, _, _, _) => name.as_slice(),
    }
}

/// The first declaration of a global name.
pub fn declaration<'a>(items: &'a [Item], word: &[u8]) -> Option<&'a Item>
    ensures { MatchOption result (spec.declaration (items_tree items.now) word.now ≡ None)
        (λ item. spec.declaration (items_tree items.now) word.now ≡ Some (item_tree item.now)) }
{
    for item in items {
        if item_name(item) == word {
            return Some(item);
        }
    }
    None
}

/// Whether some item declares this name.
pub fn declares(items: &[Item], word: &[u8]) -> bool
    ensures { result ≡ spec.declares (items_tree items.now) word.now }
{
    for item in items {
        if item_name(item) == word {
            return true;
        }
    }
    false
}

/// Whether what a name means is an array of cells.
pub fn means_cells(items: &[Item], word: &[u8]) -> bool
    ensures { result ≡ spec.means_cells (spec.declaration (items_tree items.now) word.now) }
{
    match declaration(items, word) {
        Some(Item::Cells(_, _)) => true,
        Some(Item::Task(_, _, _, _)) => false,
        None => false,
    }
}
