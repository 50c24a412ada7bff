//! The canonical text of a program.
ghost use Rattle.std.specs.Prelude.{◌≡◌, ◌++◌, map, IfOk, OnOk};
ghost use Rattle.fut_syntax.specs.Lines.{item_tokens};
ghost use Rattle.fut_tokens.specs.Spelling.{lines_of};
ghost use Rattle.fut_syntax.specs.Texts.{Prints};
ghost use Rattle.fut_syntax.specs.Views.{items_tree};

use crate::write_items::item_tokens;
use fut_base::list::NoMemory;
use fut_base::record::Text;
use fut_syntax::tree::{Item, Program};
use fut_tokens::spelling::push_line;
use std::alloc::Global;

/// Adds a line for each item.
fn push_items(alloc: Global, out: &mut Vec<u8>, items: &[Item]) -> Result<(), NoMemory>
    ensures { OnOk result (out.new.items ≡ out.old.items ++ lines_of (map item_tokens (items_tree items.now))) }
{
    for item in items {
        let tokens = item_tokens(alloc, item)?;
        push_line(alloc, out, tokens.as_slice())?;
    }
    Ok(())
}

/// The canonical text of a program: for each item in order its tokens, one space between two, and then a line feed.
/// Words and numbers stand as in the text that was read; its comments and other blanks are gone.
pub fn print(alloc: Global, program: &Program) -> Result<Text, NoMemory>
    ensures { IfOk result (λ text. Prints program.now.items text.items) }
{
    let mut bytes = Vec::new(alloc);
    push_items(alloc, &mut bytes, program.items.as_slice())?;
    Ok(Text::from_vec(bytes))
}
