//! The program that `load` runs.
ghost use Rattle.std.specs.Prelude.{◌≡◌, ◌*◌, ◌≤◌, IfOk, length};
ghost use Rattle.fut_base.specs.declared.limits.TheConstants.{MOST_PROGRAM_BYTES};
ghost use Rattle.command_words.specs.Asking.{IsSide};
ghost use Rattle.fut_driver.specs.Load.{load_text};

use crate::gathered::Gathered;
use fut_base::list::NoMemory;
use fut_base::ports::Wrote;
use fut_base::record::Text;
use run_record::pieces::{Piece, write_pieces};
use std::alloc::Global;

/// How many places a grid has.
fn places(side: u32) -> usize
    ensures { result ≡ side * side }
{
    side as usize * side as usize
}

/// The text of a program that makes a grid of futures, one for each of `side` by `side` places. Each future gets those above it and to
/// its left, reads their cells and writes one more than their sum into its own. No nesting of spawns and syncs has this dag.
pub fn load_text(alloc: Global, side: u32) -> Result<Text, NoMemory>
    ensures { IfOk result (λ text. text.items ≡ load_text side) }
{
    let mut text = Gathered::make(alloc);
    let parts = [
        Piece::Bytes(b"cells a["),
        Piece::Count(places(side)),
        Piece::Bytes(b"];\n"),
        Piece::Bytes(b"task corner() int { a[0] = 1; return 0; }\n"),
        Piece::Bytes(
            b"task top(j: int, left: fut int) int {\n  var g: int = get left;\n  var q: int = a[j - 1];\n  a[j] = q + 1;\n  return 0;\n}\n",
        ),
        Piece::Bytes(
            b"task side(i: int, up: fut int) int {\n  var g: int = get up;\n  var p: int = a[(i - 1) * ",
        ),
        Piece::Number(side),
        Piece::Bytes(b"];\n  a[i * "),
        Piece::Number(side),
        Piece::Bytes(b"] = p + 1;\n  return 0;\n}\n"),
        Piece::Bytes(
            b"task inner(i: int, j: int, up: fut int, left: fut int) int {\n  var g: int = get up;\n  g = get left;\n  var p: int = a[((i - 1) * ",
        ),
        Piece::Number(side),
        Piece::Bytes(b") + j];\n  var q: int = a[(i * "),
        Piece::Number(side),
        Piece::Bytes(b") + (j - 1)];\n  a[(i * "),
        Piece::Number(side),
        Piece::Bytes(b") + j] = (p + q) + 1;\n  return 0;\n}\n"),
        Piece::Bytes(
            b"task main() int {\n  var h: fut int = create corner();\n  var row: fut int[",
        ),
        Piece::Number(side),
        Piece::Bytes(
            b"] = h;\n  var up: fut int = h;\n  var i: int = 1;\n  var j: int = 1;\n  while j < ",
        ),
        Piece::Number(side),
        Piece::Bytes(b" { h = create top(j, h); row[j] = h; j = j + 1; }\n  while i < "),
        Piece::Number(side),
        Piece::Bytes(
            b" {\n    up = row[0];\n    h = create side(i, up);\n    row[0] = h;\n    j = 1;\n    while j < ",
        ),
        Piece::Number(side),
        Piece::Bytes(
            b" {\n      up = row[j];\n      h = create inner(i, j, up, h);\n      row[j] = h;\n      j = j + 1;\n    }\n    i = i + 1;\n  }\n  var x: int = get h;\n  return x;\n}\n",
        ),
    ];
    match write_pieces(&mut text, &parts) {
        Wrote::All => Ok(Text::from_vec(text.bytes)),
        Wrote::Failed => Err(NoMemory),
    }
}
