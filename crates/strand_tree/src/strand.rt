//! Strands, and how two of one future are ordered.
ghost use Rattle.std.specs.Prelude.{◌≡◌, true, ◌↔◌, IsTrue};
ghost use Rattle.strand_tree.specs.Paths.{TellsPaths};

use order_list::{Item, Sides};

/// A stretch of one task between two of its spawn, create, sync or get events, and the future that it belongs to. A
/// strand's item in both lists has its number.
#[derive(Clone, Copy, Debug, PartialEq, Eq)]
pub struct Strand {
    pub number: u32,
    pub future: u32,
}

impl Strand {
    // Its item in both lists.
    pub fn item(self) -> Item
        ensures { result.0 ≡ self.number }
    {
        Item(self.number)
    }
}

/// The first strand of the root task, whose future is 0.
pub fn root() -> Strand
    ensures number { result.number ≡ 0 }
    ensures future { result.future ≡ 0 }
{
    Strand {
        number: 0,
        future: 0,
    }
}

/// Whether a strand stands before another in both lists. For two strands of one future this says whether a path inside
/// that future leads from the first to the other.
pub fn precedes(sides: Sides) -> bool
    ensures both { IsTrue result ↔ (sides.english ≡ true) × (sides.hebrew ≡ true) }
    ensures paths { TellsPaths sides result }
{
    sides.english && sides.hebrew
}
