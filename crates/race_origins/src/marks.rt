//! Which strands reach a given one: they are marked in passes over the edges, from the last edge to the first, until a pass
//! marks none. An edge of a legal history leads to a later strand, so there the second pass marks none.
ghost use Rattle.std.specs.Prelude.{◌≡◌, ◌+◌, ◌<◌, ◌≤◌, ℕ, true, false, if◌then◌else◌, map, length, slice_set, IsTrue, ◌↔◌, IfOk, All};
ghost use Rattle.fut_base.specs.Dag.{ReachesBy};
ghost use Rattle.race_origins.specs.Edges.{ends_of};
ghost use Rattle.race_origins.specs.Marks.{has, adds, unmarked, IsClosed, OnlyReaching};

use crate::edges::Edge;
use fut_base::list::NoMemory;
use std::alloc::Global;

/// Whether a strand is marked.
pub fn has(marks: &[bool], strand: u32) -> bool
    ensures { result ≡ has marks.now strand }
{
    match marks.get(strand as usize) {
        Some(marked) => *marked,
        None => false,
    }
}

// Marks the strand at which an edge begins, where the one to which it leads is marked and it is not. Whether it did.
fn mark(marks: &mut [bool], edge: Edge) -> bool
    requires { edge.from < length marks.old }
    ensures added { result ≡ adds marks.old edge }
    ensures marks { marks.new ≡ (if adds marks.old edge then slice_set marks.old edge.from true else marks.old) }
{
    let new = has(marks, edge.to) && !has(marks, edge.from);
    if new {
        marks[edge.from as usize] = true;
    }
    new
}

// Marks over each edge once, the last one first. Whether any was marked.
fn sweep(marks: &mut [bool], edges: &[Edge]) -> bool
    requires { All (λ e. e.from < length marks.old) edges.now }
    ensures len { length marks.new ≡ length marks.old }
    ensures kept { (v : ℕ) → has marks.old v ≡ true → has marks.new v ≡ true }
    ensures sound { (end : ℕ) → OnlyReaching edges.now end marks.old → OnlyReaching edges.now end marks.new }
    ensures falls { unmarked marks.new + (if result then 1 else 0) ≤ unmarked marks.old }
    ensures closed { result ≡ false → IsClosed edges.now marks.new }
{
    let mut added = false;
    for place in (0..edges.len()).rev() {
        added = mark(marks, edges[place]) || added;
    }
    added
}

// More than the number of each strand at which an edge begins, and of this one.
fn room(edges: &[Edge], strand: u32) -> usize
    ensures strand { strand < result }
    ensures edges { All (λ e. e.from < result) edges.now }
{
    let mut room = strand as usize + 1;
    for edge in edges {
        room = room.max(edge.from as usize + 1);
    }
    room
}

/// The strands from which paths of the edges lead to `strand`, itself among them. It takes a byte for each number up to the greatest
/// one of a strand.
pub fn marks_before(alloc: Global, edges: &[Edge], strand: u32) -> Result<Vec<bool>, NoMemory>
    ensures { IfOk result (λ marks. (v : ℕ) → IsTrue (has marks.items v) ↔ ReachesBy (map ends_of edges.now) v strand) }
{
    let mut marks = vec![in alloc; false; room(edges, strand)]?;
    marks[strand as usize] = true;
    loop {
        if !sweep(marks.as_mut_slice(), edges) {
            return Ok(marks);
        }
    }
}
