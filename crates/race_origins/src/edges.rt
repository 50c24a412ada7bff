//! The edges of a history, in one pass over its entries.
ghost use Rattle.std.specs.Prelude.{◌≡◌, ◌++◌, List, map, IfOk, OnOk};
ghost use Rattle.fut_base.specs.declared.event.Event.{Event};
ghost use Rattle.fut_base.specs.Events.{action_of};
ghost use Rattle.fut_base.specs.Dag.{joins, edges_by, edges_past};
ghost use Rattle.race_origins.specs.Edges.{past_of, ends_of, join_from, AreTasksOf};

use crate::tasks::Tasks;
use fut_base::list::NoMemory;
use fut_base::record::{Act, Entry};
use std::alloc::Global;

/// An edge from one strand to another.
#[derive(Clone, Copy)]
pub struct Edge {
    pub from: u32,
    pub to: u32,
}

fn add_join(edges: &mut Vec<Edge>, last: Option<u32>, to: u32) -> Result<(), NoMemory>
    ensures { OnOk result (map ends_of edges.new.items ≡ map ends_of edges.old.items ++ join_from last to) }
{
    if let Some(from) = last {
        edges.push(Edge { from, to })?;
    }
    Ok(())
}

// Adds the edges from the last strands of those of these tasks that have ended.
fn add_joins(edges: &mut Vec<Edge>, tasks: &Tasks, joined: &[u32], to: u32) -> Result<(), NoMemory>
    ensures { OnOk result ((past : List Event) → AreTasksOf past tasks.now
        → map ends_of edges.new.items ≡ map ends_of edges.old.items ++ joins past joined.now to) }
{
    for task in joined {
        add_join(edges, tasks.last(*task), to)?;
    }
    Ok(())
}

// Adds the edges that an entry makes after those before it.
fn add_edges(edges: &mut Vec<Edge>, tasks: &Tasks, entry: &Entry) -> Result<(), NoMemory>
    ensures { OnOk result ((past : List Event) → AreTasksOf past tasks.now
        → map ends_of edges.new.items ≡ map ends_of edges.old.items ++ edges_by past entry.now.task entry.now.strand (action_of entry.now.act)) }
{
    let from = entry.strand;
    match &entry.act {
        Act::Spawn { kid, cont, .. } | Act::Create { kid, cont, .. } => {
            edges.push(Edge { from, to: *kid })?;
            edges.push(Edge { from, to: *cont })?;
        }
        Act::Sync { strand } => {
            edges.push(Edge { from, to: *strand })?;
            add_joins(edges, tasks, tasks.block(entry.task), *strand)?;
        }
        Act::Get { future, strand, .. } => {
            edges.push(Edge { from, to: *strand })?;
            add_joins(edges, tasks, &[*future], *strand)?;
        }
        _ => {}
    }
    Ok(())
}

/// The edges that the entries make, in their order.
pub fn edges_made(alloc: Global, entries: &[Entry]) -> Result<Vec<Edge>, NoMemory>
    ensures { IfOk result (λ edges. map ends_of edges.items ≡ edges_past (past_of entries.now)) }
{
    let mut edges = Vec::new(alloc);
    let mut tasks = Tasks::none(alloc);
    for entry in entries {
        add_edges(&mut edges, &tasks, entry)?;
        tasks.note(alloc, entry)?;
    }
    Ok(edges)
}
