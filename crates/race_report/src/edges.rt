//! The edges of a history, gone through entry by entry.
ghost use Rattle.std.specs.Prelude.{◌≡◌, ◌==◌, ◌&&◌, ◌++◌, if◌then◌else◌, map, reverse, IfOk, OnOk, Some};
ghost use Rattle.fut_base.specs.Events.{action_of};
ghost use Rattle.fut_base.specs.Dag.{ends, last_of, block_of, block_after, joins, edges_by, edges_past};
ghost use Rattle.race_report.specs.Edges.{past_of, ends_of, turn, join_from};

use fut_base::list::NoMemory;
use fut_base::record::{Act, Entry};
use std::alloc::Global;

/// An edge from one strand to another.
#[derive(Clone, Copy)]
pub struct Edge {
    pub from: u32,
    pub to: u32,
}

fn is_end(act: &Act) -> bool
    ensures { result ≡ ends (action_of act.now) }
{
    match act {
        Act::End { .. } => true,
        _ => false,
    }
}

// A task's last strand after one more entry, where `last` is the one before it.
fn last_after(last: Option<u32>, entry: &Entry, task: u32) -> Option<u32>
    ensures { result ≡ (if (task == entry.now.task) && ends (action_of entry.now.act) then Some entry.now.strand else last) }
{
    if task == entry.task && is_end(&entry.act) {
        Some(entry.strand)
    } else {
        last
    }
}

// The last strand of a task, where it has ended.
fn last_strand(entries: &[Entry], task: u32) -> Option<u32>
    ensures { result ≡ last_of (past_of entries.now) task }
{
    let mut last = None;
    for entry in entries {
        last = last_after(last, entry, task);
    }
    last
}

fn note_child(block: &mut Vec<u32>, act: &Act) -> Result<(), NoMemory>
    ensures { OnOk result (block.new.items ≡ block_after (action_of act.now) block.old.items) }
{
    match act {
        Act::Spawn { child, .. } => block.push(*child)?,
        Act::Sync { .. } => block.clear(),
        _ => {}
    }
    Ok(())
}

// The children that a task has spawned since its last sync.
fn open_children(alloc: Global, entries: &[Entry], task: u32) -> Result<Vec<u32>, NoMemory>
    ensures { IfOk result (λ block. block.items ≡ block_of (past_of entries.now) task) }
{
    let mut block = Vec::new(alloc);
    for entry in entries {
        if task == entry.task {
            note_child(&mut block, &entry.act)?;
        }
    }
    Ok(block)
}

fn add_join(edges: &mut Vec<Edge>, last: Option<u32>, to: u32) -> Result<(), NoMemory>
    ensures { OnOk result (map ends_of edges.new.items ≡ map ends_of edges.old.items ++ join_from last to) }
{
    if let Some(from) = last {
        edges.push(Edge { from, to })?;
    }
    Ok(())
}

// Adds the edges from the last strands of the tasks that have ended.
fn add_joins(
    edges: &mut Vec<Edge>,
    before: &[Entry],
    tasks: &[u32],
    to: u32,
) -> Result<(), NoMemory>
    ensures { OnOk result (map ends_of edges.new.items ≡ map ends_of edges.old.items ++ joins (past_of before.now) tasks.now to) }
{
    for task in tasks {
        add_join(edges, last_strand(before, *task), to)?;
    }
    Ok(())
}

// Adds the edges that an entry makes after those before it.
fn add_edges(
    alloc: Global,
    edges: &mut Vec<Edge>,
    before: &[Entry],
    entry: &Entry,
) -> Result<(), NoMemory>
    ensures { OnOk result (map ends_of edges.new.items ≡ map ends_of edges.old.items
        ++ edges_by (past_of before.now) entry.now.task entry.now.strand (action_of entry.now.act)) }
{
    let from = entry.strand;
    match &entry.act {
        Act::Spawn { kid, cont, .. } | Act::Create { kid, cont, .. } => {
            edges.push(Edge { from, to: *kid })?;
            edges.push(Edge { from, to: *cont })?;
        }
        Act::Sync { strand } => {
            edges.push(Edge { from, to: *strand })?;
            let block = open_children(alloc, before, entry.task)?;
            add_joins(edges, before, block.as_slice(), *strand)?;
        }
        Act::Get { future, strand, .. } => {
            edges.push(Edge { from, to: *strand })?;
            add_joins(edges, before, &[*future], *strand)?;
        }
        _ => {}
    }
    Ok(())
}

/// The edges that the entries make, in their order.
pub fn edges_between(alloc: Global, entries: &[Entry]) -> Result<Vec<Edge>, NoMemory>
    ensures { IfOk result (λ edges. map ends_of edges.items ≡ edges_past (past_of entries.now)) }
{
    let mut edges = Vec::new(alloc);
    for place in 0..entries.len() {
        add_edges(alloc, &mut edges, &entries[..place], &entries[place])?;
    }
    Ok(edges)
}

/// The edges turned round, the last one first.
pub fn turned(alloc: Global, edges: &[Edge]) -> Result<Vec<Edge>, NoMemory>
    ensures { IfOk result (λ back. back.items ≡ map turn (reverse edges.now)) }
{
    let back = edges
        .iter()
        .rev()
        .map(|e| Edge {
            from: e.to,
            to: e.from,
        })
        .collect(alloc)?;
    Ok(back)
}
