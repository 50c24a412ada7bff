//! What has to be kept of accesses, computed from the edges of a run alone.
use std::alloc::{AllocError, Global};

/// An access: the strand on which it stands, and whether it writes. Its place is that in the list of accesses.
#[derive(Clone, Copy, Debug, PartialEq, Eq)]
pub struct Touch {
    pub strand: usize,
    pub writes: bool,
}

/// The first pair, or the last write and the reads after it that no later read is joined with, by place.
#[derive(Debug, PartialEq, Eq, Drop)]
pub enum Plain {
    Clean {
        writer: Option<usize>,
        readers: Vec<usize>,
    },
    Found {
        first: usize,
        second: usize,
    },
}

// Which strands are reached from one. An edge leads to a strand that was made after those of the edges before.
fn reached(
    alloc: Global,
    edges: &[(usize, usize)],
    count: usize,
    start: usize,
) -> Result<Vec<bool>, AllocError> {
    let mut reached = vec![in alloc; false; count]?;
    if let Some(there) = reached.get_mut(start) {
        *there = true;
    }
    for (u, v) in edges {
        if is_set(reached.as_slice(), *u) {
            if let Some(there) = reached.get_mut(*v) {
                *there = true;
            }
        }
    }
    Ok(reached)
}

fn is_set(row: &[bool], place: usize) -> bool {
    match row.get(place) {
        Some(set) => *set,
        None => false,
    }
}

// Accesses, with the strands that are reached from the strand of each.
#[derive(Drop)]
struct Rows<'a> {
    touches: &'a [Touch],
    rows: Vec<Vec<bool>>,
}

impl Rows<'_> {
    fn reaches(&self, i: usize, j: usize) -> bool {
        match (self.rows.get(i), self.touches.get(j)) {
            (Some(row), Some(touch)) => is_set(row.as_slice(), touch.strand),
            _ => false,
        }
    }

    fn writes(&self, i: usize) -> bool {
        match self.touches.get(i) {
            Some(touch) => touch.writes,
            None => false,
        }
    }

    fn are_joined(&self, i: usize, j: usize) -> bool {
        self.reaches(i, j) || self.reaches(j, i)
    }

    // The greatest place before `j` whose access races with that at `j`.
    fn partner(&self, j: usize) -> Option<usize> {
        let mut found = None;
        for i in 0..j {
            if (self.writes(i) || self.writes(j)) && !self.are_joined(i, j) {
                found = Some(i);
            }
        }
        found
    }

    fn first_pair(&self) -> Option<(usize, usize)> {
        for j in 0..self.touches.len() {
            if let Some(i) = self.partner(j) {
                return Some((i, j));
            }
        }
        None
    }

    fn last_write(&self) -> Option<usize> {
        let mut last = None;
        for i in 0..self.touches.len() {
            if self.writes(i) {
                last = Some(i);
            }
        }
        last
    }

    fn is_latest(&self, i: usize) -> bool {
        for j in i..self.touches.len() {
            if j > i && self.are_joined(i, j) {
                return false;
            }
        }
        true
    }

    // The reads at places from `start` on that no later access is joined with.
    fn latest(&self, alloc: Global, start: usize) -> Result<Vec<usize>, AllocError> {
        let mut places = Vec::new(alloc);
        for i in start..self.touches.len() {
            if self.is_latest(i) {
                places.push(i)?;
            }
        }
        Ok(places)
    }
}

/// What has to be kept of these accesses on strands of a run with these edges.
pub fn recompute(
    alloc: Global,
    edges: &[(usize, usize)],
    count: usize,
    touches: &[Touch],
) -> Result<Plain, AllocError> {
    let mut rows = Vec::new(alloc);
    for touch in touches {
        rows.push(reached(alloc, edges, count, touch.strand)?)?;
    }
    let rows = Rows { touches, rows };
    if let Some((first, second)) = rows.first_pair() {
        return Ok(Plain::Found { first, second });
    }
    let writer = rows.last_write();
    let start = match writer {
        Some(place) => place.saturating_add(1),
        None => 0,
    };
    Ok(Plain::Clean {
        writer,
        readers: rows.latest(alloc, start)?,
    })
}
