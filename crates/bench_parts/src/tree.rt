//! A tree of jobs: through one deque without a pool, and on a pool of workers.
use fut_base::list::NoMemory;
use fut_base::ready::Ready;
use std::alloc::Global;
use std::collections::VecDeque;
use std::sync::Wait;
use std::thread::Threads;
use steal_pool::pool::run_jobs;
use steal_pool::{Body, Turned};

/// Job k gives the jobs 2k + 1 and 2k + 2, if there are so many; before that it works for so many steps.
#[derive(Drop)]
pub struct Tree {
    pub alloc: Global,
    pub jobs: u32,
    pub steps: u32,
}

// Takes so many steps of a generator (Marsaglia's xorshift), each of which needs the one before. It is never 0, which no
// compiler finds out.
fn mixed(job: u32, steps: u32) -> u64 {
    let mut x = (job as u64).wrapping_add(1);
    for _ in 0..steps {
        x ^= x << 13;
        x ^= x >> 7;
        x ^= x << 17;
    }
    x
}

impl Tree {
    // One more, where a job was done.
    fn counted(&self, done: u32, job: u32) -> u32 {
        if mixed(job, self.steps) == 0 {
            done
        } else {
            done.wrapping_add(1)
        }
    }

    // The first of the two jobs that a job gives.
    fn child(&self, job: u32) -> u32 {
        job.wrapping_mul(2).wrapping_add(1)
    }
}

impl Body<u32, u32> for Tree {
    ghost turned = { λ s w o j m h n. Unit {0} };

    fn turn<R: Wait>(&self, _rt: &R, _worker: u32, own: &mut u32, job: u32) -> Turned<u32> {
        *own = self.counted(*own, job);
        let mut more = Ready::make(self.alloc);
        let child = self.child(job);
        if child < self.jobs {
            more.push(child);
        }
        if child.wrapping_add(1) < self.jobs {
            if more.reserve().is_err() {
                return Turned { more, halt: true };
            }
            more.push(child.wrapping_add(1));
        }
        Turned { more, halt: false }
    }
}

/// Does the jobs of a tree one after the other, those that are to come in one deque; tells how many were done.
pub fn done_alone(tree: &Tree) -> Result<u32, NoMemory> {
    let mut jobs = VecDeque::new(tree.alloc);
    let mut done = 0;
    jobs.push_back(0)?;
    for _ in 0..tree.jobs {
        let Some(job) = jobs.pop_front() else {
            return Ok(done);
        };
        done = tree.counted(done, job);
        let child = tree.child(job);
        for next in [child, child.wrapping_add(1)] {
            if next < tree.jobs {
                jobs.push_back(next)?;
            }
        }
    }
    Ok(done)
}

/// Does them on so many workers.
pub fn done_by_workers<R: Threads + Wait + Sync>(
    rt: &R,
    tree: &Tree,
    workers: u32,
) -> Result<u32, NoMemory> {
    let mut owns = Ready::make(tree.alloc);
    for _ in 0..workers {
        owns.reserve()?;
        owns.push(0u32);
    }
    if owns.len() == 0 || owns.len() > 64 {
        return Ok(0);
    }
    let mut left = run_jobs(rt, tree.alloc, owns, 0, tree)?;
    let mut done = 0u32;
    for _ in 0..workers {
        done = done.wrapping_add(left.owns.pop().unwrap_or(0));
    }
    Ok(done)
}
