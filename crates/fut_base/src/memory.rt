//! A source and a sink in memory, which tell their bytes and fail at chosen calls.
ghost use Rattle.std.specs.Prelude.{◌≡◌, ◌∷◌, [], IfOk, Some, false, ◌+◌, ◌<◌, ◌≤◌, length};
ghost use Rattle.fut_base.specs.Ports.{Puts, Takes};
ghost use Rattle.fut_base.specs.Memory.{SourceNow, SinkNow, TakesOf, PutsOf, after_take, after_put};

use crate::list::NoMemory;
use crate::ports::{Put, Sink, Source, Took};
use std::alloc::Global;
use std::marker::Model;

/// Gives the bytes that it was made of, some at a time.
#[derive(Drop)]
pub struct MemSource {
    bytes: Vec<u8>,
    at: usize,
    most: usize,
    calls: u64,
    fails: Vec<u64>,
    faults: u64,
    ended: bool,
}

impl Model for MemSource {
    ghost use Rattle.std.specs.Prelude.{◌<◌, ◌≤◌, drop, vec_len};
    ghost use Rattle.fut_base.specs.Memory.{SourceNow};

    ghost Value = { SourceNow };

    ghost view = { λ s. record { left = drop s.at s.bytes.items; most = s.most; calls = s.calls; fails = s.fails.items; faults = s.faults; ended = s.ended } };

    ghost invariant = { λ s. (s.at ≤ vec_len s.bytes) × (0 < s.most) };
}

impl MemSource {
    /// Gives per call the least of `most`, the buffer's length and what is left; fails exactly at the calls whose
    /// numbers, from 0, stand in `fails`.
    pub fn make(
        alloc: Global,
        bytes: &[u8],
        most: usize,
        fails: &[u64],
    ) -> Result<MemSource, NoMemory>
        requires { 0 < most }
        ensures { IfOk result (λ s. s ≡ record { left = bytes.now; most = most; calls = 0; fails = fails.now; faults = 0; ended = false }) }
    {
        let bytes = Vec::from_slice(alloc, bytes)?;
        let fails = Vec::from_slice(alloc, fails)?;
        Ok(MemSource {
            bytes,
            at: 0,
            most,
            calls: 0,
            fails,
            faults: 0,
            ended: false,
        })
    }
}

impl Source for MemSource {
    ghost left = { λ s. Some s.left };

    ghost ended = { λ s. s.ended };

    ghost faults = { λ s. s.faults };

    fn take(&mut self, buf: &mut [u8]) -> Took
        requires { 0 < length buf.old }
        ensures takes { Takes (Some self.old.left) (Some self.new.left) self.new.ended self.old.faults self.new.faults buf.new result }
        ensures exact { TakesOf self.old (length buf.new) result }
        ensures after { self.new ≡ after_take self.old result }
    {
        let call = self.calls;
        self.calls = self.calls.saturating_add(1);
        if self.fails.contains(&call) {
            self.faults = self.faults.saturating_add(1);
            self.ended = false;
            return Took::Failed;
        }
        let left = self.bytes.len() - self.at;
        if left == 0 {
            self.ended = true;
            return Took::End;
        }
        let count = self.most.min(buf.len()).min(left);
        buf[..count].copy_from_slice(&self.bytes[self.at..self.at + count]);
        self.at += count;
        self.ended = false;
        Took::Bytes(count)
    }
}

/// Holds up to a given number of bytes, and takes some at a time.
#[derive(Drop)]
pub struct MemSink {
    bytes: Vec<u8>,
    room: usize,
    most: usize,
    calls: u64,
    fails: Vec<u64>,
    faults: u64,
}

impl Model for MemSink {
    ghost use Rattle.std.specs.Prelude.{◌<◌, ◌≤◌, ◌+◌, vec_len, vec_capacity};
    ghost use Rattle.fut_base.specs.Memory.{SinkNow};

    ghost Value = { SinkNow };

    ghost view = { λ s. record { bytes = s.bytes.items; room = s.room; most = s.most; calls = s.calls; fails = s.fails.items; faults = s.faults } };

    ghost invariant = { λ s. (vec_len s.bytes + s.room ≤ vec_capacity s.bytes) × (0 < s.most) };
}

impl MemSink {
    /// Takes per call the least of `most`, the piece's length and what is left of `room`; fails exactly where nothing
    /// is left of `room` or the call's number, from 0, stands in `fails`.
    pub fn make(alloc: Global, room: usize, most: usize, fails: &[u64]) -> Result<MemSink, NoMemory>
        requires { 0 < most }
        ensures { IfOk result (λ s. s ≡ record { bytes = []; room = room; most = most; calls = 0; fails = fails.now; faults = 0 }) }
    {
        let mut bytes = Vec::new(alloc);
        bytes.reserve(room)?;
        let fails = Vec::from_slice(alloc, fails)?;
        Ok(MemSink {
            bytes,
            room,
            most,
            calls: 0,
            fails,
            faults: 0,
        })
    }

    /// The bytes that were added so far.
    pub fn bytes(&self) -> &[u8]
        ensures { result.now ≡ self.now.bytes }
    {
        self.bytes.as_slice()
    }
}

impl Sink for MemSink {
    ghost held = { λ s. Some s.bytes };

    ghost faults = { λ s. s.faults };

    fn put(&mut self, piece: &[u8]) -> Put
        requires { 0 < length piece.now }
        ensures puts { Puts (Some self.old.bytes) (Some self.new.bytes) self.old.faults self.new.faults piece.now result }
        ensures exact { PutsOf self.old (length piece.now) result }
        ensures after { self.new ≡ after_put self.old piece.now result }
    {
        let call = self.calls;
        self.calls = self.calls.saturating_add(1);
        if self.room == 0 || self.fails.contains(&call) {
            self.faults = self.faults.saturating_add(1);
            return Put::Failed;
        }
        let count = self.most.min(piece.len()).min(self.room);
        self.room -= count;
        for i in 0..count {
            self.bytes.push_reserved(piece[i]);
        }
        Put::Took(count)
    }
}
