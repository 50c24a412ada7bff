//! A text gathered in memory, to be written at once.
ghost use Rattle.std.specs.Prelude.{◌≡◌, ◌<◌, [], length, Some};
ghost use Rattle.fut_base.specs.Ports.{Puts};

use fut_base::ports::{Put, Sink};
use std::alloc::Global;

/// A sink that keeps what it takes. A put fails where memory is wanting.
#[derive(Drop)]
pub struct Gathered {
    pub bytes: Vec<u8>,
    faults: u64,
}

impl Gathered {
    /// Nothing yet. It takes no memory.
    pub fn make(alloc: Global) -> Gathered
        ensures bytes { result.bytes.items ≡ [] }
        ensures faults { result.faults ≡ 0 }
    {
        Gathered {
            bytes: Vec::new(alloc),
            faults: 0,
        }
    }
}

impl Sink for Gathered {
    ghost held = { λ s. Some s.bytes.items };

    ghost faults = { λ s. s.faults };

    fn put(&mut self, piece: &[u8]) -> Put
        requires { 0 < length piece.now }
        ensures { Puts (Some self.old.bytes.items) (Some self.new.bytes.items) self.old.faults self.new.faults piece.now result }
    {
        match self.bytes.extend_from_slice(piece) {
            Ok(()) => Put::Took(piece.len()),
            Err(_) => {
                self.faults = self.faults.saturating_add(1);
                Put::Failed
            }
        }
    }
}
