//! Where bytes come from and where they go.
ghost use Rattle.std.specs.Prelude.{◌≡◌, ℕ, Bool, ◌<◌, ◌≤◌, List, length, Option};
ghost use Rattle.fut_base.specs.Ports.{Puts, Takes, Writes};

/// What a source answers.
#[derive(Clone, Copy, Debug)]
pub enum Took {
    /// So many bytes of what was left stand at the front of the buffer.
    Bytes(usize),
    /// Nothing is left.
    End,
    /// The outside failed; nothing was taken.
    Failed,
}

/// Where bytes come from. A take may wait for the outside.
pub trait Source {
    /// What is left, where the source tells that.
    ghost left: { Self → Option (List ℕ) };

    /// Whether the last take answered `End`.
    ghost ended: { Self → Bool };

    /// How many takes failed, up to the greatest 64-bit number.
    ghost faults: { Self → ℕ };

    fn take(&mut self, buf: &mut [u8]) -> Took
        requires { 0 < length buf.old }
        ensures { Takes (left self.old) (left self.new) (ended self.new) (faults self.old) (faults self.new) buf.new result };
}

/// What a sink answers.
#[derive(Clone, Copy, Debug)]
pub enum Put {
    /// So many bytes of the piece's front were added.
    Took(usize),
    /// The outside failed; nothing was added.
    Failed,
}

/// Where bytes go. A put may wait for the outside.
pub trait Sink {
    /// What the sink holds, where it tells that.
    ghost held: { Self → Option (List ℕ) };

    /// How many puts failed, up to the greatest 64-bit number.
    ghost faults: { Self → ℕ };

    fn put(&mut self, piece: &[u8]) -> Put
        requires { 0 < length piece.now }
        ensures { Puts (held self.old) (held self.new) (faults self.old) (faults self.new) piece.now result };
}

/// How a writing ended.
#[derive(Clone, Copy, Debug, PartialEq, Eq)]
pub enum Wrote {
    /// The whole text was added.
    All,
    /// A put failed; a beginning of the text was added.
    Failed,
}

/// Writes a text, by as many puts as it needs. It takes no memory.
pub fn write_text<K: Sink>(out: &mut K, text: &[u8]) -> Wrote
    ensures { Writes (K.held out.old) (K.held out.new) (K.faults out.old) (K.faults out.new) text.now result }
{
    let mut rest = text;
    while !rest.is_empty() {
        match out.put(rest) {
            Put::Took(n) => rest = &rest[n..],
            Put::Failed => return Wrote::Failed,
        }
    }
    Wrote::All
}
