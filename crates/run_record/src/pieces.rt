//! Texts written piece by piece. Nothing here takes memory.
ghost use Rattle.std.specs.Prelude.{◌≡◌};
ghost use Rattle.fut_base.specs.Ports.{Writes};
ghost use Rattle.run_record.specs.RunText.{value_text};
ghost use Rattle.run_record.specs.Pieces.{piece_text, pieces_text};

use fut_base::ports::{Sink, Wrote, write_text};
use fut_base::record::Value;
use itoa::Buffer;

/// A part of a text: bytes as they are, a number or a count in decimal digits, a number with its sign, or a value of a run.
#[derive(Clone, Copy)]
pub enum Piece<'a> {
    Bytes(&'a [u8]),
    Number(u32),
    Count(usize),
    Signed(i64),
    Datum(Value),
}

fn write_signed<K: Sink>(out: &mut K, z: i64) -> Wrote
    ensures { Writes (K.held out.old) (K.held out.new) (K.faults out.old) (K.faults out.new) (value_text (Value.Int z)) result }
{
    let mut buffer = Buffer::new();
    write_text(out, buffer.format(z).as_bytes())
}

fn write_future<K: Sink>(out: &mut K, future: u32) -> Wrote
    ensures { Writes (K.held out.old) (K.held out.new) (K.faults out.old) (K.faults out.new) (value_text (Value.Fut future)) result }
{
    let mut buffer = Buffer::new();
    match write_text(out, b"f") {
        Wrote::All => write_text(out, buffer.format(future).as_bytes()),
        Wrote::Failed => Wrote::Failed,
    }
}

fn write_piece<K: Sink>(out: &mut K, piece: Piece<'_>) -> Wrote
    ensures { Writes (K.held out.old) (K.held out.new) (K.faults out.old) (K.faults out.new) (piece_text piece.entry) result }
{
    let mut buffer = Buffer::new();
    match piece {
        Piece::Bytes(bytes) => write_text(out, bytes),
        Piece::Number(n) => write_text(out, buffer.format(n).as_bytes()),
        Piece::Count(n) => write_text(out, buffer.format(n).as_bytes()),
        Piece::Signed(z) | Piece::Datum(Value::Int(z)) => write_signed(out, z),
        Piece::Datum(Value::Fut(future)) => write_future(out, future),
    }
}

/// Writes the pieces one after another.
pub fn write_pieces<K: Sink>(out: &mut K, pieces: &[Piece<'_>]) -> Wrote
    ensures { Writes (K.held out.old) (K.held out.new) (K.faults out.old) (K.faults out.new) (pieces_text pieces.now) result }
{
    for piece in pieces {
        match write_piece(out, *piece) {
            Wrote::All => {}
            Wrote::Failed => return Wrote::Failed,
        }
    }
    Wrote::All
}
