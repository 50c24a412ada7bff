//! How a call ends, before its text is written, and the text that is due.
ghost use Rattle.std.specs.Prelude.{◌≡◌, [], ◌++◌, IfOk, codes, decimal};
ghost use Rattle.fut_base.specs.Events.{events_of};
ghost use Rattle.fut_base.specs.Ports.{Writes};
ghost use Rattle.fut_driver.specs.Due.{due_text, legal_text, syntax_text, type_text};
ghost use Rattle.fut_driver.specs.Outcomes.{ending_of, status_of};

use crate::gathered::Gathered;
use crate::program::Refusal;
use crate::status::Status;
use fut_base::list::NoMemory;
use fut_base::ports::{Sink, Wrote, write_text};
use fut_base::record::{Finish, History, Races};
use run_record::pieces::{Piece, write_pieces};
use std::alloc::Global;

/// How a call ends: the status, the history that is answered, and, with the statuses of a program that was printed or of a
/// run, the text that is due.
#[derive(Drop)]
pub struct Outcome {
    pub status: Status,
    pub history: History,
    pub text: Vec<u8>,
}

impl Outcome {
    /// No history, and no text that was made.
    pub fn bare(alloc: Global, status: Status) -> Outcome
        ensures status { result.status ≡ status }
        ensures history { events_of result.history ≡ [] }
        ensures text { result.text.items ≡ [] }
    {
        Outcome {
            status,
            history: History::make(alloc),
            text: Vec::new(alloc),
        }
    }

    /// The text was no program without a fault.
    pub fn refused(alloc: Global, refusal: Refusal) -> Outcome
        ensures status { result.status ≡ status_of refusal }
        ensures history { events_of result.history ≡ [] }
    {
        let status = match refusal {
            Refusal::Syntax { line, column } => Status::Syntax { line, column },
            Refusal::IllTyped { rule, line, column } => Status::IllTyped { rule, line, column },
            Refusal::NoMemory => Status::NoMemory,
        };
        Outcome::bare(alloc, status)
    }

    /// Writes the text that is due. It takes no memory.
    pub fn write<K: Sink>(&self, out: &mut K) -> Wrote
        ensures { Writes (K.held out.old) (K.held out.new) (K.faults out.old) (K.faults out.new) (due_text self.now.status self.now.text.items) result }
    {
        match self.status {
            Status::Accepted | Status::Clean | Status::Raced | Status::Spent { .. } => {
                write_text(out, self.text.as_slice())
            }
            Status::Syntax { line, column } => write_syntax(out, line, column),
            Status::IllTyped { rule, line, column } => write_type(out, rule, line, column),
            Status::NotLegal { entry } => write_number(out, b"not legal ", entry),
            Status::NotRun { byte } => write_number(out, b"not a run ", byte),
            Status::ReadFault => write_text(out, b"read fault\n"),
            Status::WriteFault => Wrote::All,
            Status::NoMemory => write_text(out, b"no memory\n"),
            Status::Usage => write_text(out, b"usage: forder run, serial, replay, check or load\n"),
            Status::TooLong => write_text(out, b"too long\n"),
        }
    }
}

/// How a run ended that has these races.
pub fn ending(finish: Finish, races: &Races) -> Status
    ensures { result ≡ ending_of finish races.now.items }
{
    match finish {
        Finish::Whole => {
            if races.len() == 0 {
                Status::Clean
            } else {
                Status::Raced
            }
        }
        Finish::Events { .. } | Finish::Local { .. } | Finish::Futures { .. } => Status::Spent {
            finish,
        },
    }
}

/// The line for a legal record of so many entries and races.
pub fn legal_line(alloc: Global, entries: usize, races: usize) -> Result<Vec<u8>, NoMemory>
    ensures { IfOk result (λ t. t.items ≡ legal_text entries races) }
{
    let mut text = Gathered::make(alloc);
    let pieces = [
        Piece::Bytes(b"legal entries "),
        Piece::Count(entries),
        Piece::Bytes(b" races "),
        Piece::Count(races),
        Piece::Bytes(b"\n"),
    ];
    match write_pieces(&mut text, &pieces) {
        Wrote::All => Ok(text.bytes),
        Wrote::Failed => Err(NoMemory),
    }
}

/// Writes where a text is no program.
fn write_syntax<K: Sink>(out: &mut K, line: u32, column: u32) -> Wrote
    ensures { Writes (K.held out.old) (K.held out.new) (K.faults out.old) (K.faults out.new) (syntax_text line column) result }
{
    let pieces = [
        Piece::Bytes(b"syntax "),
        Piece::Number(line),
        Piece::Bytes(b":"),
        Piece::Number(column),
        Piece::Bytes(b"\n"),
    ];
    write_pieces(out, &pieces)
}

/// Writes which type rule a program breaks, and where.
fn write_type<K: Sink>(out: &mut K, rule: u32, line: u32, column: u32) -> Wrote
    ensures { Writes (K.held out.old) (K.held out.new) (K.faults out.old) (K.faults out.new) (type_text rule line column) result }
{
    let pieces = [
        Piece::Bytes(b"type "),
        Piece::Number(rule),
        Piece::Bytes(b" "),
        Piece::Number(line),
        Piece::Bytes(b":"),
        Piece::Number(column),
        Piece::Bytes(b"\n"),
    ];
    write_pieces(out, &pieces)
}

/// Writes a line that ends with a number.
fn write_number<K: Sink>(out: &mut K, words: &[u8], number: u32) -> Wrote
    ensures { Writes (K.held out.old) (K.held out.new) (K.faults out.old) (K.faults out.new) (words.now ++ (decimal number ++ codes "\n")) result }
{
    let pieces = [
        Piece::Bytes(words),
        Piece::Number(number),
        Piece::Bytes(b"\n"),
    ];
    write_pieces(out, &pieces)
}
