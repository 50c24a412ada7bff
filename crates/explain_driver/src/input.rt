//! Reading a source to its end.
ghost use Rattle.std.specs.Prelude.{◌≡◌, ◌+◌, ◌^◌, ◌<◌, ◌≤◌, length};
ghost use Rattle.explain_driver.specs.Reading.{Adds, ReadsAll};

use fut_base::ports::{Source, Took};
use std::alloc::Global;

/// What a source gave.
#[derive(Drop)]
pub enum Input {
    /// All its bytes.
    Whole(Vec<u8>),
    /// One byte more than the limit. These are the bytes.
    TooLong(Vec<u8>),
    /// A take failed.
    Failed,
    NoMemory,
}

/// What one take gave.
#[derive(Clone, Copy)]
enum Step {
    More,
    End,
    Failed,
    NoMemory,
}

/// How many bytes are asked for at a time.
const CHUNK: usize = 4096;

/// Takes once, and adds to `bytes` what came.
fn take_onto<S: Source>(source: &mut S, buffer: &mut [u8], bytes: &mut Vec<u8>) -> Step
    requires { 0 < length buffer.old }
    ensures { Adds (length buffer.new) (S.left source.old) (S.left source.new) (S.ended source.new) (S.faults source.old)
        (S.faults source.new) bytes.old.items bytes.new.items result }
{
    match source.take(buffer) {
        Took::Bytes(n) => match bytes.extend_from_slice(&buffer[..n]) {
            Ok(()) => Step::More,
            Err(_) => Step::NoMemory,
        },
        Took::End => Step::End,
        Took::Failed => Step::Failed,
    }
}

/// Reads up to the end of a source, or one byte over the limit.
pub fn read_all<S: Source>(alloc: Global, source: &mut S, limit: usize) -> Input
    requires { limit < 2 ^ 32 }
    ensures { ReadsAll limit (S.left source.old) (S.left source.new) (S.ended source.new) (S.faults source.old) (S.faults source.new) result }
{
    let mut bytes = Vec::new(alloc);
    let Ok(mut buffer) = vec![in alloc; 0u8; CHUNK] else {
        return Input::NoMemory;
    };
    while bytes.len() <= limit {
        let room = CHUNK.min(limit + 1 - bytes.len());
        match take_onto(source, &mut buffer[..room], &mut bytes) {
            Step::More => {}
            Step::End => return Input::Whole(bytes),
            Step::Failed => return Input::Failed,
            Step::NoMemory => return Input::NoMemory,
        }
    }
    Input::TooLong(bytes)
}
