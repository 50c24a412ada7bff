//! The cause of a fault of a program.
ghost use Rattle.std.specs.Prelude.{IfOk};
ghost use Rattle.fut_check.specs.Checks.{HasPlaces};
ghost use Rattle.fut_causes.specs.Answers.{IsCauseOf};

use crate::cause::Cause;
use crate::items::seek_items;
use crate::seek::{Seek, Wanted};
use fut_base::list::NoMemory;
use fut_syntax::tree::Program;
use fut_tokens::token::Position;
use std::alloc::Global;

/// What is due and what was found where the rule of a number is broken at the token that stands here, if types or counts are the cause.
pub fn cause_of(
    alloc: Global,
    program: &Program,
    number: u32,
    place: Position,
) -> Result<Option<Cause>, NoMemory>
    requires { HasPlaces program.now }
    ensures { IfOk result (λ cause. IsCauseOf program.now number place cause) }
{
    let mut seek = Seek::start(Wanted {
        places: program.places.as_slice(),
        place,
        number,
    });
    seek_items(alloc, &mut seek, program.items.as_slice())?;
    Ok(seek.found())
}
