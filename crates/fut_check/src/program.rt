//! The check of a program.
ghost use Rattle.fut_check.specs.Checks.{HasPlaces};
ghost use Rattle.fut_check.specs.Answers.{Checks};

use crate::checked::Checked;
use crate::items::walk_items;
use fut_base::list::NoMemory;
use fut_rules::search::Search;
use fut_syntax::tree::Program;
use fut_tokens::token::Position;
use std::alloc::Global;

/// Why a program was not checked.
#[derive(Debug, Clone, Copy, thiserror::Error)]
pub enum CheckFault {
    /// The program breaks a type rule, from 1 to 12. Line and column, both from 1, are those of the token of its first
    /// fault: the one at the least token, and there the one with the least rule.
    #[error("type fault {rule} at {line}:{column}")]
    IllTyped { rule: u32, line: u32, column: u32 },
    #[error("no memory")]
    NoMemory,
}

/// Checks the type rules of a program that has the places of its tokens.
pub fn check(alloc: Global, program: &Program) -> Result<Checked<'_>, CheckFault>
    requires { HasPlaces program.now }
    ensures { Checks program.now result }
{
    let places = program.places.as_slice();
    let mut search = Search::start(places.len());
    match walk_items(alloc, &mut search, program.items.as_slice()) {
        Ok(()) => {}
        Err(NoMemory) => return Err(CheckFault::NoMemory),
    }
    match search.found() {
        None => Ok(Checked::new(program)),
        Some(fault) => {
            let Position { line, column } = places[fault.token];
            Err(CheckFault::IllTyped {
                rule: fault.rule.number(),
                line,
                column,
            })
        }
    }
}
