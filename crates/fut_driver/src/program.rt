//! From the bytes of a program text to its code, or to its canonical text.
ghost use Rattle.std.specs.Prelude.{◌≡◌, ◌≤◌, length, MatchResult};
ghost use Rattle.fut_base.specs.declared.limits.TheConstants.{MOST_PROGRAM_BYTES};
ghost use Rattle.fut_syntax.specs.Trees as tree;
ghost use Rattle.task_code.specs.Flat.{IsCodeOf};
ghost use Rattle.fut_driver.specs.Verdict.{IsWellTypedText, IsPrinted};
ghost use Rattle.fut_driver.specs.Outcomes.{IsRefused, IsOfTree};

use fut_base::list::NoMemory;
use fut_base::record::Text;
use fut_check::{CheckFault, check};
use fut_print::print;
use fut_syntax::tree::Program;
use fut_syntax::{ParseFault, parse};
use std::alloc::Global;
use task_code::code::Code;

/// Why a text was not taken as a program.
#[derive(Clone, Copy)]
pub enum Refusal {
    /// It is none. Its first token that can't come stands here.
    Syntax { line: u32, column: u32 },
    /// It breaks the type rule of this number. The first fault stands here.
    IllTyped { rule: u32, line: u32, column: u32 },
    NoMemory,
}

/// The tree of a text of at most 1,048,576 bytes.
fn tree_of(alloc: Global, text: &[u8]) -> Result<Program, Refusal>
    requires { length text.now ≤ MOST_PROGRAM_BYTES }
    ensures { MatchResult result (λ p. IsOfTree text.now p) (λ f. IsRefused text.now f) }
{
    match parse(alloc, text) {
        Ok(program) => Ok(program),
        Err(ParseFault::Syntax { line, column }) => Err(Refusal::Syntax { line, column }),
        Err(ParseFault::NoMemory) => Err(Refusal::NoMemory),
    }
}

/// The code of a program text of at most 1,048,576 bytes.
pub fn code_for(alloc: Global, text: &[u8]) -> Result<Code, Refusal>
    requires { length text.now ≤ MOST_PROGRAM_BYTES }
    ensures { MatchResult result
        (λ code. (P : tree.Program) × IsWellTypedText text.now P × IsCodeOf P code)
        (λ f. IsRefused text.now f) }
{
    let program = tree_of(alloc, text)?;
    match check(alloc, &program) {
        Ok(checked) => match Code::of(alloc, &checked) {
            Ok(code) => Ok(code),
            Err(NoMemory) => Err(Refusal::NoMemory),
        },
        Err(CheckFault::IllTyped { rule, line, column }) => Err(Refusal::IllTyped {
            rule,
            line,
            column,
        }),
        Err(CheckFault::NoMemory) => Err(Refusal::NoMemory),
    }
}

/// The canonical text of a program text of at most 1,048,576 bytes, if it breaks no type rule.
pub fn printed(alloc: Global, text: &[u8]) -> Result<Text, Refusal>
    requires { length text.now ≤ MOST_PROGRAM_BYTES }
    ensures { MatchResult result (λ t. IsPrinted text.now t.items) (λ f. IsRefused text.now f) }
{
    let program = tree_of(alloc, text)?;
    match check(alloc, &program) {
        Ok(_) => match print(alloc, &program) {
            Ok(text) => Ok(text),
            Err(NoMemory) => Err(Refusal::NoMemory),
        },
        Err(CheckFault::IllTyped { rule, line, column }) => Err(Refusal::IllTyped {
            rule,
            line,
            column,
        }),
        Err(CheckFault::NoMemory) => Err(Refusal::NoMemory),
    }
}
