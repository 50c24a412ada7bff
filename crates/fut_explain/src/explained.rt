//! What is told of a program text.
ghost use Rattle.std.specs.Prelude.{◌≡◌, ℕ, ◌+◌, ◌^◌, ◌<◌, ◌++◌, Ok, length, IfOk, OnOk};
ghost use Rattle.fut_tokens.specs.declared.token.Token.{Token};
ghost use Rattle.fut_syntax.specs.Texts.{IsFaultPlace, Parses};
ghost use Rattle.fut_check.specs.Checks.{IsFaultOf};
ghost use Rattle.fut_explain.specs.Lines.{IsTokenAt, IsMarked};
ghost use Rattle.fut_explain.specs.Explained.{Explains, TellsSyntax, TellsType, place_text, kind_line, kind_lines, syntax_text, rule_words, type_text};

use crate::causes::push_cause;
use crate::kind::Kind;
use crate::mark::{Marked, mark_under};
use crate::standing::expected;
use fut_base::list::NoMemory;
use fut_causes::cause::Cause;
use fut_causes::cause_of;
use fut_check::{CheckFault, check};
use fut_syntax::tree::Program;
use fut_syntax::{ParseFault, parse};
use fut_tokens::token::Position;
use std::alloc::Global;

/// What a program text is.
#[derive(Clone, Copy, Debug, PartialEq, Eq)]
pub enum Verdict {
    /// It is no program.
    NoProgram,
    /// It is a program that breaks a type rule.
    IllTyped,
    /// It is a program that breaks no type rule.
    WellTyped,
}

/// What a program text is, and what is told of it.
#[derive(Drop)]
pub struct Told {
    pub verdict: Verdict,
    pub text: Vec<u8>,
}

/// A type rule in words.
fn rule_words(rule: u32) -> &'static [u8]
    ensures { result.now ≡ rule_words rule }
{
    match rule {
        1 => b"unknown name: no visible variable, array or task of the kind that is due here",
        2 => b"doubled name: this name is declared already",
        3 => b"wrong number of arguments",
        4 => b"a number where a handle is due",
        5 => b"a handle where a number is due",
        6 => b"the handle has another depth than its place needs, or more than eight fut",
        7 =>
            b"array of handles: its length is not from 1 to 64, or an array stands where none is due, or the other way round",
        8 =>
            b"the value returned is not of the task's result type, or a task that gives a handle does not end with return",
        9 => b"no task is named main",
        10 => b"main has parameters",
        11 => b"a handle is declared without a value",
        _ => b"a limit of cells, tasks, parameters, arguments or slots is exceeded",
    }
}

/// Adds where a fault stands.
fn push_place(alloc: Global, out: &mut Vec<u8>, place: Position) -> Result<(), NoMemory>
    ensures { OnOk result (out.new.items ≡ out.old.items ++ place_text place) }
{
    out.extend_from_slice(b"line ")?;
    out.extend_from_slice(place.line.to_string(alloc)?.as_bytes())?;
    out.extend_from_slice(b", column ")?;
    out.extend_from_slice(place.column.to_string(alloc)?.as_bytes())?;
    Ok(())
}

/// Adds a line with the name of a kind.
fn push_kind(out: &mut Vec<u8>, kind: Kind) -> Result<(), NoMemory>
    ensures { OnOk result (out.new.items ≡ out.old.items ++ kind_line kind) }
{
    out.extend_from_slice(b"    ")?;
    out.extend_from_slice(kind.name())?;
    out.extend_from_slice(b"\n")?;
    Ok(())
}

/// Adds a line for each kind.
fn push_kinds(out: &mut Vec<u8>, kinds: &[Kind]) -> Result<(), NoMemory>
    ensures { OnOk result (out.new.items ≡ out.old.items ++ kind_lines kinds.now) }
{
    for kind in kinds {
        push_kind(out, *kind)?;
    }
    Ok(())
}

/// What is told of a text that is no program.
fn syntax_told(
    alloc: Global,
    place: Position,
    mark: Marked<'_>,
    found: &[Kind],
) -> Result<Vec<u8>, NoMemory>
    ensures { IfOk result (λ out. out.items ≡ syntax_text place mark.entry found.now) }
{
    let mut out = Vec::new(alloc);
    push_place(alloc, &mut out, place)?;
    out.extend_from_slice(b": no program goes on so\n")?;
    mark.push(&mut out)?;
    out.extend_from_slice(b"what can stand here:\n")?;
    push_kinds(&mut out, found)?;
    Ok(out)
}

/// What is told of a program that breaks a type rule.
fn type_told(
    alloc: Global,
    place: Position,
    rule: u32,
    mark: Marked<'_>,
    cause: Option<Cause>,
) -> Result<Vec<u8>, NoMemory>
    ensures { IfOk result (λ out. out.items ≡ type_text place rule mark.entry cause) }
{
    let mut out = Vec::new(alloc);
    push_place(alloc, &mut out, place)?;
    out.extend_from_slice(b": type rule ")?;
    out.extend_from_slice(rule.to_string(alloc)?.as_bytes())?;
    out.extend_from_slice(b": ")?;
    out.extend_from_slice(rule_words(rule))?;
    out.extend_from_slice(b"\n")?;
    mark.push(&mut out)?;
    push_cause(alloc, &mut out, cause)?;
    Ok(out)
}

/// What is told of a text that is no program, whose fault stands here.
fn explain_syntax(alloc: Global, text: &[u8], place: Position) -> Result<Vec<u8>, NoMemory>
    requires short { length text.now + 1 < 2 ^ 32 }
    requires fault { IsFaultPlace text.now place }
    ensures { IfOk result (λ out. TellsSyntax text.now out.items) }
{
    let mark = mark_under(alloc, text, place)?;
    let found = expected(alloc, text)?;
    syntax_told(alloc, place, mark, found.as_slice())
}

/// What is told of a program that breaks a type rule, whose first fault stands here.
fn explain_type(
    alloc: Global,
    text: &[u8],
    program: &Program,
    rule: u32,
    place: Position,
) -> Result<Vec<u8>, NoMemory>
    requires short { length text.now + 1 < 2 ^ 32 }
    requires parsed { Parses text.now (Ok program.now) }
    requires fault { IsFaultOf program.now rule place }
    ensures { IfOk result (λ out. TellsType text.now out.items) }
{
    let mark = mark_under(alloc, text, place)?;
    let cause = cause_of(alloc, program, rule, place)?;
    type_told(alloc, place, rule, mark, cause)
}

/// Tells of a text that is this program.
fn explain_program(alloc: Global, text: &[u8], program: &Program) -> Result<Told, NoMemory>
    requires short { length text.now + 1 < 2 ^ 32 }
    requires parsed { Parses text.now (Ok program.now) }
    ensures { IfOk result (λ told. Explains text.now told.verdict told.text.items) }
{
    match check(alloc, program) {
        Ok(_) => Ok(Told {
            verdict: Verdict::WellTyped,
            text: Vec::from_slice(alloc, b"a program that breaks no type rule\n")?,
        }),
        Err(CheckFault::IllTyped { rule, line, column }) => Ok(Told {
            verdict: Verdict::IllTyped,
            text: explain_type(alloc, text, program, rule, Position { line, column })?,
        }),
        Err(CheckFault::NoMemory) => Err(NoMemory),
    }
}

/// Tells of a program text of fewer than 2^32 - 1 bytes what its first fault is, in words, with its line and a mark under it.
pub fn explain(alloc: Global, text: &[u8]) -> Result<Told, NoMemory>
    requires { length text.now + 1 < 2 ^ 32 }
    ensures { IfOk result (λ told. Explains text.now told.verdict told.text.items) }
{
    match parse(alloc, text) {
        Ok(program) => explain_program(alloc, text, &program),
        Err(ParseFault::Syntax { line, column }) => Ok(Told {
            verdict: Verdict::NoProgram,
            text: explain_syntax(alloc, text, Position { line, column })?,
        }),
        Err(ParseFault::NoMemory) => Err(NoMemory),
    }
}
