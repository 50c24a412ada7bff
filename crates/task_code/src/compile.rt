//! Statements become instructions.
ghost use Rattle.std.specs.Prelude.{ℕ, ◌≡◌, ◌<◌, ◌^◌, ◌∷◌, ◌++◌, [], ◌+◌, length, IfOk, OnOk, map, Some, true};
ghost use Rattle.fut_syntax.specs.Trees.{Signed};
ghost use Rattle.fut_syntax.specs.Views.{sign_tree, expr_tree, operand_tree, primary_tree, init_tree};
ghost use Rattle.fut_syntax.specs.Views.{type_tree, args_tree, stmt_tree, block_tree, tail_tree, items_tree};
ghost use Rattle.task_machine.specs.Variables.{slot_in, operand_in, primary_in};
ghost use Rattle.task_machine.specs.Texts.{tasks_from, number_from};
ghost use Rattle.task_frame.specs.Terms.{IsSigned};
ghost use Rattle.task_machine.specs.Texts.{find_task};
ghost use Rattle.task_frame.specs.declared.instruction.Fill.TheVariants as fill;
ghost use Rattle.task_frame.specs.declared.instruction.Instruction.TheVariants.{Set, Spawn};
ghost use Rattle.task_machine.specs.Variables.{size_of};
ghost use Rattle.task_frame.specs.Names.{find_name, rooms_by, HasRoom};
ghost use Rattle.fut_check.specs.Numbers.{expr_fits, operand_fits, primary_fits, each_fits};
ghost use Rattle.task_code.specs.Serving.{HasVariable, IsAlone, IsTask, IsVariable, ServesInit, ServesStmt, ServesBlock};
ghost use Rattle.task_code.specs.Serving.{ServesTail, instructions_for, instructions_in, instructions_else};
ghost use Rattle.task_code.specs.Flat.{context_of, fill_of, Means, MeanAll, IsSource, IsDone, DoesStmt, DoesBlock, DoesTail, Grows, Stands};

use crate::scope::Scope;
use fut_base::list::NoMemory;
use fut_syntax::tree::{Expr, Init, Item, Operand, Primary, Sign, Stmt, Tail, VarType};
use sqlite_items::{Boxed, Items};
use std::alloc::Global;
use task_frame::cells::find_array;
use task_frame::instruction::{Fill, Instruction, Source, Target};
use task_frame::names::find;
use task_frame::term::Term;

/// The expression with its variables by number. A word that the task does not declare is 0.
#[cycle(terms)]
fn term_of(alloc: Global, scope: &Scope, expr: &Expr) -> Result<Term, NoMemory>
    requires fits { expr_fits (expr_tree expr.now) ≡ true }
    ensures { IfOk result (λ t. Means scope.now.names.now (λ vars. slot_in vars (expr_tree expr.now)) t) }
{
    match expr {
        Expr::Alone(operand) => term_of_operand(alloc, scope, operand),
        Expr::Pair(left, op, right) => {
            let left = term_of_operand(alloc, scope, left)?;
            let right = term_of_operand(alloc, scope, right)?;
            Ok(Term::Pair(Boxed::new(alloc, left)?, *op, Boxed::new(alloc, right)?))
        }
    }
}

#[cycle(terms)]
fn term_of_operand(alloc: Global, scope: &Scope, operand: &Operand) -> Result<Term, NoMemory>
    requires fits { operand_fits (operand_tree operand.now) ≡ true }
    ensures { IfOk result (λ t. Means scope.now.names.now (λ vars. operand_in vars (operand_tree operand.now)) t) }
{
    match operand {
        Operand::Signed(sign, primary) => term_of_signed(alloc, scope, *sign, primary),
    }
}

#[cycle(terms)]
fn term_of_signed(
    alloc: Global,
    scope: &Scope,
    sign: Sign,
    primary: &Primary,
) -> Result<Term, NoMemory>
    requires fits { primary_fits (primary_tree primary.now) ≡ true }
    ensures { IfOk result (λ t. Means scope.now.names.now (λ vars. operand_in vars (Signed (sign_tree sign) (primary_tree primary.now))) t) }
{
    let of = term_of_primary(alloc, scope, primary)?;
    term_with_sign(alloc, sign, of)
}

/// The term behind a sign.
fn term_with_sign(alloc: Global, sign: Sign, of: Term) -> Result<Term, NoMemory>
    ensures { IfOk result (λ t. IsSigned (sign_tree sign) of t) }
{
    match sign {
        Sign::None => Ok(of),
        Sign::Negative => Ok(Term::Negative(Boxed::new(alloc, of)?)),
        Sign::Inverted => Ok(Term::Inverted(Boxed::new(alloc, of)?)),
    }
}

#[cycle(terms)]
fn term_of_primary(alloc: Global, scope: &Scope, primary: &Primary) -> Result<Term, NoMemory>
    requires fits { primary_fits (primary_tree primary.now) ≡ true }
    ensures { IfOk result (λ t. Means scope.now.names.now (λ vars. primary_in vars (primary_tree primary.now)) t) }
{
    match primary {
        Primary::Number(number) => Ok(Term::Number(*number as i64)),
        Primary::Word(word) => match find(scope.names, word.as_slice()) {
            Some(variable) => Ok(Term::Variable(variable)),
            None => Ok(Term::Number(0)),
        },
        Primary::Bracket(inside) => term_of(alloc, scope, inside.get()),
    }
}

/// The arguments of a call.
fn terms_of(alloc: Global, scope: &Scope, args: &[Expr]) -> Result<Items<Term>, NoMemory>
    requires fits { each_fits (args_tree args.now) ≡ true }
    ensures { IfOk result (λ ts. MeanAll scope.now.names.now (args_tree args.now) ts) }
{
    let mut terms = Vec::new(alloc);
    for arg in args {
        terms.push(term_of(alloc, scope, arg)?)?;
    }
    Ok(Items::from_vec(terms))
}

/// The place of the first task of this name among the tasks.
pub fn task_number(items: &[Item], word: &[u8]) -> Option<u32>
    requires { length (tasks_from (items_tree items.now)) < 2 ^ 32 }
    ensures { result ≡ number_from 0 (tasks_from (items_tree items.now)) word.now }
{
    let mut number: u32 = 0;
    for item in items {
        if let Item::Task(name, _, _, _) = item {
            if name.as_slice() == word {
                return Some(number);
            }
            number += 1;
        }
    }
    None
}

/// Where what an init gives comes from.
fn source_of(alloc: Global, scope: &Scope, init: &Init) -> Result<Source, NoMemory>
    requires { ServesInit (context_of scope.now) (init_tree init.now) }
    ensures { IfOk result (λ s. IsSource (context_of scope.now) (init_tree init.now) s) }
{
    match init {
        Init::Value(expr) => Ok(Source::Value(term_of(alloc, scope, expr)?)),
        Init::Index(word, expr) => {
            let index = term_of(alloc, scope, expr)?;
            Ok(Source::Element {
                variable: find(scope.names, word.as_slice()),
                array: find_array(scope.arrays, word.as_slice()),
                index,
            })
        }
        Init::Get(word) => Ok(Source::Get {
            variable: variable_of(scope, word.as_slice()),
        }),
        Init::Create(word, args) => {
            let args = terms_of(alloc, scope, args.as_slice())?;
            let which = task_of(scope, word.as_slice());
            Ok(Source::Create { which, args })
        }
    }
}

/// The number of the variable of a name.
fn variable_of(scope: &Scope, word: &[u8]) -> u32
    requires { IsVariable scope.now.names.now word.now }
    ensures { find_name scope.now.names.now word.now ≡ Some result }
{
    match find(scope.names, word) {
        Some(variable) => variable,
        None => unreachable!(),
    }
}

/// The place of the task of a name.
fn task_of(scope: &Scope, word: &[u8]) -> u32
    requires { IsTask (items_tree scope.now.items.now) word.now }
    ensures { find_task (items_tree scope.now.items.now) word.now ≡ Some result }
{
    match task_number(scope.items, word) {
        Some(which) => which,
        None => unreachable!(),
    }
}

/// What becomes of a variable of this type.
fn fill_for(kind: &VarType) -> Fill
    requires { size_of (type_tree kind.now) < 2 ^ 32 }
    ensures { result ≡ fill_of (type_tree kind.now) }
{
    match kind {
        VarType::Plain { .. } => Fill::One,
        VarType::Array { length, .. } => Fill::Many(*length as u32),
    }
}

/// The variable of a name that is declared with a type.
fn target_of(scope: &Scope, word: &[u8], kind: &VarType) -> Target
    requires { HasVariable scope.now.names.now word.now (type_tree kind.now) }
    ensures { (find_name scope.now.names.now word.now ≡ Some result.variable)
        × HasRoom (rooms_by scope.now.names.now) result.variable (type_tree kind.now)
        × (result.fill ≡ fill_of (type_tree kind.now)) }
{
    Target {
        variable: variable_of(scope, word),
        fill: fill_for(kind),
    }
}

/// The instruction of a statement that holds no others.
fn instruction_of(
    alloc: Global,
    scope: &Scope,
    stmt: &Stmt,
    next: u32,
) -> Result<Instruction, NoMemory>
    requires serves { ServesStmt (context_of scope.now) (stmt_tree stmt.now) }
    requires alone { IsAlone (stmt_tree stmt.now) }
    ensures { IfOk result (λ i. IsDone (context_of scope.now) (stmt_tree stmt.now) next i) }
{
    match stmt {
        Stmt::Declare(word, kind) => Ok(Instruction::Set {
            target: target_of(scope, word.as_slice(), kind),
            source: Source::Value(Term::Number(0)),
            next,
        }),
        Stmt::Define(word, kind, init) => {
            let target = target_of(scope, word.as_slice(), kind);
            let source = source_of(alloc, scope, init)?;
            Ok(Instruction::Set {
                target,
                source,
                next,
            })
        }
        Stmt::Assign(word, init) => {
            let source = source_of(alloc, scope, init)?;
            Ok(assignment(scope, word.as_slice(), source, next))
        }
        Stmt::Store(word, index, value) => {
            let index = term_of(alloc, scope, index)?;
            let value = term_of(alloc, scope, value)?;
            Ok(Instruction::Store {
                variable: find(scope.names, word.as_slice()),
                array: find_array(scope.arrays, word.as_slice()),
                index,
                value,
                next,
            })
        }
        Stmt::Spawn(word, args) => {
            let args = terms_of(alloc, scope, args.as_slice())?;
            Ok(spawning(scope, word.as_slice(), args, next))
        }
        Stmt::Sync => Ok(Instruction::Sync { next }),
        Stmt::Return(value) => Ok(Instruction::Return {
            value: term_of(alloc, scope, value)?,
        }),
        Stmt::If(_, _, _) | Stmt::While(_, _) => unreachable!(),
    }
}

/// Sets all of a variable.
fn assignment(scope: &Scope, word: &[u8], source: Source, next: u32) -> Instruction
    requires { IsVariable scope.now.names.now word.now }
    ensures { (n : ℕ) × (find_name scope.now.names.now word.now ≡ Some n) × (result ≡ Set (record { variable = n; fill = fill.Again }) source next) }
{
    Instruction::Set {
        target: Target {
            variable: variable_of(scope, word),
            fill: Fill::Again,
        },
        source,
        next,
    }
}

/// Spawns the task of a name.
fn spawning(scope: &Scope, word: &[u8], args: Items<Term>, next: u32) -> Instruction
    requires { IsTask (items_tree scope.now.items.now) word.now }
    ensures { (n : ℕ) × (find_task (items_tree scope.now.items.now) word.now ≡ Some n) × (result ≡ Spawn n args next) }
{
    Instruction::Spawn {
        which: task_of(scope, word),
        args,
        next,
    }
}

/// Adds an instruction, and tells its place.
pub fn push(code: &mut Vec<Instruction>, instruction: Instruction) -> Result<u32, NoMemory>
    requires { length code.old.items < 2 ^ 32 }
    ensures { IfOk result (λ at. (code.new.items ≡ code.old.items ++ instruction ∷ []) × (at ≡ length code.old.items)) }
{
    let at = code.len() as u32;
    code.push(instruction)?;
    Ok(at)
}

/// How many instructions a block becomes.
#[cycle(sizes)]
fn block_size(stmts: &[Stmt]) -> u32
    requires few { instructions_in (block_tree stmts.now) < 2 ^ 32 }
    ensures { result ≡ instructions_in (block_tree stmts.now) }
{
    let mut size: u32 = 0;
    for stmt in stmts {
        size += stmt_size(stmt);
    }
    size
}

#[cycle(sizes)]
fn stmt_size(stmt: &Stmt) -> u32
    requires few { instructions_for (stmt_tree stmt.now) < 2 ^ 32 }
    ensures { result ≡ instructions_for (stmt_tree stmt.now) }
{
    match stmt {
        Stmt::If(_, body, tail) => block_size(body.as_slice()) + tail_size(tail) + 1,
        Stmt::While(_, body) => block_size(body.as_slice()) + 1,
        Stmt::Declare(_, _)
        | Stmt::Define(_, _, _)
        | Stmt::Assign(_, _)
        | Stmt::Store(_, _, _)
        | Stmt::Spawn(_, _)
        | Stmt::Sync
        | Stmt::Return(_) => 1,
    }
}

#[cycle(sizes)]
fn tail_size(tail: &Tail) -> u32
    requires few { instructions_else (tail_tree tail.now) < 2 ^ 32 }
    ensures { result ≡ instructions_else (tail_tree tail.now) }
{
    match tail {
        Tail::None => 0,
        Tail::Else(body) => block_size(body.as_slice()),
    }
}

/// Adds the instructions of a block that goes on at a place, and tells where it is entered. It begins at the last statement,
/// so that each one knows where it goes on.
#[cycle(statements)]
pub fn add_block(
    alloc: Global,
    scope: &Scope,
    stmts: &[Stmt],
    next: u32,
    code: &mut Vec<Instruction>,
) -> Result<u32, NoMemory>
    requires serves { ServesBlock (context_of scope.now) (block_tree stmts.now) }
    requires few { length code.old.items + instructions_in (block_tree stmts.now) < 2 ^ 32 }
    ensures does { IfOk result (λ entry. Grows code.old.items code.new.items
        × DoesBlock (context_of scope.now) code.new.items (block_tree stmts.now) next entry) }
    ensures count { OnOk result (length code.new.items ≡ length code.old.items + instructions_in (block_tree stmts.now)) }
{
    let mut entry = next;
    for index in (0..stmts.len()).rev() {
        entry = add_stmt(alloc, scope, &stmts[index], entry, code)?;
    }
    Ok(entry)
}

/// Adds the instructions of a statement.
#[cycle(statements)]
fn add_stmt(
    alloc: Global,
    scope: &Scope,
    stmt: &Stmt,
    next: u32,
    code: &mut Vec<Instruction>,
) -> Result<u32, NoMemory>
    requires serves { ServesStmt (context_of scope.now) (stmt_tree stmt.now) }
    requires few { length code.old.items + instructions_for (stmt_tree stmt.now) < 2 ^ 32 }
    ensures does { IfOk result (λ entry. Grows code.old.items code.new.items × DoesStmt (context_of scope.now) code.new.items (stmt_tree stmt.now) next entry) }
    ensures count { OnOk result (length code.new.items ≡ length code.old.items + instructions_for (stmt_tree stmt.now)) }
{
    match stmt {
        Stmt::If(test, body, tail) => {
            let test = term_of(alloc, scope, test)?;
            let otherwise = add_tail(alloc, scope, tail, next, code)?;
            let then = add_block(alloc, scope, body.as_slice(), next, code)?;
            push(
                code,
                Instruction::Branch {
                    test,
                    then,
                    otherwise,
                },
            )
        }
        Stmt::While(test, body) => {
            let test = term_of(alloc, scope, test)?;
            let size = block_size(body.as_slice());
            let entry = code.len() as u32 + size;
            let then = add_block(alloc, scope, body.as_slice(), entry, code)?;
            push(
                code,
                Instruction::Branch {
                    test,
                    then,
                    otherwise: next,
                },
            )
        }
        Stmt::Declare(_, _)
        | Stmt::Define(_, _, _)
        | Stmt::Assign(_, _)
        | Stmt::Store(_, _, _)
        | Stmt::Spawn(_, _)
        | Stmt::Sync
        | Stmt::Return(_) => add_one(alloc, scope, stmt, next, code),
    }
}

/// Adds the instruction of a statement that holds no others.
fn add_one(
    alloc: Global,
    scope: &Scope,
    stmt: &Stmt,
    next: u32,
    code: &mut Vec<Instruction>,
) -> Result<u32, NoMemory>
    requires serves { ServesStmt (context_of scope.now) (stmt_tree stmt.now) }
    requires alone { IsAlone (stmt_tree stmt.now) }
    requires few { length code.old.items < 2 ^ 32 }
    ensures does { IfOk result (λ entry. Grows code.old.items code.new.items
        × Stands code.new.items entry (IsDone (context_of scope.now) (stmt_tree stmt.now) next)) }
    ensures count { OnOk result (length code.new.items ≡ length code.old.items + 1) }
{
    let instruction = instruction_of(alloc, scope, stmt, next)?;
    push(code, instruction)
}

/// Adds the instructions of the other branch of an `if`.
#[cycle(statements)]
fn add_tail(
    alloc: Global,
    scope: &Scope,
    tail: &Tail,
    next: u32,
    code: &mut Vec<Instruction>,
) -> Result<u32, NoMemory>
    requires serves { ServesTail (context_of scope.now) (tail_tree tail.now) }
    requires few { length code.old.items + instructions_else (tail_tree tail.now) < 2 ^ 32 }
    ensures does { IfOk result (λ entry. Grows code.old.items code.new.items × DoesTail (context_of scope.now) code.new.items (tail_tree tail.now) next entry) }
    ensures count { OnOk result (length code.new.items ≡ length code.old.items + instructions_else (tail_tree tail.now)) }
{
    match tail {
        Tail::None => Ok(next),
        Tail::Else(body) => add_block(alloc, scope, body.as_slice(), next, code),
    }
}
