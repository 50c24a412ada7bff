//! The trees of programs.
use fut_tokens::token::Position;
use sqlite_items::{Boxed, Items};

/// The sign before an operand.
#[derive(Clone, Copy, Debug)]
pub enum Sign {
    None,
    Negative,
    Inverted,
}

/// An operator between two operands.
#[derive(Clone, Copy, Debug)]
pub enum Operator {
    Add,
    Subtract,
    Multiply,
    Divide,
    Remainder,
    BitAnd,
    BitOr,
    Equal,
    Unequal,
    Less,
    AtMost,
    Greater,
    AtLeast,
}

/// An expression has at most one operator beside its operands' own signs.
#[cycle(expr)]
#[derive(Drop)]
pub enum Expr {
    Alone(Operand),
    Pair(Operand, Operator, Operand),
}

#[cycle(expr)]
#[derive(Drop)]
pub enum Operand {
    Signed(Sign, Primary),
}

#[cycle(expr)]
#[derive(Drop)]
pub enum Primary {
    Number(u64),
    Word(Items<u8>),
    Bracket(Boxed<Expr>),
}

/// What a variable is set to.
#[derive(Drop)]
pub enum Init {
    Get(Items<u8>),
    Create(Items<u8>, Items<Expr>),
    Index(Items<u8>, Expr),
    Value(Expr),
}

/// The type of a variable or parameter: `int`, or a handle of some depth, which is the number of `fut`.
#[derive(Clone, Copy, Debug)]
pub enum VarType {
    Plain { depth: u64 },
    Array { depth: u64, length: u64 },
}

#[cycle(stmt)]
#[derive(Drop)]
pub enum Stmt {
    Declare(Items<u8>, VarType),
    Define(Items<u8>, VarType, Init),
    Assign(Items<u8>, Init),
    Store(Items<u8>, Expr, Expr),
    Spawn(Items<u8>, Items<Expr>),
    Sync,
    If(Expr, Items<Stmt>, Tail),
    While(Expr, Items<Stmt>),
    Return(Expr),
}

/// The other branch of an `if`.
#[cycle(stmt)]
#[derive(Drop)]
pub enum Tail {
    None,
    Else(Items<Stmt>),
}

#[derive(Drop)]
pub struct Param {
    pub name: Items<u8>,
    pub kind: VarType,
}

#[derive(Drop)]
pub enum Item {
    Cells(Items<u8>, u64),
    /// A task: its name, its parameters, the number of `fut` in its result's type, and its body.
    Task(Items<u8>, Items<Param>, u64, Items<Stmt>),
}

/// A program: its items, of which there is one at least, the place of each of its tokens, the end token included, and
/// whether its text has a comment.
#[derive(Drop)]
pub struct Program {
    pub items: Items<Item>,
    pub places: Items<Position>,
    pub comments: bool,
}
