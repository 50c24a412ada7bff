//! The instructions of flat code.
use crate::term::Term;
use sqlite_items::Items;

/// What becomes of a variable that gets a value: one value, an array of so many, or, as it is, all of it.
#[derive(Clone, Copy, Debug)]
pub enum Fill {
    One,
    Many(u32),
    Again,
}

/// A variable that gets a value, by its number.
#[derive(Clone, Copy, Debug)]
pub struct Target {
    pub variable: u32,
    pub fill: Fill,
}

/// Where a value comes from. Variables, arrays of cells and tasks of the text are known by number.
#[derive(Drop)]
pub enum Source {
    Value(Term),
    /// The element of a variable that is an array when it runs, else a cell of an array of cells.
    Element {
        variable: Option<u32>,
        array: Option<u32>,
        index: Term,
    },
    Get {
        variable: u32,
    },
    Create {
        which: u32,
        args: Items<Term>,
    },
}

/// One statement of a task. `next` is the place of the instruction behind it.
#[derive(Drop)]
pub enum Instruction {
    /// Gives a variable a value.
    Set {
        target: Target,
        source: Source,
        next: u32,
    },
    /// Sets an element of a variable that is an array when it runs, else writes a cell of an array of cells.
    Store {
        variable: Option<u32>,
        array: Option<u32>,
        index: Term,
        value: Term,
        next: u32,
    },
    /// Goes on at `then` where the test is not 0, else at `otherwise`.
    Branch {
        test: Term,
        then: u32,
        otherwise: u32,
    },
    Spawn {
        which: u32,
        args: Items<Term>,
        next: u32,
    },
    Sync {
        next: u32,
    },
    Return {
        value: Term,
    },
}
