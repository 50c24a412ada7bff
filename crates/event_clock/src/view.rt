//! What a holder or a pass knows. No value of these types is made, `Size` apart; clauses speak of them.
use fut_base::event::Event;
use std::collections::LinkedList;

/// How many holders a clock has, and below which ticket it gives out tickets.
#[derive(Clone, Copy, Debug, PartialEq, Eq)]
pub struct Size {
    pub holders: u32,
    pub bound: u32,
}

/// A task with its entries so far, each with its ticket.
pub struct Carried {
    pub task: u64,
    pub trace: LinkedList<(u64, Event)>,
}

/// The number of a holder with the holder's entries, each with its ticket.
pub struct Own {
    pub number: u64,
    pub entries: LinkedList<(u64, Event)>,
}

/// What a holder or a pass knows.
pub struct View {
    /// Those of its clock; 0 in what a joined pass leaves behind.
    pub holders: u64,
    pub bound: u64,
    /// The holder numbers that it has, with their entries: one in a holder, none in a pass.
    pub own: LinkedList<Own>,
    /// What it knows of each holder's entries, by holder number. A list that is missing counts as empty.
    pub known: LinkedList<LinkedList<(u64, Event)>>,
    /// Earlier values of `known`.
    pub olds: LinkedList<LinkedList<LinkedList<(u64, Event)>>>,
    /// The tasks that it carries, each with all its entries so far.
    pub tasks: LinkedList<Carried>,
    /// How many draws were made at or above the bound.
    pub late: u64,
}
