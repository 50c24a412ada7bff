//! Where a new item finds its label, and which labels are made anew.
use crate::item::Item;

/// The label of an item that is put after another, or that there is none between.
#[derive(Clone, Copy, Debug, PartialEq, Eq)]
pub enum Place {
    /// The label that the new item gets, below 2^62.
    Label(u64),
    /// The two labels differ by less than 2: labels have to be made anew first.
    Relabel,
}

/// Items that stand together, and the labels that they get where labels are made anew: the k-th of them, from 0, gets
/// `base + k * gap`.
#[derive(Clone, Copy, Debug, PartialEq, Eq)]
pub struct Window {
    pub first: Item,
    pub items: u32,
    pub base: u64,
    pub gap: u64,
}

/// The windows in which the labels of two lists were made anew; `None` for a list of which none were.
#[derive(Clone, Copy, Debug, PartialEq, Eq)]
pub struct Windows {
    pub english: Option<Window>,
    pub hebrew: Option<Window>,
}
