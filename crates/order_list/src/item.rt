//! Items.

/// An item of a list. Items are numbered as made, from 0.
#[derive(Clone, Copy, Debug, PartialEq, Eq)]
pub struct Item(pub u32);
