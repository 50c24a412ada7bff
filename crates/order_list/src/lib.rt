//! One order of items, kept so that "insert after" and "does x stand before y" take constant time, and what the layers
//! above ask of two such orders.
//!
//! An `OrderList` gives each item a number as its label, so that labels rise along the list (Dietz and Sleator 1987).
//! Where two labels leave no room for one between them, those around the place alone are made anew: see `OrderList`.
//! `Placer` is whatever puts new items into an English and a Hebrew list, and `Judge` whatever tells in which order two
//! items stand there; `Still` is both, over two lists on one thread.
#![tactic(auto)]

mod item;
mod judge;
mod list;
mod place;
mod placer;
mod span;
mod spread;
mod still;
#[cfg(test)]
mod tests;
mod window;

pub use item::Item;
pub use judge::{Judge, Moved, Sides};
pub use list::{NoMemory, OrderList};
pub use place::{Place, Window, Windows};
pub use placer::Placer;
pub use still::Still;
