//! The labels of two order-maintenance lists, read by many threads without a lock while one writer inserts and relabels.
//!
//! `Orders` has the labels of an English and a Hebrew list in atomic words, with a seqlock-style version that is odd while
//! labels are made anew. The `Writer` is the one permission to insert, with the lists themselves. A `Reader` is the
//! permission to ask how two items stand, of those that it knows; it goes to another thread. A question makes six loads: the
//! version, four labels, and the version again.
//!
//! ```
//! let (orders, mut writer, _) = Orders::make(alloc, 100)?;
//! let x = orders.insert(&mut writer, Item(0), Item(0));
//! let y = orders.insert(&mut writer, x, Item(0));
//! // The reader knows x and y, whatever the writer inserts while it asks.
//! let mut reader = orders.note(&mut writer);
//! let sides = orders.sides(rt, &mut reader, x, y);
//! // `sides.english` is true, since the English list is 0 x y; `sides.hebrew` is false, since the Hebrew one is 0 y x.
//! ```
//!
//! The layer above lends the writer as a `Placing` to whatever inserts by any `Placer`, and a reader as a `Live` to whatever
//! asks any `Judge`, where `Moved` says that labels were made anew meanwhile.
#![tactic(auto)]

mod inserting;
mod laws;
mod live;
mod making;
mod orders;
mod placing;
mod plays;
mod reader;
mod steps;
#[cfg(test)]
mod tests;
mod view;

pub use laws::orders_stay;
pub use live::Live;
pub use orders::Orders;
pub use placing::Placing;
pub use reader::{Reader, Writer};
pub use steps::Steps;
