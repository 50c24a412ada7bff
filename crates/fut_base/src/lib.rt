//! What every layer of forder speaks of: the values, entries and histories of a run, lists whose room is asked for
//! beforehand, and the outside world as a source, a sink and a gate.
//!
//! The layers above use the lists of `list` and `ready`, the records of `record` with what `acts` and `bounds` say of them, the
//! `limits`, the traits of `ports` and `gate`, and the definitions of `specs/`: what a path, a race and a report are, the two
//! orders, sound structures and tables. Their proofs share the lemmas of `proofs/Cases` and `proofs/Members`.
#![tactic(auto)]

pub mod acts;
pub mod bounds;
pub mod event;
pub mod gate;
pub mod limits;
pub mod list;
pub mod memory;
pub mod ports;
pub mod ready;
pub mod record;
pub mod rows;
pub mod standard;
