//! What is kept of all cells.
ghost use Rattle.std.specs.Prelude.{◌≡◌, ℕ, ◌^◌, ◌<◌, ◌≤◌, [], ◌∷◌, List, length, IfOk, OnOk, OnErr};
ghost use Rattle.fut_base.specs.declared.event.Event.{Event};
ghost use Rattle.fut_base.specs.Racing.{IsReport};
ghost use Rattle.reach_table.specs.Telling.{AllKnown};
ghost use Rattle.access_shards.specs.Kept.{reading, writing, AreKnown};
ghost use Rattle.access_shards.specs.Logged.{HasRoom, KeepsOneMore};
ghost use Rattle.race_finder.specs.Finding.{AreLogsOf, kind_by};

use crate::places::Places;
use crate::track::Track;
use access_shards::{CellLog, Kept};
use fut_base::list::{Listing, NoMemory};
use fut_base::record::{Race, Races};
use std::alloc::Global;

/// Adds logs of cells without accesses, up to a cell.
pub fn grow(alloc: Global, logs: &mut Vec<CellLog>, cell: u32) -> Result<(), NoMemory>
    ensures cells { (h : List Event) → AreLogsOf h logs.old.items → AreLogsOf h logs.new.items }
    ensures there { OnOk result (cell < length logs.new.items) }
    ensures few { (most : ℕ) → length logs.old.items ≤ most → cell < most → length logs.new.items ≤ most }
{
    while logs.len() <= cell as usize {
        logs.push(CellLog::make(alloc))?;
    }
    Ok(())
}

fn keep_read(log: &mut CellLog, places: &mut Places, track: &Track, place: u32)
    requires room { HasRoom log.old }
    requires at_known { track.now.at.number < length places.old.english }
    requires table_known { AllKnown (length places.old.english) track.now.reach }
    requires kept_known { AreKnown (length places.old.english) log.old.kept }
    ensures kept { KeepsOneMore track.now.reach track.now.at place reading (length places.old.english) places.old.english places.old.hebrew log.old log.new }
    ensures english { places.new.english ≡ places.old.english }
    ensures hebrew { places.new.hebrew ≡ places.old.hebrew }
{
    match log.read(places, &track.reach, track.at, place) {
        Ok(()) => {}
        // The labels of these lists don't move.
        Err(_) => {}
    }
}

fn keep_write(log: &mut CellLog, places: &mut Places, track: &Track, place: u32)
    requires room { HasRoom log.old }
    requires at_known { track.now.at.number < length places.old.english }
    requires table_known { AllKnown (length places.old.english) track.now.reach }
    requires kept_known { AreKnown (length places.old.english) log.old.kept }
    ensures kept { KeepsOneMore track.now.reach track.now.at place writing (length places.old.english) places.old.english places.old.hebrew log.old log.new }
    ensures english { places.new.english ≡ places.old.english }
    ensures hebrew { places.new.hebrew ≡ places.old.hebrew }
{
    match log.write(places, &track.reach, track.at, place) {
        Ok(()) => {}
        // The labels of these lists don't move.
        Err(_) => {}
    }
}

/// Keeps an access of a task at a place above all earlier ones.
pub fn keep(log: &mut CellLog, places: &mut Places, track: &Track, place: u32, writes: bool)
    requires room { HasRoom log.old }
    requires at_known { track.now.at.number < length places.old.english }
    requires table_known { AllKnown (length places.old.english) track.now.reach }
    requires kept_known { AreKnown (length places.old.english) log.old.kept }
    ensures kept { KeepsOneMore track.now.reach track.now.at place (kind_by writes)
        (length places.old.english) places.old.english places.old.hebrew log.old log.new }
    ensures english { places.new.english ≡ places.old.english }
    ensures hebrew { places.new.hebrew ≡ places.old.hebrew }
{
    if writes {
        keep_write(log, places, track, place);
        return;
    }
    keep_read(log, places, track, place);
}

/// The report of a history of which these logs are kept.
pub fn report(alloc: Global, logs: &[CellLog]) -> Result<Races, NoMemory>
    requires { length logs.now ≤ 2 ^ 32 }
    ensures { IfOk result (λ races. (h : List Event) → AreLogsOf h logs.now → IsReport h races.items) }
{
    let mut races = Vec::new(alloc);
    for (cell, log) in logs.iter().enumerate() {
        if let Kept::Found { first, second } = log.kept() {
            races.push(Race {
                cell: cell as u32,
                first: *first,
                second: *second,
            })?;
        }
    }
    Ok(Listing::from_vec(races))
}
