//! The accesses of one cell, as far as they are remembered.
ghost use Rattle.std.specs.Prelude.{◌≡◌, ◌+◌, ◌<◌, ◌++◌, true, List, [], None, OnOk, OnErr, IfErr};
ghost use Rattle.order_list.specs.Frames.{IsAsBefore};
ghost use Rattle.reach_table.specs.Telling.{AllKnown, HasMovedLast, AsksAtMost};
ghost use Rattle.access_shards.specs.declared.kept.Kept.{Kept};
ghost use Rattle.access_shards.specs.Kept.{reading, writing, AreKnown, StrandsStay, IsNew};
ghost use Rattle.fut_base.specs.declared.event.Event.{Event};
ghost use Rattle.access_shards.specs.Reading.{ComesAfter};
ghost use Rattle.access_shards.specs.Logged.{HasRoom, IsLogOf, KeepsOneMore, AsksFew, reads_of, reader_count, RisesIfClean};

use crate::finding::{last_unreached, unreached_writer};
use crate::kept::{Access, Kept};
use crate::reading::keep_read;
use crate::replacing::reserve_sorted;
use fut_base::list::NoMemory;
use order_list::{Judge, Moved};
use reach_table::Reach;
use std::alloc::Global;
use std::marker::Model;
use strand_tree::Strand;

/// What has to be remembered of the accesses of one cell so that no race is missed. Contracts see what is kept, for how
/// many reads in all there is room, `rise`, whether it is said that the reads rise in the English order of one future, and
/// `sorted`: where reads of one future came out of that order, a list of them in it.
#[derive(Drop)]
pub struct CellLog {
    alloc: Global,
    kept: Kept,
    room: Vec<Access>,
    sorted: Vec<Access>,
    rise: bool,
    held: usize,
}

impl Model for CellLog {
    ghost use Rattle.access_shards.specs.Logged.{Logged};
    ghost use Rattle.access_shards.specs.Replacing.{HasMemory};

    ghost Value = { Logged };

    ghost view = { λ l. record { kept = l.kept; room = l.held; rise = l.rise; sorted = l.sorted.items } };

    ghost invariant = { λ l. HasMemory l.kept l.rise l.held l.room l.sorted };
}

impl CellLog {
    /// The log of a cell without accesses. It takes no memory.
    pub fn make(alloc: Global) -> CellLog
        ensures new { IsNew result.kept }
        ensures log { (s : List Event) → IsLogOf s [] result }
        ensures rise { result.rise ≡ true }
    {
        CellLog {
            alloc,
            kept: Kept::Clean {
                writer: None,
                readers: Vec::new(alloc),
            },
            room: Vec::new(alloc),
            sorted: Vec::new(alloc),
            rise: true,
            held: 0,
        }
    }

    /// Makes room for one more access, which a read or a write asks for.
    pub fn reserve(&mut self) -> Result<(), NoMemory>
        ensures kept { self.new.kept ≡ self.old.kept }
        ensures rise { self.new.rise ≡ self.old.rise }
        ensures sorted { self.new.sorted ≡ self.old.sorted }
        ensures room { OnOk result (HasRoom self.new) }
        ensures unchanged { OnErr result (self.new ≡ self.old) }
    {
        let Kept::Clean { readers, .. } = &self.kept else {
            self.room.reserve(1)?;
            self.held = 1;
            return Ok(());
        };
        let count = readers.len() + 1;
        self.room.reserve(count)?;
        reserve_sorted(self.rise, readers, &mut self.sorted)?;
        self.held = count;
        Ok(())
    }

    /// What is kept.
    pub fn kept(&self) -> &Kept
        ensures { result.now ≡ self.now.kept }
    {
        &self.kept
    }

    /// What is kept, and nothing else. It takes no memory.
    pub fn into_kept(self) -> Kept
        ensures { result ≡ self.kept }
    {
        self.kept
    }

    /// Keeps a read at a place above all earlier ones, on strand `at`, whose table `reach` is. It asks at most twice more
    /// than accesses are kept, and takes no memory. Where the read comes after the kept ones in the English order of one
    /// future, each question after the fourth drops one of them; where it and they are of one future, and have been since
    /// the last write, it asks once more for each time that their number can be halved. After `Moved` nothing is changed,
    /// and the room still stands.
    pub fn read<J: Judge>(
        &mut self,
        judge: &mut J,
        reach: &Reach,
        at: Strand,
        place: u32,
    ) -> Result<(), Moved>
        requires room { HasRoom self.old }
        requires at_known { at.number < J.known judge.old }
        requires table_known { AllKnown (J.known judge.old) reach.now }
        requires kept_known { AreKnown (J.known judge.old) self.old.kept }
        ensures kept { OnOk result (KeepsOneMore reach.now at place reading (J.known judge.old) (J.english judge.old) (J.hebrew judge.old) self.old self.new) }
        ensures strands { OnOk result (StrandsStay at self.old.kept self.new.kept) }
        ensures rise { ComesAfter (J.english judge.old) at self.old → OnOk result (self.new.rise ≡ true) }
        ensures unchanged { OnErr result (self.new ≡ self.old) }
        ensures moved { IfErr result (λ moved. HasMovedLast moved (J.may_move judge.old) (J.loaded judge.old) (J.loaded judge.new)) }
        ensures asks { AsksAtMost reach.now (reader_count self.old.kept + 2) (J.asked judge.old) (J.asked judge.new) }
        ensures drops_each { ComesAfter (J.english judge.old) at self.old
            → OnOk result (AsksAtMost reach.now (reader_count self.old.kept + 4) (J.asked judge.old) (J.asked judge.new + reader_count self.new.kept)) }
        ensures few { OnOk result (AsksFew reach.now at place reading (J.known judge.old) (J.english judge.old) (J.hebrew judge.old)
            (J.asked judge.old) (J.asked judge.new) self.old self.new) }
        ensures judge { IsAsBefore J.Judge judge.old judge.new }
    {
        let Kept::Clean { writer, readers } = &mut self.kept else {
            return Ok(());
        };
        if let Some(first) = unreached_writer(judge, reach, at, *writer)? {
            self.kept = Kept::Found {
                first,
                second: place,
            };
            self.sorted = Vec::new(self.alloc);
            self.rise = true;
            self.held = 0;
            return Ok(());
        }
        let new = Access { place, strand: at };
        self.rise = keep_read(
            judge,
            reach,
            readers,
            &mut self.room,
            &mut self.sorted,
            self.rise,
            new,
        )?;
        self.held = 0;
        Ok(())
    }

    /// Keeps a write at a place above all earlier ones, on strand `at`, whose table `reach` is. It tries at most once for
    /// each kept access whether a path leads from it, and takes no memory. After `Moved` nothing is changed, and the
    /// room still stands.
    pub fn write<J: Judge>(
        &mut self,
        judge: &mut J,
        reach: &Reach,
        at: Strand,
        place: u32,
    ) -> Result<(), Moved>
        requires room { HasRoom self.old }
        requires at_known { at.number < J.known judge.old }
        requires table_known { AllKnown (J.known judge.old) reach.now }
        requires kept_known { AreKnown (J.known judge.old) self.old.kept }
        ensures kept { OnOk result (KeepsOneMore reach.now at place writing (J.known judge.old) (J.english judge.old) (J.hebrew judge.old) self.old self.new) }
        ensures strands { OnOk result (StrandsStay at self.old.kept self.new.kept) }
        ensures rise { OnOk result (RisesIfClean self.new.kept self.new.rise) }
        ensures no_reads { OnOk result (reads_of self.new.kept ≡ []) }
        ensures unchanged { OnErr result (self.new ≡ self.old) }
        ensures moved { IfErr result (λ moved. HasMovedLast moved (J.may_move judge.old) (J.loaded judge.old) (J.loaded judge.new)) }
        ensures asks { AsksAtMost reach.now (reader_count self.old.kept + 1) (J.asked judge.old) (J.asked judge.new) }
        ensures judge { IsAsBefore J.Judge judge.old judge.new }
    {
        let Kept::Clean { writer, readers } = &self.kept else {
            return Ok(());
        };
        if let Some(first) = last_unreached(judge, reach, at, *writer, readers.as_slice())? {
            self.kept = Kept::Found {
                first,
                second: place,
            };
            self.sorted = Vec::new(self.alloc);
            self.rise = true;
            self.held = 0;
            return Ok(());
        }
        self.kept = Kept::Clean {
            writer: Some(Access { place, strand: at }),
            readers: Vec::new(self.alloc),
        };
        self.sorted = Vec::new(self.alloc);
        self.rise = true;
        self.held = 0;
        Ok(())
    }
}
