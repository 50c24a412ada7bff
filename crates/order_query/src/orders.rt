//! Two order-maintenance lists whose labels many threads read.
ghost use Rattle.std.specs.Prelude.{◌≡◌, ℕ, ◌+◌, ◌*◌, ◌<◌, ◌≤◌, false, true, List, [], ◌∷◌, ◌++◌};
ghost use Rattle.std.specs.Prelude.{length, ◌⊎◌, IfOk, IfErr};
ghost use mathlib.Core.Option.{none};
ghost use Rattle.atomic_table.specs.Table.{Allows, step};
ghost use Rattle.order_list.specs.Sides.{AreSides, HasMoved};
ghost use Rattle.order_query.specs.Rule.{OrderRule, AllStart};
ghost use Rattle.order_query.specs.Plays.{after_version, after_label, joined, reader_of, IsMoment};
ghost use Rattle.order_query.specs.Logs.{StartsWith, english_of, hebrew_of, count_of};
ghost use Rattle.order_query.specs.Reading.{HasOnlyLoaded, AreSidesFrom};

use crate::plays::{LoadsLabel, LoadsVersion, Readers, Rule};
use crate::reader::{Reader, Writer};
use crate::steps::Steps;
use crate::view::View;
use atomic_table::{Play, Seat, Table};
use crossbeam_utils::Backoff;
use order_list::{Item, Moved, Sides};
use std::alloc::Global;
use std::marker::{Brand, Model};
use std::sync::Wait;
use std::sync::ledger::{Blank, Ledger};

/// The words: a version, a count, and two labels an item. Contracts see which words these are.
#[derive(Drop)]
pub struct Orders {
    pub(crate) table: Table<(), View, usize, Rule, Global>,
}

impl Model for Orders {
    ghost use Rattle.atomic_table.specs.Seated.{TableId, table_id_coded};

    ghost Value = { TableId };

    ghost coded = { table_id_coded };

    ghost view = { λ o. o.table.shared.table_id };
}

impl Orders {
    // Each load of a question goes this way, and is counted.
    fn load<M: Play<(), View>, L: Ledger>(
        &self,
        seat: &mut Seat<(), View>,
        word: usize,
        steps: &mut Steps<L>,
    ) -> u64
        requires home { seat.old.table_id ≡ self.now }
        requires word { word < self.now.words }
        requires rule { Allows OrderRule self.now.slots seat.old.id seat.old.me word (λ n. n) (M.then (step self.now.slots word 0 0 none) seat.old.me) }
        ensures home { seat.new.table_id ≡ seat.old.table_id }
        ensures told { M.then (step self.now.slots word 0 0 none) seat.old.me result seat.new.me }
        ensures tick { steps.new ≡ steps.old + 1 }
    {
        steps.tick();
        self.table.shared.load::<M>(seat, word)
    }

    fn load_version<L: Ledger>(&self, seat: &mut Seat<(), View>, steps: &mut Steps<L>) -> u64
        requires home { seat.old.table_id ≡ self.now }
        requires words { 0 < self.now.words }
        requires alone { seat.old.me.1 ≡ [] }
        requires reads { seat.old.me.0.writes ≡ false }
        ensures home { seat.new.table_id ≡ seat.old.table_id }
        ensures view { seat.new.me ≡ (after_version seat.old.me.0 result, []) }
        ensures moment { result ≡ seat.old.me.0.snapshot.version → IsMoment seat.old.me.0 }
        ensures tick { steps.new ≡ steps.old + 1 }
    {
        self.load::<LoadsVersion, L>(seat, 0, steps)
    }

    fn load_label<L: Ledger>(
        &self,
        seat: &mut Seat<(), View>,
        word: usize,
        steps: &mut Steps<L>,
    ) -> u64
        requires home { seat.old.table_id ≡ self.now }
        requires words { 2 * length seat.old.me.0.log + 4 ≤ self.now.words }
        requires alone { seat.old.me.1 ≡ [] }
        requires reads { seat.old.me.0.writes ≡ false }
        requires low { 2 ≤ word }
        requires high { word < 2 * length seat.old.me.0.log + 4 }
        ensures home { seat.new.table_id ≡ seat.old.table_id }
        ensures view { seat.new.me ≡ (after_label seat.old.me.0 word result, []) }
        ensures olds { AllStart seat.old.me.0.log seat.old.me.0.olds }
        ensures tick { steps.new ≡ steps.old + 1 }
    {
        self.load::<LoadsLabel, L>(seat, word, steps)
    }

    // A new seat that knows the same items.
    fn split_any(&self, seat: &mut Seat<(), View>) -> Seat<(), View>
        requires home { seat.old.table_id ≡ self.now }
        requires words { 0 < self.now.words }
        ensures same { seat.new.me ≡ seat.old.me }
        ensures home { seat.new.table_id ≡ seat.old.table_id }
        ensures new { result.me ≡ (reader_of seat.old.me.0.log, []) }
        ensures new_home { result.table_id ≡ seat.old.table_id }
    {
        self.table.shared.split_seat::<Readers>(seat)
    }

    // Takes in what another seat knows.
    fn join_any(&self, seat: &mut Seat<(), View>, other: Seat<(), View>)
        requires home { seat.old.table_id ≡ self.now }
        requires other_home { other.table_id ≡ self.now }
        requires alone { seat.old.me.1 ≡ [] }
        requires other_alone { other.me.1 ≡ [] }
        requires reads { seat.old.me.0.writes ≡ false }
        requires other_reads { other.me.0.writes ≡ false }
        requires words { 0 < self.now.words }
        ensures view { seat.new.me ≡ (joined seat.old.me.0 other.me.0, []) }
        ensures home { seat.new.table_id ≡ seat.old.table_id }
    {
        self.table.shared.join_seat::<Readers>(seat, other);
    }

    /// A reader that knows all items. It takes no memory.
    pub fn note(&self, writer: &mut Writer) -> Reader
        requires home { writer.old.home ≡ self.now }
        ensures reader { result ≡ record { log = writer.old.log; loaded = []; home = self.now } }
        ensures same { writer.new ≡ writer.old }
        ensures english { english_of result.log ≡ writer.old.lists.english.order }
        ensures hebrew { hebrew_of result.log ≡ writer.old.lists.hebrew.order }
        ensures count { count_of result.log ≡ length writer.old.lists.english.order }
    {
        Reader {
            seat: self.split_any(&mut writer.seat),
        }
    }

    /// A reader that knows the same items. It takes no memory.
    pub fn split(&self, reader: &mut Reader) -> Reader
        requires home { reader.old.home ≡ self.now }
        ensures reader { result ≡ record { log = reader.old.log; loaded = []; home = self.now } }
        ensures same { reader.new ≡ reader.old }
    {
        Reader {
            seat: self.split_any(&mut reader.seat),
        }
    }

    /// The reader knows what either knew. It takes no memory.
    pub fn join(&self, reader: &mut Reader, other: Reader)
        requires home { reader.old.home ≡ self.now }
        requires other_home { other.home ≡ self.now }
        ensures knew { StartsWith reader.new.log reader.old.log }
        ensures other_knew { StartsWith reader.new.log other.log }
        ensures either { (reader.new.log ≡ reader.old.log) ⊎ (reader.new.log ≡ other.log) }
        ensures loaded { reader.new.loaded ≡ reader.old.loaded }
        ensures home { reader.new.home ≡ reader.old.home }
    {
        let Reader { seat } = other;
        self.join_any(&mut reader.seat, seat);
        self.recall(&mut reader.seat);
    }

    // The load after a join, which tells that what was joined were beginnings of one log.
    fn recall(&self, seat: &mut Seat<(), View>)
        requires home { seat.old.table_id ≡ self.now }
        requires words { 2 < self.now.words }
        requires alone { seat.old.me.1 ≡ [] }
        requires reads { seat.old.me.0.writes ≡ false }
        ensures home { seat.new.table_id ≡ seat.old.table_id }
        ensures alone { seat.new.me.1 ≡ [] }
        ensures reads { seat.new.me.0.writes ≡ false }
        ensures log { seat.new.me.0.log ≡ seat.old.me.0.log }
        ensures loaded { seat.new.me.0.loaded ≡ seat.old.me.0.loaded }
        ensures olds { AllStart seat.old.me.0.log seat.old.me.0.olds }
    {
        self.table.shared.load::<LoadsLabel>(seat, 2);
    }

    /// How x and y stand in both lists, at a moment of the call and from then on; or the versions that it loaded, where labels
    /// were made anew meanwhile. It makes at most 6 loads and takes no memory.
    pub fn try_sides<L: Ledger>(
        &self,
        reader: &mut Reader,
        x: Item,
        y: Item,
        steps: &mut Steps<L>,
    ) -> Result<Sides, Moved>
        requires home { reader.old.home ≡ self.now }
        requires x_known { x.0 < count_of reader.old.log }
        requires y_known { y.0 < count_of reader.old.log }
        ensures sides { IfOk result (λ sides. AreSides sides x.0 y.0 (english_of reader.old.log) (hebrew_of reader.old.log)) }
        ensures stays { IfOk result (λ sides. AreSidesFrom sides x.0 y.0 reader.old.log) }
        ensures moved { IfErr result (λ moved. HasMoved moved true reader.old.loaded reader.new.loaded) }
        ensures reader { HasOnlyLoaded reader.old reader.new }
        ensures steps { steps.new ≤ steps.old + 6 }
    {
        let first = self.load_version(&mut reader.seat, steps);
        if first % 2 == 1 {
            return Err(Moved {
                first,
                second: self.load_version(&mut reader.seat, steps),
            });
        }
        let english_x = self.load_label(&mut reader.seat, 2 * x.0 as usize + 2, steps);
        let english_y = self.load_label(&mut reader.seat, 2 * y.0 as usize + 2, steps);
        let hebrew_x = self.load_label(&mut reader.seat, 2 * x.0 as usize + 3, steps);
        let hebrew_y = self.load_label(&mut reader.seat, 2 * y.0 as usize + 3, steps);
        let second = self.load_version(&mut reader.seat, steps);
        if first == second {
            Ok(Sides {
                english: english_x < english_y,
                hebrew: hebrew_x < hebrew_y,
            })
        } else {
            Err(Moved { first, second })
        }
    }

    // Asks once, and counts for itself.
    pub(crate) fn ask_once<L: Ledger>(
        &self,
        reader: &mut Reader,
        x: Item,
        y: Item,
        blank: Blank,
    ) -> Result<Sides, Moved>
        requires name { blank.name ≡ L.name }
        requires parts { blank.parts ≡ L.parts }
        requires some { 0 < blank.parts }
        requires home { reader.old.home ≡ self.now }
        requires x_known { x.0 < count_of reader.old.log }
        requires y_known { y.0 < count_of reader.old.log }
        ensures sides { IfOk result (λ sides. AreSides sides x.0 y.0 (english_of reader.old.log) (hebrew_of reader.old.log)) }
        ensures moved { IfErr result (λ moved. HasMoved moved true reader.old.loaded reader.new.loaded) }
        ensures reader { HasOnlyLoaded reader.old reader.new }
    {
        let mut steps = Steps::<L>::make(blank);
        self.try_sides(reader, x, y, &mut steps)
    }

    /// How x and y stand in both lists, at a moment of the call and from then on. It asks until no labels were made anew
    /// meanwhile, and takes no memory.
    pub fn sides<R: Wait>(&self, rt: &R, reader: &mut Reader, x: Item, y: Item) -> Sides
        requires home { reader.old.home ≡ self.now }
        requires x_known { x.0 < count_of reader.old.log }
        requires y_known { y.0 < count_of reader.old.log }
        ensures sides { AreSides result x.0 y.0 (english_of reader.old.log) (hebrew_of reader.old.log) }
        ensures stays { AreSidesFrom result x.0 y.0 reader.old.log }
        ensures reader { HasOnlyLoaded reader.old reader.new }
    {
        self.ask::<Brand, R>(rt, reader, x, y, Blank::new(1))
    }

    fn ask<L: Ledger, R: Wait>(
        &self,
        rt: &R,
        reader: &mut Reader,
        x: Item,
        y: Item,
        blank: Blank,
    ) -> Sides
        requires name { blank.name ≡ L.name }
        requires parts { blank.parts ≡ L.parts }
        requires some { 0 < blank.parts }
        requires home { reader.old.home ≡ self.now }
        requires x_known { x.0 < count_of reader.old.log }
        requires y_known { y.0 < count_of reader.old.log }
        ensures sides { AreSides result x.0 y.0 (english_of reader.old.log) (hebrew_of reader.old.log) }
        ensures stays { AreSidesFrom result x.0 y.0 reader.old.log }
        ensures reader { HasOnlyLoaded reader.old reader.new }
    {
        let mut steps = Steps::<L>::make(blank);
        let backoff = Backoff::new();
        for _ in rt.forever() {
            if let Ok(sides) = self.try_sides(reader, x, y, &mut steps) {
                return sides;
            }
            backoff.snooze();
        }
        unreachable!()
    }
}
