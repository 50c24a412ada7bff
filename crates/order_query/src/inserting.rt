//! What the writer does with the words.
ghost use Rattle.std.specs.Prelude.{◌≡◌, ℕ, ◌+◌, ◌*◌, ◌%◌, ◌<◌, ◌≤◌, true, List, [], ◌∷◌, ◌++◌, None};
ghost use Rattle.std.specs.Prelude.{length, slice_index, slice_set};
ghost use Rattle.order_list.specs.Ordered.{Ordered, IsKept};
ghost use Rattle.order_list.specs.Labels.{HasMadeSpace};
ghost use Rattle.order_list.specs.Sides.{Lists};
ghost use Rattle.order_query.specs.Rule.{IsPublished, MayWrite};
ghost use Rattle.order_query.specs.Plays.{after_store};
ghost use Rattle.order_query.specs.Reading.{Shows, ShowBoth, HasPublished};
ghost use Rattle.order_query.specs.Showing.{word_of, with_words, set_labels, AreItemsOf, ChangesSide, MayShow, MayCount};

use crate::orders::Orders;
use crate::plays::{Counts, Naming, Stores};
use crate::reader::Writer;
use crate::view::View;
use atomic_table::Seat;
use order_list::{Item, OrderList, Placer, Still, Window, Windows};
use std::marker::Brand;

impl Orders {
    // Stores a word that is no count.
    fn store(&self, seat: &mut Seat<(), View>, word: usize, new: u64)
        requires home { seat.old.table_id ≡ self.now }
        requires word { word < self.now.words }
        requires alone { seat.old.me.1 ≡ [] }
        requires writes { seat.old.me.0.writes ≡ true }
        requires may { IsPublished seat.old.me.0.words seat.old.me.0.log
            → MayWrite seat.old.me.0.words seat.old.me.0.log (slice_set seat.old.me.0.words word new) seat.old.me.0.log }
        ensures home { seat.new.table_id ≡ seat.old.table_id }
        ensures view { seat.new.me ≡ (with_words seat.old.me.0 (slice_set seat.old.me.0.words word new), []) }
    {
        self.table.shared.store::<Stores>(seat, word, new);
    }

    // Stores the count, which publishes an insert.
    fn count<N: Naming>(&self, seat: &mut Seat<(), View>, count: u64)
        requires home { seat.old.table_id ≡ self.now }
        requires words { 1 < self.now.words }
        requires alone { seat.old.me.1 ≡ [] }
        requires writes { seat.old.me.0.writes ≡ true }
        requires may { IsPublished seat.old.me.0.words seat.old.me.0.log
            → MayWrite seat.old.me.0.words seat.old.me.0.log (slice_set seat.old.me.0.words 1 count) (seat.old.me.0.log ++ N.insert ∷ []) }
        ensures home { seat.new.table_id ≡ seat.old.table_id }
        ensures view { seat.new.me ≡ (after_store seat.old.me.0 1 count (seat.old.me.0.log ++ N.insert ∷ []), []) }
    {
        self.table.shared.store::<Counts<N>>(seat, 1, count);
    }

    // Puts the labels of a window into the words, while the version is odd. Labels of the English list are on side 2, those
    // of the Hebrew one on side 3.
    fn show_window(&self, seat: &mut Seat<(), View>, list: &OrderList, side: usize, window: Window)
        requires home { seat.old.table_id ≡ self.now }
        requires size { length seat.old.me.0.words ≡ self.now.words }
        requires alone { seat.old.me.1 ≡ [] }
        requires writes { seat.old.me.0.writes ≡ true }
        requires odd { slice_index seat.old.me.0.words 0 % 2 ≡ 1 }
        requires low { 2 ≤ side }
        requires high { side ≤ 3 }
        requires fits { 2 * length list.now.order + 2 ≤ self.now.words }
        requires kept { IsKept list.now }
        requires items { (items : List ℕ) × AreItemsOf list.now.order window items }
        ensures home { seat.new.table_id ≡ seat.old.table_id }
        ensures view { (items : List ℕ) → AreItemsOf list.now.order window items
            → seat.new.me ≡ (with_words seat.old.me.0 (set_labels seat.old.me.0.words side list.now.labels items), []) }
    {
        let mut at = Some(window.first);
        for k in 0..window.items {
            if let Some(y) = at {
                self.store(seat, 2 * y.0 as usize + side, list.label(y));
                at = list.next(y);
            }
        }
    }

    // Puts the labels into the words that were made anew in a list, while the version is odd.
    fn show(&self, seat: &mut Seat<(), View>, list: &OrderList, side: usize, window: Option<Window>)
        requires home { seat.old.table_id ≡ self.now }
        requires size { length seat.old.me.0.words ≡ self.now.words }
        requires alone { seat.old.me.1 ≡ [] }
        requires writes { seat.old.me.0.writes ≡ true }
        requires odd { slice_index seat.old.me.0.words 0 % 2 ≡ 1 }
        requires low { 2 ≤ side }
        requires high { side ≤ 3 }
        requires fits { 2 * length list.now.order + 2 ≤ self.now.words }
        requires kept { IsKept list.now }
        requires space { (old : Ordered) × (x : ℕ) × HasMadeSpace old x window list.now }
        ensures home { seat.new.table_id ≡ seat.old.table_id }
        ensures view { seat.new.me ≡ (with_words seat.old.me.0 seat.new.me.0.words, []) }
        ensures others { ChangesSide seat.old.me.0.words side seat.new.me.0.words }
        ensures shown { (old : Ordered) (x : ℕ) (order : List ℕ) → HasMadeSpace old x window list.now
            → Shows seat.old.me.0.words (word_of side) order old → Shows seat.new.me.0.words (word_of side) order list.now }
    {
        match window {
            Some(window) => self.show_window(seat, list, side, window),
            None => {}
        }
    }

    // Makes the version odd, puts the labels into the words that were made anew in both lists, and makes it even. Gives the
    // version.
    fn show_both(
        &self,
        seat: &mut Seat<(), View>,
        lists: &Still,
        version: u64,
        windows: Windows,
    ) -> u64
        requires home { seat.old.table_id ≡ self.now }
        requires may { (old : Lists) × (x : ℕ) × (y : ℕ) × MayShow self.now seat.old.me lists.now version windows old x y }
        ensures home { seat.new.table_id ≡ seat.old.table_id }
        ensures view { seat.new.me ≡ (with_words seat.old.me.0 seat.new.me.0.words, []) }
        ensures size { length seat.new.me.0.words ≡ length seat.old.me.0.words }
        ensures word { result ≡ slice_index seat.new.me.0.words 0 }
        ensures version { result ≡ version + 2 }
        ensures shown { ShowBoth seat.new.me.0.words seat.old.me.0.log lists.now }
    {
        self.store(seat, 0, version + 1);
        self.show(seat, lists.english(), 2, windows.english);
        self.show(seat, lists.hebrew(), 3, windows.hebrew);
        self.store(seat, 0, version + 2);
        version + 2
    }

    // The same, where labels were made anew at all.
    fn show_windows(
        &self,
        seat: &mut Seat<(), View>,
        lists: &Still,
        version: u64,
        windows: Windows,
    ) -> u64
        requires home { seat.old.table_id ≡ self.now }
        requires may { (old : Lists) × (x : ℕ) × (y : ℕ) × MayShow self.now seat.old.me lists.now version windows old x y }
        ensures home { seat.new.table_id ≡ seat.old.table_id }
        ensures view { seat.new.me ≡ (with_words seat.old.me.0 seat.new.me.0.words, []) }
        ensures size { length seat.new.me.0.words ≡ length seat.old.me.0.words }
        ensures word { result ≡ slice_index seat.new.me.0.words 0 }
        ensures even { result % 2 ≡ 0 }
        ensures most { result ≤ version + 2 }
        ensures calm { windows.english ≡ None → windows.hebrew ≡ None → result ≡ version }
        ensures shown { ShowBoth seat.new.me.0.words seat.old.me.0.log lists.now }
    {
        match windows.english {
            Some(_) => self.show_both(seat, lists, version, windows),
            None => match windows.hebrew {
                Some(_) => self.show_both(seat, lists, version, windows),
                None => version,
            },
        }
    }

    // Puts the new item's labels into the words, and counts it.
    fn show_item<N: Naming>(&self, seat: &mut Seat<(), View>, lists: &Still, item: Item)
        requires home { seat.old.table_id ≡ self.now }
        requires may { (old : Lists) × MayCount self.now seat.old.me lists.now item.0 N.insert old }
        ensures home { seat.new.table_id ≡ seat.old.table_id }
        ensures alone { seat.new.me.1 ≡ [] }
        ensures writes { seat.new.me.0.writes ≡ true }
        ensures size { length seat.new.me.0.words ≡ length seat.old.me.0.words }
        ensures version { slice_index seat.new.me.0.words 0 ≡ slice_index seat.old.me.0.words 0 }
        ensures log { seat.new.me.0.log ≡ seat.old.me.0.log ++ N.insert ∷ [] }
        ensures shown { ShowBoth seat.new.me.0.words seat.new.me.0.log lists.now }
    {
        self.store(seat, 2 * item.0 as usize + 2, lists.english().label(item));
        self.store(seat, 2 * item.0 as usize + 3, lists.hebrew().label(item));
        self.count::<N>(seat, u64::from(item.0) + 1);
    }

    // Inserts, where the call picks what is published.
    fn insert_as<N: Naming>(&self, writer: &mut Writer, after_e: Item, after_h: Item) -> Item
        requires insert { N.insert ≡ record { english = after_e.0; hebrew = after_h.0 } }
        requires home { writer.old.home ≡ self.now }
        requires e_in { after_e.0 < length writer.old.lists.english.order }
        requires h_in { after_h.0 < length writer.old.lists.hebrew.order }
        requires room { 1 ≤ writer.old.lists.english.room }
        ensures { HasPublished writer.old after_e.0 after_h.0 result.0 writer.new }
    {
        let windows = writer.lists.make_space(after_e, after_h);
        writer.version = self.show_windows(
            &mut writer.seat,
            &writer.lists,
            writer.version,
            windows,
        );
        let item = writer.lists.insert(after_e, after_h);
        self.show_item::<N>(&mut writer.seat, &writer.lists, item);
        item
    }

    /// Puts the next item right after `after_e` in the English list and right after `after_h` in the Hebrew one, and
    /// publishes it. The version becomes odd and even again at most once, and only where labels have to be made anew. It
    /// takes no memory.
    pub fn insert(&self, writer: &mut Writer, after_e: Item, after_h: Item) -> Item
        requires home { writer.old.home ≡ self.now }
        requires e_in { after_e.0 < length writer.old.lists.english.order }
        requires h_in { after_h.0 < length writer.old.lists.hebrew.order }
        requires room { 1 ≤ writer.old.lists.english.room }
        ensures { HasPublished writer.old after_e.0 after_h.0 result.0 writer.new }
    {
        self.insert_as::<Brand>(writer, after_e, after_h)
    }
}
