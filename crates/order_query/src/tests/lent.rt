//! What a caller still knows of a reader and of the writer that it lent to code for any judge or placer.
ghost use Rattle.std.specs.Prelude.{◌≡◌, ◌+◌, ◌<◌, ◌≤◌, [], ◌∷◌, length, IfOk};
ghost use Rattle.order_list.specs.Frames.{IsAsBefore, HasPut};
ghost use Rattle.order_list.specs.Ordered.{put_after};
ghost use Rattle.order_list.specs.Sides.{AreSides};
ghost use Rattle.order_query.specs.Logs.{english_of, hebrew_of, count_of};

use crate::live::Live;
use crate::orders::Orders;
use crate::placing::Placing;
use crate::reader::{Reader, Writer};
use order_list::{Item, Judge, Moved, Placer, Sides};

fn ask<J: Judge>(judge: &mut J, x: Item, y: Item) -> Result<Sides, Moved>
    requires x_known { x.0 < J.known judge.old }
    requires y_known { y.0 < J.known judge.old }
    ensures sides { IfOk result (λ sides. AreSides sides x.0 y.0 (J.english judge.old) (J.hebrew judge.old)) }
    ensures judge { IsAsBefore J.Judge judge.old judge.new }
{
    judge.try_sides(x, y)
}

/// Asks a reader as a judge.
pub fn ask_lent(orders: &Orders, reader: &mut Reader, x: Item, y: Item) -> Result<Sides, Moved>
    requires home { reader.old.home ≡ orders.now }
    requires x_known { x.0 < count_of reader.old.log }
    requires y_known { y.0 < count_of reader.old.log }
    ensures sides { IfOk result (λ sides. AreSides sides x.0 y.0 (english_of reader.old.log) (hebrew_of reader.old.log)) }
    ensures home { reader.new.home ≡ reader.old.home }
    ensures known { count_of reader.new.log ≡ count_of reader.old.log }
    ensures english { english_of reader.new.log ≡ english_of reader.old.log }
{
    let mut live = Live { orders, reader };
    ask(&mut live, x, y)
}

fn place<P: Placer>(placer: &mut P, after_e: Item, after_h: Item) -> Item
    requires e_in { after_e.0 < length (P.english placer.old) }
    requires h_in { after_h.0 < length (P.hebrew placer.old) }
    requires room { 1 ≤ P.spare placer.old }
    ensures put { HasPut P.Placer placer.old placer.new after_e.0 (result.0 ∷ []) after_h.0 (result.0 ∷ []) }
{
    placer.insert(after_e, after_h)
}

/// Inserts by the writer as a placer.
pub fn place_lent(orders: &Orders, writer: &mut Writer, after_e: Item, after_h: Item) -> Item
    requires home { writer.old.home ≡ orders.now }
    requires e_in { after_e.0 < length writer.old.lists.english.order }
    requires h_in { after_h.0 < length writer.old.lists.hebrew.order }
    requires room { 1 ≤ writer.old.lists.english.room }
    ensures home { writer.new.home ≡ writer.old.home }
    ensures spare { writer.new.lists.english.room + 1 ≡ writer.old.lists.english.room }
    ensures english { writer.new.lists.english.order ≡ put_after after_e.0 (result.0 ∷ []) writer.old.lists.english.order }
    ensures hebrew { writer.new.lists.hebrew.order ≡ put_after after_h.0 (result.0 ∷ []) writer.old.lists.hebrew.order }
{
    let mut placing = Placing { orders, writer };
    place(&mut placing, after_e, after_h)
}
