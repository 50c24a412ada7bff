//! From which kept accesses a strand is not reached.
ghost use Rattle.std.specs.Prelude.{◌≡◌, ◌+◌, ◌<◌, ◌≤◌, [], ◌⊎◌, length, option_to_list, vec_len, vec_capacity, IfOk, IfErr, OnOk, OnErr};
ghost use Rattle.order_list.specs.Frames.{IsAsBefore};
ghost use Rattle.fut_base.specs.Dag.{Among};
ghost use Rattle.reach_table.specs.Telling.{AllKnown, HasMovedLast, AsksAtMost};
ghost use Rattle.access_shards.specs.declared.kept.Access.{Access};
ghost use Rattle.access_shards.specs.Kept.{all_kept};
ghost use Rattle.access_shards.specs.Finding.{AllOnKnown, FindsLast, LooksOn, KeepsApart, FindsApart};

use crate::kept::Access;
use order_list::{Judge, Moved};
use reach_table::Reach;
use strand_tree::Strand;

// The place of an access from which `at` is not reached, or else what was found before it.
fn look_on<J: Judge>(
    judge: &mut J,
    reach: &Reach,
    at: Strand,
    access: Access,
    found: Option<u32>,
) -> Result<Option<u32>, Moved>
    requires at_known { at.number < J.known judge.old }
    requires table_known { AllKnown (J.known judge.old) reach.now }
    requires access_known { access.strand.number < J.known judge.old }
    ensures looks { IfOk result (λ next. LooksOn reach.now at (J.known judge.old) (J.english judge.old) (J.hebrew judge.old) access found next) }
    ensures moved { IfErr result (λ moved. HasMovedLast moved (J.may_move judge.old) (J.loaded judge.old) (J.loaded judge.new)) }
    ensures asks { AsksAtMost reach.now 1 (J.asked judge.old) (J.asked judge.new) }
    ensures judge { IsAsBefore J.Judge judge.old judge.new }
{
    if reach.try_reaches(judge, access.strand, at)? {
        Ok(found)
    } else {
        Ok(Some(access.place))
    }
}

/// The place of the write from which `at` is not reached.
pub fn unreached_writer<J: Judge>(
    judge: &mut J,
    reach: &Reach,
    at: Strand,
    writer: Option<Access>,
) -> Result<Option<u32>, Moved>
    requires at_known { at.number < J.known judge.old }
    requires table_known { AllKnown (J.known judge.old) reach.now }
    requires writer_known { AllOnKnown (J.known judge.old) (option_to_list writer) }
    ensures finds { IfOk result (λ found. FindsLast reach.now at (J.known judge.old) (J.english judge.old) (J.hebrew judge.old) (option_to_list writer) found) }
    ensures moved { IfErr result (λ moved. HasMovedLast moved (J.may_move judge.old) (J.loaded judge.old) (J.loaded judge.new)) }
    ensures asks { AsksAtMost reach.now 1 (J.asked judge.old) (J.asked judge.new) }
    ensures judge { IsAsBefore J.Judge judge.old judge.new }
{
    match writer {
        Some(writer) => look_on(judge, reach, at, writer, None),
        None => Ok(None),
    }
}

/// The place of the last of the kept accesses from which `at` is not reached.
pub fn last_unreached<J: Judge>(
    judge: &mut J,
    reach: &Reach,
    at: Strand,
    writer: Option<Access>,
    readers: &[Access],
) -> Result<Option<u32>, Moved>
    requires at_known { at.number < J.known judge.old }
    requires table_known { AllKnown (J.known judge.old) reach.now }
    requires kept_known { AllOnKnown (J.known judge.old) (all_kept writer readers.now) }
    ensures finds { IfOk result (λ found. FindsLast reach.now at (J.known judge.old) (J.english judge.old) (J.hebrew judge.old)
        (all_kept writer readers.now) found) }
    ensures moved { IfErr result (λ moved. HasMovedLast moved (J.may_move judge.old) (J.loaded judge.old) (J.loaded judge.new)) }
    ensures asks { AsksAtMost reach.now (length readers.now + 1) (J.asked judge.old) (J.asked judge.new) }
    ensures judge { IsAsBefore J.Judge judge.old judge.new }
{
    let mut found = unreached_writer(judge, reach, at, writer)?;
    for reader in readers {
        found = look_on(judge, reach, at, *reader, found)?;
    }
    Ok(found)
}

// Adds an access from which `at` is not reached.
fn keep_unreached<J: Judge>(
    judge: &mut J,
    reach: &Reach,
    at: Strand,
    access: Access,
    left: &mut Vec<Access>,
) -> Result<(), Moved>
    requires at_known { at.number < J.known judge.old }
    requires table_known { AllKnown (J.known judge.old) reach.now }
    requires access_known { access.strand.number < J.known judge.old }
    requires room { vec_len left.old < vec_capacity left.old }
    ensures keeps { OnOk result (KeepsApart reach.now at (J.known judge.old) (J.english judge.old) (J.hebrew judge.old) access left.old.items left.new.items) }
    ensures adds { (a : Access) → Among a left.new.items → Among a left.old.items ⊎ (access ≡ a) }
    ensures len { vec_len left.new ≤ vec_len left.old + 1 }
    ensures capacity { vec_capacity left.new ≡ vec_capacity left.old }
    ensures moved { IfErr result (λ moved. HasMovedLast moved (J.may_move judge.old) (J.loaded judge.old) (J.loaded judge.new)) }
    ensures asks { AsksAtMost reach.now 1 (J.asked judge.old) (J.asked judge.new) }
    ensures judge { IsAsBefore J.Judge judge.old judge.new }
{
    if !reach.try_reaches(judge, access.strand, at)? {
        left.push_reserved(access);
    }
    Ok(())
}

/// Puts those of the accesses from which `at` is not reached into an empty list that has room for all of them. After an
/// `Err` it is empty again.
pub fn take_unreached<J: Judge>(
    judge: &mut J,
    reach: &Reach,
    at: Strand,
    readers: &[Access],
    left: &mut Vec<Access>,
) -> Result<(), Moved>
    requires at_known { at.number < J.known judge.old }
    requires table_known { AllKnown (J.known judge.old) reach.now }
    requires kept_known { AllOnKnown (J.known judge.old) readers.now }
    requires empty { left.old.items ≡ [] }
    requires room { length readers.now ≤ vec_capacity left.old }
    ensures finds { OnOk result (FindsApart reach.now at (J.known judge.old) (J.english judge.old) (J.hebrew judge.old) readers.now left.new.items) }
    ensures those { OnOk result ((a : Access) → Among a left.new.items → Among a readers.now) }
    ensures len { vec_len left.new ≤ length readers.now }
    ensures capacity { vec_capacity left.new ≡ vec_capacity left.old }
    ensures none { OnErr result (left.new.items ≡ []) }
    ensures moved { IfErr result (λ moved. HasMovedLast moved (J.may_move judge.old) (J.loaded judge.old) (J.loaded judge.new)) }
    ensures asks { AsksAtMost reach.now (length readers.now) (J.asked judge.old) (J.asked judge.new) }
    ensures judge { IsAsBefore J.Judge judge.old judge.new }
{
    for reader in readers {
        if let Err(moved) = keep_unreached(judge, reach, at, *reader, left) {
            left.clear();
            return Err(moved);
        }
    }
    Ok(())
}
