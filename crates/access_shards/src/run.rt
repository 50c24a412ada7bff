//! Among accesses that stand in the English order of one future, those from which a strand of it is reached are one run.
ghost use Rattle.std.specs.Prelude.{◌≡◌, ℕ, ◌+◌, ◌^◌, ◌==◌, if◌then◌else◌, ◌<◌, ◌≤◌, false, length, IfOk, IfErr};
ghost use Rattle.fut_base.specs.Dag.{Among};
ghost use Rattle.order_list.specs.Frames.{IsAsBefore};
ghost use Rattle.reach_table.specs.Telling.{HasMovedLast};
ghost use Rattle.access_shards.specs.Kept.{IsInOrder};
ghost use Rattle.access_shards.specs.Finding.{AllOnKnown};
ghost use Rattle.access_shards.specs.Reading.{EndsBefore};
ghost use Rattle.access_shards.specs.Runs.{access_at, IsParted, MayBeRow, TellsStand, AreBounds, Narrows, Spans, LooksAt, AreRun};

use crate::kept::Access;
use order_list::{Judge, Moved};
use strand_tree::Strand;

/// How the strand of an access stands to another one of its future: that one is reached from it, or it only stands before
/// that one in the English order, or it stands after it.
#[derive(Clone, Copy, Debug, PartialEq, Eq)]
pub enum Stand {
    Reaching,
    Before,
    After,
}

/// What is known of a run while it is sought: it begins between `floor` and `start`, and ends between `low` and `high`.
#[derive(Clone, Copy, Debug, PartialEq, Eq)]
pub struct Span {
    pub floor: usize,
    pub start: usize,
    pub low: usize,
    pub high: usize,
}

/// The accesses at places of a list from `start` on, before the place `end`.
#[derive(Clone, Copy, Debug, PartialEq, Eq)]
pub struct Run {
    pub start: usize,
    pub end: usize,
}

/// Where in the list of reads, which is in the order of places, the first one stands that is not before a place.
pub fn first_from(readers: &[Access], place: u32) -> usize
    ensures within { result ≤ length readers.now }
    ensures parts { IsInOrder readers.now → IsParted place readers.now result }
{
    let mut low = 0;
    let mut high = readers.len();
    while low < high {
        let middle = low + (high - low) / 2;
        if readers[middle].place < place {
            low = middle + 1;
        } else {
            high = middle;
        }
    }
    low
}

// The read that is listed at a place of another list of reads, or of their own list, where `listed` says that it is not
// another one.
fn read_at(readers: &[Access], row: &[Access], listed: bool, i: usize) -> Access
    requires at { i < length row.now }
    requires same { listed ≡ false → row.now ≡ readers.now }
    requires few { length row.now ≤ length readers.now }
    ensures among { Among result readers.now }
    ensures is { MayBeRow listed readers.now row.now → result ≡ access_at row.now i }
{
    let access = row[i];
    if !listed {
        return access;
    }
    let at = first_from(readers, access.place);
    if at < readers.len() {
        return readers[at];
    }
    readers[0]
}

// How the strand of an access stands to `at`. It asks the judge once at most.
fn stand_of<J: Judge>(judge: &mut J, access: Access, at: Strand) -> Result<Stand, Moved>
    requires at_known { at.number < J.known judge.old }
    requires access_known { access.strand.number < J.known judge.old }
    ensures tells { IfOk result (λ stand. TellsStand (J.english judge.old) (J.hebrew judge.old) at access stand) }
    ensures moved { IfErr result (λ moved. HasMovedLast moved (J.may_move judge.old) (J.loaded judge.old) (J.loaded judge.new)) }
    ensures asks { J.asked judge.new ≤ J.asked judge.old + 1 }
    ensures judge { IsAsBefore J.Judge judge.old judge.new }
{
    if access.strand.number == at.number {
        return Ok(Stand::Reaching);
    }
    let sides = judge.try_sides(access.strand.item(), at.item())?;
    if !sides.english {
        return Ok(Stand::After);
    }
    if !sides.hebrew {
        return Ok(Stand::Before);
    }
    Ok(Stand::Reaching)
}

// What is known of a run once it is known how the access at a place stands.
fn narrowed(span: Span, middle: usize, stand: Stand) -> Span
    requires { middle < span.high }
    ensures { Narrows span middle stand result }
{
    match stand {
        Stand::After => Span {
            floor: span.floor,
            start: span.start,
            low: span.low,
            high: middle,
        },
        Stand::Before => passed(span, middle, middle + 1, middle + 1),
        Stand::Reaching => passed(span, middle, span.floor, middle),
    }
}

// The place of the strand is after `middle`; where no access was found yet that is in the run, the run begins between
// `floor` and `start`.
fn passed(span: Span, middle: usize, floor: usize, start: usize) -> Span
    requires { middle < span.high }
    ensures low { result.low ≡ middle + 1 }
    ensures high { result.high ≡ span.high }
    ensures floor { result.floor ≡ (if span.start == span.low then floor else span.floor) }
    ensures start { result.start ≡ (if span.start == span.low then start else span.start) }
{
    if span.start == span.low {
        return Span {
            floor,
            start,
            low: middle + 1,
            high: span.high,
        };
    }
    Span {
        floor: span.floor,
        start: span.start,
        low: middle + 1,
        high: span.high,
    }
}

// Looks at the access at a place between `low` and `high`.
fn look_at<J: Judge>(
    judge: &mut J,
    at: Strand,
    readers: &[Access],
    row: &[Access],
    listed: bool,
    span: Span,
    middle: usize,
) -> Result<Span, Moved>
    requires at_known { at.number < J.known judge.old }
    requires kept_known { AllOnKnown (J.known judge.old) readers.now }
    requires same { listed ≡ false → row.now ≡ readers.now }
    requires few { length row.now ≤ length readers.now }
    requires bounds { AreBounds (length row.now) span }
    requires from { span.low ≤ middle }
    requires to { middle < span.high }
    ensures looks { IfOk result (λ next. LooksAt (J.english judge.old) (J.hebrew judge.old) at listed readers.now row.now span middle next) }
    ensures moved { IfErr result (λ moved. HasMovedLast moved (J.may_move judge.old) (J.loaded judge.old) (J.loaded judge.new)) }
    ensures asks { J.asked judge.new ≤ J.asked judge.old + 1 }
    ensures judge { IsAsBefore J.Judge judge.old judge.new }
{
    let access = read_at(readers, row, listed, middle);
    let stand = stand_of(judge, access, at)?;
    Ok(narrowed(span, middle, stand))
}

// Looks at the last access, where there is one.
fn look_at_last<J: Judge>(
    judge: &mut J,
    at: Strand,
    readers: &[Access],
    row: &[Access],
    listed: bool,
) -> Result<Span, Moved>
    requires at_known { at.number < J.known judge.old }
    requires kept_known { AllOnKnown (J.known judge.old) readers.now }
    requires same { listed ≡ false → row.now ≡ readers.now }
    requires few { length row.now ≤ length readers.now }
    ensures span { IfOk result (λ span. Spans (J.english judge.old) (J.hebrew judge.old) at listed readers.now row.now span) }
    ensures end { IfOk result (λ span. listed ≡ false → EndsBefore (J.english judge.old) at row.now → span.low ≡ length row.now) }
    ensures counts { IfOk result (λ span. J.asked judge.new + span.start + span.high ≤ J.asked judge.old + length row.now + span.floor + span.low) }
    ensures moved { IfErr result (λ moved. HasMovedLast moved (J.may_move judge.old) (J.loaded judge.old) (J.loaded judge.new)) }
    ensures asks { J.asked judge.new ≤ J.asked judge.old + 1 }
    ensures few { J.asked judge.new ≤ J.asked judge.old + length row.now }
    ensures judge { IsAsBefore J.Judge judge.old judge.new }
{
    let span = Span {
        floor: 0,
        start: 0,
        low: 0,
        high: row.len(),
    };
    if row.len() == 0 {
        return Ok(span);
    }
    let next = look_at(judge, at, readers, row, listed, span, row.len() - 1)?;
    Ok(next)
}

// Finds the end of a run by halves.
fn find_end<J: Judge>(
    judge: &mut J,
    at: Strand,
    readers: &[Access],
    row: &[Access],
    listed: bool,
    begun: Span,
) -> Result<Span, Moved>
    requires at_known { at.number < J.known judge.old }
    requires kept_known { AllOnKnown (J.known judge.old) readers.now }
    requires same { listed ≡ false → row.now ≡ readers.now }
    requires few { length row.now ≤ length readers.now }
    requires span { Spans (J.english judge.old) (J.hebrew judge.old) at listed readers.now row.now begun }
    ensures span { IfOk result (λ next. Spans (J.english judge.old) (J.hebrew judge.old) at listed readers.now row.now next) }
    ensures met { IfOk result (λ next. next.low ≡ next.high) }
    ensures within { IfOk result (λ next. (begun.low ≤ next.low) × (next.high ≤ begun.high)) }
    ensures counts { IfOk result (λ next. J.asked judge.new + next.start + next.high + begun.floor + begun.low
        ≤ J.asked judge.old + begun.start + begun.high + next.floor + next.low) }
    ensures moved { IfErr result (λ moved. HasMovedLast moved (J.may_move judge.old) (J.loaded judge.old) (J.loaded judge.new)) }
    ensures asks { J.asked judge.new + begun.low ≤ J.asked judge.old + begun.high }
    ensures halves { (bits : ℕ) → begun.high < begun.low + 2 ^ bits → J.asked judge.new ≤ J.asked judge.old + bits }
    ensures judge { IsAsBefore J.Judge judge.old judge.new }
{
    let mut span = begun;
    while span.low < span.high {
        let middle = span.low + (span.high - span.low) / 2;
        span = look_at(judge, at, readers, row, listed, span, middle)?;
    }
    Ok(span)
}

// Finds the start of a run whose end is known, from its end on.
fn find_start<J: Judge>(
    judge: &mut J,
    at: Strand,
    readers: &[Access],
    row: &[Access],
    listed: bool,
    span: Span,
) -> Result<Run, Moved>
    requires at_known { at.number < J.known judge.old }
    requires kept_known { AllOnKnown (J.known judge.old) readers.now }
    requires same { listed ≡ false → row.now ≡ readers.now }
    requires few { length row.now ≤ length readers.now }
    requires span { Spans (J.english judge.old) (J.hebrew judge.old) at listed readers.now row.now span }
    requires met { span.low ≡ span.high }
    ensures run { IfOk result (λ run. AreRun (J.english judge.old) (J.hebrew judge.old) at listed readers.now row.now run) }
    ensures end { IfOk result (λ run. run.end ≡ span.low) }
    ensures drops_each { IfOk result (λ run. J.asked judge.new + run.start ≤ J.asked judge.old + span.start + 1) }
    ensures moved { IfErr result (λ moved. HasMovedLast moved (J.may_move judge.old) (J.loaded judge.old) (J.loaded judge.new)) }
    ensures asks { J.asked judge.new + span.floor ≤ J.asked judge.old + span.start }
    ensures judge { IsAsBefore J.Judge judge.old judge.new }
{
    let mut floor = span.floor;
    let mut start = span.start;
    while floor < start {
        let access = read_at(readers, row, listed, start - 1);
        match stand_of(judge, access, at)? {
            Stand::Reaching => start -= 1,
            _ => floor = start,
        }
    }
    Ok(Run {
        start,
        end: span.low,
    })
}

/// The run of those accesses from which `at` is reached, of accesses in the English order of its future, and at the run's
/// end the place of `at`. It asks the judge at most once for each access; twice more than accesses are in the run, and
/// where `at` does not stand after them all, once more for each time that their number can be halved. The accesses are all
/// reads, or where it is `listed`, some of them in another order.
pub fn find_run<J: Judge>(
    judge: &mut J,
    at: Strand,
    readers: &[Access],
    row: &[Access],
    listed: bool,
) -> Result<Run, Moved>
    requires at_known { at.number < J.known judge.old }
    requires kept_known { AllOnKnown (J.known judge.old) readers.now }
    requires same { listed ≡ false → row.now ≡ readers.now }
    requires few { length row.now ≤ length readers.now }
    ensures run { IfOk result (λ run. AreRun (J.english judge.old) (J.hebrew judge.old) at listed readers.now row.now run) }
    ensures end { IfOk result (λ run. listed ≡ false → EndsBefore (J.english judge.old) at row.now → run.end ≡ length row.now) }
    ensures drops_each { IfOk result (λ run. listed ≡ false → EndsBefore (J.english judge.old) at row.now
        → J.asked judge.new + run.start ≤ J.asked judge.old + run.end + 2) }
    ensures halves { IfOk result (λ run. (bits : ℕ) → length row.now < 2 ^ bits → J.asked judge.new + run.start ≤ J.asked judge.old + run.end + bits + 2) }
    ensures moved { IfErr result (λ moved. HasMovedLast moved (J.may_move judge.old) (J.loaded judge.old) (J.loaded judge.new)) }
    ensures asks { J.asked judge.new ≤ J.asked judge.old + length row.now }
    ensures judge { IsAsBefore J.Judge judge.old judge.new }
{
    let begun = look_at_last(judge, at, readers, row, listed)?;
    let span = find_end(judge, at, readers, row, listed, begun)?;
    let run = find_start(judge, at, readers, row, listed, span)?;
    Ok(run)
}
