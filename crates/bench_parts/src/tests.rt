//! The layers above order-maintenance lists, over a writer and a reader of labels that know nothing of them.
ghost use Rattle.std.specs.Prelude.{◌≡◌, ℕ, ◌<◌, ◌≤◌, [], ◌∷◌, length};
ghost use Rattle.order_query.specs.Logs.{count_of};

use access_shards::{CellLog, Kept};
use order_query::{Live, Orders, Placing, Reader, Writer};
use reach_table::Reach;
use std::alloc::Global;
use std::process::Abort;
use std::test::Fail;
use strand_tree::{Strand, create, get, root};

// The strands of a run that creates a future and gets it: that of the future, and the maker's before and after the get.
#[derive(Drop)]
struct Strands {
    future: Strand,
    before: Strand,
    after: Strand,
}

// Places them by the writer.
fn place(orders: &Orders, writer: &mut Writer) -> Strands
    requires home { writer.old.home ≡ orders.now }
    requires english { writer.old.lists.english.order ≡ 0 ∷ [] }
    requires hebrew { writer.old.lists.hebrew.order ≡ 0 ∷ [] }
    requires room { 3 ≤ writer.old.lists.english.room }
    ensures home { writer.new.home ≡ writer.old.home }
    ensures count { length writer.new.lists.english.order ≡ 4 }
    ensures future { result.future.number ≡ 1 }
    ensures before { result.before.number ≡ 2 }
    ensures after { result.after.number ≡ 3 }
{
    let mut placing = Placing { orders, writer };
    let (future, before) = create(&mut placing, root(), 1);
    let after = get(&mut placing, before);
    Strands {
        future,
        before,
        after,
    }
}

// Whether a strand with an empty table is reached from another one.
fn reaches(
    alloc: Global,
    orders: &Orders,
    reader: &mut Reader,
    u: Strand,
    v: Strand,
) -> Option<bool>
    requires home { reader.old.home ≡ orders.now }
    requires u_known { u.number < count_of reader.old.log }
    requires v_known { v.number < count_of reader.old.log }
    ensures home { reader.new.home ≡ reader.old.home }
    ensures known { count_of reader.new.log ≡ count_of reader.old.log }
{
    let mut live = Live { orders, reader };
    Reach::empty(alloc).try_reaches(&mut live, u, v).ok()
}

// Whether a write on one strand and a read on another one, which have empty tables, are found to race.
fn race(
    alloc: Global,
    orders: &Orders,
    reader: &mut Reader,
    u: Strand,
    v: Strand,
) -> Result<bool, Fail>
    requires home { reader.old.home ≡ orders.now }
    requires u_known { u.number < count_of reader.old.log }
    requires v_known { v.number < count_of reader.old.log }
    ensures home { reader.new.home ≡ reader.old.home }
    ensures known { count_of reader.new.log ≡ count_of reader.old.log }
{
    let mut live = Live { orders, reader };
    let table = Reach::empty(alloc);
    let mut log = CellLog::make(alloc);
    log.reserve()?;
    log.write(&mut live, &table, u, 0)?;
    log.reserve()?;
    log.read(&mut live, &table, v, 1)?;
    Ok(match log.kept() {
        Kept::Found { .. } => true,
        Kept::Clean { .. } => false,
    })
}

#[test]
fn layers_above_stand_over_labels(rt: HostRuntime) -> Result<(), Fail> {
    let alloc = rt.alloc();
    let (orders, mut writer, _) = Orders::make(alloc, 4)?;
    let run = place(&orders, &mut writer);
    let mut reader = orders.note(&mut writer);
    assert_eq!(rt;
        reaches(alloc, &orders, &mut reader, root(), run.before),
        Some(true)
    );
    assert_eq!(rt;
        reaches(alloc, &orders, &mut reader, run.before, run.after),
        Some(true)
    );
    assert_eq!(rt;
        reaches(alloc, &orders, &mut reader, run.after, run.before),
        Some(false)
    );
    assert_eq!(rt;
        reaches(alloc, &orders, &mut reader, run.future, run.before),
        Some(false)
    );
    assert!(rt; !race(alloc, &orders, &mut reader, root(), run.before)?);
    assert!(rt; race(alloc, &orders, &mut reader, run.future, run.before)?);
    Ok(())
}
