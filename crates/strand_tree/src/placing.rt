//! Where the strands that an event makes stand in the two lists.
ghost use Rattle.std.specs.Prelude.{◌≡◌, ℕ, ◌<◌, ◌≤◌, List, [], ◌∷◌, length, IfSome, unwrap_or, option_map};
ghost use Rattle.fut_base.specs.declared.record.Value.{Value};
ghost use Rattle.fut_base.specs.declared.event.Event.{Event};
ghost use Rattle.fut_base.specs.declared.event.Action.TheVariants.{Spawns, Creates, Syncs, Gets};
ghost use Rattle.order_list.specs.Frames.{HasPut};
ghost use Rattle.strand_tree.specs.Placing.{IsIn, Extends, IsLastOfFirst, AreNext, Belongs};

use crate::strand::Strand;
use order_list::Placer;

/// Places the first strand of a spawned child and the continuation of its parent, after a strand of the parent.
pub fn spawn<P: Placer>(placer: &mut P, at: Strand) -> (Strand, Strand)
    requires at_in { IsIn at.number (P.english placer.old) (P.hebrew placer.old) }
    requires room { 2 ≤ P.spare placer.old }
    ensures numbers { AreNext (length (P.english placer.old)) result.0.number result.1.number }
    ensures futures { (result.0.future ≡ at.future) × (result.1.future ≡ at.future) }
    ensures put { HasPut P.Placer placer.old placer.new at.number (result.0.number ∷ result.1.number ∷ [])
        at.number (result.1.number ∷ result.0.number ∷ []) }

    // The orders of some structural events become those of these and the spawn.
    ensures extends { (s : List Event) (task code child : ℕ) (args : List Value)
        → Extends s task at.number (Spawns code child result.0.number result.1.number args)
        (P.english placer.old) (P.hebrew placer.old) (P.english placer.new) (P.hebrew placer.new) }
    ensures belong { (s : List Event) (task code child : ℕ) (args : List Value)
        → Belongs s task at (Spawns code child result.0.number result.1.number args) result.0
        × Belongs s task at (Spawns code child result.0.number result.1.number args) result.1 }
{
    fork(placer, at, at.future)
}

/// Places the first strand of a created future and the continuation of its maker, after a strand of the maker. The
/// future has the number of its task, `child`.
pub fn create<P: Placer>(placer: &mut P, at: Strand, child: u32) -> (Strand, Strand)
    requires at_in { IsIn at.number (P.english placer.old) (P.hebrew placer.old) }
    requires room { 2 ≤ P.spare placer.old }
    ensures numbers { AreNext (length (P.english placer.old)) result.0.number result.1.number }
    ensures futures { (result.0.future ≡ child) × (result.1.future ≡ at.future) }
    ensures put { HasPut P.Placer placer.old placer.new at.number (result.0.number ∷ result.1.number ∷ [])
        at.number (result.1.number ∷ result.0.number ∷ []) }

    // The orders of some structural events become those of these and the create.
    ensures extends { (s : List Event) (task code : ℕ) (args : List Value)
        → Extends s task at.number (Creates code child result.0.number result.1.number args)
        (P.english placer.old) (P.hebrew placer.old) (P.english placer.new) (P.hebrew placer.new) }
    ensures belong { (s : List Event) (task code : ℕ) (args : List Value)
        → Belongs s task at (Creates code child result.0.number result.1.number args) result.0
        × Belongs s task at (Creates code child result.0.number result.1.number args) result.1 }
{
    fork(placer, at, child)
}

/// Places the strand on which a task goes on after a sync. `first_last` is the last strand of its block's first child,
/// `None` for an empty block.
pub fn sync<P: Placer>(placer: &mut P, at: Strand, first_last: Option<Strand>) -> Strand
    requires at_in { IsIn at.number (P.english placer.old) (P.hebrew placer.old) }
    requires last_in { IfSome first_last (λ last. IsIn last.number (P.english placer.old) (P.hebrew placer.old)) }
    requires room { 1 ≤ P.spare placer.old }
    ensures number { result.number ≡ length (P.english placer.old) }
    ensures future { result.future ≡ at.future }
    ensures put { HasPut P.Placer placer.old placer.new at.number (result.number ∷ [])
        (unwrap_or (option_map (λ last. last.number) first_last) at.number) (result.number ∷ []) }

    // The orders of some structural events become those of these and the sync.
    ensures extends { (s : List Event) (task : ℕ) → IsLastOfFirst s task first_last
        → Extends s task at.number (Syncs result.number) (P.english placer.old) (P.hebrew placer.old) (P.english placer.new) (P.hebrew placer.new) }
    ensures belongs { (s : List Event) (task : ℕ) → Belongs s task at (Syncs result.number) result }
{
    join(placer, at, first_last.unwrap_or(at))
}

/// Places the strand on which a task goes on after a get.
pub fn get<P: Placer>(placer: &mut P, at: Strand) -> Strand
    requires at_in { IsIn at.number (P.english placer.old) (P.hebrew placer.old) }
    requires room { 1 ≤ P.spare placer.old }
    ensures number { result.number ≡ length (P.english placer.old) }
    ensures future { result.future ≡ at.future }
    ensures put { HasPut P.Placer placer.old placer.new at.number (result.number ∷ []) at.number (result.number ∷ []) }

    // The orders of some structural events become those of these and the get.
    ensures extends { (s : List Event) (task future : ℕ) (value : Value)
        → Extends s task at.number (Gets future value result.number) (P.english placer.old) (P.hebrew placer.old) (P.english placer.new) (P.hebrew placer.new) }
    ensures belongs { (s : List Event) (task future : ℕ) (value : Value) → Belongs s task at (Gets future value result.number) result }
{
    join(placer, at, at)
}

// Puts a kid and then a continuation after a strand in the English list, and the other way round in the Hebrew one.
fn fork<P: Placer>(placer: &mut P, at: Strand, kid_future: u32) -> (Strand, Strand)
    requires at_in { IsIn at.number (P.english placer.old) (P.hebrew placer.old) }
    requires room { 2 ≤ P.spare placer.old }
    ensures numbers { AreNext (length (P.english placer.old)) result.0.number result.1.number }
    ensures futures { (result.0.future ≡ kid_future) × (result.1.future ≡ at.future) }
    ensures put { HasPut P.Placer placer.old placer.new at.number (result.0.number ∷ result.1.number ∷ [])
        at.number (result.1.number ∷ result.0.number ∷ []) }
{
    let kid = placer.insert(at.item(), at.item());
    let cont = placer.insert(kid, at.item());
    let kid = Strand {
        number: kid.0,
        future: kid_future,
    };
    let cont = Strand {
        number: cont.0,
        future: at.future,
    };
    (kid, cont)
}

// Puts a strand of the future of `at` after `at` in the English list, and after another one in the Hebrew list.
fn join<P: Placer>(placer: &mut P, at: Strand, after: Strand) -> Strand
    requires at_in { at.number < length (P.english placer.old) }
    requires after_in { after.number < length (P.hebrew placer.old) }
    requires room { 1 ≤ P.spare placer.old }
    ensures number { result.number ≡ length (P.english placer.old) }
    ensures future { result.future ≡ at.future }
    ensures put { HasPut P.Placer placer.old placer.new at.number (result.number ∷ []) after.number (result.number ∷ []) }
{
    let item = placer.insert(at.item(), after.item());
    Strand {
        number: item.0,
        future: at.future,
    }
}
