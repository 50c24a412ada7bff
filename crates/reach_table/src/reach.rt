//! The table of a strand.
ghost use Rattle.std.specs.Prelude.{◌≡◌, ℕ, ◌<◌, ◌++◌, ◌↔◌, List, [], ◌∷◌, length, IfOk, IfErr};
ghost use Rattle.order_list.specs.Frames.{IsAsBefore};
ghost use Rattle.order_list.specs.Sides.{Lists};
ghost use Rattle.fut_base.specs.Dag.{Among};
ghost use Rattle.strand_tree.specs.declared.strand.Strand.{Strand};
ghost use Rattle.reach_table.specs.Sorted.{IsRising};
ghost use Rattle.reach_table.specs.Telling.{HasTable, AllKnown, TellsReach, HasMovedLast, AsksAtMost};
ghost use Rattle.reach_table.specs.Blocks.{flat, values, AreBlocks};
ghost use Rattle.reach_table.specs.Merging.{together, IsGreatest};
ghost use Rattle.reach_table.specs.Tabled.{AfterSpawn, AfterCreate, KidAfterCreate, AfterGet, MergesOneMore};

use crate::block::{Shared, all_strands, strands_of_future, with_one};
use crate::group::{is_or_precedes, reaches_one};
use crate::joining::join;
use fut_base::list::NoMemory;
use order_list::{Judge, Moved, Still};
use std::alloc::Global;
use std::marker::Model;
use std::sync::ArcSlice;
use strand_tree::Strand;

/// The table of a strand: strands of other futures by which it is reached. Contracts see the strands, by future and then
/// by number, each once. Equal tables share their memory.
#[derive(Drop)]
pub struct Reach {
    alloc: Global,
    shared: Option<ArcSlice<Shared>>,
}

impl Model for Reach {
    ghost use Rattle.std.specs.Prelude.{List, []};
    ghost use Rattle.std.specs.Arc.{arc_slice_items};
    ghost use Rattle.std.specs.Option.{option_map_or};
    ghost use Rattle.strand_tree.specs.declared.strand.Strand.{Strand};
    ghost use Rattle.reach_table.specs.Blocks.{flat, values, AreBlocks};

    ghost Value = { List Strand };

    ghost view = { λ r. flat (values (option_map_or arc_slice_items r.shared [])) };

    ghost invariant = { λ r. AreBlocks (values (option_map_or arc_slice_items r.shared [])) };
}

impl Reach {
    /// The table without strands, as the root's first strand has it. It takes no memory.
    pub fn empty(alloc: Global) -> Reach
        ensures none { result ≡ [] }
        ensures first { HasTable [] 0 result }
    {
        Reach {
            alloc,
            shared: None,
        }
    }

    /// The strands, by future and then by number, each once.
    pub fn strands(&self) -> Result<Vec<Strand>, NoMemory>
        ensures strands { IfOk result (λ all. all.items ≡ self.now) }
        ensures rising { IsRising self.now }
    {
        all_strands(self.alloc, self.blocks())
    }

    // The blocks.
    fn blocks(&self) -> &[Shared]
        ensures blocks { AreBlocks (values result.now) }
        ensures strands { flat (values result.now) ≡ self.now }
    {
        match &self.shared {
            Some(shared) => shared.as_slice(),
            None => &[],
        }
    }

    /// The same table, with the same memory. It takes constant time.
    pub fn share(&self) -> Result<Reach, NoMemory>
        ensures same { IfOk result (λ table. table ≡ self.now) }
        ensures after_spawn { IfOk result (λ table. AfterSpawn self.now table) }
        ensures after_create { IfOk result (λ table. AfterCreate self.now table) }
    {
        let shared = self.shared.clone()?;
        Ok(Reach {
            alloc: self.alloc,
            shared,
        })
    }

    /// The table of the first strand of a future that is created on strand `from`, which has this table.
    pub fn created(&self, from: Strand) -> Result<Reach, NoMemory>
        ensures strands { IfOk result (λ table. (w : Strand) → Among w table ↔ Among w (self.now ++ from ∷ [])) }
        ensures after_create { IfOk result (λ table. KidAfterCreate self.now from table) }
    {
        let blocks = with_one(self.alloc, self.blocks(), from)?;
        self.made(blocks)
    }

    /// The table of a strand of future `own` that goes on where strands with these two tables, and `last`, have ended:
    /// their strands, without those of future `own` and without those that precede another one of the same future. The
    /// lists have all these strands. The time is about the count of strands, times its logarithm.
    pub fn merged(
        &self,
        other: &Reach,
        own: u32,
        last: Option<Strand>,
        lists: &Still,
    ) -> Result<Reach, NoMemory>
        requires { AllKnown (length lists.now.english.order) (together self.now other.now last) }
        ensures strands { IfOk result (λ table. (w : Strand) → Among w table ↔ IsGreatest lists.now own (together self.now other.now last) w) }
        ensures after_get { IfOk result (λ table. AfterGet lists.now own self.now other.now last table) }
        ensures one_more { IfOk result (λ table. MergesOneMore lists.now own self.now other.now last table) }
    {
        let blocks = join(self.alloc, self.blocks(), other.blocks(), last, own, lists)?;
        self.made(blocks)
    }

    /// Whether u is v or a path leads from u to v, whose table this is, by a judge that knows u, v and the strands of the
    /// table. It asks the judge once where the futures agree, and else at most once for each strand of the table that is
    /// of u's future, of which a strand's table has one at most; it takes no memory.
    pub fn try_reaches<J: Judge>(&self, judge: &mut J, u: Strand, v: Strand) -> Result<bool, Moved>
        requires u_known { u.number < J.known judge.old }
        requires v_known { v.number < J.known judge.old }
        requires table_known { AllKnown (J.known judge.old) self.now }
        ensures tells { IfOk result (λ yes. TellsReach self.now u v (J.known judge.old) (J.english judge.old) (J.hebrew judge.old) yes) }
        ensures moved { IfErr result (λ moved. HasMovedLast moved (J.may_move judge.old) (J.loaded judge.old) (J.loaded judge.new)) }
        ensures asks { AsksAtMost self.now 1 (J.asked judge.old) (J.asked judge.new) }
        ensures judge { IsAsBefore J.Judge judge.old judge.new }
    {
        if u.future == v.future {
            return is_or_precedes(judge, u, v);
        }
        reaches_one(judge, u, strands_of_future(self.blocks(), u.future))
    }

    // A table of these blocks, with the same allocator.
    fn made(&self, blocks: Vec<Shared>) -> Result<Reach, NoMemory>
        requires { AreBlocks (values blocks.items) }
        ensures { IfOk result (λ table. table ≡ flat (values blocks.items)) }
    {
        if blocks.is_empty() {
            return Ok(Reach::empty(self.alloc));
        }
        let shared = ArcSlice::from_vec(blocks)?;
        Ok(Reach {
            alloc: self.alloc,
            shared: Some(shared),
        })
    }
}
