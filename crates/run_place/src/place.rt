//! Places of tasks.
ghost use Rattle.std.specs.Prelude.{◌≡◌, []};
ghost use Rattle.event_clock.specs.Rule.{IsJoin};
ghost use Rattle.event_clock.specs.Views.{after_split, split_off};
ghost use Rattle.order_query.specs.Logs.{StartsWith};
ghost use Rattle.run_place.specs.Placed.{book_of, AreAlike, IsPlace};

use event_clock::clock::{Clock, Pass};
use order_query::{Orders, Reader};
use reach_table::Reach;
use run_names::Run;
use std::alloc::Global;
use std::marker::{Model, PhantomData};
use strand_tree::{Strand, root};

/// The strand on which a task stands, with its table; the pass that carries the task, and a reader of the orders.
#[derive(Drop)]
pub struct Place<J: Run> {
    pub at: Strand,
    pub reach: Reach,
    pub pass: Pass,
    pub reader: Reader,
    pub run: PhantomData<J>,
}

impl<J: Run> Model for Place<J> {
    ghost use Rattle.run_place.specs.Placed.{Placed, IsPlace};

    ghost Value = { Placed };

    ghost view = { λ p. record { at = p.at; table = p.reach; pass = p.pass; reader = p.reader } };

    ghost invariant = { λ p. IsPlace J.clock J.orders (record { at = p.at; table = p.reach; pass = p.pass; reader = p.reader }) };
}

impl<J: Run> Place<J> {
    /// A place of these parts.
    pub fn make(at: Strand, reach: Reach, pass: Pass, reader: Reader) -> Place<J>
        requires { IsPlace J.clock J.orders (record { at = at; table = reach; pass = pass; reader = reader }) }
        ensures { result ≡ record { at = at; table = reach; pass = pass; reader = reader } }
    {
        Place {
            at,
            reach,
            pass,
            reader,
            run: PhantomData,
        }
    }

    /// The place of the root task before any event. It takes no memory.
    pub fn root(alloc: Global, pass: Pass, reader: Reader) -> Place<J>
        requires home { (pass.clock ≡ J.clock.id) × (reader.home ≡ J.orders) }
        requires none { (book_of pass.view ≡ []) × (reader.log ≡ []) }
        ensures strand { (result.at.number ≡ 0) × (result.at.future ≡ 0) × (result.table ≡ []) }
        ensures knows { (result.pass ≡ pass) × (result.reader ≡ reader) }
    {
        Place {
            at: root(),
            reach: Reach::empty(alloc),
            pass,
            reader,
            run: PhantomData,
        }
    }

    /// What is known of a place by its type.
    pub fn is_placed(&self)
        ensures { IsPlace J.clock J.orders self.now }
    {
        let _ = &self.run;
    }

    /// A pass with all tasks of the place's own pass, and a reader, which know the same. It takes no memory.
    pub fn split(&mut self, clock: &Clock, orders: &Orders) -> (Pass, Reader)
        requires run { (clock.now ≡ J.clock) × (orders.now ≡ J.orders) }
        ensures strand { (self.new.at ≡ self.old.at) × (self.new.table ≡ self.old.table) }
        ensures old { (self.new.pass ≡ record { clock = J.clock.id; view = after_split self.old.pass.view }) × (self.new.reader ≡ self.old.reader) }
        ensures new { (result.0 ≡ record { clock = J.clock.id; view = split_off self.old.pass.view })
            × (result.1 ≡ record { log = self.old.reader.log; loaded = []; home = J.orders }) }
        ensures alike { AreAlike (book_of result.0.view) result.1.log }
    {
        let pass = clock.split(&mut self.pass);
        let reader = orders.split(&mut self.reader);
        (pass, reader)
    }

    /// The place knows what another pass and a reader know, which tell of one list of structural events. It takes no memory.
    pub fn learn(&mut self, clock: &Clock, orders: &Orders, pass: Pass, reader: Reader)
        requires run { (clock.now ≡ J.clock) × (orders.now ≡ J.orders) }
        requires home { (pass.clock ≡ J.clock.id) × (reader.home ≡ J.orders) }
        requires alike { AreAlike (book_of pass.view) reader.log }
        ensures strand { (self.new.at ≡ self.old.at) × (self.new.table ≡ self.old.table) }
        ensures pass { IsJoin self.old.pass.view pass.view self.new.pass.view }
        ensures reader { StartsWith self.new.reader.log self.old.reader.log × StartsWith self.new.reader.log reader.log }
        ensures loaded { self.new.reader.loaded ≡ self.old.reader.loaded }
    {
        clock.join(&mut self.pass, pass);
        orders.join(&mut self.reader, reader);
    }
}
