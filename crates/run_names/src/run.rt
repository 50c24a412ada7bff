//! What a name stands for.
use std::marker::Brand;

/// A run: the clock and the orders of its events, the code of its program, and its limits; the names of its three ledgers; into
/// how many parts the ledgers of the workers' hands are cut, and into how many that of the paces.
pub trait Run {
    ghost use Rattle.std.specs.Prelude.{ℕ};
    ghost use Rattle.atomic_table.specs.Seated.{TableId};
    ghost use Rattle.fut_base.specs.declared.record.Limits.{Limits};
    ghost use Rattle.event_clock.specs.Seated.{Ticking};
    ghost use Rattle.task_code.specs.Flat.{Compiled};

    ghost clock: { Ticking };

    ghost orders: { TableId };

    ghost code: { Compiled };

    ghost limits: { Limits };

    ghost given: { ℕ };

    ghost taken: { ℕ };

    ghost paces: { ℕ };

    ghost hands: { ℕ };

    ghost places: { ℕ };
}

impl Run for Brand {
    ghost use Rattle.run_names.specs.Names.{no_clock, no_table, no_code, no_limits};

    ghost clock = { no_clock };

    ghost orders = { no_table };

    ghost code = { no_code };

    ghost limits = { no_limits };

    ghost given = { 0 };

    ghost taken = { 0 };

    ghost paces = { 0 };

    ghost hands = { 0 };

    ghost places = { 0 };
}
