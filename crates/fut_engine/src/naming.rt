//! The name of a run.
use std::marker::Brand;

/// A run: the code of its program, and its limits. What comes out of a lock is known by its type alone, so the type of the
/// value behind the lock has a name of its run.
pub trait Naming {
    ghost use Rattle.fut_base.specs.declared.record.Limits.{Limits};
    ghost use Rattle.task_code.specs.Flat.{Compiled};

    ghost code: { Compiled };

    ghost limits: { Limits };
}

impl Naming for Brand {
    ghost use Rattle.fut_engine.specs.Names.{no_code, no_limits};

    ghost code = { no_code };

    ghost limits = { no_limits };
}
