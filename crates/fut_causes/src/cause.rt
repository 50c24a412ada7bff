//! Causes of faults.

use fut_rules::kind::{Kind, Need};

/// Why a rule is broken.
#[derive(Clone, Copy, Debug)]
pub enum Cause {
    /// Something of this type is due, and something of another was found.
    Types { due: Need, found: Kind },
    /// So many arguments are due, and another number was found.
    Counts { due: usize, found: usize },
}
