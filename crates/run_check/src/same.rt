//! Whether two lists of races are the same.
ghost use Rattle.std.specs.Prelude.{◌≡◌, ◌↔◌, IsTrue};

use fut_base::record::Race;

/// Whether two lists of races are equal.
pub fn same_races(made: &[Race], told: &[Race]) -> bool
    ensures { IsTrue result ↔ (made.now ≡ told.now) }
{
    made == told
}
