//! The parts by name.
ghost use Rattle.std.specs.Prelude.{◌≡◌, MatchOption};
ghost use Rattle.bench_parts.specs.Names.{name_of};

/// A part that can be measured.
#[derive(Clone, Copy, Debug, PartialEq, Eq)]
pub enum Part {
    /// A tree of jobs that do nothing, through a `VecDeque`, without a pool.
    Plain,
    /// The same tree on a pool.
    Pool,
    /// A tree of jobs that work for about a microsecond each, on a pool.
    Work,
    /// One job that works for a long time, about a microsecond for each of the count, on a pool whose other workers have none.
    Long,
    /// Questions how two items stand, to two order-maintenance lists of one thread.
    Still,
    /// The same to a reader of labels, while nobody writes.
    Live,
    /// As many questions as readers get answered while a writer makes so many inserts at one place.
    Readers,
    /// The items that are relabelled in so many inserts at one place.
    Relabelled,
    /// Additions to one word, so many on each thread.
    Added,
    /// Draws from one clock, so many on each thread by a holder of its own.
    Drawn,
    /// The same, and at each draw the holder makes a pass and takes it back.
    Noted,
    /// The same, and each pass is split and joined meanwhile.
    Split,
}

/// The part of this name.
pub fn part_of(name: &str) -> Option<Part>
    ensures { MatchOption result ((p : Part) → name.now ≡ name_of p → ⊥) (λ p. name.now ≡ name_of p) }
{
    match name {
        "plain" => Some(Part::Plain),
        "pool" => Some(Part::Pool),
        "work" => Some(Part::Work),
        "long" => Some(Part::Long),
        "still" => Some(Part::Still),
        "live" => Some(Part::Live),
        "readers" => Some(Part::Readers),
        "relabelled" => Some(Part::Relabelled),
        "added" => Some(Part::Added),
        "drawn" => Some(Part::Drawn),
        "noted" => Some(Part::Noted),
        "split" => Some(Part::Split),
        _ => None,
    }
}
