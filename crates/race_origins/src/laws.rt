//! Laws of the definitions.
ghost use Rattle.race_origins.specs.Laws.{PartingParts, PartingStands};

/// The parting entry of two strands that no path joins is a spawn, a create or the end of a task.
pub fn parting_parts()
    ensures { PartingParts }
{}

/// Two strands on which entries stand have a parting entry.
pub fn parting_stands()
    ensures { PartingStands }
{}
