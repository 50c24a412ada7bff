//! A law of words.
ghost use Rattle.command_words.specs.Laws.{OneCommand};

/// The same words ask for one command at most.
pub fn one_command()
    ensures { OneCommand }
{}
