//! Laws over the grammar and its fault places.
ghost use Rattle.fut_syntax.specs.TextLaws.{OneProgram, NoFaultyProgram, PrintedReads, ParsesAgain};
ghost use Rattle.fut_syntax.specs.Laws.{Completions, StopIsFault, OneTree, OneFault, NoFault, EitherOne, LinesSpell, NoScrap, ReadsAgain, SecondOperator};

/// What the grammar's machine goes through is the beginning of a program.
pub fn completions()
    ensures { Completions }
{}

/// Where the grammar's machine stops is the fault.
pub fn stop_is_fault()
    ensures { StopIsFault }
{}

/// A list of tokens has at most one tree.
pub fn one_tree()
    ensures { OneTree }
{}

/// A list of tokens has one fault at most.
pub fn one_fault()
    ensures { OneFault }
{}

/// A list of tokens with a tree has no fault.
pub fn no_fault()
    ensures { NoFault }
{}

/// Tokens with an end token have a tree or a fault.
pub fn either_one()
    ensures { EitherOne }
{}

/// The lines of a program have its tokens.
pub fn lines_spell()
    ensures { LinesSpell }
{}

/// No program has a scrap.
pub fn no_scrap()
    ensures { NoScrap }
{}

/// What a tree spells is read as this tree.
pub fn reads_again()
    ensures { ReadsAgain }
{}

/// The second operator of an expression is a fault.
pub fn second_operator()
    ensures { SecondOperator }
{}

/// A text is one program at most.
pub fn one_program()
    ensures { OneProgram }
{}

/// A text with a fault place is no program.
pub fn no_faulty_program()
    ensures { NoFaultyProgram }
{}

/// The canonical text of a program is a text of this program, and has no comment.
pub fn printed_reads()
    ensures { PrintedReads }
{}

/// What reading the canonical text of a program gives is this program, unless memory runs out.
pub fn parses_again()
    ensures { ParsesAgain }
{}
