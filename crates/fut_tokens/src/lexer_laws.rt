//! Laws of tokens.
ghost use Rattle.fut_tokens.specs.LexLaws.{OneCut, EveryText, OneTokenList, SpacedReads, RespacedReads, LinesRead};

/// A text is cut in one way.
pub fn one_cut()
    ensures { OneCut }
{}

/// Every text has tokens.
pub fn every_text()
    ensures { EveryText }
{}

/// A text has one list of tokens, at one list of places.
pub fn one_token_list()
    ensures { OneTokenList }
{}

/// Readable tokens that are written with blanks behind them are read as these tokens.
pub fn spaced_reads()
    ensures { SpacedReads }
{}

/// The tokens of a text, written again with blanks behind them, are read as these tokens.
pub fn respaced_reads()
    ensures { RespacedReads }
{}

/// The tokens of a text, written again in lines, are read as these tokens.
pub fn lines_read()
    ensures { LinesRead }
{}
