//! Laws of steps over a backward answer. Each is an empty function whose contract is the law.

ghost use Rattle.smk_model.specs.AskLaws.{AskedBacksFit, AsksFit, ChainsAddNoRows, ChainsAreSmall};

/// No step of a chain adds rows: none of its nodes has more than its leaf.
pub fn chains_add_no_rows()
    ensures { ChainsAddNoRows }
{}

/// A chain over a leaf that isn't too long has no node that is.
pub fn chains_are_small()
    ensures { ChainsAreSmall }
{}

/// Over a checked book the `back` line within an `ask` line is answered by rows of its table or by a refusal.
pub fn asked_backs_fit()
    ensures { AskedBacksFit }
{}

/// Over a checked book every answer to an `ask` line fits its line: its text can be written.
pub fn asks_fit()
    ensures { AsksFit }
{}
