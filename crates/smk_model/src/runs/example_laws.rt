//! Small examples worked by hand, which the definitions compute. Each is an empty function whose contract has the example's values.

ghost use Rattle.smk_model.specs.WorkedExamples.{PlanHolds, ReadmeHolds, StringsHold, TablesHold, WordsHold};

/// The rows of a grouping over a join of two tables, and the rids that they come from and go to.
#[tactic(auto, using(crate::proofs::WorkedExamples::plan_holds))]
pub fn plan_holds()
    ensures { PlanHolds }
{}

/// The first example of README: words and the bytes of three files have its report as their outcome.
#[tactic(auto, using(crate::proofs::WorkedExamples::readme))]
pub fn readme_holds()
    ensures { ReadmeHolds }
{}

/// What the words of a run and of a conversation ask for: a book, a demo, an unknown mode, a book to which nothing may be appended.
#[tactic(auto, using(crate::proofs::WorkedExamples::words))]
pub fn words_hold()
    ensures { WordsHold }
{}

/// The rows of a file with a byte order mark, quotes, defaults and a sign, and a record as it is written.
#[tactic(auto, using(crate::proofs::WorkedExamples::tables))]
pub fn tables_hold()
    ensures { TablesHold }
{}

/// The tokens of texts in quotes: closed, open, and open after a pair of quotes.
#[tactic(auto, using(crate::proofs::WorkedExamples::strings_hold))]
pub fn strings_hold()
    ensures { StringsHold }
{}
