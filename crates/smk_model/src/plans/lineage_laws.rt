//! Laws of the annotated meaning and of one-step lineage. Each is an empty function whose contract is the law.

ghost use Rattle.smk_model.specs.LineageLaws.{AnswersArePlaces, BinIsFloor, CuiWidom, PlacesAscend, RowsAgree, SelectionLineage, StepByStep};

/// A row of a chain of selections over a scan comes from one row of the table: row number o from the o-th of those that meet every formula.
pub fn selection_lineage()
    ensures { SelectionLineage }
{}

/// The rows of the annotated meaning are those of the plain meaning, in order, for every plan.
pub fn rows_agree()
    ensures { RowsAgree }
{}

/// At every node of a plan the rows and rids that an output row comes from are those of the input rows that it comes from by one step.
pub fn step_by_step()
    ensures { StepByStep }
{}

/// `bin` of v and w, for a w of at least 1, is the greatest whole number that times w is at most v.
pub fn bin_is_floor()
    ensures { BinIsFloor }
{}

/// The places that an output row of a step comes from satisfy Cui and Widom's conditions, for every step: their rows give exactly that row, each of them alone gives something, and no other places that hold them do so.
pub fn cui_widom()
    ensures { CuiWidom }
{}

/// The answers to backward and forward queries are ascending, without repeats and in range.
pub fn answers_are_places()
    ensures { AnswersArePlaces }
{}

/// A list is one of places below n exactly if each of its numbers is less than every later one, and less than n.
#[tactic(auto, using(crate::proofs::QueryAnswers::places_ascend))]
pub fn places_ascend()
    ensures { PlacesAscend }
{}
