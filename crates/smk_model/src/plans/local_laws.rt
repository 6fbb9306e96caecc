//! Laws of the lists of one step. Each is an empty function whose contract is the law.

ghost use Rattle.smk_model.specs.{LocalLaws.{AddsNoRows, Cut, LocalsAre}, Ways.LineageOfWays};

/// The lists of each step, in the form in which a loop makes them: one place for each row that passes, the places of each key, the pairs of a join's nested loop.
pub fn locals_are()
    ensures { LocalsAre }
{}

/// The lineage of each side of each step is that of the way in which its rows and those of the step belong together: each is its own, each output row comes from one input row, or each input row reaches one output row. Where each is its own, the two directions are one.
#[tactic(auto, using(crate::proofs::Ways::lineage_of_ways))]
pub fn lineage_of_ways()
    ensures { LineageOfWays }
{}

/// What a selection, a join and a grouping give for a list, they give for its consecutive parts, one after the other.
pub fn cut()
    ensures { Cut }
{}

/// A step with one input never adds rows.
pub fn adds_no_rows()
    ensures { AddsNoRows }
{}
