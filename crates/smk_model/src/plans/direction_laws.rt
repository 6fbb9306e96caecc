//! Laws of the two directions of lineage. Each is an empty function whose contract is the law.

ghost use Rattle.smk_model.specs.DirectionLaws.{Inverses, PairsForward};

/// The forward lists of a step are its backward lists inverted, and its backward lists are its forward lists inverted, on each side.
#[tactic(auto, using(crate::proofs::Directions::inverses))]
pub fn inverses()
    ensures { Inverses }
{}

/// Lists have as many members as the same lists inverted, so the forward lists of a plan have as many as its pairs.
#[tactic(auto, using(crate::proofs::Counts::pairs_forward))]
pub fn pairs_forward()
    ensures { PairsForward }
{}
