ghost use Rattle.smk_model.specs.ExpandedLaws.{ExpandedStands};

/// The book with each dependency replaced by its view and a backward declaration keeps the limits, has no dependency, and is typed as the book is.
#[tactic(auto, using(crate::proofs::Expanded::expanded_stands))]
pub fn expanded_stands()
    ensures { ExpandedStands }
{}
