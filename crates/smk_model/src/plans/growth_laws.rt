//! Laws of tables that grow. Each is an empty function whose contract is the law.

ghost use Rattle.smk_model.specs.GrowthLaws.{ChainGrows, GroupGrows, GroupsRegroup, GrowingIsThin, GrowingNeverFull, UnscannedStays};

/// A grouping of rows in parts is the regrouping of the groupings of the parts.
#[tactic(auto, using(crate::proofs::Regroups::groups_regroup))]
pub fn groups_regroup()
    ensures { GroupsRegroup }
{}

/// What a chain of selections and projections over a scan gives for a grown table is what it gives for the old rows followed by what it gives for the new ones.
#[tactic(auto, using(crate::proofs::Grows::chain_grows))]
pub fn chain_grows()
    ensures { ChainGrows }
{}

/// What a grouping over such a chain gives for a grown table is what the regrouping gives for the groups of the old rows followed by those of the new ones.
#[tactic(auto, using(crate::proofs::Grows::group_grows))]
pub fn group_grows()
    ensures { GroupGrows }
{}

/// A growing chain has no more rows and no more pairs than its table has rows, and each of these reaches at most one row.
#[tactic(auto, using(crate::proofs::Thin::growing_is_thin))]
pub fn growing_is_thin()
    ensures { GrowingIsThin }
{}

/// No node of a growing chain has too many rows or pairs if its table hasn't too many rows.
#[tactic(auto, using(crate::proofs::NeverFull::growing_never_full))]
pub fn growing_never_full()
    ensures { GrowingNeverFull }
{}

/// The rows, the lists and the first fault of a plan are the same over tables that are the same at its leaves.
#[tactic(auto, using(crate::proofs::Unscanned::unscanned_stays))]
pub fn unscanned_stays()
    ensures { UnscannedStays }
{}
