ghost use Rattle.smk_marks.specs.{KeptLaws.KeptMarks, MarkLaws.{ChainPicks, CountsAlone, ExampleMarks, GroupMarks, NeverFull}};

/// A chain of selections and projections over a scan is one selection, and one image of each row that is left.
#[tactic(auto, using(crate::proofs::Chains::chain_picks))]
pub fn chain_picks()
    ensures { ChainPicks }
{}

/// For a grouping over such a chain, the forward lists of the first content say which rows of any selection pass and which of them have equal keys.
#[tactic(auto, using(crate::proofs::ByMarks::group_marks))]
pub fn group_marks()
    ensures { GroupMarks }
{}

/// Counts over the rows of marks are the same for any rows, as many as marks.
#[tactic(auto, using(crate::proofs::Counted::counts_alone))]
pub fn counts_alone()
    ensures { CountsAlone }
{}

/// A grouping over a chain isn't refused if its table has at most 1,048,576 rows.
#[tactic(auto, using(crate::proofs::Small::never_full))]
pub fn never_full()
    ensures { NeverFull }
{}

/// The groups that are made from what is kept of a view, and from what some rids reach there, are what the view's plan gives for the rows at these rids.
#[tactic(auto, using(crate::proofs::Kept::kept_marks))]
pub fn kept_marks()
    ensures { KeptMarks }
{}

/// Number and sum by key, of some rows of a table of five.
pub fn example_marks()
    ensures { ExampleMarks }
{}
