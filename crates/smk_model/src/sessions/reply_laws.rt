//! Laws of what a session answers. Each is an empty function whose contract is the law.

ghost use Rattle.smk_model.specs.ReplyLaws.{FirstContents, MarksStay, RefusedStay, RepliesFit};

/// Where no brush is in force, the content of a view is its first content.
pub fn first_contents()
    ensures { FirstContents }
{}

/// A refused line changes nothing.
pub fn refused_stay()
    ensures { RefusedStay }
{}

/// Backward and forward answers are the same under all brushes.
pub fn marks_stay()
    ensures { MarksStay }
{}

/// Over a checked book every reply fits its line: its text can be written.
pub fn replies_fit()
    ensures { RepliesFit }
{}
