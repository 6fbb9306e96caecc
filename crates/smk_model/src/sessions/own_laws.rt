//! Laws of a conversation's own lines. Each is an empty function whose contract is the law.

ghost use Rattle.smk_model.specs.OwnLineLaws.{AllAreSelected, NowIsPlain, OwnLinesAreRead, OwnLinesStay, WholePartIsPlain};

/// Each text has one own reading, and a text that begins with a dot is no line of a script.
#[tactic(auto, using(crate::proofs::OwnReadings::own_lines_are_read))]
pub fn own_lines_are_read()
    ensures { OwnLinesAreRead }
{}

/// An own line doesn't change the session, or changes it as the line by itself does, and is refused exactly if that line is.
#[tactic(auto, using(crate::proofs::OwnLines::own_lines_stay))]
pub fn own_lines_stay()
    ensures { OwnLinesStay }
{}

/// If no brush concerns its view on its table, a line over the rows that are selected now is that line by itself.
#[tactic(auto, using(crate::proofs::OwnLines::now_is_plain))]
pub fn now_is_plain()
    ensures { NowIsPlain }
{}

/// Without a brush on a table all its rows are selected.
#[tactic(auto, using(crate::proofs::OwnLines::all_are_selected))]
pub fn all_are_selected()
    ensures { AllAreSelected }
{}

/// A part that leaves out no row is the whole answer, and the whole answer is that to the line by itself.
#[tactic(auto, using(crate::proofs::OwnLines::whole_part_is_plain))]
pub fn whole_part_is_plain()
    ensures { WholePartIsPlain }
{}
