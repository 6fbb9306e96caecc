ghost use Rattle.smk_top.specs.{Completeness.{Completeness, TalkCompleteness}, EndingsTold.EndsAsTold, TalkExamples.TalksHold, TalkLaws.LinesAreOne};

/// If a run has a report and nothing outside fails, exactly the report is appended and the status is its own, unless memory runs out. So it is over files that tell what they hold, and for a demo over any.
#[tactic(auto, using(crate::proofs::Completes::completes))]
pub fn completeness()
    ensures { Completeness }
{}

/// If a conversation starts and nothing outside fails, every line is heard and answered and the status is that of its report, unless memory runs out before its first line.
#[tactic(auto, using(crate::proofs::Completes::talk_completes))]
pub fn talk_completeness()
    ensures { TalkCompleteness }
{}

/// The lines that a conversation hears in some bytes are those of a script with these bytes.
#[tactic(auto, using(crate::proofs::CutLines::lines_are_one))]
pub fn lines_are_one()
    ensures { LinesAreOne }
{}

/// A conversation over README's first example is one that `converse` may hold, event by event; if a line is heard before the one before it is answered, it isn't.
#[tactic(auto, using(crate::proofs::TalkExamples::talks))]
pub fn talks_hold()
    ensures { TalksHold }
{}

/// A run ends exactly as the endings say that have each cause written out: over files that tell what they hold, and over files that don't.
#[tactic(auto, using(crate::proofs::EndingsTold::as_told))]
pub fn ends_as_told()
    ensures { EndsAsTold }
{}
