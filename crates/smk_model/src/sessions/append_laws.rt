//! Laws of appended rows. Each is an empty function whose contract is the law.

ghost use Rattle.smk_model.specs.AppendLaws.{AppendsFit, RefusedAppendsStay, AppendsBeginAnew};

/// Every answer to an `append` line names only views and tables of the catalog, so its text can be written.
#[tactic(auto, using(crate::proofs::Appends::appends_fit))]
pub fn appends_fit()
    ensures { AppendsFit }
{}

/// A refused `append` line changes nothing.
#[tactic(auto, using(crate::proofs::Appends::refused_appends_stay))]
pub fn refused_appends_stay()
    ensures { RefusedAppendsStay }
{}

/// After appended rows a session is one that begins with the longer table.
#[tactic(auto, using(crate::proofs::Appends::appends_begin_anew))]
pub fn appends_begin_anew()
    ensures { AppendsBeginAnew }
{}
