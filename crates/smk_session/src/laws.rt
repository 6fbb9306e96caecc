//! Laws of what a session keeps. Each is an empty function whose contract is the law.

ghost use Rattle.smk_session.specs.SessionLaws.{NothingKept};

/// With no brush in force, nothing is kept besides the first contents.
pub fn nothing_kept()
    ensures { NothingKept }
{}
