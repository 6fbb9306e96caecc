//! Laws of functional dependencies. Each is an empty function whose contract is the law.

ghost use Rattle.smk_model.specs.{DependencyLaws.DependenciesShown, ProfileLaws.{DependenciesAnswered, ProfilesFit}};

/// The view of a dependency has one row for each key that violates it, in order, which begins with that key and comes from the rows with that key.
pub fn fd_law()
    ensures { DependenciesShown }
{}

/// The marks of the view of a dependency are its violations: the `back` line of a mark is answered by the rows of its violation, and leaves the state as it is.
#[tactic(auto, using(crate::proofs::Profiles::dependencies_answered))]
pub fn dependencies_answered()
    ensures { DependenciesAnswered }
{}

/// Every answer to an `fd` line names a table of the catalog, so its text can be written.
#[tactic(auto, using(crate::proofs::ProfilesFit::profiles_fit))]
pub fn profiles_fit()
    ensures { ProfilesFit }
{}
