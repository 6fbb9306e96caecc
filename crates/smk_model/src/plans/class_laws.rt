//! Laws of keys in classes, and of rows that are gathered in bulk. Each is an empty function whose contract is the law.

ghost use Rattle.smk_model.specs.ClassLaws.{Bulk, ClassesAre};

/// The class of a key is the place of its key among the first occurrences, and a class's first place is where its key first comes.
#[tactic(auto, using(crate::proofs::Classes::classes_are))]
pub fn classes_are()
    ensures { ClassesAre }
{}

/// A selection is the rows at the places that meet its formula; a join is the rows at the left places of its pairs beside those at the right places; distinct rows and keys are those at the first places of their classes.
#[tactic(auto, using(crate::proofs::Bulk::bulk))]
pub fn bulk()
    ensures { Bulk }
{}
