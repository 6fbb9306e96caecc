ghost use Rattle.smk_model.specs.TokenLaws.{StringsAreLongest};

/// A text in quotes is the longest at its place, and there is none exactly if no length makes one.
#[tactic(auto, using(crate::proofs::Strings::strings_are_longest))]
pub fn strings_are_longest()
    ensures { StringsAreLongest }
{}
