ghost use Rattle.smk_model.specs.OutcomeLaws.{FaultlessTextsSpell, OneInputs, OneOutcome, OneReading, SomeOutcome, SomeReading};

/// No bytes of a script have two lists of readings.
#[tactic(auto, using(crate::proofs::OneOutcome::one_reading))]
pub fn one_reading()
    ensures { OneReading }
{}

/// No words and files have two readings of the inputs.
#[tactic(auto, using(crate::proofs::OneOutcome::one_inputs))]
pub fn one_inputs()
    ensures { OneInputs }
{}

/// No words and files have two outcomes.
#[tactic(auto, using(crate::proofs::OneOutcome::one_outcome))]
pub fn one_outcome()
    ensures { OneOutcome }
{}

/// A text without a fault spells a book.
#[tactic(auto, using(crate::proofs::SomeOutcome::faultless_texts_spell))]
pub fn faultless_texts_spell()
    ensures { FaultlessTextsSpell }
{}

/// The bytes of a script have a list of readings.
#[tactic(auto, using(crate::proofs::SomeOutcome::some_reading))]
pub fn some_reading()
    ensures { SomeReading }
{}

/// Words and files have an outcome.
#[tactic(auto, using(crate::proofs::SomeOutcome::some_outcome))]
pub fn some_outcome()
    ensures { SomeOutcome }
{}
