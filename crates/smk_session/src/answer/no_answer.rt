ghost use Rattle.std.specs.Prelude.{◌≡◌};
ghost use Rattle.smk_session.specs.declared.answer.no_answer.Turned.TheVariants as turns;

use smk_base::Refusal;
use std::alloc::AllocError;

/// Why a line has no answer: it is refused, or memory ran out.
#[derive(Drop)]
pub enum Turned {
    /// The line is refused.
    Refused(Refusal),
    /// Memory ran out.
    Exhausted,
}

impl From<AllocError> for Turned {
    ghost from_gives = { λ _ turned. turned ≡ turns.Exhausted };

    fn from(_error: AllocError) -> Turned {
        Turned::Exhausted
    }
}
