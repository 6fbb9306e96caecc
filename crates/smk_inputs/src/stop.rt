ghost use Rattle.std.specs.Prelude.{◌≡◌};
ghost use Rattle.smk_inputs.specs.declared.stop.Stop.TheVariants.{Exhausted as exhausted};

use smk_base::Fault;
use std::alloc::{AllocError, AllocFailed};

/// Why a run stops before its report is whole.
#[derive(Drop)]
pub enum Stop {
    /// A fault, before anything was written.
    At(Fault),
    /// `out` failed.
    Unwritten,
    /// Memory ran out.
    Exhausted,
}

impl From<AllocError> for Stop {
    ghost from_gives = { λ _ stop. stop ≡ exhausted };

    fn from(_: AllocError) -> Stop {
        Stop::Exhausted
    }
}

impl<T: Drop> From<AllocFailed<T>> for Stop {
    ghost from_gives = { λ _ stop. stop ≡ exhausted };

    fn from(_: AllocFailed<T>) -> Stop {
        Stop::Exhausted
    }
}
